//! Whole searches, by one worker or by several.

ghost use Rattle.std.specs.Prelude.{◌≡◌, ◌<◌, ◌≤◌, Some, sum, IfOk};
ghost use Rattle.uc_book.specs.Openings.{opening_of};
ghost use Rattle.uc_worker.specs.Commits.{commits_of, shares_of};
ghost use Rattle.uc_worker.specs.Ends.{HasEnded, IsSearchedBy};
ghost use Rattle.uc_worker.specs.Hands.{hands_of};

use crate::searching::search_together;
use std::alloc::{AllocError, Global};
use std::sync::Wait;
use std::thread::Threads;
use uc_book::{Book, MAX_BUDGET, MAX_LIMIT};
use uc_edge::Gate;
use uc_machine::Verdict;
use uc_order::Order;
use uc_problem::Encoded;
use uc_search::search_alone;
use uc_shelf::Shelf;

/// The book of a search that has ended, its verdict, and the number of commits of each hand, worker 0's first.
#[derive(Drop)]
pub struct Searched<'a, O: Order> {
    pub book: Book<'a, O>,
    pub verdict: Verdict,
    pub shares: Vec<u64>,
}

/// Runs a search by so many workers, from the start of the book to its verdict. The contract holds for every interleaving.
///
/// A single worker is worker 0: it works in the calling thread and passes no gate. Several workers have a thread each and the
/// numbers from 1 on, and pass the gate between a draw and its computation, with no lock held; worker 0 ends each round in the
/// calling thread.
pub fn search<'a, O: Order + Sync, G: Gate + Sync, R: Threads + Wait + Sync>(
    rt: &R,
    alloc: Global,
    problem: &'a Encoded,
    order: &'a O,
    shelf: &'a Shelf,
    budget: u32,
    limit: u32,
    workers: u32,
    gate: &G,
) -> Result<Searched<'a, O>, AllocError>
    requires workers { (0 < workers) × (workers ≤ 64) }
    requires budget { budget ≤ MAX_BUDGET }
    requires limit { limit ≤ MAX_LIMIT }
    ensures searched { IfOk result (λ r. IsSearchedBy (O.meaning order.entry.now) (opening_of r.book.opening) workers r.verdict r.book.state) }
    ensures shares { IfOk result (λ r. r.shares.items ≡ shares_of (hands_of workers) r.book.state.history) }
    ensures opening { IfOk result (λ r. r.book.opening ≡ record { problem = problem.entry.now; shelf = shelf.entry.now; budget = budget; limit = limit }) }
    ensures order { IfOk result (λ r. r.book.order ≡ order.entry.now) }
{
    if workers == 1 {
        return search_by_one(rt, alloc, problem, order, shelf, budget, limit);
    }
    let (book, shares) = search_together(
        rt, alloc, problem, order, shelf, budget, limit, workers, gate,
    )?;
    Ok(with_verdict(book, shares))
}

/// The search by worker 0 alone.
fn search_by_one<'a, O: Order + Sync, R: Threads + Wait + Sync>(
    rt: &R,
    alloc: Global,
    problem: &'a Encoded,
    order: &'a O,
    shelf: &'a Shelf,
    budget: u32,
    limit: u32,
) -> Result<Searched<'a, O>, AllocError>
    requires budget { budget ≤ MAX_BUDGET }
    requires limit { limit ≤ MAX_LIMIT }
    ensures searched { IfOk result (λ r. IsSearchedBy (O.meaning order.entry.now) (opening_of r.book.opening) 1 r.verdict r.book.state) }
    ensures shares { IfOk result (λ r. r.shares.items ≡ shares_of 1 r.book.state.history) }
    ensures opening { IfOk result (λ r. r.book.opening ≡ record { problem = problem.entry.now; shelf = shelf.entry.now; budget = budget; limit = limit }) }
    ensures order { IfOk result (λ r. r.book.order ≡ order.entry.now) }
{
    let mut book = Book::start(alloc, problem, order, shelf, budget, limit)?;
    let mut pass = book.enroll(alloc, 0)?;
    let verdict = search_alone(rt, alloc, &mut book, shelf, problem, order, &mut pass)?;
    let mut shares = Vec::new(alloc);
    shares.push(pass.commits())?;
    Ok(Searched {
        book,
        verdict,
        shares,
    })
}

/// The book with the verdict that stands in it, and the shares.
fn with_verdict<'a, O: Order>(book: Book<'a, O>, shares: Vec<u64>) -> Searched<'a, O>
    requires ended { HasEnded (O.meaning book.order) (opening_of book.opening) book.state }
    ensures book { result.book ≡ book.entry }
    ensures verdict { book.entry.state.verdict ≡ Some result.verdict }
    ensures shares { result.shares ≡ shares }
{
    match book.verdict().copied() {
        Some(verdict) => Searched {
            book,
            verdict,
            shares,
        },
        None => unreachable!(),
    }
}
