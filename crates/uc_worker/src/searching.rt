//! The rounds of a search by several workers.

ghost use Rattle.std.specs.Prelude.{◌≡◌, ◌≢◌, ◌+◌, ◌^◌, ◌<◌, ◌≤◌, [], Some, None, length, sum, sum_by, IfOk};
ghost use Rattle.uc_book.specs.Openings.{opening_of};
ghost use Rattle.uc_worker.specs.Commits.{commits_of, shares_of, AreOfFirst};
ghost use Rattle.uc_worker.specs.Ends.{HasEnded};
ghost use Rattle.uc_worker.specs.Hands.{HandView, hands_of};

use crate::counting::shares;
use crate::held::{Hand, Held};
use crate::naming::NamesOrder;
use crate::working::work;
use std::alloc::{AllocError, Global};
use std::marker::Brand;
use std::sync::ledger::{Blank, Ledger, Share};
use std::sync::{Condvar, Mutex, Wait};
use std::thread;
use std::thread::Threads;
use uc_book::{Book, MAX_BUDGET, MAX_LIMIT};
use uc_edge::Gate;
use uc_final::FinalPasses;
use uc_machine::Verdict;
use uc_order::Order;
use uc_problem::Encoded;
use uc_search::Ended;
use uc_shelf::Shelf;

/// The most workers that have a thread.
const MOST_WORKERS: usize = 64;

/// Runs the workers of these hands, each in a thread of its own, until all have ended.
fn together<
    'a,
    O: Order + Sync,
    K: NamesOrder<O> + Send + Sync,
    C: Ledger + Send + Sync,
    G: Gate + Sync,
    R: Threads + Wait + Sync,
>(
    rt: &R,
    alloc: Global,
    held: Held<'a, O, K, C>,
    hands: &mut [Hand<K>],
    shelf: &Shelf,
    problem: &Encoded,
    order: &O,
    gate: &G,
) -> Held<'a, O, K, C>
    requires problem { problem.now ≡ K.opening.problem }
    requires shelf { shelf.now ≡ K.opening.shelf }
    requires order { Some order.now ≡ K.order }
    ensures hands { length hands.new ≡ length hands.old }
{
    if hands.is_empty() {
        return held;
    }
    let shared = Mutex::new(held);
    let ready = Condvar::new();
    let threads = hands.len();
    thread::for_each_mut(
        rt,
        hands,
        threads,
        &|_, hand| {
            let _ = work(
                rt, alloc, &shared, &ready, shelf, problem, order, hand, gate,
            );
        },
    );
    shared.into_inner()
}

/// Worker 0 goes on with what waits, and makes the final pass, by the threads of so many workers, where the book is drained. None
/// where no verdict stands then.
fn end_work<'a, O: Order + Sync, K: NamesOrder<O>, C: Ledger, R: Threads + Wait + Sync>(
    rt: &R,
    alloc: Global,
    held: &mut Held<'a, O, K, C>,
    hand: &mut Hand<K>,
    shelf: &Shelf,
    problem: &Encoded,
    order: &O,
    workers: u32,
) -> Result<Option<Verdict>, AllocError>
    requires problem { problem.now ≡ K.opening.problem }
    requires shelf { shelf.now ≡ K.opening.shelf }
    requires order { Some order.now ≡ K.order }
    requires none_out { held.old.state.out ≡ [] }
    ensures none_out { held.new.state.out ≡ [] }
    ensures verdict { IfOk result (λ verdict. held.new.state.verdict ≡ verdict) }
    ensures counted { IfOk result (λ verdict. verdict ≡ None → held.old.state.counted < held.new.state.counted) }
{
    match held.alone(rt, alloc, shelf, problem, order, hand) {
        Ended::Drained => {
            held.end_round(rt, alloc, shelf, order, workers, &mut FinalPasses::none())
        }
        Ended::Closed => Ok(held.book().verdict().copied()),
        Ended::NoMemory => Err(AllocError),
    }
}

/// One round: the workers of all hands but the first work at once, each task that is still out then waits again, and the first
/// goes on alone. The others' threads make the final pass. A round after which the search goes on is counted.
fn round<
    'a,
    O: Order + Sync,
    K: NamesOrder<O> + Send + Sync,
    C: Ledger + Send + Sync,
    G: Gate + Sync,
    R: Threads + Wait + Sync,
>(
    rt: &R,
    alloc: Global,
    held: Held<'a, O, K, C>,
    hands: &mut [Hand<K>],
    shelf: &Shelf,
    problem: &Encoded,
    order: &O,
    gate: &G,
    made: &mut Share<C>,
) -> (Held<'a, O, K, C>, Result<Option<Verdict>, AllocError>)
    requires some { 0 < length hands.old }
    requires whole { (made.old.parts ≡ C.parts) × (0 < made.old.parts) }
    requires problem { problem.now ≡ K.opening.problem }
    requires shelf { shelf.now ≡ K.opening.shelf }
    requires order { Some order.now ≡ K.order }
    ensures none_out { result.0.state.out ≡ [] }
    ensures verdict { IfOk result.1 (λ verdict. result.0.state.verdict ≡ verdict) }
    ensures hands { length hands.new ≡ length hands.old }
    ensures made { (made.new.parts ≡ made.old.parts) × IfOk result.1 (λ verdict. verdict ≡ None → made.new.amount ≡ made.old.amount + 1) }
{
    match hands.split_first_mut() {
        None => unreachable!(),
        Some((first, rest)) => {
            let mut held = together(rt, alloc, held, rest, shelf, problem, order, gate);
            held.recall();
            held.has_made(made);
            let workers = rest.len().min(MOST_WORKERS) as u32;
            let verdict = end_work(rt, alloc, &mut held, first, shelf, problem, order, workers);
            if let Ok(None) = verdict {
                held.makes_round(made);
            }
            (held, verdict)
        }
    }
}

/// Makes rounds until the book has a verdict, and there are no more of them than units that the budget counts. A run of the machine
/// leads to the verdict, no task is out, the verdict has its cause, and the hands' commits are those of its history. For want of memory
/// the book is dropped.
pub fn rounds<
    'a,
    O: Order + Sync,
    K: NamesOrder<O> + Send + Sync,
    C: Ledger + Send + Sync,
    G: Gate + Sync,
    R: Threads + Wait + Sync,
>(
    rt: &R,
    alloc: Global,
    held: Held<'a, O, K, C>,
    hands: &mut [Hand<K>],
    shelf: &Shelf,
    problem: &Encoded,
    order: &O,
    gate: &G,
    made: Share<C>,
) -> Result<Held<'a, O, K, C>, AllocError>
    requires made { (made.parts ≡ C.parts) × (made.amount ≡ 0) × (0 < made.parts) }
    requires all { length hands.old ≡ K.parts }
    requires some { 0 < length hands.old }
    requires problem { problem.now ≡ K.opening.problem }
    requires shelf { shelf.now ≡ K.opening.shelf }
    requires order { Some order.now ≡ K.order }
    ensures ended { IfOk result (λ h. HasEnded (O.meaning h.order) (opening_of h.opening) h.state) }
    ensures sum { IfOk result (λ h. sum_by (λ (x : HandView). x.commits) hands.new ≡ commits_of h.state.history) }
    ensures first { IfOk result (λ h. AreOfFirst K.parts h.state.history) }
    ensures opening { IfOk result (λ h. h.opening ≡ K.opening) }
    ensures order { IfOk result (λ h. Some h.order ≡ K.order) }
{
    let mut held = held;
    let mut made = made;
    for number in 0..u64::MAX {
        let (next, answer) = round(
            rt, alloc, held, hands, shelf, problem, order, gate, &mut made,
        );
        held = next;
        match answer {
            Ok(None) => {}
            Ok(Some(_)) => {
                held.tally(hands);
                has_ended(&held);
                return Ok(held);
            }
            Err(e) => return Err(e),
        }
    }
    held.has_made(&mut made);
    has_few_units(held.book());
    unreachable!()
}

/// The units are counted by a number of 32 bits.
fn has_few_units<O: Order>(book: &Book<O>)
    ensures { book.now.state.counted < 2 ^ 32 }
{
    let _counted = book.counted();
}

/// A run leads to the book's state, and a verdict that stands there has its cause.
fn has_ended<'a, O: Order, K: NamesOrder<O>, C: Ledger>(held: &Held<'a, O, K, C>)
    requires verdict { held.now.state.verdict ≢ None }
    requires none_out { held.now.state.out ≡ [] }
    ensures ended { HasEnded (O.meaning held.now.order) (opening_of held.now.opening) held.now.state }
    ensures first { AreOfFirst K.parts held.now.state.history }
    ensures opening { held.now.opening ≡ K.opening }
    ensures order { Some held.now.order ≡ K.order }
{
    let _ = held.history();
}

/// Makes the rounds over a book and its hands, which have one name.
fn search_as<
    'a,
    O: Order + Sync,
    K: NamesOrder<O> + Send + Sync,
    C: Ledger + Send + Sync,
    G: Gate + Sync,
    R: Threads + Wait + Sync,
>(
    rt: &R,
    alloc: Global,
    blank: Blank,
    count: Blank,
    book: Book<'a, O>,
    workers: u32,
    shelf: &Shelf,
    problem: &Encoded,
    order: &O,
    gate: &G,
) -> Result<(Book<'a, O>, Vec<u64>), AllocError>
    requires name { blank.name ≡ K.name }
    requires parts { blank.parts ≡ K.parts }
    requires count { (count.name ≡ C.name) × (count.parts ≡ C.parts) × (0 < count.parts) }
    requires workers { (workers ≡ K.parts) × (0 < workers) × (workers ≤ 65) }
    requires opening { book.opening ≡ K.opening }
    requires named { Some book.order ≡ K.order }
    requires none { book.enrolled ≡ [] }
    requires history { commits_of book.state.history ≡ 0 }
    requires problem { problem.now ≡ book.opening.problem }
    requires shelf { shelf.now ≡ book.opening.shelf }
    requires order { order.now ≡ book.order }
    ensures ended { IfOk result (λ r. HasEnded (O.meaning r.0.order) (opening_of r.0.opening) r.0.state) }
    ensures shares { IfOk result (λ r. r.1.items ≡ shares_of workers r.0.state.history) }
    ensures sum { IfOk result (λ r. sum r.1.items ≡ commits_of r.0.state.history) }
    ensures opening { IfOk result (λ r. r.0.opening ≡ K.opening) }
    ensures order { IfOk result (λ r. Some r.0.order ≡ K.order) }
{
    let (held, made, mut hands) = Held::<O, K, C>::new(alloc, blank, count, book, workers)?;
    let held = rounds(
        rt,
        alloc,
        held,
        hands.as_mut_slice(),
        shelf,
        problem,
        order,
        gate,
        made,
    )?;
    let shares = shares(alloc, held.history(), workers)?;
    Ok((held.into_book(), shares))
}

/// Starts a book and makes rounds by so many workers until it has a verdict. Returns the book and the number of commits of each
/// hand, worker 0's first.
pub(crate) fn search_together<'a, O: Order + Sync, G: Gate + Sync, R: Threads + Wait + Sync>(
    rt: &R,
    alloc: Global,
    problem: &'a Encoded,
    order: &'a O,
    shelf: &'a Shelf,
    budget: u32,
    limit: u32,
    workers: u32,
    gate: &G,
) -> Result<(Book<'a, O>, Vec<u64>), AllocError>
    requires workers { (0 < workers) × (workers ≤ 64) }
    requires budget { budget ≤ MAX_BUDGET }
    requires limit { limit ≤ MAX_LIMIT }
    ensures ended { IfOk result (λ r. HasEnded (O.meaning order.entry.now) (opening_of r.0.opening) r.0.state) }
    ensures shares { IfOk result (λ r. r.1.items ≡ shares_of (hands_of workers) r.0.state.history) }
    ensures sum { IfOk result (λ r. sum r.1.items ≡ commits_of r.0.state.history) }
    ensures opening { IfOk result (λ r. r.0.opening ≡ record { problem = problem.entry.now; shelf = shelf.entry.now; budget = budget; limit = limit }) }
    ensures order { IfOk result (λ r. r.0.order ≡ order.entry.now) }
{
    let book = Book::start(alloc, problem, order, shelf, budget, limit)?;
    let hands = hands_for(workers);
    search_as::<O, Brand, Brand, G, R>(
        rt,
        alloc,
        Blank::new(hands as u64),
        Blank::new(1),
        book,
        hands,
        shelf,
        problem,
        order,
        gate,
    )
}

/// Returns how many hands so many workers have: one each, and worker 0's where they are several.
fn hands_for(workers: u32) -> u32
    requires { (0 < workers) × (workers ≤ 64) }
    ensures value { result ≡ hands_of workers }
    ensures few { (0 < result) × (result ≤ 65) }
{
    if workers == 1 { 1 } else { workers + 1 }
}
