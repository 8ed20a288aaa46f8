//! Final passes by several threads: that they form overlaps at once, and test pairs at once.

ghost use Rattle.std.specs.Prelude.{◌≡◌};
ghost use Rattle.uc_shelf.specs.Fronts.{IsOf};

use crate::alphabet::{Sides, equations, order};
use crate::books::settings::{Setting, begin, set_up};
use crate::fronts::front_of;
use crate::passes::pass;
use crate::watched::Watched;
use crate::workers::{AXIOMS, TURNS};
use std::alloc::{AllocError, Global};
use std::sync::Wait;
use std::test::Fail;
use std::thread::Threads;
use uc_book::Book;
use uc_final::{FinalPasses, final_pass};
use uc_machine::Outcome;
use uc_order::Order;
use uc_search::{Ended, work_alone};
use uc_shelf::{Front, Shelf};

// f(f(X)) = X and g(g(X)) = X
const INVOLUTIONS: &[Sides] = &[(b"ff", b"X"), (b"gg", b"X")];

// m(X,Y) = m(Y,X)
const COMMUTATIVE: &[Sides] = &[(b"y", b"z")];

// Instances of it, of at least five nodes a side.
const INSTANCES: &[Sides] = &[
    (b"ap", b"aq"),
    (b"bp", b"bq"),
    (b"afp", b"afq"),
    (b"bfp", b"bfq"),
];

// The overlaps of two facts are formed by two threads, and nothing is compared before.
#[test]
fn two_threads_form_overlaps(rt: HostRuntime) -> Result<(), Fail> {
    let order = Watched::new(order(rt.alloc())?);
    assert!(rt; converge(&rt, rt.alloc(), INVOLUTIONS, &[], &order)?);
    assert!(rt; order.have_met());
    Ok(())
}

// Whether the final pass by two threads finds that the facts converge. Nothing else compares.
fn converge<R: Threads + Wait + Sync>(
    rt: &R,
    alloc: Global,
    facts: &[Sides],
    axioms: &[Sides],
    order: &Watched,
) -> Result<bool, Fail> {
    let shelf = Shelf::new(alloc)?;
    let front = front_of(rt, alloc, &shelf, facts)?;
    converge_over(rt, alloc, &shelf, &front, axioms, order)
}

fn converge_over<R: Threads + Sync>(
    rt: &R,
    alloc: Global,
    shelf: &Shelf,
    front: &Front,
    axioms: &[Sides],
    order: &Watched,
) -> Result<bool, Fail>
    requires { IsOf shelf.now front.now }
{
    let axioms = equations(alloc, axioms)?;
    let outcome = pass(rt, alloc, shelf, front, axioms.as_slice(), &[], order, 2)?;
    Ok(matches!(outcome, Outcome::Convergent(_)))
}

// One fact alone has its overlaps formed by one thread; its instances are tested by two, and these tests alone compare terms of
// five nodes.
#[test]
fn two_threads_test_pairs(rt: HostRuntime) -> Result<(), Fail> {
    let order = Watched::idle(order(rt.alloc())?, 5, TURNS);
    order.watch();
    assert!(rt; converge(&rt, rt.alloc(), COMMUTATIVE, INSTANCES, &order)?);
    assert!(rt; order.have_met());
    Ok(())
}

// What the final pass over the book by so many threads answers.
fn pass_over<R: Threads + Sync, O: Order + Sync>(
    rt: &R,
    alloc: Global,
    order: &O,
    shelf: &Shelf,
    book: &Book<O>,
    threads: u32,
) -> Result<Outcome, AllocError>
    requires { book.now.opening.shelf ≡ shelf.now }
{
    let stages = book.stages(alloc)?;
    let mut passes = FinalPasses::none();
    let (front, axioms) = (book.front(), book.axioms());
    final_pass(
        rt,
        alloc,
        shelf,
        front,
        axioms,
        stages.as_slice(),
        order,
        threads,
        &mut passes,
    )
}

// Whether the final pass over the book by so many threads finds that the facts converge.
fn converge_at_last<R: Threads + Sync, O: Order + Sync>(
    rt: &R,
    alloc: Global,
    order: &O,
    shelf: &Shelf,
    book: &Book<O>,
    threads: u32,
) -> Result<bool, AllocError>
    requires { book.now.opening.shelf ≡ shelf.now }
{
    let outcome = pass_over(rt, alloc, order, shelf, book, threads)?;
    Ok(matches!(outcome, Outcome::Convergent(_)))
}

// Whether a worker alone drains a book, whose facts converge. The order watches from there.
fn end_book<R: Threads + Wait + Sync>(
    rt: &R,
    alloc: Global,
    at: &Setting,
    order: &Watched,
    threads: u32,
) -> Result<bool, AllocError> {
    let (mut book, mut pass) = begin(alloc, at, order, 99, 99, 0)?;
    let ended = work_alone(
        rt,
        alloc,
        &mut book,
        &at.shelf,
        &at.problem,
        order,
        &mut pass,
    );
    order.watch();
    Ok(ended == Ended::Drained && converge_at_last(rt, alloc, order, &at.shelf, &book, threads)?)
}

// Whether two calls compare at once in the final pass by so many threads over a book, for so many turns of each. No call waits
// before the book is drained.
fn compare_together<R: Threads + Wait + Sync>(
    rt: &R,
    alloc: Global,
    at: &Setting,
    threads: u32,
    turns: u32,
) -> Result<bool, Fail> {
    let order = Watched::idle(order(alloc)?, 1, turns);
    if !end_book(rt, alloc, at, &order, threads)? {
        return Err(Fail::from("another end"));
    }
    Ok(order.have_met())
}

// The final pass by two threads compares at once. That by one doesn't, however long a call waits.
#[test]
fn two_threads_end_a_book(rt: HostRuntime) -> Result<(), Fail> {
    let at = set_up(rt.alloc(), AXIOMS, &[])?;
    assert!(rt; compare_together(&rt, rt.alloc(), &at, 2, TURNS)?);
    assert!(rt; !compare_together(&rt, rt.alloc(), &at, 1, 1000)?);
    Ok(())
}
