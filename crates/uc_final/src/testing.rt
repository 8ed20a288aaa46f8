//! The tests of pairs, in phases whose tests are shared out among threads.

ghost use Rattle.std.specs.Prelude.{◌≡◌, ◌<◌, ◌≤◌, ◌++◌, ◌^◌, ℕ, length, map, slice_index_or, All, IfOk};
ghost use Rattle.uc_shelf.specs.Fronts.{IsOf};
ghost use Rattle.uc_machine.specs.Lists.{Each};
ghost use Rattle.uc_machine.specs.Origins.{IsKnownOrigin};
ghost use Rattle.uc_machine.specs.Finals.{Tests};
ghost use Rattle.uc_final.specs.Phases.{IsTested, list_of};
ghost use Rattle.uc_final.specs.Made.{IsMade};
ghost use Rattle.uc_final.specs.declared.testing.Test.{Test as AnyTest};

use std::alloc::{AllocError, Global};
use std::thread;
use std::thread::Threads;
use uc_fact::{Equation, Origin};
use uc_machine::Missing;
use uc_order::Order;
use uc_shelf::{Front, Shelf};
use uc_task::{Tried, try_pair};
use uc_term::Seq;

/// The most tests of a thread in one phase, so that what a phase finds takes little memory.
const MOST_TESTS: usize = 4096;

/// A pair that is to be tested, and what the test finds: the equation that is missing, where the pair isn't joined.
#[derive(Drop)]
pub struct Test {
    origin: Origin,
    found: Result<Option<Missing>, AllocError>,
}

/// Of the pairs of these origins those that aren't joined, in order, tested by so many threads.
pub fn missing_among<O: Order + Sync, R: Threads + Sync>(
    rt: &R,
    alloc: Global,
    origins: &[Origin],
    shelf: &Shelf,
    front: &Front,
    axioms: &[Equation],
    order: &O,
    threads: usize,
) -> Result<Seq<Missing>, AllocError>
    requires threads { (0 < threads) × (threads < 2 ^ 32) }
    requires of { IsOf shelf.now front.now }
    requires known { Each (IsKnownOrigin (O.meaning order.now) axioms.now front.now.entries) origins.now }
    ensures { IfOk result (Tests (O.meaning order.now) axioms.now front.now.entries origins.now) }
{
    let most = MOST_TESTS * threads;
    let mut list = Seq::new(alloc);
    let mut rest = origins;
    'phases: while !rest.is_empty() {
        let (phase, later) = rest.split_at(most.min(rest.len()));
        list.append(phase_missing(rt, alloc, phase, shelf, front, axioms, order, threads)?)?;
        rest = later;
    }
    Ok(list)
}

/// One phase: each pair is tested by one of the threads, and what is missing is gathered in order.
fn phase_missing<O: Order + Sync, R: Threads + Sync>(
    rt: &R,
    alloc: Global,
    origins: &[Origin],
    shelf: &Shelf,
    front: &Front,
    axioms: &[Equation],
    order: &O,
    threads: usize,
) -> Result<Seq<Missing>, AllocError>
    requires some { 0 < threads }
    requires of { IsOf shelf.now front.now }
    requires known { Each (IsKnownOrigin (O.meaning order.now) axioms.now front.now.entries) origins.now }
    ensures { IfOk result (Tests (O.meaning order.now) axioms.now front.now.entries origins.now) }
{
    let mut tests = tests_of(alloc, origins)?;
    test_all(
        rt,
        alloc,
        tests.as_mut_slice(),
        shelf,
        front,
        axioms,
        order,
        threads,
    );
    let mut list = Seq::new(alloc);
    for test in tests {
        add(&mut list, test.found?)?;
    }
    Ok(list)
}

/// The tests of these pairs, none of which is made yet.
fn tests_of(alloc: Global, origins: &[Origin]) -> Result<Vec<Test>, AllocError>
    ensures { IfOk result (λ tests. map (λ (t : AnyTest). t.origin) tests.items ≡ origins.now) }
{
    let mut tests = Vec::new(alloc);
    for origin in origins {
        tests.push(untested(*origin))?;
    }
    Ok(tests)
}

/// The test of a pair before it is made.
fn untested(origin: Origin) -> Test
    ensures { result.origin ≡ origin }
{
    Test {
        origin,
        found: Ok(None),
    }
}

/// Makes all tests by so many threads. What each finds is what one thread would find.
fn test_all<O: Order + Sync, R: Threads + Sync>(
    rt: &R,
    alloc: Global,
    tests: &mut [Test],
    shelf: &Shelf,
    front: &Front,
    axioms: &[Equation],
    order: &O,
    threads: usize,
)
    requires some { 0 < threads }
    requires of { IsOf shelf.now front.now }
    requires known { All (λ (t : AnyTest). IsKnownOrigin (O.meaning order.now) axioms.now front.now.entries t.origin) tests.old }
    ensures len { length tests.new ≡ length tests.old }
    ensures origins { (i : ℕ) (d : AnyTest) → i < length tests.old → (slice_index_or tests.new i d).origin ≡ (slice_index_or tests.old i d).origin }
    ensures made { (i : ℕ) (d : AnyTest) → i < length tests.old → IsMade (O.meaning order.now) axioms.now front.now.entries (slice_index_or tests.new i d) }
{
    thread::for_each_mut(
        rt,
        tests,
        threads,
        &|_, test| test.make(alloc, shelf, front, axioms, order),
    );
}

impl Test {
    /// Tests the pair.
    fn make<O: Order>(
        &mut self,
        alloc: Global,
        shelf: &Shelf,
        front: &Front,
        axioms: &[Equation],
        order: &O,
    )
        requires of { IsOf shelf.now front.now }
        requires known { IsKnownOrigin (O.meaning order.now) axioms.now front.now.entries self.old.origin }
        ensures origin { self.new.origin ≡ self.old.origin }
        ensures made { IsMade (O.meaning order.now) axioms.now front.now.entries self.new }
    {
        self.found = missing_of(alloc, &self.origin, shelf, front, axioms, order);
    }
}

/// Puts an equation that is missing at the end of the list.
fn add(list: &mut Seq<Missing>, found: Option<Missing>) -> Result<(), AllocError>
    ensures { IfOk result (λ _. list.new ≡ list.old ++ list_of found) }
{
    match found {
        Some(missing) => list.push(missing),
        None => Ok(()),
    }
}

/// The equation that the pair of an origin gives, where it isn't joined.
fn missing_of<O: Order>(
    alloc: Global,
    origin: &Origin,
    shelf: &Shelf,
    front: &Front,
    axioms: &[Equation],
    order: &O,
) -> Result<Option<Missing>, AllocError>
    requires of { IsOf shelf.now front.now }
    requires known { IsKnownOrigin (O.meaning order.now) axioms.now front.now.entries origin.now }
    ensures { IfOk result (IsTested (O.meaning order.now) axioms.now front.now.entries origin.now) }
{
    match try_pair(alloc, origin, shelf, front, axioms, order)? {
        Tried::Joined(_) => Ok(None),
        Tried::Open { fact, answer } => Ok(Some(Missing {
            origin: *origin,
            fact,
            open_case: answer,
        })),
    }
}
