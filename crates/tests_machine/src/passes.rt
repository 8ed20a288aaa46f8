//! The final pass: what it answers over a few facts.

ghost use Rattle.uc_shelf.specs.Fronts.{IsOf};

use crate::alphabet::{Sides, are, equations, order};
use crate::fronts::{first_dies, front_of};
use std::alloc::Global;
use std::sync::Wait;
use std::test::Fail;
use std::thread::Threads;
use uc_fact::{Equation, Joinable, Origin, Overlap, Side};
use uc_final::{FinalPasses, final_pass};
use uc_machine::{Missing, Outcome, Stage};
use uc_order::Order;
use uc_shelf::{Front, Shelf};
use uc_term::Pos;

/// What the pass by so many threads answers for a few axioms and goals.
pub fn pass<R: Threads + Sync, O: Order + Sync>(
    rt: &R,
    alloc: Global,
    shelf: &Shelf,
    front: &Front,
    axioms: &[Equation],
    stages: &[Stage],
    order: &O,
    threads: u32,
) -> Result<Outcome, Fail>
    requires { IsOf shelf.now front.now }
{
    if axioms.len() > 9 || stages.len() > 9 {
        return Err(Fail::from("too many"));
    }
    let mut passes = FinalPasses::none();
    Ok(final_pass(
        rt,
        alloc,
        shelf,
        front,
        axioms,
        stages,
        order,
        threads,
        &mut passes,
    )?)
}

fn outcome_on<R: Threads + Sync>(
    rt: &R,
    alloc: Global,
    shelf: &Shelf,
    front: &Front,
    axioms: &[Sides],
    stages: &[Stage],
) -> Result<Outcome, Fail>
    requires { IsOf shelf.now front.now }
{
    let axioms = equations(alloc, axioms)?;
    let order = order(alloc)?;
    pass(
        rt,
        alloc,
        shelf,
        front,
        axioms.as_slice(),
        stages,
        &order,
        1,
    )
}

// What the pass answers over facts with these sides, of which the first one may have died.
fn outcome<R: Threads + Wait + Sync>(
    rt: &R,
    alloc: Global,
    facts: &[Sides],
    is_first_dead: bool,
    axioms: &[Sides],
    stages: &[Stage],
) -> Result<Outcome, Fail> {
    let shelf = Shelf::new(alloc)?;
    let mut front = front_of(rt, alloc, &shelf, facts)?;
    if is_first_dead {
        first_dies(rt, alloc, &shelf, &mut front)?;
    }
    outcome_on(rt, alloc, &shelf, &front, axioms, stages)
}

// Whether the fact with these sides is the only one.
fn is_only(alloc: Global, facts: &[Equation], sides: &Sides) -> Result<bool, Fail> {
    if facts.len() != 1 {
        return Ok(false);
    }
    are(alloc, &facts[0].left, &facts[0].right, sides)
}

// f(f(X)) = X, and f(X) = X, which killed it
const KILLED: &[Sides] = &[(b"Xff", b"X"), (b"Xf", b"X")];

// Whether the facts converge, f(X) = X alone.
fn converges<R: Threads + Wait + Sync>(rt: &R, alloc: Global) -> Result<bool, Fail> {
    let outcome = outcome(rt, alloc, KILLED, true, &[(b"bf", b"b")], &[Stage::Settled])?;
    match &outcome {
        Outcome::Convergent(system) => is_only(alloc, system.facts.as_slice(), &(b"Xf", b"X")),
        _ => Ok(false),
    }
}

// The fact f(X) = X joins the axiom f(b) = b and its own overlaps.
#[test]
fn what_is_joined_converges(rt: HostRuntime) -> Result<(), Fail> {
    assert!(rt; converges(&rt, rt.alloc())?);
    Ok(())
}

// Whether the equation comes from this origin, with these sides, which differ as ground terms do.
fn is_missing(
    alloc: Global,
    missing: &Missing,
    origin: Origin,
    sides: &Sides,
) -> Result<bool, Fail> {
    if missing.origin != origin || !matches!(&missing.open_case, Joinable::Apart { .. }) {
        return Ok(false);
    }
    are(alloc, &missing.fact.left, &missing.fact.right, sides)
}

// The overlap of a left side with the argument of another one.
fn of_left(outer: u32, inner: u32) -> Overlap {
    Overlap {
        outer,
        outer_side: Side::Left,
        inner,
        inner_side: Side::Left,
        position: Pos(1),
    }
}

// Whether these are the axiom 1 as b = a, and an overlap as f(g(X)) = g(f(X)).
fn are_missing(alloc: Global, list: &[Missing]) -> Result<bool, Fail> {
    if list.len() != 2 {
        return Ok(false);
    }
    if !is_missing(alloc, &list[0], Origin::Axiom(1), &(b"b", b"a"))? {
        return Ok(false);
    }
    is_missing(
        alloc,
        &list[1],
        Origin::Overlap(of_left(0, 0)),
        &(b"Xfg", b"Xgf"),
    )
}

// f(f(a)) = g(a) and a = b
const AXIOMS: &[Sides] = &[(b"aff", b"ag"), (b"a", b"b")];

// Whether these are what f(f(X)) = g(X) doesn't join.
fn misses<R: Threads + Wait + Sync>(rt: &R, alloc: Global) -> Result<bool, Fail> {
    let outcome = outcome(
        rt,
        alloc,
        &[(b"Xff", b"Xg")],
        false,
        AXIOMS,
        &[Stage::Stuck],
    )?;
    match &outcome {
        Outcome::Missing(list) => are_missing(alloc, list.as_slice()),
        _ => Ok(false),
    }
}

// Over f(f(X)) = g(X) the axiom a = b isn't joined, and the fact's overlap with itself gives f(g(X)) = g(f(X)).
#[test]
fn what_is_missing_is_listed(rt: HostRuntime) -> Result<(), Fail> {
    assert!(rt; misses(&rt, rt.alloc())?);
    Ok(())
}

const STUCK: &[Stage] = &[Stage::Settled, Stage::Stuck, Stage::Stuck];

// The left side of g(m(X,s)) = a, where s has 512 times X, has an overlap with that of m(f(.. f(a) ..),Y) = b that is too
// large.
const LARGE: &[Sides] = &[(b"Xdddddddddxg", b"a"), (b"affffffffy", b"b")];

// The overlap that is too large, over these facts.
fn large<R: Threads + Wait + Sync>(
    rt: &R,
    alloc: Global,
    facts: &[Sides],
) -> Result<Option<Overlap>, Fail> {
    let outcome = outcome(rt, alloc, facts, false, &[], STUCK)?;
    match &outcome {
        Outcome::Large(overlap) => Ok(Some(*overlap)),
        _ => Ok(None),
    }
}

// The goal that is unsettled, over these facts.
fn unsettled<R: Threads + Wait + Sync>(
    rt: &R,
    alloc: Global,
    facts: &[Sides],
) -> Result<Option<u32>, Fail> {
    let outcome = outcome(rt, alloc, facts, false, &[], STUCK)?;
    match &outcome {
        Outcome::GoalUnsettled(goal) => Ok(Some(*goal)),
        _ => Ok(None),
    }
}

// An overlap that is too large is named before a goal that is stuck, and of the goals that are stuck the first.
#[test]
fn what_is_in_the_way_is_named(rt: HostRuntime) -> Result<(), Fail> {
    assert!(rt; large(&rt, rt.alloc(), LARGE)? == Some(of_left(0, 1)));
    assert!(rt; unsettled(&rt, rt.alloc(), &[])? == Some(1));
    Ok(())
}
