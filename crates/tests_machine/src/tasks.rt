//! Tasks: what each kind of job comes to over a few facts.

ghost use Rattle.std.specs.Prelude.{◌≡◌, length, IsTrue};
ghost use Rattle.uc_shelf.specs.Entries.{born};
ghost use Rattle.uc_shelf.specs.Fronts.{IsOf};
ghost use Rattle.uc_machine.specs.Origins.{IsKnownOrigin};
ghost use Rattle.uc_task.specs.Jobs.{CanBeDone};

use crate::alphabet::{Sides, are, equations, is, order, term};
use crate::fronts::{first_dies, front_of};
use std::alloc::Global;
use std::sync::Wait;
use std::test::Fail;
use uc_bank::Bank;
use uc_fact::{By, Chain, Equation, Fact, Origin, Overlap, Side, Step, Stop};
use uc_machine::{Finding, Job};
use uc_order::Order;
use uc_pair::{Formed, Size};
use uc_shelf::{Front, Shelf};
use uc_task::{LiveFact, Tried, finding_of, live_facts, try_pair};
use uc_term::{Pos, TermFault};

// Whether a pair comes from an axiom or a fact that is there.
fn is_known<O: Order>(
    origin: &Origin,
    facts: usize,
    axioms: &[Equation],
    front: &Front,
    _order: &O,
) -> bool
    requires { length (born front.now.entries) ≡ facts }
    ensures { IsTrue result → IsKnownOrigin (O.meaning _order.now) axioms.now front.now.entries origin.now }
{
    match origin {
        Origin::Axiom(number) => (*number as usize) < axioms.len(),
        Origin::Overlap(_) => false,
        Origin::Revived(number) => (*number as usize) < facts,
    }
}

// Whether a job names what is there.
fn can_be_done<O: Order>(
    job: &Job,
    facts: usize,
    axioms: &[Equation],
    front: &Front,
    order: &O,
) -> bool
    requires { length (born front.now.entries) ≡ facts }
    ensures { IsTrue result → CanBeDone (O.meaning order.now) axioms.now front.now.entries job.now }
{
    match job {
        Job::Goal { .. } => true,
        Job::More { .. } => true,
        Job::Meet(number) => (*number as usize) < facts,
        Job::Join { origin, .. } => is_known(origin, facts, axioms, front, order),
    }
}

// What a job comes to over a front with so many facts.
fn found_on<O: Order>(
    alloc: Global,
    job: &Job,
    facts: usize,
    shelf: &Shelf,
    front: &Front,
    axioms: &[Equation],
    order: &O,
) -> Result<Finding, Fail>
    requires of { IsOf shelf.now front.now }
    requires all { length (born front.now.entries) ≡ facts }
{
    if !can_be_done(job, facts, axioms, front, order) {
        return Err(Fail::from("nothing of this number"));
    }
    let mut bank = Bank::new(alloc, shelf, order);
    Ok(finding_of(alloc, &mut bank, job, front, axioms)?)
}

fn found_by(
    alloc: Global,
    job: &Job,
    facts: usize,
    shelf: &Shelf,
    front: &Front,
    axioms: &[Sides],
) -> Result<Finding, Fail>
    requires of { IsOf shelf.now front.now }
    requires all { length (born front.now.entries) ≡ facts }
{
    let axioms = equations(alloc, axioms)?;
    let order = order(alloc)?;
    found_on(alloc, job, facts, shelf, front, axioms.as_slice(), &order)
}

// What a job comes to over facts with these sides.
fn found<R: Wait>(
    rt: &R,
    alloc: Global,
    job: &Job,
    facts: &[Sides],
    axioms: &[Sides],
) -> Result<Finding, Fail> {
    let shelf = Shelf::new(alloc)?;
    let front = front_of(rt, alloc, &shelf, facts)?;
    found_by(alloc, job, facts.len(), &shelf, &front, axioms)
}

// A step from left to right: from this term to that one, by an equation, at a place.
#[derive(Clone, Copy)]
struct Row {
    from: &'static [u8],
    to: &'static [u8],
    by: By,
    place: u32,
}

fn is_step(alloc: Global, step: &Step, row: &Row) -> Result<bool, Fail> {
    if step.by != row.by || step.position != Pos(row.place) || !step.left_to_right {
        return Ok(false);
    }
    is(alloc, &step.to, row.to)
}

// Whether the chain has this one step.
fn is_one_step(alloc: Global, chain: &Chain, row: &Row) -> Result<bool, Fail> {
    let steps = chain.steps.as_slice();
    if steps.len() != 1 || !is(alloc, &chain.start, row.from)? {
        return Ok(false);
    }
    is_step(alloc, &steps[0], row)
}

// Whether the left end goes on by this step to where it can't, and the right end by none.
fn is_gone_on(alloc: Global, finding: &Finding, row: &Row) -> Result<bool, Fail> {
    match finding {
        Finding::Ends { left, right, stop } => {
            if right.steps.len() != 0 || *stop != Stop::Full {
                return Ok(false);
            }
            is_one_step(alloc, left, row)
        }
        _ => Ok(false),
    }
}

fn goal(alloc: Global, left: &[u8], right: &[u8]) -> Result<Job, TermFault> {
    Ok(Job::Goal {
        goal: 0,
        left: term(alloc, left)?,
        right: term(alloc, right)?,
    })
}

fn more(alloc: Global, left: &[u8], right: &[u8]) -> Result<Job, TermFault> {
    Ok(Job::More {
        goal: 0,
        left: term(alloc, left)?,
        right: term(alloc, right)?,
    })
}

// Whether a job goes on by this step over these facts.
fn goes_on<R: Wait>(
    rt: &R,
    alloc: Global,
    job: &Job,
    facts: &[Sides],
    row: &Row,
) -> Result<bool, Fail> {
    let finding = found(rt, alloc, job, facts, &[])?;
    is_gone_on(alloc, &finding, row)
}

// f(a) = b
const ONE: &[Sides] = &[(b"af", b"b")];

// f(a) = b and f(b) = a
const TURNS: &[Sides] = &[(b"af", b"b"), (b"bf", b"a")];

const FIRST: Row = Row {
    from: b"aff",
    to: b"bf",
    by: By::Fact(0),
    place: 1,
};

const SECOND: Row = Row {
    from: b"bf",
    to: b"a",
    by: By::Fact(1),
    place: 0,
};

// Over f(a) = b the goal f(f(a)) = a goes on by one step to f(b), at the argument.
#[test]
fn a_goal_goes_on(rt: HostRuntime) -> Result<(), Fail> {
    let goal = goal(rt.alloc(), b"aff", b"a")?;
    assert!(rt; goes_on(&rt, rt.alloc(), &goal, ONE, &FIRST)?);
    Ok(())
}

// Over f(a) = b and f(b) = a it goes on from there by one step to a.
#[test]
fn more_of_it_goes_on(rt: HostRuntime) -> Result<(), Fail> {
    let more = more(rt.alloc(), b"bf", b"a")?;
    assert!(rt; goes_on(&rt, rt.alloc(), &more, TURNS, &SECOND)?);
    Ok(())
}

fn by_axiom(number: u32) -> Row {
    Row {
        from: b"bf",
        to: b"a",
        by: By::Axiom(number),
        place: 0,
    }
}

// Whether the fact is f(b) = a, with its greater side left, by an axiom of this number over so many entries.
fn is_kept(alloc: Global, fact: &Fact, number: u32, front: u32) -> Result<bool, Fail> {
    if !fact.oriented || fact.origin != Origin::Axiom(number) || fact.front != front {
        return Ok(false);
    }
    if !are(alloc, &fact.left, &fact.right, &(b"bf", b"a"))? {
        return Ok(false);
    }
    is_one_step(alloc, &fact.chain, &by_axiom(number))
}

// Whether the axiom f(b) = a is kept over these facts.
fn keeps<R: Wait>(rt: &R, alloc: Global, job: &Job, facts: &[Sides]) -> Result<bool, Fail> {
    let finding = found(rt, alloc, job, facts, TURNS)?;
    match &finding {
        Finding::Kept(fact) => is_kept(alloc, fact, 1, 1),
        _ => Ok(false),
    }
}

// Whether it is joined over these facts.
fn joins<R: Wait>(rt: &R, alloc: Global, job: &Job, facts: &[Sides]) -> Result<bool, Fail> {
    let finding = found(rt, alloc, job, facts, TURNS)?;
    Ok(matches!(&finding, Finding::Joined(_)))
}

// What the trial of the first axiom comes to where no fact lives.
fn tried_on<O: Order>(alloc: Global, axioms: &[Equation], order: &O) -> Result<Tried, Fail> {
    if axioms.is_empty() {
        return Err(Fail::from("no axiom"));
    }
    let shelf = Shelf::new(alloc)?;
    let front = Front::empty(alloc);
    Ok(try_pair(alloc, &Origin::Axiom(0), &shelf, &front, axioms, order)?)
}

fn tried(alloc: Global, sides: Sides) -> Result<Tried, Fail> {
    let axioms = equations(alloc, &[sides])?;
    let order = order(alloc)?;
    tried_on(alloc, axioms.as_slice(), &order)
}

// Whether the two sides of f(b) = a are open where no fact lives.
fn is_open(alloc: Global) -> Result<bool, Fail> {
    let tried = tried(alloc, (b"bf", b"a"))?;
    match &tried {
        Tried::Joined(_) => Ok(false),
        Tried::Open { fact, .. } => is_kept(alloc, fact, 0, 0),
    }
}

// Over f(a) = b the axiom f(b) = a is kept; over f(b) = a too its two sides come to a.
#[test]
fn axioms_are_kept_or_joined(rt: HostRuntime) -> Result<(), Fail> {
    let job = Job::Join {
        pair: 1,
        origin: Origin::Axiom(1),
    };
    assert!(rt; keeps(&rt, rt.alloc(), &job, ONE)?);
    assert!(rt; joins(&rt, rt.alloc(), &job, TURNS)?);
    Ok(())
}

#[test]
fn an_axiom_is_open(rt: HostRuntime) -> Result<(), Fail> {
    assert!(rt; is_open(rt.alloc())?);
    Ok(())
}

// An overlap of a fact's side with the same side of another one, by the nodes of its pair.
fn overlap(outer: u32, inner: u32, side: Side, place: u32, nodes: u32) -> Formed {
    Formed {
        overlap: Overlap {
            outer,
            outer_side: side,
            inner,
            inner_side: side,
            position: Pos(place),
        },
        size: Size::Weight(nodes),
    }
}

fn is_met(finding: &Finding, killed: &[u32], wanted: &[Formed]) -> bool {
    match finding {
        Finding::Met { kills, overlaps } => {
            kills.as_slice() == killed && overlaps.as_slice() == wanted
        }
        _ => false,
    }
}

// Whether a fact meets the others so.
fn meets<R: Wait>(
    rt: &R,
    alloc: Global,
    job: &Job,
    facts: &[Sides],
    killed: &[u32],
    wanted: &[Formed],
) -> Result<bool, Fail> {
    let finding = found(rt, alloc, job, facts, &[])?;
    Ok(is_met(&finding, killed, wanted))
}

// By which fact a fact is stale.
fn stale_by<R: Wait>(
    rt: &R,
    alloc: Global,
    job: &Job,
    facts: &[Sides],
) -> Result<Option<u32>, Fail> {
    let finding = found(rt, alloc, job, facts, &[])?;
    match &finding {
        Finding::Stale(other) => Ok(Some(*other)),
        _ => Ok(None),
    }
}

// f(X) = g(Y)
const TURNED: &[Sides] = &[(b"Xf", b"Yg")];

// g(f(X)) = X and f(X) = X
const REDUCED: &[Sides] = &[(b"Xfg", b"X"), (b"Xf", b"X")];

// The fact f(X) = g(Y) is overlapped with itself at both roots, as g(X) = g(Y) and f(X) = f(Y).
#[test]
fn a_fact_meets_itself(rt: HostRuntime) -> Result<(), Fail> {
    let roots = [
        overlap(0, 0, Side::Left, 0, 4),
        overlap(0, 0, Side::Right, 0, 4),
    ];
    assert!(rt; meets(&rt, rt.alloc(), &Job::Meet(0), TURNED, &[], &roots)?);
    Ok(())
}

// The fact f(X) = X makes a step in g(f(X)) = X: it kills it, and their overlap is g(X) = X.
#[test]
fn a_fact_kills_another_one(rt: HostRuntime) -> Result<(), Fail> {
    let inside = [overlap(0, 1, Side::Left, 1, 3)];
    assert!(rt; meets(&rt, rt.alloc(), &Job::Meet(1), REDUCED, &[0], &inside)?);
    Ok(())
}

// The fact g(f(X)) = X is stale beside it.
#[test]
fn a_fact_is_stale(rt: HostRuntime) -> Result<(), Fail> {
    assert!(rt; stale_by(&rt, rt.alloc(), &Job::Meet(0), REDUCED)? == Some(1));
    Ok(())
}

// Whether the second of these facts lives, and no other.
fn is_second(alloc: Global, list: &[LiveFact]) -> Result<bool, Fail> {
    if list.len() != 1 || list[0].number != 1 {
        return Ok(false);
    }
    let equation = &list[0].equation;
    are(alloc, &equation.left, &equation.right, &(b"Xf", b"X"))
}

fn lives(alloc: Global, shelf: &Shelf, front: &Front) -> Result<bool, Fail>
    requires { IsOf shelf.now front.now }
{
    let list = live_facts(alloc, shelf, front)?;
    is_second(alloc, list.as_slice())
}

// Whether the second of these facts lives once the first dies.
fn lives_on<R: Wait>(rt: &R, alloc: Global, shelf: &Shelf) -> Result<bool, Fail> {
    let mut front = front_of(rt, alloc, shelf, REDUCED)?;
    first_dies(rt, alloc, shelf, &mut front)?;
    lives(alloc, shelf, &front)
}

#[test]
fn what_lives_is_listed(rt: HostRuntime) -> Result<(), Fail> {
    let shelf = Shelf::new(rt.alloc())?;
    assert!(rt; lives_on(&rt, rt.alloc(), &shelf)?);
    Ok(())
}
