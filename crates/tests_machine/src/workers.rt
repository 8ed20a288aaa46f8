//! Searches by several workers: that they work at once, and that whoever waits is woken.

ghost use Rattle.std.specs.Prelude.{◌<◌, ◌≤◌};

use crate::alphabet::{Sides, order};
use crate::books::settings::{Setting, set_up};
use crate::watched::Watched;
use std::alloc::{AllocError, Global};
use std::sync::Wait;
use std::sync::atomic::{AtomicBool, AtomicU64, Ordering};
use std::test::Fail;
use std::thread;
use std::thread::Threads;
use uc_book::Book;
use uc_edge::{Gate, NoGate};
use uc_kbo::Kbo;
use uc_machine::{Ending, Event, GoalEnd, Happening, Verdict};
use uc_order::Order;
use uc_worker::search;

/// How often whoever waits for another looks for it before it gives up.
pub const TURNS: u32 = 10_000_000;

/// f(a) = b and f(b) = a
pub const AXIOMS: &[Sides] = &[(b"af", b"b"), (b"bf", b"a")];

// f(f(a)) = a
const GOAL: Sides = (b"aff", b"a");

// A gate that holds the worker who comes first until another one has come.
#[derive(Drop)]
struct Meeting {
    came: AtomicU64,
    met: AtomicBool,
    // The tickets of worker 1 and of any other, of the two that came first.
    one: AtomicU64,
    other: AtomicU64,
}

impl Meeting {
    fn new() -> Meeting {
        Meeting {
            came: AtomicU64::new(0),
            met: AtomicBool::new(false),
            one: AtomicU64::new(u64::MAX),
            other: AtomicU64::new(u64::MAX),
        }
    }

    // The ticket with which this worker was one of the two that came first.
    fn ticket_of(&self, worker: u32) -> &AtomicU64 {
        if worker == 1 { &self.one } else { &self.other }
    }

    // Waits until a second one has come.
    fn hold(&self) {
        for _ in 0..TURNS {
            if self.came.load(Ordering::SeqCst) > 1 {
                self.met.store(true, Ordering::SeqCst);
                return;
            }
            thread::yield_now();
        }
    }
}

impl Gate for Meeting {
    fn pass(&self, worker: u32, ticket: u64) {
        let before = self.came.fetch_add(1, Ordering::SeqCst);
        if before < 2 {
            self.ticket_of(worker).store(ticket, Ordering::SeqCst);
        }
        if before == 0 {
            self.hold();
        }
    }
}

// Whether these are draws of the first two pairs, by two workers.
fn are_two_draws(one: &Event, other: &Event) -> bool {
    one.what == Happening::DrawJoin { pair: 0, front: 0 }
        && other.what == Happening::DrawJoin { pair: 1, front: 0 }
        && one.worker != other.worker
        && one.worker > 0
        && other.worker > 0
}

fn is_reclaim(event: &Event) -> bool {
    matches!(
        event.what,
        Happening::ReclaimGoal { .. }
            | Happening::ReclaimMore { .. }
            | Happening::ReclaimMeet { .. }
            | Happening::ReclaimJoin { .. }
    )
}

// Two workers are at the gate at once: each has drawn a pair, and neither holds the lock. Each has the ticket of its own draw,
// which is the number of draws before it. Both commit, and worker 0 finds nothing left to do.
#[test]
fn two_workers_meet(rt: HostRuntime) -> Result<(), Fail> {
    let at = set_up(rt.alloc(), AXIOMS, &[])?;
    assert!(rt; meet(&rt, rt.alloc(), &at)?);
    Ok(())
}

fn meet<R: Threads + Wait + Sync>(rt: &R, alloc: Global, at: &Setting) -> Result<bool, AllocError> {
    let gate = Meeting::new();
    Ok(meet_at(rt, alloc, at, &gate)? && gate.met.load(Ordering::SeqCst))
}

fn meet_at<R: Threads + Wait + Sync>(
    rt: &R,
    alloc: Global,
    at: &Setting,
    gate: &Meeting,
) -> Result<bool, AllocError> {
    let searched = search(
        rt,
        alloc,
        &at.problem,
        &at.order,
        &at.shelf,
        99,
        99,
        2,
        gate,
    )?;
    Ok(have_met(&searched.book, &searched.verdict, &searched.shares, gate))
}

fn have_met(book: &Book<Kbo>, verdict: &Verdict, shares: &[u64], gate: &Meeting) -> bool {
    *verdict == Verdict::Saturated && met_first(book.history(), gate) && both_commit(shares)
}

// Whether two workers drew first, each under the ticket at the gate, and no task was put back.
fn met_first(history: &[Event], gate: &Meeting) -> bool {
    history.len() > 2
        && are_two_draws(&history[0], &history[1])
        && gate.ticket_of(history[0].worker).load(Ordering::SeqCst) == 0
        && gate.ticket_of(history[1].worker).load(Ordering::SeqCst) == 1
        && !history.iter().any(|event| is_reclaim(event))
}

fn both_commit(shares: &[u64]) -> bool {
    shares.len() == 3 && shares[0] == 0 && shares[1] > 0 && shares[2] > 0
}

// Two workers compute at once: while one compares two terms, another does, so that none has the lock.
#[test]
fn two_workers_compute(rt: HostRuntime) -> Result<(), Fail> {
    let at = set_up(rt.alloc(), AXIOMS, &[])?;
    assert!(rt; compute(&rt, rt.alloc(), &at)?);
    Ok(())
}

fn compute<R: Threads + Wait + Sync>(rt: &R, alloc: Global, at: &Setting) -> Result<bool, Fail> {
    let order = Watched::new(order(alloc)?);
    let gate = Meeting::new();
    let is_saturated = ends_so(rt, alloc, at, &order, 2, &gate, Verdict::Saturated)?;
    Ok(is_saturated && order.have_met())
}

// Whether so many workers come to this verdict.
fn ends_so<O: Order + Sync, G: Gate + Sync, R: Threads + Wait + Sync>(
    rt: &R,
    alloc: Global,
    at: &Setting,
    order: &O,
    workers: u32,
    gate: &G,
    verdict: Verdict,
) -> Result<bool, AllocError>
    requires { (0 < workers) × (workers ≤ 64) }
{
    let searched = search(
        rt,
        alloc,
        &at.problem,
        order,
        &at.shelf,
        99,
        99,
        workers,
        gate,
    )?;
    Ok(searched.verdict == verdict)
}

// A gate that lets the worker of the first ticket on when all others have passed but one, and lets the order watch from there.
#[derive(Drop)]
struct Last<'a> {
    order: &'a Watched,
    came: AtomicU64,
}

// How many of the tasks over `SPREAD` pass before the meeting of the fact that the first ticket brings.
const BEFORE_LAST: u64 = 7;

impl Last<'_> {
    // Waits until all have come.
    fn hold(&self) {
        for _ in 0..TURNS {
            if self.came.load(Ordering::SeqCst) >= BEFORE_LAST {
                return;
            }
            thread::yield_now();
        }
    }
}

impl Gate for Last<'_> {
    fn pass(&self, _worker: u32, ticket: u64) {
        if self.came.fetch_add(1, Ordering::SeqCst) == BEFORE_LAST - 1 {
            self.order.watch();
        }
        if ticket == 0 {
            self.hold();
        }
    }
}

// The lightest, g(b) = a, is drawn first, and meets the others last. Then comes m(X,Y) = m(Y,X), which joins two of its instances,
// m(f(t),g(t)) = m(g(t),f(t)), and behind them f(f(..f(b))) = a.
const SPREAD: &[Sides] = &[
    (b"ap", b"aq"),
    (b"y", b"z"),
    (b"bg", b"a"),
    (b"bfffffffffffffff", b"a"),
    (b"afp", b"afq"),
];

// The final pass of a round is made by the threads of both workers. Only the tests of the two instances compare terms of five
// nodes: the worker of the second ticket has made them all before the gate opens, and in the pass one is in each half of the pairs.
#[test]
fn two_workers_end_a_round(rt: HostRuntime) -> Result<(), Fail> {
    let at = set_up(rt.alloc(), SPREAD, &[])?;
    assert!(rt; end_round(&rt, rt.alloc(), &at)?);
    Ok(())
}

fn end_round<R: Threads + Wait + Sync>(rt: &R, alloc: Global, at: &Setting) -> Result<bool, Fail> {
    let order = Watched::idle(order(alloc)?, 5, TURNS);
    Ok(pass_last(rt, alloc, at, &order)? && order.have_met())
}

// Whether all tasks pass the gate, and the round ends the search.
fn pass_last<R: Threads + Wait + Sync>(
    rt: &R,
    alloc: Global,
    at: &Setting,
    order: &Watched,
) -> Result<bool, AllocError> {
    let came = AtomicU64::new(0);
    let gate = Last { order, came };
    let is_saturated = ends_so(rt, alloc, at, order, 2, &gate, Verdict::Saturated)?;
    Ok(is_saturated && gate.came.load(Ordering::SeqCst) == BEFORE_LAST + 1)
}

// The events of a search by worker 0 alone.
const ALONE: &[Happening] = &[
    Happening::DrawGoal { goal: 0, front: 0 },
    Happening::CommitGoal {
        goal: 0,
        steps: 0,
        end: GoalEnd::Full,
    },
    Happening::DrawJoin { pair: 0, front: 0 },
    Happening::CommitKept { pair: 0, fact: 0 },
    Happening::DrawGoal { goal: 0, front: 1 },
    Happening::CommitGoal {
        goal: 0,
        steps: 1,
        end: GoalEnd::Full,
    },
    Happening::DrawMeet { fact: 0, front: 1 },
    Happening::CommitMeet {
        fact: 0,
        pairs: 0,
        kills: 0,
    },
    Happening::DrawJoin { pair: 1, front: 1 },
    Happening::CommitKept { pair: 1, fact: 1 },
    Happening::DrawGoal { goal: 0, front: 2 },
    Happening::CommitGoal {
        goal: 0,
        steps: 1,
        end: GoalEnd::Met,
    },
    Happening::Close(Ending::Proved),
];

// Whether these happened, by worker 0.
fn happened_alone(history: &[Event], list: &[Happening]) -> bool {
    if history.len() != list.len() {
        return false;
    }
    for (event, what) in history.iter().zip(list) {
        if event.worker != 0 || event.what != *what {
            return false;
        }
    }
    true
}

// One worker commits each task before it draws the next one, and passes no gate.
#[test]
fn one_worker_is_alone(rt: HostRuntime) -> Result<(), Fail> {
    let at = set_up(rt.alloc(), AXIOMS, &[GOAL])?;
    assert!(rt; is_alone(&rt, rt.alloc(), &at)?);
    Ok(())
}

fn is_alone<R: Threads + Wait + Sync>(
    rt: &R,
    alloc: Global,
    at: &Setting,
) -> Result<bool, AllocError> {
    let gate = Meeting::new();
    Ok(searches_alone(rt, alloc, at, &gate)? && gate.came.load(Ordering::SeqCst) == 0)
}

fn searches_alone<R: Threads + Wait + Sync>(
    rt: &R,
    alloc: Global,
    at: &Setting,
    gate: &Meeting,
) -> Result<bool, AllocError> {
    let searched = search(rt, alloc, &at.problem, &at.order, &at.shelf, 2, 9, 1, gate)?;
    Ok(are_alone(&searched.book, &searched.shares))
}

fn are_alone(book: &Book<Kbo>, shares: &[u64]) -> bool {
    happened_alone(book.history(), ALONE) && shares == [6].as_slice()
}

// Whether so many workers come to this verdict on the problem of these axioms and goals.
fn come_to<R: Threads + Wait + Sync>(
    rt: &R,
    alloc: Global,
    axioms: &[Sides],
    goals: &[Sides],
    workers: u32,
    verdict: Verdict,
) -> Result<bool, Fail>
    requires { (0 < workers) × (workers ≤ 64) }
{
    let at = set_up(alloc, axioms, goals)?;
    Ok(ends_so(rt, alloc, &at, &at.order, workers, &NoGate, verdict)?)
}

// Whether so many workers prove the goal, and come to an end without it.
fn come_to_ends<R: Threads + Wait + Sync>(rt: &R, alloc: Global, workers: u32) -> Result<bool, Fail>
    requires { (0 < workers) × (workers ≤ 64) }
{
    let proved = come_to(rt, alloc, AXIOMS, &[GOAL], workers, Verdict::Proved(0))?;
    let saturated = come_to(rt, alloc, AXIOMS, &[], workers, Verdict::Saturated)?;
    let empty = come_to(rt, alloc, &[], &[], workers, Verdict::Saturated)?;
    Ok(proved && saturated && empty)
}

// Where there are fewer tasks than workers, the others wait, until a commit wakes them.
#[test]
fn whoever_waits_is_woken(rt: HostRuntime) -> Result<(), Fail> {
    assert!(rt; come_to_ends(&rt, rt.alloc(), 1)?);
    assert!(rt; come_to_ends(&rt, rt.alloc(), 2)?);
    assert!(rt; come_to_ends(&rt, rt.alloc(), 8)?);
    assert!(rt; come_to_ends(&rt, rt.alloc(), 64)?);
    Ok(())
}
