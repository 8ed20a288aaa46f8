//! Runs of the program with several workers, held at a gate.

use crate::given::told_at;
use std::sync::atomic::{AtomicBool, AtomicU64, Ordering};
use std::test::Fail;
use std::thread;
use uc_edge::Gate;

/// How often a gate looks for another worker before it gives up.
pub const TURNS: u32 = 10_000_000;

const PROBLEM: (&str, &str) = (
    "r18.p",
    "cnf(ax1, axiom, f(a) = b).
cnf(ax2, axiom, f(b) = a).
",
);

// A gate that holds the worker who comes first until another one has come.
#[derive(Drop)]
struct Meeting {
    came: AtomicU64,
    first: AtomicU64,
    met: AtomicBool,
}

impl Meeting {
    fn new() -> Meeting {
        Meeting {
            came: AtomicU64::new(0),
            first: AtomicU64::new(0),
            met: AtomicBool::new(false),
        }
    }

    // Waits until another worker has come.
    fn hold(&self) {
        for _ in 0..TURNS {
            if self.met.load(Ordering::SeqCst) {
                return;
            }
            thread::yield_now();
        }
    }

    // Whether two workers were at the gate before the first of them passed on.
    fn has_met(&self) -> bool {
        self.met.load(Ordering::SeqCst)
    }
}

impl Gate for Meeting {
    fn pass(&self, worker: u32, _ticket: u64) {
        if self.came.fetch_add(1, Ordering::SeqCst) == 0 {
            self.first.store(u64::from(worker), Ordering::SeqCst);
            self.hold();
        } else if self.first.load(Ordering::SeqCst) != u64::from(worker) {
            self.met.store(true, Ordering::SeqCst);
        }
    }
}

// The worker of an event, where it is this one.
fn worker_of(line: Option<&str>, event: &str) -> Option<u8> {
    let (worker, what) = line?.split_once(' ')?;
    match (worker, what == event) {
        ("w1", true) => Some(1),
        ("w2", true) => Some(2),
        _ => None,
    }
}

// Whether the first two events are draws of the first two pairs, by two workers.
fn begins_with_draws(told: &str) -> bool {
    let first = told.lines().find_map(|line| line.strip_prefix("% 1 "));
    let second = told.lines().find_map(|line| line.strip_prefix("% 2 "));
    match (
        worker_of(first, "draw join 0 front 0"),
        worker_of(second, "draw join 1 front 0"),
    ) {
        (Some(one), Some(other)) => one != other,
        _ => false,
    }
}

// Whether worker 0 made no commit, and each of the others at least one.
fn have_shares(told: &str) -> bool {
    let mut shares = told
        .lines()
        .filter_map(|line| line.strip_prefix("% share "));
    shares.next() == Some("w0 0")
        && shares
            .next()
            .is_some_and(|share| share.starts_with("w1 ") && share != "w1 0")
        && shares
            .next()
            .is_some_and(|share| share.starts_with("w2 ") && share != "w2 0")
        && shares.next().is_none()
}

// Two workers are at the gate at once, each with a pair, so that none has the lock. Both commit, and worker 0 finds nothing to do.
#[test]
fn two_workers_are_traced(rt: HostRuntime) -> Result<(), Fail> {
    let gate = Meeting::new();
    let words = ["prove", "--workers", "2", "--trace", "r18.p"];
    let (status, told) = told_at(&rt, rt.alloc(), &words, PROBLEM, &gate)?;
    assert!(rt; gate.has_met());
    assert!(rt; status == 1);
    assert!(rt; begins_with_draws(&told), "{told}");
    assert!(rt; !told.contains("reclaim"), "{told}");
    assert!(rt; have_shares(&told), "{told}");
    Ok(())
}

// So they are without a trace, and where questions are answered.
#[test]
fn two_workers_meet(rt: HostRuntime) -> Result<(), Fail> {
    let proving = Meeting::new();
    let (status, _) = told_at(
        &rt,
        rt.alloc(),
        &["prove", "--workers", "2", "r18.p"],
        PROBLEM,
        &proving,
    )?;
    assert!(rt; status == 1 && proving.has_met());
    let deciding = Meeting::new();
    let words = ["decide", "--workers", "2", "r18.p", "f(f(a)) = a"];
    let (status, told) = told_at(&rt, rt.alloc(), &words, PROBLEM, &deciding)?;
    assert!(rt; status == 0 && deciding.has_met());
    assert_eq!(rt; told.as_str(), "equal a\n");
    Ok(())
}

// One worker passes no gate.
#[test]
fn one_worker_is_alone(rt: HostRuntime) -> Result<(), Fail> {
    let gate = Meeting::new();
    let (status, _) = told_at(
        &rt,
        rt.alloc(),
        &["prove", "--workers", "1", "r18.p"],
        PROBLEM,
        &gate,
    )?;
    assert!(rt; status == 1);
    assert!(rt; gate.came.load(Ordering::SeqCst) == 0);
    Ok(())
}
