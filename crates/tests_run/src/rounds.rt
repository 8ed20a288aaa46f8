//! A search of two rounds by two workers, held at a gate so that both take part in each.

use crate::given::told_at;
use crate::workers::TURNS;
use std::sync::atomic::{AtomicBool, AtomicU64, Ordering};
use std::test::Fail;
use std::thread;
use uc_edge::Gate;

// The fact `l` joins the axiom `j`. Then `last` makes it q(b,Z) = q(Z,b), which joins what is left of `j` on ground instances
// alone. So the final pass misses that, and a second round has the meeting of one more fact, and two pairs.
//
// The constants that `d1` and `d2` equate are nowhere else: one worker computes the first pair while the other one waits with the
// second.
const PROBLEM: (&str, &str) = (
    "rounds.p",
    "cnf(d1, axiom, d = e).
cnf(d2, axiom, h = i).
cnf(w, axiom, w(X) = X).
cnf(m, axiom, m(X,X) = X).
cnf(l, axiom, q(f(c),Z) = q(Z,b)).
cnf(j, axiom, m(q(f(c),Z),q(Z,b)) = q(f(c),Z)).
cnf(last, axiom, w(w(w(w(w(w(w(w(w(w(f(c))))))))))) = b).
",
);

// Seven axioms and what is left of `l` are joined and six facts meet the others, before `h = i` meets them too.
const BEFORE_LAST: u64 = 14;

// The tasks of the first round, and the meeting that begins the second.
const BEFORE_PAIRS: u64 = 16;

// A gate that holds the worker who comes second until the other one has done all else of the first round, and then the worker
// who comes with the first pair of the second round until another one has come with the second pair.
#[derive(Drop)]
struct Rounds {
    came: AtomicU64,
    met: AtomicBool,
}

impl Rounds {
    fn new() -> Rounds {
        Rounds {
            came: AtomicU64::new(0),
            met: AtomicBool::new(false),
        }
    }

    // Waits until so many have come, and tells whether they have.
    fn await_all(&self, count: u64) -> bool {
        for _ in 0..TURNS {
            if self.came.load(Ordering::SeqCst) >= count {
                return true;
            }
            thread::yield_now();
        }
        false
    }
}

impl Gate for Rounds {
    fn pass(&self, _worker: u32, _ticket: u64) {
        let before = self.came.fetch_add(1, Ordering::SeqCst);
        if before == 0 {
            self.await_all(2);
        } else if before == 1 {
            self.await_all(BEFORE_LAST);
        } else if before == BEFORE_PAIRS && self.await_all(BEFORE_PAIRS + 2) {
            self.met.store(true, Ordering::SeqCst);
        }
    }
}

// Whether the worker draws after the only audit.
fn goes_on(told: &str, draws: &str) -> bool {
    match told.split_once(" audit kept 7\n") {
        Some((_, later)) => later.contains(draws) && !later.contains(" audit "),
        None => false,
    }
}

// Both workers draw in the second round, and are at the gate at once.
#[test]
fn two_workers_go_on(rt: HostRuntime) -> Result<(), Fail> {
    let gate = Rounds::new();
    let words = ["prove", "--workers", "2", "--trace", "rounds.p"];
    let (status, told) = told_at(&rt, rt.alloc(), &words, PROBLEM, &gate)?;
    assert!(rt; status == 1);
    assert!(rt; gate.met.load(Ordering::SeqCst), "{told}");
    assert!(rt;
        goes_on(&told, " w1 draw join ") && goes_on(&told, " w2 draw join "),
        "{told}"
    );
    Ok(())
}
