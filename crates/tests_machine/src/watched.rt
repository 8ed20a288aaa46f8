//! An order that watches whether two threads compare at once.

use crate::workers::TURNS;
use std::sync::atomic::{AtomicBool, AtomicU64, Ordering};
use std::thread;
use uc_kbo::Kbo;
use uc_order::{Cmp, Order, VarOrder};
use uc_term::{Node, Sym};

/// An order in which a call of `compare` that is alone waits for a second one, until two were in progress together or one has
/// looked for another too often. Calls on small terms neither wait nor are seen.
#[derive(Drop)]
pub struct Watched {
    order: Kbo,
    // The least number of nodes of two terms whose comparison is watched.
    least: usize,
    // How often a call that is alone looks for another one.
    turns: u32,
    inside: AtomicU64,
    settled: AtomicBool,
    met: AtomicBool,
}

impl Watched {
    /// An order in which all calls wait from now on.
    pub fn new(order: Kbo) -> Watched {
        let watched = Watched::idle(order, 1, TURNS);
        watched.watch();
        watched
    }

    /// An order in which no call waits yet, and of those later only the ones on terms of so many nodes, for so many turns.
    pub fn idle(order: Kbo, least: usize, turns: u32) -> Watched {
        Watched {
            order,
            least,
            turns,
            inside: AtomicU64::new(0),
            settled: AtomicBool::new(true),
            met: AtomicBool::new(false),
        }
    }

    /// Lets calls wait from now on.
    pub fn watch(&self) {
        self.met.store(false, Ordering::SeqCst);
        self.settled.store(false, Ordering::SeqCst);
    }

    /// Whether two calls were in progress together since, before one gave up.
    pub fn have_met(&self) -> bool {
        self.met.load(Ordering::SeqCst)
    }

    // A call begins.
    fn enter(&self) {
        let others = self.inside.fetch_add(1, Ordering::SeqCst);
        if others > 0 && !self.settled.load(Ordering::SeqCst) {
            self.met.store(true, Ordering::SeqCst);
            self.settled.store(true, Ordering::SeqCst);
        }
        self.wait();
    }

    // Waits until two calls were in progress together, or one has waited for too long.
    fn wait(&self) {
        for _ in 0..self.turns {
            if self.settled.load(Ordering::SeqCst) {
                return;
            }
            thread::yield_now();
        }
        self.settled.store(true, Ordering::SeqCst);
    }

    // It ends.
    fn leave(&self) {
        self.inside.fetch_sub(1, Ordering::SeqCst);
    }
}

impl Order for Watched {
    ghost use Rattle.uc_kbo.specs.Weights.{kbo_meaning};
    ghost use Rattle.uc_kbo.specs.Laws.{kbo_laws};

    ghost meaning = { λ w. kbo_meaning w.order.weights.w0 w.order.entries.items };

    ghost laws = { λ w. kbo_laws w.order.weights.w0 w.order.entries.items w.order.valid };

    fn compare(&self, s: &[Node], t: &[Node]) -> Cmp {
        if s.len().min(t.len()) < self.least {
            return self.order.compare(s, t);
        }
        self.enter();
        let cmp = self.order.compare(s, t);
        self.leave();
        cmp
    }

    fn compare_under(&self, cases: &VarOrder, s: &[Node], t: &[Node]) -> Cmp {
        self.order.compare_under(cases, s, t)
    }

    fn least(&self) -> Sym {
        self.order.least()
    }
}
