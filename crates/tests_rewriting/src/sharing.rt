//! Questions that several workers answer, held at a gate.

use crate::deciding::{ASSOCIATIVE, Answer, BY_WEIGHT, is_answer, system};
use crate::orders::kbo_of;
use crate::terms::{Pair, term};
use std::alloc::Global;
use std::sync::atomic::{AtomicBool, AtomicU64, Ordering};
use std::test::Fail;
use std::thread;
use std::thread::Threads;
use uc_decide::{Reply, ask_all};
use uc_edge::Gate;
use uc_kbo::Kbo;
use uc_term::{Seq, Term};

// How often the gate looks for question 1 before it gives up.
const TURNS: u32 = 10_000_000;

// A gate that holds question 0 until question 1 has come.
#[derive(Drop)]
struct Holding {
    workers: u64,
    passes: AtomicU64,
    // The sum of 2 to the power of each ticket.
    tickets: AtomicU64,
    met: AtomicBool,
    wrong: AtomicBool,
}

impl Holding {
    // A gate for so many workers.
    fn new(workers: u32) -> Holding {
        Holding {
            workers: u64::from(workers),
            passes: AtomicU64::new(0),
            tickets: AtomicU64::new(0),
            met: AtomicBool::new(false),
            wrong: AtomicBool::new(false),
        }
    }

    // Waits until question 1 has come.
    fn hold(&self) {
        for _ in 0..TURNS {
            if self.tickets.load(Ordering::SeqCst) & 2 != 0 {
                self.met.store(true, Ordering::SeqCst);
                return;
            }
            thread::yield_now();
        }
    }

    // Whether the worker of this number is the one to whom the question belongs.
    fn is_owner(&self, worker: u32, ticket: u64) -> bool {
        match ticket.checked_rem(self.workers) {
            Some(place) => place + 1 == u64::from(worker),
            None => false,
        }
    }

    // Whether these questions passed, each once and by its worker, and question 1 while question 0 was held; with one worker, none.
    fn is_right(&self, count: u64, tickets: u64) -> bool {
        if self.workers == 1 {
            return self.passes.load(Ordering::SeqCst) == 0;
        }
        !self.wrong.load(Ordering::SeqCst)
            && self.passes.load(Ordering::SeqCst) == count
            && self.tickets.load(Ordering::SeqCst) == tickets
            && self.met.load(Ordering::SeqCst) == (count > 1)
    }
}

impl Gate for Holding {
    fn pass(&self, worker: u32, ticket: u64) {
        if !self.is_owner(worker, ticket) {
            self.wrong.store(true, Ordering::SeqCst);
        }
        self.passes.fetch_add(1, Ordering::SeqCst);
        self.tickets.fetch_add(1 << (ticket % 64), Ordering::SeqCst);
        if ticket == 0 {
            self.hold();
        }
    }
}

// Questions about m(m(X,Y),Z) = m(X,m(Y,Z)) and the replies with at most one step on each.
const ROWS: &[(Pair, Answer)] = &[
    ((b"abmcm", b"abcmm"), Answer::Equal(b"abcmm")),
    ((b"abmcm", b"abmcm"), Answer::Spent(1)),
    ((b"a", b"a"), Answer::Equal(b"a")),
    ((b"a", b"b"), Answer::Different(b"a", b"b")),
    ((b"abcmm", b"abmcm"), Answer::Equal(b"abcmm")),
    ((b"b", b"a"), Answer::Different(b"b", b"a")),
    ((b"abmcm", b"c"), Answer::Different(b"abcmm", b"c")),
];

const WORKERS: &[u32] = &[1, 2, 3, 7, 64];

fn questions_of(g: Global, rows: &[(Pair, Answer)]) -> Result<Vec<(Term, Term)>, Fail> {
    let mut questions = Vec::new(g);
    for ((s, t), _) in rows {
        questions.push((term(g, s)?, term(g, t)?))?;
    }
    Ok(questions)
}

// Whether the questions have their replies by so many workers, who pass the gate as they should.
fn are_replied<R: Threads + Sync>(
    rt: &R,
    g: Global,
    order: &Kbo,
    rows: &[(Pair, Answer)],
    tickets: u64,
    workers: u32,
) -> Result<bool, Fail> {
    let gate = Holding::new(workers);
    let replies = replies_of(rt, g, order, rows, workers, &gate)?;
    if !gate.is_right(rows.len() as u64, tickets) {
        return Ok(false);
    }
    are_right(g, replies.as_slice(), rows)
}

// The replies to the questions by so many workers.
fn replies_of<R: Threads + Sync>(
    rt: &R,
    g: Global,
    order: &Kbo,
    rows: &[(Pair, Answer)],
    workers: u32,
    gate: &Holding,
) -> Result<Seq<Reply>, Fail> {
    let system = system(g, ASSOCIATIVE)?;
    if system.facts.len() > 99 || workers < 1 || workers > 64 {
        return Err(Fail::from("too many"));
    }
    let questions = questions_of(g, rows)?;
    Ok(ask_all(rt, g, &system, order, &questions, 1, workers, gate)?)
}

fn are_right(g: Global, replies: &[Reply], rows: &[(Pair, Answer)]) -> Result<bool, Fail> {
    if replies.len() != rows.len() {
        return Ok(false);
    }
    for (reply, row) in replies.iter().zip(rows) {
        if !is_answer(g, reply, &row.1)? {
            return Ok(false);
        }
    }
    Ok(true)
}

#[test]
fn workers_reply_at_once(rt: HostRuntime) -> Result<(), Fail> {
    let g = rt.alloc();
    let order = kbo_of(g, BY_WEIGHT, 1, &[1, 1, 1, 1, 1, 1, 1], BY_WEIGHT)?;
    for workers in WORKERS {
        assert!(rt;
            are_replied(&rt, g, &order, ROWS, 0b111_1111, *workers)?,
            "{workers}"
        );
        assert!(rt; are_replied(&rt, g, &order, &[], 0, *workers)?, "{workers}");
    }
    Ok(())
}
