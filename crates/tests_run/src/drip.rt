//! A sink that takes a little of each piece.

use crate::given::{status_of, text};
use std::alloc::{AllocError, Global};
use std::sync::Wait;
use std::test::Fail;
use std::thread::Threads;
use uc_edge::{Log, Logged, Sink, Written};

const PROBLEM: &str = "cnf(g, negated_conjecture, a != a).\n";

const PROOF: &str = "% SZS status Unsatisfiable for r4.p
% SZS output start CNFRefutation for r4.p
cnf(p1, negated_conjecture, a != a, file('r4.p', g)).
cnf(p2, plain, a = a, inference(chain, [a], [])).
cnf(p3, plain, $false, inference(refute, [], [p1, p2])).
% SZS output end CNFRefutation for r4.p
";

// The bytes that the sink below takes a call.
const DRIP: usize = 7;

// A sink that takes only so many bytes a call, and fails once no call is left.
#[derive(Drop)]
struct Drip {
    bytes: Vec<u8>,
    calls: u32,
    faults: u64,
    pieces: Log,
}

impl Sink for Drip {
    ghost use Rattle.std.specs.Prelude.{None};

    ghost written = { λ _. None };

    ghost faults = { λ d. d.faults };

    ghost pieces = { λ d. d.pieces.items };

    fn write(&mut self, piece: &[u8]) -> Written {
        self.pieces = self.pieces.with(&Logged { bytes: piece });
        let taken = piece.len().min(DRIP);
        let (front, _) = piece.split_at(taken);
        if self.calls == 0 || self.bytes.extend_from_slice(front).is_err() {
            self.faults = self.faults.saturating_add(1);
            return Written::Failed;
        }
        self.calls = self.calls.saturating_sub(1);
        Written::Taken(taken)
    }
}

// How many calls there are; the status; and how many bytes of the answer are written, which has 279, its first line 36.
const DRIPS: [(u32, u8, usize); 5] = [
    (0, 6, 0),
    (5, 6, 35),
    (6, 6, 36),
    (7, 6, 43),
    (1000, 0, 279),
];

// Whether so many bytes are written to such a sink, which is called no more once it failed.
fn is_dripped<R: Threads + Wait + Sync>(
    rt: &R,
    alloc: Global,
    calls: u32,
    wanted: u8,
    length: usize,
) -> Result<bool, AllocError> {
    let mut drip = Drip {
        bytes: Vec::new(alloc),
        calls,
        faults: 0,
        pieces: Log::new(),
    };
    let files = vec![in alloc; (text(alloc, "r4.p")?, text(alloc, PROBLEM)?)]?;
    let status = status_of(rt, alloc, &["prove", "r4.p"], files, &mut drip)?;
    Ok(
        status == wanted
            && PROOF.as_bytes().get(..length) == Some(drip.bytes.as_slice())
            && drip.faults == u64::from(status == 6),
    )
}

#[test]
fn sinks_may_take_little(rt: HostRuntime) -> Result<(), Fail> {
    for (calls, status, length) in DRIPS {
        assert!(rt;
            is_dripped(&rt, rt.alloc(), calls, status, length)?,
            "{calls}"
        );
    }
    Ok(())
}
