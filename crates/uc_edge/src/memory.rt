// A library and a sink in memory. They fail at the calls whose numbers, from 1, are listed.

ghost use Rattle.std.specs.Prelude.{◌≡◌, ◌==◌, ◌≤◌, [], length, Ok, IfOk, Some};
ghost use Rattle.std.specs.List.{list_any};
ghost use Rattle.std.specs.Option.{option_copied};
ghost use Rattle.uc_edge.specs.Faults.{IsCounted};
ghost use Rattle.uc_edge.specs.Files.{content, failing};

use crate::{Fetched, Library, Log, Logged, Sink, Written};
use std::alloc::{AllocError, Global};
use std::marker::Model;
use uc_term::Text;

/// The bytes for which `MemorySink::new` makes room.
const SINK_ROOM: usize = 1_048_576;

/// Which calls fail, how many there were, and how many failed.
#[derive(Drop)]
struct Failures {
    failing: Vec<u32>,
    calls: u64,
    faults: u64,
}

impl Model for Failures {
    ghost use Rattle.uc_edge.specs.Holding.{Plan};

    ghost Value = { Plan };

    ghost view = { λ f. record { failing = f.failing.items; calls = f.calls; faults = f.faults } };
}

impl Failures {
    ghost use Rattle.uc_edge.specs.Memory.{fresh, called, raised, fails_next};

    fn new(failing: Vec<u32>) -> Failures
        ensures { result ≡ fresh failing.items }
    {
        Failures {
            failing,
            calls: 0,
            faults: 0,
        }
    }

    // Counts a call, and says whether it is one that fails.
    fn call(&mut self) -> bool
        ensures listed { result ≡ fails_next self.old }
        ensures counted { self.new ≡ called self.old }
    {
        self.calls = self.calls.saturating_add(1);
        let call = self.calls;
        self.failing.iter().any(|n| u64::from(*n) == call)
    }

    // Counts a failure.
    fn raise(&mut self)
        ensures { self.new ≡ raised self.old }
    {
        self.faults = self.faults.saturating_add(1);
    }
}

/// A library in memory.
#[derive(Drop)]
pub struct MemoryLibrary {
    files: Vec<(Text, Text)>,
    failures: Failures,
    failed_at: Log,
}

impl Model for MemoryLibrary {
    ghost use Rattle.uc_edge.specs.Holding.{Holding};

    ghost Value = { Holding };

    ghost view = { λ m. record { files = m.files.items; plan = m.failures; failed_at = m.failed_at.items } };
}

impl MemoryLibrary {
    ghost use Rattle.uc_edge.specs.Memory.{fresh};

    /// A library of files with their names, of which the first of a name counts. It fails at the calls whose numbers,
    /// from 1, are listed, and at no other. It never answers want of memory.
    pub fn new(
        _alloc: Global,
        files: Vec<(Text, Text)>,
        failing: Vec<u32>,
    ) -> Result<MemoryLibrary, AllocError>
        ensures { result ≡ Ok (record { files = files.items; plan = fresh failing.items; failed_at = [] }) }
    {
        Ok(MemoryLibrary {
            files,
            failures: Failures::new(failing),
            failed_at: Log::new(),
        })
    }
}

impl Library for MemoryLibrary {
    ghost use Rattle.uc_edge.specs.Memory.{answer_of, after_fetch};

    ghost holds = { λ m. Some m.files };

    ghost faults = { λ m. m.plan.faults };

    ghost failed_at = { λ m. m.failed_at };

    fn fetch(&mut self, alloc: Global, name: &str, most: usize) -> Result<Fetched, AllocError>
        ensures exactly { IfOk result (λ answer. answer ≡ answer_of self.old name.now most) }
        ensures after { self.new ≡ after_fetch self.old name.now }
        ensures counted { IsCounted (failing name.now result) self.old.plan.faults self.new.plan.faults self.old.failed_at self.new.failed_at }
    {
        if self.failures.call() {
            self.failures.raise();
            let bytes = name.as_bytes();
            self.failed_at = self.failed_at.with(&Logged { bytes });
            return Ok(Fetched::Failed);
        }
        let Some(bytes) = find(&self.files, name.as_bytes()) else {
            return Ok(Fetched::Absent);
        };
        let (front, _) = bytes.split_at(most.min(bytes.len()));
        Ok(Fetched::Found(Text::from_bytes(alloc, front)?))
    }
}

// The content of the first file of this name.
fn find<'a>(files: &'a [(Text, Text)], name: &[u8]) -> Option<&'a [u8]>
    ensures { option_copied result ≡ content files.now name.now }
{
    for file in files {
        if file.0.as_bytes() == name {
            return Some(file.1.as_bytes());
        }
    }
    None
}

/// A sink in memory.
#[derive(Drop)]
pub struct MemorySink {
    bytes: Vec<u8>,
    room: usize,
    failures: Failures,
    pieces: Log,
}

impl Model for MemorySink {
    ghost use Rattle.std.specs.Prelude.{◌≤◌, length, vec_capacity};
    ghost use Rattle.uc_edge.specs.Holding.{Given};

    ghost Value = { Given };

    ghost view = { λ s. record { bytes = s.bytes.items; room = s.room; plan = s.failures; pieces = s.pieces.items } };

    ghost invariant = { λ s. (length s.bytes.items ≤ s.room) × (s.room ≤ vec_capacity s.bytes) };
}

impl MemorySink {
    ghost use Rattle.uc_edge.specs.Memory.{fresh};

    /// A sink with room for this many bytes, which it takes at once. It fails at the calls whose numbers, from 1, are
    /// listed, and where a piece doesn't fit, and at no other.
    pub fn with_room(
        alloc: Global,
        room: usize,
        failing: Vec<u32>,
    ) -> Result<MemorySink, AllocError>
        ensures { IfOk result (λ sink. sink ≡ record { bytes = []; room = room; plan = fresh failing.items; pieces = [] }) }
    {
        Ok(MemorySink {
            bytes: Vec::with_capacity(alloc, room)?,
            room,
            failures: Failures::new(failing),
            pieces: Log::new(),
        })
    }

    /// A sink with room for 1,048,576 bytes.
    pub fn new(alloc: Global, failing: Vec<u32>) -> Result<MemorySink, AllocError>
        ensures { IfOk result (λ sink. sink ≡ record { bytes = []; room = 1_048_576; plan = fresh failing.items; pieces = [] }) }
    {
        MemorySink::with_room(alloc, SINK_ROOM, failing)
    }

    /// What has been written.
    pub fn bytes(&self) -> &[u8]
        ensures { result.now ≡ self.now.bytes }
    {
        &self.bytes
    }
}

impl Sink for MemorySink {
    ghost use Rattle.uc_edge.specs.Memory.{taken, after_write};

    ghost written = { λ s. Some s.bytes };

    ghost faults = { λ s. s.plan.faults };

    ghost pieces = { λ s. s.pieces };

    fn write(&mut self, piece: &[u8]) -> Written
        ensures exactly { result ≡ taken self.old piece.now }
        ensures after { self.new ≡ after_write self.old piece.now }
    {
        let listed = self.failures.call();
        self.pieces = self.pieces.with(&Logged { bytes: piece });
        if listed || self.room - self.bytes.len() < piece.len() {
            self.failures.raise();
            return Written::Failed;
        }
        match self.bytes.extend_from_slice(piece) {
            Ok(()) => Written::Taken(piece.len()),
            Err(_) => Written::Failed,
        }
    }
}
