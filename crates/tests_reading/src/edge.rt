use std::alloc::{AllocError, Global};
use std::test::Fail;
use uc_edge::{
    Fetched, Gate, Library, Log, Logged, MemoryLibrary, MemorySink, NoGate, Sink, WriteFault,
    Written, put,
};
use uc_term::Text;

fn text(alloc: Global, text: &str) -> Result<Text, AllocError> {
    Text::from_bytes(alloc, text.as_bytes())
}

// what a fetch answered, as words
fn told(answer: &Fetched) -> &[u8] {
    match answer {
        Fetched::Found(text) => text.as_bytes(),
        Fetched::Absent => b"absent",
        Fetched::Failed => b"failed",
    }
}

const FILES: &[(&str, &str)] = &[
    ("a.p", "first"),
    ("", "no name"),
    ("a.p", "second"),
    ("e", ""),
];

// the library of these files, whose calls of these numbers fail
fn library(
    alloc: Global,
    files: &[(&str, &str)],
    failing: &[u32],
) -> Result<MemoryLibrary, AllocError> {
    let mut list = Vec::new(alloc);
    for (name, bytes) in files {
        list.push((text(alloc, name)?, text(alloc, bytes)?))?;
    }
    MemoryLibrary::new(alloc, list, Vec::from_slice(alloc, failing)?)
}

// one row a fetch: the name, how many bytes at most, what comes; the third call and the last one are listed
const FETCHES: &[(&str, usize, &str)] = &[
    ("a.p", 9, "first"),
    ("a.p", 2, "fi"),
    ("a.p", 9, "failed"),
    ("a.p", 5, "first"),
    ("a", 9, "absent"),
    ("e", 9, ""),
    ("", 100, "no name"),
    ("a.p", 0, ""),
    ("a", 9, "failed"),
];

fn fetches(
    alloc: Global,
    library: &mut MemoryLibrary,
    name: &str,
    most: usize,
    wanted: &str,
) -> Result<bool, AllocError> {
    let answer = library.fetch(alloc, name, most)?;
    Ok(told(&answer) == wanted.as_bytes())
}

#[test]
fn library_in_memory(rt: HostRuntime) -> Result<(), Fail> {
    let mut library = library(rt.alloc(), FILES, &[9, 3])?;
    for (name, most, wanted) in FETCHES {
        assert!(rt;
            fetches(rt.alloc(), &mut library, name, *most, wanted)?,
            "{name} {most}"
        );
    }
    Ok(())
}

// one row a write: the piece, what comes and what stands written then; the second call is listed, the room is five bytes
const WRITES: &[(&str, Written, &str)] = &[
    ("ab", Written::Taken(2), "ab"),
    ("c", Written::Failed, "ab"),
    ("", Written::Taken(0), "ab"),
    ("cdef", Written::Failed, "ab"),
    ("cde", Written::Taken(3), "abcde"),
    ("f", Written::Failed, "abcde"),
];

#[test]
fn sink_in_memory(rt: HostRuntime) -> Result<(), Fail> {
    let failing = vec![in rt.alloc(); 2]?;
    let mut sink = MemorySink::with_room(rt.alloc(), 5, failing)?;
    for (piece, wanted, written) in WRITES {
        assert!(rt; sink.write(piece.as_bytes()) == *wanted && sink.bytes() == written.as_bytes());
    }
    Ok(())
}

// a sink that takes one byte a call, and fails once none is left to take
#[derive(Drop)]
struct Drip {
    left: usize,
    faults: u64,
    pieces: Log,
}

impl Sink for Drip {
    ghost use Rattle.std.specs.Prelude.{None};

    ghost written = { λ _. None };

    ghost faults = { λ d. d.faults };

    ghost pieces = { λ d. d.pieces.items };

    fn write(&mut self, piece: &[u8]) -> Written {
        self.pieces = self.pieces.with(&Logged { bytes: piece });
        if self.left == 0 {
            self.faults = self.faults.saturating_add(1);
            return Written::Failed;
        }
        self.left -= 1;
        Written::Taken(piece.len().min(1))
    }
}

#[test]
fn whole_pieces(rt: HostRuntime) -> Result<(), Fail> {
    let alloc = rt.alloc();
    let mut sink = MemorySink::new(alloc, Vec::new(alloc))?;
    assert!(rt; put(&mut sink, b"one ").is_ok() && put(&mut sink, b"two").is_ok());
    assert!(rt; sink.bytes() == b"one two".as_slice());
    Ok(())
}

#[test]
fn pieces_byte_by_byte(rt: HostRuntime) -> Result<(), Fail> {
    let mut drip = Drip {
        left: 4,
        faults: 0,
        pieces: Log::new(),
    };
    assert!(rt; put(&mut drip, b"abc").is_ok() && put(&mut drip, b"").is_ok());
    assert!(rt; put(&mut drip, b"de") == Err(WriteFault) && drip.left == 0);
    NoGate.pass(1, 7);
    Ok(())
}
