use crate::outside::{FileLibrary, OutSink};
use crate::progress::{Cleared, Progress};
use std::fmt::Display;
use std::io::ErrorKind;
use std::sync::atomic::{AtomicU64, Ordering};
use std::test::Fail;
use std::time::{Clock, Duration};
use std::{fs, io};
use uc_edge::{Fetched, Gate, Library, Sink, Written};

const FILE: &str = "uc_main_test.txt";

// how many bytes were fetched
fn length(answer: &Fetched) -> Option<usize> {
    match answer {
        Fetched::Found(text) => Some(text.len()),
        Fetched::Absent | Fetched::Failed => None,
    }
}

// one row a fetch: the name, how many bytes at most, how many come, and how many faults there were then
#[test]
fn files_of_the_system(rt: HostRuntime) -> Result<(), Fail> {
    let alloc = rt.alloc();
    fs::write(&rt, FILE, [b'x'; 20_000].as_slice())?;
    let mut library = FileLibrary::new(&rt);
    for (name, most, wanted, faults) in [
        (FILE, 20_001, Some(20_000), 0),
        (FILE, 20_000, Some(20_000), 0),
        (FILE, 10_000, Some(10_000), 0),
        (FILE, 0, Some(0), 0),
        ("uc_main_none.txt", 9, None, 0),
        (".", 9, None, 1),
        ("uc_main_test.txt/none", 9, None, 2),
    ] {
        let answer = library.fetch(alloc, name, most)?;
        assert_eq!(rt; length(&answer), wanted, "{name} {most}");
        assert_eq!(rt; library.faults(), faults, "{name} {most}");
    }
    fs::remove_file(&rt, FILE)?;
    Ok(())
}

// an output that takes two bytes a call, or none, or fails
#[derive(Clone, Copy)]
enum Pipe {
    TakesTwo,
    TakesNone,
    Fails,
}

fn broken<T>() -> io::Result<T> {
    Err(io::Error::from(ErrorKind::BrokenPipe))
}

impl Print for Pipe {
    fn print<D: Display + Drop>(&self, _value: D) -> io::Result<()> {
        broken()
    }

    fn println<D: Display + Drop>(&self, _value: D) -> io::Result<()> {
        broken()
    }

    fn write_all(&self, _bytes: &[u8]) -> io::Result<()> {
        broken()
    }

    fn write_some(&self, bytes: &[u8]) -> io::Result<usize> {
        match self {
            Pipe::TakesTwo => Ok(bytes.len().min(2)),
            Pipe::TakesNone => Ok(0),
            Pipe::Fails => Err(io::Error::from(ErrorKind::BrokenPipe)),
        }
    }
}

// one row an output: the piece, what comes, and how many faults there were then
#[test]
fn standard_output(rt: HostRuntime) {
    for (pipe, piece, wanted, faults) in [
        (Pipe::TakesTwo, "abc", Written::Taken(2), 0),
        (Pipe::TakesTwo, "", Written::Taken(0), 0),
        (Pipe::TakesNone, "abc", Written::Failed, 1),
        (Pipe::Fails, "abc", Written::Failed, 1),
        (Pipe::Fails, "", Written::Taken(0), 0),
    ] {
        let mut sink = OutSink::new(&pipe);
        assert_eq!(rt; sink.write(piece.as_bytes()), wanted);
        assert_eq!(rt; sink.faults(), faults);
    }
}

// a clock that goes on by so many seconds at each reading
#[derive(Drop)]
struct Ticking {
    seconds: AtomicU64,
    step: u64,
}

impl Clock for Ticking {
    fn monotonic(&self) -> io::Result<Duration> {
        let seconds = self.seconds.fetch_add(self.step, Ordering::SeqCst);
        Ok(Duration::from_secs(seconds % 1_000_000))
    }

    fn since_1970(&self) -> io::Result<Duration> {
        broken()
    }
}

// a screen that counts what is written on it
#[derive(Clone, Copy)]
struct Screen<'a> {
    written: &'a AtomicU64,
}

impl Screen<'_> {
    fn note(&self) -> io::Result<()> {
        self.written.fetch_add(1, Ordering::SeqCst);
        Ok(())
    }
}

impl Print for Screen<'_> {
    fn print<D: Display + Drop>(&self, _value: D) -> io::Result<()> {
        self.note()
    }

    fn println<D: Display + Drop>(&self, _value: D) -> io::Result<()> {
        broken()
    }

    fn write_all(&self, _bytes: &[u8]) -> io::Result<()> {
        broken()
    }
}

// one row a search: whether it is watched, the clock's step, how many tasks pass, how many lines there are then, and how many
// writes after an answer of two pieces
#[test]
fn lines_on_a_screen(rt: HostRuntime) {
    for (is_watched, step, tasks, lines, writes) in [
        (false, 1, 3, 0, 0),
        (true, 0, 3, 0, 0),
        (true, 1, 0, 0, 0),
        (true, 1, 3, 3, 4),
        (true, 5, 2, 2, 3),
    ] {
        let seconds = AtomicU64::new(0);
        let (clock, written) = (Ticking { seconds, step }, AtomicU64::new(0));
        let screen = Screen { written: &written };
        let progress = Progress::new(&clock, screen, is_watched);
        for ticket in 0..tasks {
            progress.pass(1, ticket);
        }
        assert_eq!(rt; written.load(Ordering::SeqCst), lines);
        let pipe = Pipe::TakesTwo;
        let mut sink = Cleared::new(OutSink::new(&pipe), &progress);
        assert_eq!(rt; sink.write(b"abc"), Written::Taken(2));
        assert_eq!(rt; sink.write(b"c"), Written::Taken(1));
        assert_eq!(rt; written.load(Ordering::SeqCst), writes);
    }
}
