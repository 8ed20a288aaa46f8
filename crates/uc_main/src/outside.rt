//! The files of the system and the standard output. They tell nothing of what they hold, and count their faults.

ghost use Rattle.std.specs.Prelude.{◌≡◌, ◌++◌, ◌∷◌, ◌≤◌, [], None};
ghost use Rattle.uc_edge.specs.Faults.{next};

use std::alloc::{AllocError, Global};
use std::fs;
use std::io::{ErrorKind, Read};
use std::rt::Files;
use uc_edge::{Fetched, Library, Log, Logged, Sink, Written};
use uc_term::Text;

/// How many bytes of a file are read at once.
const CHUNK: usize = 8192;

/// The files of the system. A name that the system says it has no file of is absent; every other fault, of an opening or of a
/// read, is a failure.
#[derive(Drop)]
pub struct FileLibrary<'a, R: Files> {
    rt: &'a R,
    faults: u64,
    failed_at: Log,
}

impl<'a, R: Files> FileLibrary<'a, R> {
    /// The files of this system, with no failure counted yet.
    pub fn new(rt: &'a R) -> Self
        ensures { result.faults ≡ 0 }
    {
        FileLibrary {
            rt,
            faults: 0,
            failed_at: Log::new(),
        }
    }

    /// How many failures there were, up to the greatest `u64`.
    #[cfg(test)]
    pub fn faults(&self) -> u64
        ensures { result ≡ self.now.faults }
    {
        self.faults
    }

    // Counts a failure at this name.
    fn fail(&mut self, name: &str) -> Fetched
        ensures answer { result ≡ Fetched.Failed }
        ensures later { self.old.faults ≤ self.new.faults }
        ensures count { self.new.faults ≡ next self.old.faults }
        ensures name { self.new.failed_at.items ≡ self.old.failed_at.items ++ name.now ∷ [] }
    {
        self.faults = self.faults.saturating_add(1);
        let bytes = name.as_bytes();
        self.failed_at = self.failed_at.with(&Logged { bytes });
        Fetched::Failed
    }
}

impl<R: Files> Library for FileLibrary<'_, R> {
    ghost holds = { λ _. None };

    ghost faults = { λ library. library.faults };

    ghost failed_at = { λ library. library.failed_at.items };

    fn fetch(&mut self, alloc: Global, name: &str, most: usize) -> Result<Fetched, AllocError> {
        let mut file = match fs::open(self.rt, name) {
            Ok(file) => file,
            Err(fault) if fault.kind() == ErrorKind::NotFound => return Ok(Fetched::Absent),
            Err(_) => return Ok(self.fail(name)),
        };
        match read_most(alloc, &mut file, most)? {
            Some(text) => Ok(Fetched::Found(text)),
            None => Ok(self.fail(name)),
        }
    }
}

// The first bytes of a file, at most so many; none where a read fails. Each turn but the last takes at least one byte.
fn read_most<F: Read>(
    alloc: Global,
    file: &mut F,
    most: usize,
) -> Result<Option<Text>, AllocError> {
    let mut text = Text::new(alloc);
    let mut buffer = [0u8; CHUNK];
    for _ in 0..=most {
        let wanted = CHUNK.min(most.saturating_sub(text.len()));
        match file.read(&mut buffer[..wanted]) {
            Ok(0) => break,
            Ok(taken) => text.extend(&buffer[..taken])?,
            Err(_) => return Ok(None),
        }
    }
    Ok(Some(text))
}

/// The standard output. A write that fails, or that takes nothing of a piece, is a fault.
#[derive(Drop)]
pub struct OutSink<'a, P: Print> {
    rt: &'a P,
    faults: u64,
    pieces: Log,
}

impl<'a, P: Print> OutSink<'a, P> {
    /// This standard output, with no failure counted yet.
    pub fn new(rt: &'a P) -> Self
        ensures { result.faults ≡ 0 }
    {
        OutSink {
            rt,
            faults: 0,
            pieces: Log::new(),
        }
    }

    /// How many failures there were, up to the greatest `u64`.
    #[cfg(test)]
    pub fn faults(&self) -> u64
        ensures { result ≡ self.now.faults }
    {
        self.faults
    }
}

impl<P: Print> Sink for OutSink<'_, P> {
    ghost written = { λ _. None };

    ghost faults = { λ sink. sink.faults };

    ghost pieces = { λ sink. sink.pieces.items };

    fn write(&mut self, piece: &[u8]) -> Written {
        self.pieces = self.pieces.with(&Logged { bytes: piece });
        if piece.is_empty() {
            return Written::Taken(0);
        }
        match self.rt.write_some(piece) {
            Ok(taken) if taken > 0 => Written::Taken(taken),
            _ => {
                self.faults = self.faults.saturating_add(1);
                Written::Failed
            }
        }
    }
}
