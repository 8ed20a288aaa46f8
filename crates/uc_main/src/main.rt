//! The program `uc`: the words of its command line, the files of the system and the standard output, given to `run`.
#![tactic(auto)]

mod outside;
mod progress;
#[cfg(test)]
mod tests;

use outside::{FileLibrary, OutSink};
use progress::{Cleared, Progress, is_asked};
use std::io::{ErrorKind, IsTerminal};
use std::process::ExitCode;
use std::rt::Env;
use std::{env, io};
use uc_top::{run, tell_memory_out};

// The words after the program's name.
fn words(rt: &(impl Env + AllocGlobal)) -> io::Result<Vec<String>> {
    let mut words = Vec::new(rt.alloc());
    for word in env::args(rt)?.skip(1) {
        words.push(word)?;
    }
    Ok(words)
}

fn main(rt: HostRuntime) -> ExitCode {
    let mut library = FileLibrary::new(&rt);
    let screen = rt.stderr();
    let is_watched = screen.is_terminal() || is_asked(&rt);
    let progress = Progress::new(&rt, screen, is_watched);
    let mut sink = Cleared::new(OutSink::new(&rt), &progress);
    let words = match words(&rt) {
        Ok(words) => words,
        Err(fault) if fault.kind() == ErrorKind::OutOfMemory => {
            return ExitCode::from(tell_memory_out(&mut sink));
        }
        // A word that isn't text has no reading, and neither have no words.
        Err(_) => Vec::new(rt.alloc()),
    };
    ExitCode::from(run(&rt, rt.alloc(), &words, &mut library, &mut sink, &progress))
}
