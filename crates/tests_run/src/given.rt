//! What tests give to the program.

use std::alloc::{AllocError, Global};
use std::sync::Wait;
use std::test::Fail;
use std::thread::Threads;
use uc_edge::{Gate, MemoryLibrary, MemorySink, NoGate, Sink};
use uc_term::Text;
use uc_top::run;

pub(crate) fn text(alloc: Global, text: &str) -> Result<Text, AllocError> {
    Text::from_bytes(alloc, text.as_bytes())
}

pub(crate) fn strings(alloc: Global, words: &[&str]) -> Result<Vec<String>, AllocError> {
    let mut all = Vec::new(alloc);
    for word in words {
        all.push(String::from_str(alloc, word)?)?;
    }
    Ok(all)
}

// The status of the words over these files, by which the sink is told.
pub(crate) fn status_of<R: Threads + Wait + Sync, S: Sink>(
    rt: &R,
    alloc: Global,
    words: &[&str],
    files: Vec<(Text, Text)>,
    sink: &mut S,
) -> Result<u8, AllocError> {
    let mut library = MemoryLibrary::new(alloc, files, Vec::new(alloc))?;
    let words = strings(alloc, words)?;
    Ok(run(rt, alloc, &words, &mut library, sink, &NoGate))
}

// The status and the text of the words over one file, given by its name and its text, with this gate.
pub(crate) fn told_at<R: Threads + Wait + Sync, G: Gate + Sync>(
    rt: &R,
    alloc: Global,
    words: &[&str],
    file: (&str, &str),
    gate: &G,
) -> Result<(u8, String), Fail> {
    let files = vec![in alloc; (text(alloc, file.0)?, text(alloc, file.1)?)]?;
    let mut library = MemoryLibrary::new(alloc, files, Vec::new(alloc))?;
    let mut sink = MemorySink::new(alloc, Vec::new(alloc))?;
    let words = strings(alloc, words)?;
    let status = run(rt, alloc, &words, &mut library, &mut sink, gate);
    let told = String::from_str(alloc, str::from_utf8(sink.bytes())?)?;
    Ok((status, told))
}
