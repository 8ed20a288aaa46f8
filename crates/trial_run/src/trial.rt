//! The runs of a case.

use crate::case::{Case, Named, Writes, find};
use crate::line::{Span, put_numbered};
use std::alloc::{AllocError, Global};
use std::sync::Wait;
use std::thread::Threads;
use uc_edge::{MemoryLibrary, MemorySink, NoGate};
use uc_term::Text;
use uc_top::run;

/// What a run came to.
#[derive(Drop)]
pub struct Told {
    pub status: u8,
    pub text: Text,
}

/// What was to come of a run, and what came.
#[derive(Drop)]
pub struct Difference {
    pub wanted: Told,
    pub given: Told,
}

/// Tries a case that says what is to be written. None where it ends as it says, else the first run that doesn't.
pub fn try_case<R: Threads + Wait + Sync>(
    rt: &R,
    alloc: Global,
    case: &Case,
    status: u8,
    answer: &Text,
    library: &[Named],
) -> Result<Option<Difference>, AllocError> {
    match (&case.cut, &case.writes) {
        (Some((name, span)), _) => {
            try_cuts(rt, alloc, case, name, *span, status, answer, library)
        }
        (None, Writes::Each) => try_each_write(rt, alloc, case, status, answer, library),
        (None, Writes::Listed(writes)) => {
            let wanted = Told {
                status,
                text: answer.copy(alloc)?,
            };
            let writes = Vec::from_slice(alloc, writes)?;
            let files = files_of(alloc, case, library)?;
            compare(rt, alloc, case, files, writes, wanted)
        }
    }
}

// Tries the case with a file cut before each byte whose number is in the span.
fn try_cuts<R: Threads + Wait + Sync>(
    rt: &R,
    alloc: Global,
    case: &Case,
    name: &Text,
    span: Span,
    status: u8,
    answer: &Text,
    library: &[Named],
) -> Result<Option<Difference>, AllocError> {
    for number in span.from..=span.to {
        let mut text = Text::new(alloc);
        put_numbered(alloc, &mut text, answer.as_bytes(), number)?;
        let files = cut_files(alloc, case, name, number, library)?;
        let wanted = Told { status, text };
        let difference = compare(rt, alloc, case, files, Vec::new(alloc), wanted)?;
        if difference.is_some() {
            return Ok(difference);
        }
    }
    Ok(None)
}

// The files of the case, of which one is cut before the byte of this number.
fn cut_files(
    alloc: Global,
    case: &Case,
    name: &Text,
    number: u32,
    library: &[Named],
) -> Result<Vec<Named>, AllocError> {
    let mut files = Vec::new(alloc);
    let whole = find(&case.files, name.as_bytes()).or(find(library, name.as_bytes()));
    if let Some(text) = whole {
        let length = (number as usize).saturating_sub(1).min(text.len());
        let (front, _) = text.as_bytes().split_at(length);
        files.push((name.copy(alloc)?, Text::from_bytes(alloc, front)?))?;
    }
    add_files(alloc, &mut files, &case.files)?;
    add_files(alloc, &mut files, library)?;
    Ok(files)
}

// Tries the case with each write failing in a run of its own, and then with none. A run whose write fails ends with status 6, and
// the lines before it are written.
fn try_each_write<R: Threads + Wait + Sync>(
    rt: &R,
    alloc: Global,
    case: &Case,
    status: u8,
    answer: &Text,
    library: &[Named],
) -> Result<Option<Difference>, AllocError> {
    let mut text = Text::new(alloc);
    let mut number = 1;
    for line in answer.as_bytes().split(|byte| *byte == b'\n') {
        let is_last = text.len() == answer.len();
        let wanted = Told {
            status: if is_last { status } else { 6 },
            text: text.copy(alloc)?,
        };
        let writes = vec![in alloc; number]?;
        let files = files_of(alloc, case, library)?;
        let difference = compare(rt, alloc, case, files, writes, wanted)?;
        if difference.is_some() {
            return Ok(difference);
        }
        text.extend(line)?;
        text.push(b'\n')?;
        number = number.saturating_add(1);
    }
    Ok(None)
}

fn add_files(alloc: Global, out: &mut Vec<Named>, files: &[Named]) -> Result<(), AllocError> {
    for (name, text) in files.iter().rev() {
        out.push((name.copy(alloc)?, text.copy(alloc)?))?;
    }
    Ok(())
}

// The files of the case, and behind them those of the library; of a name the last one in each comes first.
fn files_of(alloc: Global, case: &Case, library: &[Named]) -> Result<Vec<Named>, AllocError> {
    let mut files = Vec::new(alloc);
    add_files(alloc, &mut files, &case.files)?;
    add_files(alloc, &mut files, library)?;
    Ok(files)
}

/// Runs the case, with no write that fails.
pub fn run_once<R: Threads + Wait + Sync>(
    rt: &R,
    alloc: Global,
    case: &Case,
    library: &[Named],
) -> Result<Told, AllocError> {
    let files = files_of(alloc, case, library)?;
    run_over(rt, alloc, case, files, Vec::new(alloc))
}

// What the words of the case come to over these files, where these writes fail.
fn run_over<R: Threads + Wait + Sync>(
    rt: &R,
    alloc: Global,
    case: &Case,
    files: Vec<Named>,
    writes: Vec<u32>,
) -> Result<Told, AllocError> {
    let fetches = Vec::from_slice(alloc, &case.fetches)?;
    let mut library = MemoryLibrary::new(alloc, files, fetches)?;
    let mut sink = MemorySink::with_room(alloc, case.room, writes)?;
    let status = run(rt, alloc, &case.words, &mut library, &mut sink, &NoGate);
    let text = Text::from_bytes(alloc, sink.bytes())?;
    Ok(Told { status, text })
}

fn compare<R: Threads + Wait + Sync>(
    rt: &R,
    alloc: Global,
    case: &Case,
    files: Vec<Named>,
    writes: Vec<u32>,
    wanted: Told,
) -> Result<Option<Difference>, AllocError> {
    let given = run_over(rt, alloc, case, files, writes)?;
    if given.status == wanted.status && given.text.same(&wanted.text) {
        Ok(None)
    } else {
        Ok(Some(Difference { wanted, given }))
    }
}
