//! What the commands that load a problem share.

ghost use Rattle.std.specs.Prelude.{◌≡◌, ◌≤◌, codes, IfOk, IfErr};
ghost use Rattle.std.specs.Option.{option_copied};
ghost use Rattle.uc_edge.specs.Faults.{IsCounted};
ghost use Rattle.uc_edge.specs.Files.{failing};
ghost use Rattle.uc_problem.specs.Fetching.{IsFaulted};
ghost use Rattle.uc_answer.specs.Lines.{joined, about_file};
ghost use Rattle.uc_top.specs.FileAnswers.{IsTextFetched};
ghost use Rattle.uc_top.specs.HandedOn.{IsHeld, IsUnheld, IsHandedOn, IsHandFaulted};

use std::alloc::{AllocError, Global};
use uc_answer::{Answer, READ_FAULT, REFUSED, about_file, load_answer, of_line};
use uc_edge::{Fetched, Library};
use uc_problem::{LoadFault, Problem, load};
use uc_term::{Symbols, Text};

// The bytes of a root, where one is given.
fn bytes_of(root: Option<&Text>) -> Option<&[u8]>
    ensures { option_copied result ≡ option_copied root.entry }
{
    match root {
        Some(root) => Some(root.as_bytes()),
        None => None,
    }
}

/// Loads the problem file of this name, with a table of its own for the symbols.
pub(crate) fn load_held<L: Library>(
    alloc: Global,
    root: Option<&Text>,
    name: &Text,
    library: &mut L,
) -> Result<(Problem, Symbols), LoadFault>
    ensures held { IfOk result (λ held. IsHeld (L.holds library.old) (option_copied root.entry) name.now held.1 held.0) }
    ensures unheld { IfErr result (IsUnheld (L.holds library.old) (L.faults library.old) (L.faults library.new) (option_copied root.entry) name.now) }
    ensures same { L.holds library.new ≡ L.holds library.old }
    ensures later { L.faults library.old ≤ L.faults library.new }
    ensures counted { IsFaulted result (L.faults library.old) (L.faults library.new) (L.failed_at library.old) (L.failed_at library.new) }
{
    let root = bytes_of(root);
    let name = name.as_bytes();
    let mut symbols = Symbols::new(alloc);
    match load(alloc, library, root, name, &mut symbols) {
        Ok(problem) => Ok((problem, symbols)),
        Err(fault) => Err(fault),
    }
}

/// What loading a problem file hands on to a command.
#[derive(Drop)]
pub(crate) enum Loaded {
    /// No problem is loaded, and this answers the command.
    Refused(Answer),
    /// The problem, with its symbols in this table.
    Held(Problem, Symbols),
}

/// Loads the problem file of this name, or answers the command with the reason why there is none.
pub(crate) fn load_problem<L: Library>(
    alloc: Global,
    root: Option<&Text>,
    name: &Text,
    library: &mut L,
) -> Result<Loaded, AllocError>
    ensures handed { IfOk result (IsHandedOn (L.holds library.old) (L.faults library.old) (L.faults library.new) (option_copied root.entry) name.now) }
    ensures same { L.holds library.new ≡ L.holds library.old }
    ensures later { L.faults library.old ≤ L.faults library.new }
    ensures faulted { IsHandFaulted (L.faults library.old) (L.faults library.new) (L.failed_at library.old) (L.failed_at library.new) result }
{
    match load_held(alloc, root, name, library) {
        Ok((problem, symbols)) => Ok(Loaded::Held(problem, symbols)),
        Err(fault) => Ok(Loaded::Refused(load_answer(alloc, &fault)?)),
    }
}

// What the library has under the name of a file beside the problem's, cut behind so many bytes.
pub(crate) fn fetch_text<L: Library>(
    alloc: Global,
    library: &mut L,
    name: &[u8],
    most: usize,
) -> Result<Fetched, AllocError>
    ensures fetched { IfOk result (IsTextFetched most (L.holds library.old) (L.faults library.old) (L.faults library.new) name.now) }
    ensures same { L.holds library.new ≡ L.holds library.old }
    ensures later { L.faults library.old ≤ L.faults library.new }
    ensures counted { IsCounted (failing name.now result) (L.faults library.old) (L.faults library.new) (L.failed_at library.old) (L.failed_at library.new) }
{
    match str::from_utf8(name) {
        Ok(name) => library.fetch(alloc, name, most),
        Err(_) => Ok(Fetched::Absent),
    }
}

// The answer for such a file that isn't there.
pub(crate) fn absent_answer(alloc: Global, file: &[u8]) -> Result<Answer, AllocError>
    ensures { IfOk result (λ answer. (answer.status ≡ 3) × (joined answer.lines ≡ about_file file.now (codes "Absent"))) }
{
    of_line(alloc, REFUSED, about_file(alloc, file, b"Absent")?)
}

// The answer where the fetch of such a file failed.
pub(crate) fn failed_answer(alloc: Global, file: &[u8]) -> Result<Answer, AllocError>
    ensures { IfOk result (λ answer. (answer.status ≡ 5) × (joined answer.lines ≡ about_file file.now (codes "ReadFault"))) }
{
    of_line(alloc, READ_FAULT, about_file(alloc, file, b"ReadFault")?)
}
