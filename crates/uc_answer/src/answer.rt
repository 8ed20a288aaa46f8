//! An answer: its status and its lines.

ghost use Rattle.std.specs.Prelude.{◌≡◌, IfOk};
ghost use Rattle.uc_answer.specs.Lines.{joined, usage_line};

use std::alloc::{AllocError, Global};
use uc_term::{Seq, Text};

/// Holds an answer: its status, one of the constants beside it, and its lines, each with its line feed.
#[derive(Drop)]
pub struct Answer {
    pub status: u8,
    pub lines: Seq<Text>,
}

/// Says that what was asked for is done.
pub const DONE: u8 = 0;

/// Says that it is done, and the answer is no.
pub const NO: u8 = 1;

/// Says that a limit ended it.
pub const STOPPED: u8 = 2;

/// Says that a file is refused, or isn't there.
pub const REFUSED: u8 = 3;

/// Says that the words of the command line, or the order that they name, are refused.
pub const USAGE: u8 = 4;

/// Says that the library failed.
pub const READ_FAULT: u8 = 5;

/// Says that memory is wanted.
pub const WANT_OF_MEMORY: u8 = 7;

/// Returns an answer of one line, with its line feed in it.
pub fn of_line(alloc: Global, status: u8, line: Text) -> Result<Answer, AllocError>
    ensures { IfOk result (λ answer. (answer.status ≡ status) × (joined answer.lines ≡ line)) }
{
    let mut lines = Seq::new(alloc);
    lines.push(line)?;
    Ok(Answer { status, lines })
}

const USAGE_LINE: &[u8] = b"usage: uc COMMAND [--option VALUE].. [WORD]..\n";

/// Returns the answer to words that no command is built for: the usage line, with status 4.
pub fn usage_answer(alloc: Global) -> Result<Answer, AllocError>
    ensures { IfOk result (λ answer. (answer.status ≡ 4) × (joined answer.lines ≡ usage_line)) }
{
    of_line(alloc, USAGE, Text::from_bytes(alloc, USAGE_LINE)?)
}
