//! The answer of a generated problem whose system is saturated.

ghost use Rattle.std.specs.Prelude.{◌≡◌, IfOk};
ghost use Rattle.uc_answer.specs.Lines.{joined};
ghost use Rattle.uc_top.specs.GenLines.{counted_line, gen_lines};

use itoa::Buffer;
use std::alloc::{AllocError, Global};
use uc_answer::{Answer, DONE};
use uc_term::{Seq, Text};

/// Returns the answer of how many constants and axioms there are, and how many different normal forms the constants have, with status
/// 0.
pub(crate) fn counted_answer(
    alloc: Global,
    constants: u32,
    axioms: u32,
    forms: u32,
) -> Result<Answer, AllocError>
    ensures { IfOk result (λ answer. (answer.status ≡ 0) × (joined answer.lines ≡ gen_lines constants axioms forms)) }
{
    let mut lines = Seq::new(alloc);
    lines.push(counted_line(alloc, b"constants ", constants)?)?;
    lines.push(counted_line(alloc, b"equations ", axioms)?)?;
    lines.push(counted_line(alloc, b"normal forms ", forms)?)?;
    Ok(Answer {
        status: DONE,
        lines,
    })
}

/// Returns the line of a number behind these words.
fn counted_line(alloc: Global, words: &[u8], count: u32) -> Result<Text, AllocError>
    ensures { IfOk result (λ text. text ≡ counted_line words.now count) }
{
    let mut buffer = Buffer::new();
    let mut line = Text::from_bytes(alloc, words)?;
    line.extend(buffer.format(count).as_bytes())?;
    line.extend(b"\n")?;
    Ok(line)
}
