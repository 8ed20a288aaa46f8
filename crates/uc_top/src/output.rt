//! Writing an answer.

ghost use Rattle.std.specs.Prelude.{◌≡◌, ◌≤◌, ◌<◌, length, take, IfOk};
ghost use Rattle.std.specs.List.{prefix_len};
ghost use Rattle.uc_clause.specs.Bytes.{in_line};
ghost use Rattle.uc_edge.specs.Pieces.{IsPut, counted_put};
ghost use Rattle.uc_answer.specs.Lines.{joined, memory_line};
ghost use Rattle.uc_top.specs.Told.{IsTold, CountsWrites};
ghost use Rattle.uc_top.specs.Given.{IsFirstLine, GivesLines, GivesText};

use std::alloc::{AllocError, Global};
use uc_answer::{Answer, WANT_OF_MEMORY};
use uc_edge::{Sink, WriteFault, put};
use uc_term::Text;

/// The sink failed.
const WRITE_FAULT: u8 = 6;

const MEMORY_OUT: &[u8] = b"% SZS status MemoryOut\n";

/// An answer as it is told: its status and its whole text.
#[derive(Drop)]
pub(crate) struct WholeAnswer {
    pub(crate) status: u8,
    pub(crate) text: Text,
}

// Returns the lines of an answer, one behind the other.
pub(crate) fn text_of(alloc: Global, answer: &Answer) -> Result<Text, AllocError>
    ensures { IfOk result (λ text. text ≡ joined answer.now.lines) }
{
    let mut text = Text::new(alloc);
    for line in answer.lines.as_slice() {
        text.extend(line.as_bytes())?;
    }
    Ok(text)
}

// Returns how many bytes stand before the first line feed, or in all where there is none.
fn body_len(text: &[u8]) -> usize
    ensures longest { result ≡ prefix_len in_line text.now }
    ensures within { result ≤ length text.now }
{
    text.iter().take_while(|b| **b != b'\n').count()
}

// Returns how many bytes the first line of a text has, with its line feed.
fn line_len(text: &[u8]) -> usize
    requires { 0 < length text.now }
    ensures begins { 0 < result }
    ensures within { result ≤ length text.now }
    ensures line { IsFirstLine text.now (take result text.now) }
{
    let body = body_len(text);
    if body < text.len() { body + 1 } else { body }
}

// Writes a text line by line.
fn put_lines<S: Sink>(sink: &mut S, text: &[u8]) -> Result<(), WriteFault>
    ensures put { IsPut (S.written sink.old) (S.written sink.new) (S.faults sink.old) (S.faults sink.new) text.now result }
    ensures later { S.faults sink.old ≤ S.faults sink.new }
    ensures counted { S.faults sink.new ≡ counted_put result (S.faults sink.old) }
    ensures given { GivesLines text.now (S.pieces sink.old) (S.pieces sink.new) result }
{
    let mut from = 0;
    while from < text.len() {
        let (_, rest) = text.split_at(from);
        let (line, _) = rest.split_at(line_len(rest));
        put(sink, line)?;
        from += line.len();
    }
    Ok(())
}

// Tells a text of this status.
fn tell_text<S: Sink>(sink: &mut S, status: u8, text: &[u8]) -> u8
    ensures told { IsTold (S.written sink.old) (S.written sink.new) (S.faults sink.old) (S.faults sink.new) text.now status result }
    ensures later { S.faults sink.old ≤ S.faults sink.new }
    ensures counted { CountsWrites (S.faults sink.old) (S.faults sink.new) status result }
    ensures given { GivesText (S.written sink.old) (S.written sink.new) (S.faults sink.old) (S.faults sink.new) (S.pieces sink.old) (S.pieces sink.new) text.now status result }
{
    match put_lines(sink, text) {
        Ok(()) => status,
        Err(WriteFault) => WRITE_FAULT,
    }
}

// Tells an answer.
pub(crate) fn tell<S: Sink>(sink: &mut S, answer: &WholeAnswer) -> u8
    ensures told { IsTold (S.written sink.old) (S.written sink.new) (S.faults sink.old) (S.faults sink.new) answer.now.text answer.now.status result }
    ensures later { S.faults sink.old ≤ S.faults sink.new }
    ensures counted { CountsWrites (S.faults sink.old) (S.faults sink.new) answer.now.status result }
    ensures given { GivesText (S.written sink.old) (S.written sink.new) (S.faults sink.old) (S.faults sink.new) (S.pieces sink.old) (S.pieces sink.new) answer.now.text answer.now.status result }
{
    tell_text(sink, answer.status, answer.text.as_bytes())
}

/// Tells the sink that memory is wanted, and answers the status of that, or that of a sink that fails. It takes no memory.
pub fn tell_memory_out<S: Sink>(sink: &mut S) -> u8
    ensures told { IsTold (S.written sink.old) (S.written sink.new) (S.faults sink.old) (S.faults sink.new) memory_line 7 result }
    ensures later { S.faults sink.old ≤ S.faults sink.new }
    ensures counted { CountsWrites (S.faults sink.old) (S.faults sink.new) 7 result }
    ensures given { GivesText (S.written sink.old) (S.written sink.new) (S.faults sink.old) (S.faults sink.new) (S.pieces sink.old) (S.pieces sink.new) memory_line 7 result }
{
    tell_text(sink, WANT_OF_MEMORY, MEMORY_OUT)
}
