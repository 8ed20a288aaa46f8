//! The lines of a chain of steps.

ghost use Rattle.std.specs.Prelude.{◌≡◌, ◌<◌, ◌++◌, codes, decimal, IfOk, OnOk};
ghost use Rattle.uc_term.specs.Table.{IsOf};
ghost use Rattle.uc_term.specs.Tree.{nodes};
ghost use Rattle.uc_tstp.specs.Printing.{further, path_text, way_text};
ghost use Rattle.uc_answer.specs.Lines.{joined};
ghost use Rattle.uc_answer.specs.ChainLines.{number_of, term_line, step_line, stop_line, IsStepLine, AreChained, ArePrintable, AreNormalLines};

use itoa::Buffer;
use std::alloc::{AllocError, Global};
use uc_clause::print_term;
use uc_fact::{By, Step, Stop};
use uc_rewrite::Normal;
use uc_term::{Seq, Symbols, Term, Text};

fn number_of(by: By) -> u32
    ensures { result ≡ number_of by }
{
    match by {
        By::Axiom(number) => number,
        By::Fact(number) => number,
    }
}

fn way_text(left_to_right: bool) -> &'static [u8]
    ensures { result.now ≡ way_text left_to_right }
{
    if left_to_right { b"lr" } else { b"rl" }
}

// A path in square brackets, with commas between its numbers.
pub(crate) fn write_path(out: &mut Text, path: &[u32]) -> Result<(), AllocError>
    ensures { OnOk result (out.new ≡ out.old ++ path_text path.now) }
{
    out.extend(b"[")?;
    if let [first, rest @ ..] = path {
        write_number(out, *first)?;
        write_numbers(out, b",", rest)?;
    }
    out.extend(b"]")
}

/// Writes numbers, each behind this mark.
pub(crate) fn write_numbers(out: &mut Text, mark: &[u8], numbers: &[u32]) -> Result<(), AllocError>
    ensures { OnOk result (out.new ≡ out.old ++ further mark.now decimal numbers.now) }
{
    for number in numbers {
        out.extend(mark)?;
        write_number(out, *number)?;
    }
    Ok(())
}

pub(crate) fn write_number(out: &mut Text, number: u32) -> Result<(), AllocError>
    ensures { OnOk result (out.new ≡ out.old ++ decimal number) }
{
    let mut buffer = Buffer::new();
    out.extend(buffer.format(number).as_bytes())
}

/// The line of a term.
pub(crate) fn term_line(alloc: Global, term: &Term, symbols: &Symbols) -> Result<Text, AllocError>
    requires { IsOf symbols.now term.now }
    ensures { IfOk result (λ text. text ≡ term_line symbols.now term.now) }
{
    let mut line = print_term(alloc, term, symbols)?;
    line.extend(b"\n")?;
    Ok(line)
}

// The line of a step from a term.
fn step_line(alloc: Global, from: &Term, step: &Step, symbols: &Symbols) -> Result<Text, AllocError>
    requires inside { step.now.position.0 < nodes from.now }
    requires of_table { IsOf symbols.now step.now.to }
    ensures { IfOk result (IsStepLine symbols.now from.now step.now) }
{
    let path = from.path(alloc, step.position)?;
    let to = term_line(alloc, &step.to, symbols)?;
    let mut line = Text::new(alloc);
    write_number(&mut line, number_of(step.by))?;
    line.extend(b" ")?;
    line.extend(way_text(step.left_to_right))?;
    line.extend(b" ")?;
    write_path(&mut line, path.as_slice())?;
    line.extend(b" ")?;
    line.extend(to.as_bytes())?;
    Ok(line)
}

// The line that tells why there are no more steps.
fn stop_line(stop: Stop) -> &'static [u8]
    ensures { result.now ≡ stop_line stop }
{
    match stop {
        Stop::Full => b"normal\n",
        Stop::Steps => b"stopped steps\n",
        Stop::Size => b"stopped size\n",
    }
}

// The lines of the steps that lead on from a term.
fn step_lines(
    alloc: Global,
    start: &Term,
    steps: &[Step],
    symbols: &Symbols,
) -> Result<Seq<Text>, AllocError>
    requires { ArePrintable symbols.now start.now steps.now }
    ensures { IfOk result (λ lines. AreChained symbols.now start.now steps.now (joined lines)) }
{
    let mut lines = Seq::new(alloc);
    let mut from = start;
    for step in steps {
        lines.push(step_line(alloc, from, step, symbols)?)?;
        from = &step.to;
    }
    Ok(lines)
}

/// Returns the lines of a term that is normalised: the term, each step, and why there are no more.
pub fn chain_lines(
    alloc: Global,
    normal: &Normal,
    symbols: &Symbols,
) -> Result<Seq<Text>, AllocError>
    requires start { IsOf symbols.now normal.now.chain.start }
    requires steps { ArePrintable symbols.now normal.now.chain.start normal.now.chain.steps }
    ensures { IfOk result (λ lines. AreNormalLines symbols.now normal.now (joined lines)) }
{
    let start = &normal.chain.start;
    let mut lines = Seq::new(alloc);
    lines.push(term_line(alloc, start, symbols)?)?;
    lines.append(step_lines(alloc, start, normal.chain.steps.as_slice(), symbols)?)?;
    lines.push(Text::from_bytes(alloc, stop_line(normal.stop))?)?;
    Ok(lines)
}
