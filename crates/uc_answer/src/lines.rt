//! The lines of answers and refusals.

ghost use Rattle.std.specs.Prelude.{◌≡◌, ◌++◌, IfOk, codes};
ghost use Rattle.std.specs.Option.{option_copied};
ghost use Rattle.uc_problem.specs.declared.fault.LoadFault.TheVariants.{Absent};
ghost use Rattle.uc_answer.specs.Lines.{located, about_file, spaced, clash, what_word, clause_line, load_line, proof_line, cause_word, name_or_dash, line_of_number, checked_line};

use itoa::Buffer;
use std::alloc::{AllocError, Global};
use uc_check::{Cause, Checked, Line};
use uc_clause::{ClauseFault, Place, What, print_name, print_word};
use uc_problem::LoadFault;
use uc_term::Text;
use uc_tstp::ProofFault;

// A line about a place of a file.
pub(crate) fn located(
    alloc: Global,
    file: &[u8],
    place: Place,
    kind: &[u8],
    more: &[u8],
) -> Result<Text, AllocError>
    ensures { IfOk result (λ text. text ≡ located file.now place kind.now more.now) }
{
    let mut buffer = Buffer::new();
    let mut text = Text::from_bytes(alloc, b"% ")?;
    text.extend(file)?;
    text.extend(b":")?;
    text.extend(buffer.format(place.line).as_bytes())?;
    text.extend(b":")?;
    text.extend(buffer.format(place.column).as_bytes())?;
    text.extend(b" ")?;
    text.extend(kind)?;
    text.extend(more)?;
    text.extend(b"\n")?;
    Ok(text)
}

/// Returns a line about a file: what is so of it.
pub fn about_file(alloc: Global, file: &[u8], kind: &[u8]) -> Result<Text, AllocError>
    ensures { IfOk result (λ text. text ≡ about_file file.now kind.now) }
{
    let mut text = Text::from_bytes(alloc, b"% ")?;
    text.extend(file)?;
    text.extend(b" ")?;
    text.extend(kind)?;
    text.extend(b"\n")?;
    Ok(text)
}

// A part with a space before it.
pub(crate) fn spaced(alloc: Global, part: &[u8]) -> Result<Text, AllocError>
    ensures { IfOk result (λ text. text ≡ spaced part.now) }
{
    let mut text = Text::from_bytes(alloc, b" ")?;
    text.extend(part)?;
    Ok(text)
}

// A name with its two arities.
pub(crate) fn clash(alloc: Global, name: &[u8], first: u32, second: u32) -> Result<Text, AllocError>
    ensures { IfOk result (λ text. text ≡ clash name.now first second) }
{
    let mut buffer = Buffer::new();
    let mut text = spaced(alloc, name)?;
    text.extend(b" ")?;
    text.extend(buffer.format(first).as_bytes())?;
    text.extend(b" ")?;
    text.extend(buffer.format(second).as_bytes())?;
    Ok(text)
}

// The word of a limit.
fn what_word(what: What) -> &'static [u8]
    ensures { result.now ≡ what_word what }
{
    match what {
        What::Bytes => b"bytes",
        What::Nodes => b"nodes",
        What::Parentheses => b"parentheses",
        What::Arity => b"arity",
        What::Clauses => b"clauses",
        What::Files => b"files",
        What::Symbols => b"symbols",
    }
}

// The line of a limit that is passed at a place.
pub(crate) fn limit_line(
    alloc: Global,
    file: &[u8],
    place: Place,
    what: What,
) -> Result<Text, AllocError>
    ensures { IfOk result (λ text. text ≡ located file.now place (codes "Limit") (spaced (what_word what))) }
{
    let word = spaced(alloc, what_word(what))?;
    located(alloc, file, place, b"Limit", word.as_bytes())
}

// The line of a word that isn't allowed at a place.
pub(crate) fn word_line(
    alloc: Global,
    file: &[u8],
    place: Place,
    kind: &[u8],
    word: &[u8],
) -> Result<Text, AllocError>
    ensures { IfOk result (λ text. text ≡ located file.now place kind.now (spaced word.now)) }
{
    let word = spaced(alloc, word)?;
    located(alloc, file, place, kind, word.as_bytes())
}

// The line of a refusal of the reader; for want of memory, no bytes.
pub(crate) fn clause_line(
    alloc: Global,
    file: &[u8],
    fault: &ClauseFault,
) -> Result<Text, AllocError>
    ensures { IfOk result (λ text. text ≡ clause_line file.now fault.now) }
{
    match fault {
        ClauseFault::Syntax(place) => located(alloc, file, *place, b"Syntax", b""),
        ClauseFault::NotUnit(place) => located(alloc, file, *place, b"NotUnit", b""),
        ClauseFault::NotEquality(place) => located(alloc, file, *place, b"NotEquality", b""),
        ClauseFault::BadRole(place, word) => {
            word_line(alloc, file, *place, b"BadRole", word.as_bytes())
        }
        ClauseFault::Unsupported(place, word) => {
            word_line(alloc, file, *place, b"Unsupported", word.as_bytes())
        }
        ClauseFault::Limit(place, what) => limit_line(alloc, file, *place, *what),
        ClauseFault::NoMemory => Ok(Text::new(alloc)),
    }
}

// The line of a file that isn't there, at the include that names it or on its own.
fn absent_line(alloc: Global, file: &Text, from: &Option<(Text, Place)>) -> Result<Text, AllocError>
    ensures { IfOk result (λ text. text ≡ load_line (Absent file.now from.now)) }
{
    match from {
        None => about_file(alloc, file.as_bytes(), b"Absent"),
        Some((includer, place)) => word_line(
            alloc,
            includer.as_bytes(),
            *place,
            b"Absent",
            file.as_bytes(),
        ),
    }
}

// The line of a refusal of loading; for want of memory, no bytes.
pub(crate) fn load_line(alloc: Global, fault: &LoadFault) -> Result<Text, AllocError>
    ensures { IfOk result (λ text. text ≡ load_line fault.now) }
{
    match fault {
        LoadFault::Absent { file, from } => absent_line(alloc, file, from),
        LoadFault::ReadFault { file } => about_file(alloc, file.as_bytes(), b"ReadFault"),
        LoadFault::TooDeep { file, place } => {
            located(alloc, file.as_bytes(), *place, b"TooDeep", b"")
        }
        LoadFault::NoSuchName { file, place, name } => {
            let name = print_name(alloc, name)?;
            word_line(
                alloc,
                file.as_bytes(),
                *place,
                b"NoSuchName",
                name.as_bytes(),
            )
        }
        LoadFault::ArityClash {
            file,
            place,
            name,
            first,
            second,
        } => {
            let name = print_word(alloc, name.as_bytes())?;
            let clash = clash(alloc, name.as_bytes(), *first, *second)?;
            located(
                alloc,
                file.as_bytes(),
                *place,
                b"ArityClash",
                clash.as_bytes(),
            )
        }
        LoadFault::Limit { file, place, what } => {
            limit_line(alloc, file.as_bytes(), *place, *what)
        }
        LoadFault::Clause { file, fault } => clause_line(alloc, file.as_bytes(), fault),
        LoadFault::NoMemory => Ok(Text::new(alloc)),
    }
}

/// Returns the line of a refusal of a proof; for want of memory, which has a line of its own, no bytes.
pub fn proof_line(alloc: Global, file: &[u8], fault: ProofFault) -> Result<Text, AllocError>
    ensures { IfOk result (λ text. text ≡ proof_line file.now fault) }
{
    match fault {
        ProofFault::Syntax(place) => located(alloc, file, place, b"Syntax", b""),
        ProofFault::UnknownRule(place) => located(alloc, file, place, b"UnknownRule", b""),
        ProofFault::UnknownName(place) => located(alloc, file, place, b"UnknownName", b""),
        ProofFault::Truncated => about_file(alloc, file, b"Truncated"),
        ProofFault::RepeatedName(place) => located(alloc, file, place, b"RepeatedName", b""),
        ProofFault::Limit(what, place) => limit_line(alloc, file, place, what),
        ProofFault::NoMemory => Ok(Text::new(alloc)),
    }
}

pub(crate) fn cause_word(cause: Cause) -> &'static [u8]
    ensures { result.now ≡ cause_word cause }
{
    match cause {
        Cause::NotAProblemClause => b"NotAProblemClause",
        Cause::NotAReplacement => b"NotAReplacement",
        Cause::NotEarlier => b"NotEarlier",
        Cause::EndsDiffer => b"EndsDiffer",
        Cause::WrongParents => b"WrongParents",
        Cause::NoGoal => b"NoGoal",
    }
}

// The name of the line of this number, or `-` for none.
pub(crate) fn name_or_dash(lines: &[Line], number: Option<u32>) -> &[u8]
    ensures { result.now ≡ name_or_dash (line_of_number lines.now number) }
{
    let Some(number) = number else {
        return b"-";
    };
    match lines.get(number as usize) {
        Some(line) => line.name.as_bytes(),
        None => b"-",
    }
}

/// Returns the line of the checker's answer about a proof of these lines.
pub fn checked_line(alloc: Global, lines: &[Line], checked: Checked) -> Result<Text, AllocError>
    ensures { IfOk result (λ text. text ≡ checked_line lines.now checked) }
{
    match checked {
        Checked::Accepted => Text::from_bytes(alloc, b"accepted\n"),
        Checked::Rejected { line, cause } => rejected_line(alloc, name_or_dash(lines, line), cause),
    }
}

fn rejected_line(alloc: Global, name: &[u8], cause: Cause) -> Result<Text, AllocError>
    ensures { IfOk result (λ text. text ≡ codes "rejected " ++ name.now ++ codes " " ++ cause_word cause ++ codes "\n") }
{
    let mut text = Text::from_bytes(alloc, b"rejected ")?;
    text.extend(name)?;
    text.extend(b" ")?;
    text.extend(cause_word(cause))?;
    text.extend(b"\n")?;
    Ok(text)
}
