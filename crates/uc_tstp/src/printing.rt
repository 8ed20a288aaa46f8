//! Printing a proof.

ghost use Rattle.std.specs.Prelude.{ℕ, List, ◌≡◌, ◌<◌, ◌++◌, length, codes, decimal, Ok, IfOk, OnOk};
ghost use Rattle.std.specs.List.{AllByRecursion};
ghost use Rattle.uc_term.specs.Table.{IsOf};
ghost use Rattle.uc_clause.specs.Names.{spelling, name_spelling};
ghost use Rattle.uc_clause.specs.Printing.{term_text, role_text};
ghost use Rattle.uc_tstp.specs.Printing.{border_text, proof_text, lines_text, line_text, body_text, source_text, inference_text, replacement_text, step_text, line_name, path_text, way_text, role_of, is_refutation, names_in, listed, further, AreNumbers, IsStepOf, IsSourceOf, IsLineOf, AreLinesOf};
ghost use Rattle.uc_tstp.specs.declared.scope.Scope.{Scope};
ghost use Rattle.uc_tstp.specs.declared.framing.Frame.{Frame};
ghost use Rattle.uc_tstp.specs.Printable.{IsPrintableProof, ArePrintable, AreInOrder, renumbered_proof};
ghost use Rattle.uc_tstp.specs.Reading.{inside, ReadsInside, ReadsProof};

use crate::bounds::see_bounds;
use crate::framing::{END, START};
use itoa::Buffer;
use std::alloc::{AllocError, Global};
use uc_check::{Line, LineSource, LineStep, Proof};
use uc_clause::{Name, print_equation, print_name, print_term, print_word};
use uc_term::{Symbols, Term, Text};

/// A proof of this name as a text, from its start line to its end line, each line of the proof on a line of its own.
/// `file_of` has one file name for each line of the proof, and each number of a line in it must be that of one of its lines.
///
/// Names and files stand bare where they are lower-case words and else in quotes, variable `n` is `X` and `n + 1`, and terms
/// and paths have no spaces.
///
/// The text is read again as the same proof, with the variables of each line numbered by first occurrence, where: the name has
/// one byte or more and no line feed; the lines' names are lower-case words, all different; a token can spell each other name
/// and each file of a clause; no symbol has more than 255 arguments, and paths have the numbers 1 to 255; chain and encode
/// lines are positive; and refute lines are so too, with the variable 0 on both sides. Where the variables of each line are
/// numbered by first occurrence, it is the very same proof.
pub fn print_proof(
    alloc: Global,
    proof: &Proof,
    name: &[u8],
    file_of: &[Text],
    symbols: &Symbols,
) -> Result<Text, AllocError>
    requires files { length file_of.now ≡ length proof.now.lines }
    requires lines { AreLinesOf symbols.now proof.now.lines }
    ensures text { IfOk result (λ text. text ≡ proof_text symbols.now name.now file_of.now proof.now.lines) }
    ensures read_again { IsPrintableProof symbols.now name.now file_of.now proof.now.lines → IfOk result (λ text. ReadsProof symbols.now text (Ok (renumbered_proof proof.now))) }
    ensures read_back { IsPrintableProof symbols.now name.now file_of.now proof.now.lines → AreInOrder proof.now.lines → IfOk result (λ text. ReadsProof symbols.now text (Ok proof.now)) }
{
    see_bounds(proof.lines.as_slice());
    let mut out = Text::new(alloc);
    write_border(&mut out, START, name)?;
    write_lines(alloc, &mut out, file_of, proof.lines.as_slice(), symbols)?;
    write_border(&mut out, END, name)?;
    Ok(out)
}

/// The lines of a proof as a text, each on a line of its own, with no start or end line. `file_of` has one file name for each
/// line, and each number of a line must be that of one of the lines.
///
/// Where these lines stand in a text, they are read again as the same lines, with the variables of each numbered by first
/// occurrence, under the conditions of `print_proof` on lines; as those of a derivation, where none is a refutation.
pub fn print_lines(
    alloc: Global,
    proof: &Proof,
    file_of: &[Text],
    symbols: &Symbols,
) -> Result<Text, AllocError>
    requires files { length file_of.now ≡ length proof.now.lines }
    requires lines { AreLinesOf symbols.now proof.now.lines }
    ensures text { IfOk result (λ text. text ≡ lines_text symbols.now (names_in proof.now.lines) file_of.now proof.now.lines) }
    ensures read_again { (which : Scope) → ArePrintable symbols.now which file_of.now proof.now.lines → (text : List ℕ) (frame : Frame) → inside text frame ≡ lines_text symbols.now (names_in proof.now.lines) file_of.now proof.now.lines → ReadsInside which symbols.now text frame (Ok (renumbered_proof proof.now)) }
    ensures read_back { (which : Scope) → ArePrintable symbols.now which file_of.now proof.now.lines → AreInOrder proof.now.lines → (text : List ℕ) (frame : Frame) → inside text frame ≡ lines_text symbols.now (names_in proof.now.lines) file_of.now proof.now.lines → ReadsInside which symbols.now text frame (Ok proof.now) }
{
    see_bounds(proof.lines.as_slice());
    let mut out = Text::new(alloc);
    write_lines(alloc, &mut out, file_of, proof.lines.as_slice(), symbols)?;
    Ok(out)
}

// A start or end line: its words, and the name of the proof.
fn write_border(out: &mut Text, words: &[u8], name: &[u8]) -> Result<(), AllocError>
    ensures { OnOk result (out.new ≡ out.old ++ border_text words.now name.now) }
{
    out.extend(words)?;
    out.extend(name)?;
    out.extend(b"\n")
}

fn write_lines(
    alloc: Global,
    out: &mut Text,
    file_of: &[Text],
    lines: &[Line],
    symbols: &Symbols,
) -> Result<(), AllocError>
    requires files { length file_of.now ≡ length lines.now }
    requires lines { AreLinesOf symbols.now lines.now }
    ensures { OnOk result (out.new ≡ out.old ++ lines_text symbols.now (names_in lines.now) file_of.now lines.now) }
{
    for (number, line) in lines.iter().enumerate() {
        write_line(alloc, out, &file_of[number], lines, line, symbols)?;
    }
    Ok(())
}

// A line among the lines of its proof.
fn write_line(
    alloc: Global,
    out: &mut Text,
    file: &Text,
    lines: &[Line],
    line: &Line,
    symbols: &Symbols,
) -> Result<(), AllocError>
    requires { IsLineOf symbols.now (length lines.now) line.now }
    ensures { OnOk result (out.new ≡ out.old ++ line_text symbols.now (names_in lines.now) file.now line.now) }
{
    out.extend(b"cnf(")?;
    write_word(alloc, out, line.name.as_bytes())?;
    out.extend(b", ")?;
    out.extend(role_text(line))?;
    out.extend(b", ")?;
    write_body(alloc, out, line, symbols)?;
    out.extend(b", ")?;
    write_source(alloc, out, file, lines, &line.source, symbols)?;
    out.extend(b").\n")
}

fn role_text(line: &Line) -> &'static [u8]
    ensures { result.now ≡ role_text (role_of line.now.positive line.now.source) }
{
    match line.source {
        LineSource::File(_) => {
            if line.positive {
                b"axiom"
            } else {
                b"negated_conjecture"
            }
        }
        LineSource::Chain { .. } => b"plain",
        LineSource::Reflexive { .. } => b"plain",
        LineSource::EncodeGoal { .. } => b"plain",
        LineSource::Refute { .. } => b"plain",
    }
}

// Whether the line is a refutation, which has no equation.
fn is_refutation(source: &LineSource) -> bool
    ensures { result ≡ is_refutation source.now }
{
    match source {
        LineSource::File(_) => false,
        LineSource::Chain { .. } => false,
        LineSource::Reflexive { .. } => false,
        LineSource::EncodeGoal { .. } => false,
        LineSource::Refute { .. } => true,
    }
}

fn write_body(
    alloc: Global,
    out: &mut Text,
    line: &Line,
    symbols: &Symbols,
) -> Result<(), AllocError>
    requires left { IsOf symbols.now line.now.left }
    requires right { IsOf symbols.now line.now.right }
    ensures { OnOk result (out.new ≡ out.old ++ body_text symbols.now line.now) }
{
    if is_refutation(&line.source) {
        return out.extend(b"$false");
    }
    let text = print_equation(alloc, line.positive, &line.left, &line.right, symbols)?;
    out.extend(text.as_bytes())
}

// Where a line comes from. A clause of the problem is one of this file.
fn write_source(
    alloc: Global,
    out: &mut Text,
    file: &Text,
    lines: &[Line],
    source: &LineSource,
    symbols: &Symbols,
) -> Result<(), AllocError>
    requires { IsSourceOf symbols.now (length lines.now) source.now }
    ensures { OnOk result (out.new ≡ out.old ++ source_text symbols.now (names_in lines.now) file.now source.now) }
{
    match source {
        LineSource::File(name) => write_file(alloc, out, file, name),
        LineSource::Chain {
            start,
            steps,
            parents,
        } => {
            let steps = steps.as_slice();
            write_chain(alloc, out, lines, start, steps, parents.as_slice(), symbols)
        }
        LineSource::Reflexive { parents } => {
            write_inference(
                alloc,
                out,
                lines,
                b"encode",
                b"reflexive",
                parents.as_slice(),
            )
        }
        LineSource::EncodeGoal { parents } => {
            write_inference(alloc, out, lines, b"encode", b"goal", parents.as_slice())
        }
        LineSource::Refute { parents } => {
            write_inference(alloc, out, lines, b"refute", b"", parents.as_slice())
        }
    }
}

// A file, and the name that a clause has in it.
fn write_file(alloc: Global, out: &mut Text, file: &Text, name: &Name) -> Result<(), AllocError>
    ensures { OnOk result (out.new ≡ out.old ++ codes "file(" ++ spelling file.now ++ codes ", " ++ name_spelling name.now ++ codes ")") }
{
    out.extend(b"file(")?;
    write_word(alloc, out, file.as_bytes())?;
    out.extend(b", ")?;
    let name = print_name(alloc, name)?;
    out.extend(name.as_bytes())?;
    out.extend(b")")
}

// An inference by this rule, with what stands in its first square brackets.
fn write_inference(
    alloc: Global,
    out: &mut Text,
    lines: &[Line],
    rule: &[u8],
    info: &[u8],
    parents: &[u32],
) -> Result<(), AllocError>
    requires { AreNumbers (length lines.now) parents.now }
    ensures { OnOk result (out.new ≡ out.old ++ inference_text (names_in lines.now) rule.now info.now parents.now) }
{
    out.extend(b"inference(")?;
    out.extend(rule)?;
    out.extend(b", [")?;
    out.extend(info)?;
    write_parents(alloc, out, lines, parents)
}

fn write_chain(
    alloc: Global,
    out: &mut Text,
    lines: &[Line],
    start: &Term,
    steps: &[LineStep],
    parents: &[u32],
    symbols: &Symbols,
) -> Result<(), AllocError>
    requires start { IsOf symbols.now start.now }
    requires steps { AllByRecursion (IsStepOf symbols.now (length lines.now)) steps.now }
    requires parents { AreNumbers (length lines.now) parents.now }
    ensures { OnOk result (out.new ≡ out.old ++ inference_text (names_in lines.now) (codes "chain") (term_text symbols.now start.now ++ further (codes ", ") (step_text symbols.now (names_in lines.now)) steps.now) parents.now) }
{
    out.extend(b"inference(chain, [")?;
    write_term(alloc, out, start, symbols)?;
    write_steps(alloc, out, lines, steps, symbols)?;
    write_parents(alloc, out, lines, parents)
}

// The steps of a chain behind its first term.
fn write_steps(
    alloc: Global,
    out: &mut Text,
    lines: &[Line],
    steps: &[LineStep],
    symbols: &Symbols,
) -> Result<(), AllocError>
    requires { AllByRecursion (IsStepOf symbols.now (length lines.now)) steps.now }
    ensures { OnOk result (out.new ≡ out.old ++ further (codes ", ") (step_text symbols.now (names_in lines.now)) steps.now) }
{
    for step in steps {
        out.extend(b", ")?;
        write_step(alloc, out, lines, step, symbols)?;
    }
    Ok(())
}

fn write_step(
    alloc: Global,
    out: &mut Text,
    lines: &[Line],
    step: &LineStep,
    symbols: &Symbols,
) -> Result<(), AllocError>
    requires { IsStepOf symbols.now (length lines.now) step.now }
    ensures { OnOk result (out.new ≡ out.old ++ step_text symbols.now (names_in lines.now) step.now) }
{
    out.extend(b"step(")?;
    write_line_name(alloc, out, lines, step.by)?;
    out.extend(b", ")?;
    write_replacement(alloc, out, step, symbols)?;
    out.extend(b")")
}

// What a step does with its line: which way, where, and the term behind it.
fn write_replacement(
    alloc: Global,
    out: &mut Text,
    step: &LineStep,
    symbols: &Symbols,
) -> Result<(), AllocError>
    requires { IsOf symbols.now step.now.to }
    ensures { OnOk result (out.new ≡ out.old ++ replacement_text symbols.now step.now) }
{
    out.extend(way_text(step.left_to_right))?;
    out.extend(b", ")?;
    write_path(out, step.path.as_slice())?;
    out.extend(b", ")?;
    write_term(alloc, out, &step.to, symbols)
}

fn way_text(left_to_right: bool) -> &'static [u8]
    ensures { result.now ≡ way_text left_to_right }
{
    if left_to_right { b"lr" } else { b"rl" }
}

fn write_path(out: &mut Text, path: &[u32]) -> Result<(), AllocError>
    ensures { OnOk result (out.new ≡ out.old ++ path_text path.now) }
{
    out.extend(b"[")?;
    if let [first, rest @ ..] = path {
        write_number(out, *first)?;
        write_more_numbers(out, rest)?;
    }
    out.extend(b"]")
}

fn write_more_numbers(out: &mut Text, numbers: &[u32]) -> Result<(), AllocError>
    ensures { OnOk result (out.new ≡ out.old ++ further (codes ",") decimal numbers.now) }
{
    for number in numbers {
        out.extend(b",")?;
        write_number(out, *number)?;
    }
    Ok(())
}

fn write_number(out: &mut Text, number: u32) -> Result<(), AllocError>
    ensures { OnOk result (out.new ≡ out.old ++ decimal number) }
{
    let mut buffer = Buffer::new();
    out.extend(buffer.format(number).as_bytes())
}

// What stands behind the members of an inference's first list: its end, the list of the parents, and the end of the whole.
fn write_parents(
    alloc: Global,
    out: &mut Text,
    lines: &[Line],
    parents: &[u32],
) -> Result<(), AllocError>
    requires { AreNumbers (length lines.now) parents.now }
    ensures { OnOk result (out.new ≡ out.old ++ codes "], [" ++ listed (codes ", ") (line_name (names_in lines.now)) parents.now ++ codes "])") }
{
    out.extend(b"], [")?;
    if let [first, rest @ ..] = parents {
        write_line_name(alloc, out, lines, *first)?;
        write_more_names(alloc, out, lines, rest)?;
    }
    out.extend(b"])")
}

fn write_more_names(
    alloc: Global,
    out: &mut Text,
    lines: &[Line],
    numbers: &[u32],
) -> Result<(), AllocError>
    requires { AreNumbers (length lines.now) numbers.now }
    ensures { OnOk result (out.new ≡ out.old ++ further (codes ", ") (line_name (names_in lines.now)) numbers.now) }
{
    for number in numbers {
        out.extend(b", ")?;
        write_line_name(alloc, out, lines, *number)?;
    }
    Ok(())
}

// The name of the line of this number.
fn write_line_name(
    alloc: Global,
    out: &mut Text,
    lines: &[Line],
    number: u32,
) -> Result<(), AllocError>
    requires { number < length lines.now }
    ensures { OnOk result (out.new ≡ out.old ++ line_name (names_in lines.now) number) }
{
    write_word(alloc, out, lines[number as usize].name.as_bytes())
}

fn write_word(alloc: Global, out: &mut Text, word: &[u8]) -> Result<(), AllocError>
    ensures { OnOk result (out.new ≡ out.old ++ spelling word.now) }
{
    let text = print_word(alloc, word)?;
    out.extend(text.as_bytes())
}

fn write_term(
    alloc: Global,
    out: &mut Text,
    term: &Term,
    symbols: &Symbols,
) -> Result<(), AllocError>
    requires { IsOf symbols.now term.now }
    ensures { OnOk result (out.new ≡ out.old ++ term_text symbols.now term.now) }
{
    let text = print_term(alloc, term, symbols)?;
    out.extend(text.as_bytes())
}
