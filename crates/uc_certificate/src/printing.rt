//! Printing a certificate.

ghost use Rattle.std.specs.Prelude.{◌≡◌, ◌<◌, ◌++◌, ℕ, List, length, map, codes, decimal, Ok, IfOk, OnOk};
ghost use Rattle.std.specs.List.{AllByRecursion};
ghost use Rattle.uc_term.specs.Table.{IsOf};
ghost use Rattle.uc_clause.specs.Names.{spelling};
ghost use Rattle.uc_clause.specs.Printing.{term_text, variable_text};
ghost use Rattle.uc_order.specs.Members.{Each};
ghost use Rattle.uc_tstp.specs.Printing.{further, listed, path_text, way_text, names_in, line_name, lines_text, AreNumbers, AreLinesOf};
ghost use Rattle.uc_system.specs.Printing.{system_text, IsSpecOf, IsEquationOf};
ghost use Rattle.uc_certificate.specs.declared.border.Border.TheVariants.{Start};
ghost use Rattle.uc_certificate.specs.Headings.{spaced, is_border, HasNoLine};
ghost use Rattle.uc_certificate.specs.Printable.{IsPrintableCertificate};
ghost use Rattle.uc_certificate.specs.Printing.{certificate_text, system_part, derivation_part, joins_part, list_text, side_text, fact_side_text, overlap_text, what_text, class_text, replacement_text, move_text, moves_text, case_text, triple_text, ending_text, join_text, joins_text, IsCertificateOf, AreMovesOf, IsCaseOf, IsEndOf, IsJoinOf};
ghost use Rattle.uc_certificate.specs.Reading.{ReadsCertificate};

use crate::bounds::see_bounds;
use crate::headings::{CERTIFICATE_LINE, DERIVATION_LINE, END_LINE, FACTS, JOINS_LINE};
use crate::{AcTriple, Case, Certificate, End, Join, Move, What};
use itoa::Buffer;
use std::alloc::{AllocError, Global};
use uc_check::{Line, Proof};
use uc_clause::{print_term, print_word};
use uc_fact::System;
use uc_order::OrderSpec;
use uc_system::{SystemText, print_system};
use uc_term::{Seq, Side, Symbols, Text};
use uc_tstp::print_lines;

/// A certificate as a text, in the form that `read_certificate` reads. `file_of` has one file name for each line of the derivation,
/// each number of a line must be that of one of its lines, and there must be one for each fact.
///
/// Names and files stand bare where they are lower-case words and else in quotes, variable `n` is `X` and `n + 1`, and terms and
/// paths have no spaces; `, ` stands between all other members.
///
/// The text is read again as the very same certificate, behind whole lines none of which begins as a certificate does and before
/// whatever follows, where: its system and its derivation can be read again, with the variables of each line numbered by first
/// occurrence and no refutation; paths have numbers from 1 to 255; the variables of the joins are below 8,192; and no class, no
/// list of cases and no list of triples is empty.
pub fn print_certificate(
    alloc: Global,
    certificate: &Certificate,
    file_of: &[Text],
    symbols: &Symbols,
) -> Result<Text, AllocError>
    requires files { length file_of.now ≡ length certificate.now.lines.lines }
    requires of_table { IsCertificateOf symbols.now certificate.now }
    ensures text { IfOk result (λ text. text ≡ certificate_text symbols.now file_of.now certificate.now) }
    ensures read_back { IsPrintableCertificate symbols.now file_of.now certificate.now → (before behind : List ℕ) → HasNoLine (is_border Start) before → IfOk result (λ text. ReadsCertificate symbols.now (before ++ text ++ behind) (Ok certificate.now)) }
{
    see_bounds(certificate);
    let mut out = Text::new(alloc);
    write_system(alloc, &mut out, &certificate.text, symbols)?;
    let facts = &certificate.facts;
    write_derivation(alloc, &mut out, &certificate.lines, file_of, facts, symbols)?;
    write_join_lines(alloc, &mut out, &certificate.joins, symbols)?;
    Ok(out)
}

// The first line, and the system.
fn write_system(
    alloc: Global,
    out: &mut Text,
    said: &SystemText,
    symbols: &Symbols,
) -> Result<(), AllocError>
    requires spec { IsSpecOf symbols.now said.now.spec }
    requires facts { Each (IsEquationOf symbols.now) said.now.system.facts }
    ensures { OnOk result (out.new ≡ out.old ++ system_part symbols.now said.now) }
{
    write_line(out, CERTIFICATE_LINE)?;
    write_facts_of(alloc, out, &said.spec, &said.system, symbols)
}

// The text of a system.
fn write_facts_of(
    alloc: Global,
    out: &mut Text,
    spec: &OrderSpec,
    system: &System,
    symbols: &Symbols,
) -> Result<(), AllocError>
    requires spec { IsSpecOf symbols.now spec.now }
    requires facts { Each (IsEquationOf symbols.now) system.now.facts }
    ensures { OnOk result (out.new ≡ out.old ++ system_text symbols.now spec.now system.now.facts) }
{
    let text = print_system(alloc, spec, system, symbols)?;
    out.extend(text.as_bytes())
}

// The derivation, and the facts' line.
fn write_derivation(
    alloc: Global,
    out: &mut Text,
    proof: &Proof,
    file_of: &[Text],
    facts: &Seq<u32>,
    symbols: &Symbols,
) -> Result<(), AllocError>
    requires files { length file_of.now ≡ length proof.now.lines }
    requires lines { AreLinesOf symbols.now proof.now.lines }
    requires facts { AreNumbers (length proof.now.lines) facts.now }
    ensures { OnOk result (out.new ≡ out.old ++ derivation_part symbols.now file_of.now proof.now.lines facts.now) }
{
    write_line(out, DERIVATION_LINE)?;
    write_proof(alloc, out, proof, file_of, symbols)?;
    write_facts(alloc, out, proof.lines.as_slice(), facts.as_slice())
}

// The lines of a derivation.
fn write_proof(
    alloc: Global,
    out: &mut Text,
    proof: &Proof,
    file_of: &[Text],
    symbols: &Symbols,
) -> Result<(), AllocError>
    requires files { length file_of.now ≡ length proof.now.lines }
    requires lines { AreLinesOf symbols.now proof.now.lines }
    ensures { OnOk result (out.new ≡ out.old ++ lines_text symbols.now (names_in proof.now.lines) file_of.now proof.now.lines) }
{
    let text = print_lines(alloc, proof, file_of, symbols)?;
    out.extend(text.as_bytes())
}

// The joins, and the last line.
fn write_join_lines(
    alloc: Global,
    out: &mut Text,
    joins: &Seq<Join>,
    symbols: &Symbols,
) -> Result<(), AllocError>
    requires { AllByRecursion (IsJoinOf symbols.now) joins.now }
    ensures { OnOk result (out.new ≡ out.old ++ joins_part symbols.now joins.now) }
{
    write_line(out, JOINS_LINE)?;
    write_joins(alloc, out, joins.as_slice(), symbols)?;
    write_line(out, END_LINE)
}

// A line, with its line feed.
fn write_line(out: &mut Text, line: &[u8]) -> Result<(), AllocError>
    ensures { OnOk result (out.new ≡ out.old ++ line.now ++ codes "\n") }
{
    out.extend(line)?;
    out.extend(b"\n")
}

// The facts' line.
fn write_facts(
    alloc: Global,
    out: &mut Text,
    lines: &[Line],
    facts: &[u32],
) -> Result<(), AllocError>
    requires { AreNumbers (length lines.now) facts.now }
    ensures { OnOk result (out.new ≡ out.old ++ codes "% facts" ++ spaced (map (line_name (names_in lines.now)) facts.now) ++ codes "\n") }
{
    out.extend(FACTS)?;
    write_names(alloc, out, lines, facts)?;
    out.extend(b"\n")
}

fn write_names(
    alloc: Global,
    out: &mut Text,
    lines: &[Line],
    facts: &[u32],
) -> Result<(), AllocError>
    requires { AreNumbers (length lines.now) facts.now }
    ensures { OnOk result (out.new ≡ out.old ++ spaced (map (line_name (names_in lines.now)) facts.now)) }
{
    for fact in facts {
        out.push(b' ')?;
        let name = print_word(alloc, lines[*fact as usize].name.as_bytes())?;
        out.extend(name.as_bytes())?;
    }
    Ok(())
}

fn write_joins(
    alloc: Global,
    out: &mut Text,
    joins: &[Join],
    symbols: &Symbols,
) -> Result<(), AllocError>
    requires { AllByRecursion (IsJoinOf symbols.now) joins.now }
    ensures { OnOk result (out.new ≡ out.old ++ joins_text symbols.now joins.now) }
{
    for join in joins {
        write_join(alloc, out, join, symbols)?;
    }
    Ok(())
}

fn write_join(
    alloc: Global,
    out: &mut Text,
    join: &Join,
    symbols: &Symbols,
) -> Result<(), AllocError>
    requires { IsJoinOf symbols.now join.now }
    ensures { OnOk result (out.new ≡ out.old ++ join_text symbols.now join.now) }
{
    out.extend(b"join(")?;
    write_what(out, &join.what)?;
    out.extend(b", ")?;
    write_moves(alloc, out, join.left.as_slice(), symbols)?;
    out.extend(b", ")?;
    write_moves(alloc, out, join.right.as_slice(), symbols)?;
    out.extend(b", ")?;
    write_end(alloc, out, &join.end, symbols)?;
    out.extend(b").\n")
}

fn write_what(out: &mut Text, what: &What) -> Result<(), AllocError>
    ensures { OnOk result (out.new ≡ out.old ++ what_text what.now) }
{
    match what {
        What::Axiom(number) => {
            out.extend(b"axiom(")?;
            write_number(out, *number)?;
            out.extend(b")")
        }
        What::Overlap {
            outer,
            outer_side,
            inner,
            inner_side,
            path,
        } => {
            let path = path.as_slice();
            write_overlap(out, *outer, *outer_side, *inner, *inner_side, path)
        }
    }
}

fn write_overlap(
    out: &mut Text,
    outer: u32,
    outer_side: Side,
    inner: u32,
    inner_side: Side,
    path: &[u32],
) -> Result<(), AllocError>
    ensures { OnOk result (out.new ≡ out.old ++ overlap_text outer outer_side inner inner_side path.now) }
{
    out.extend(b"overlap(")?;
    write_fact_side(out, outer, outer_side)?;
    out.extend(b", ")?;
    write_fact_side(out, inner, inner_side)?;
    out.extend(b", ")?;
    write_path(out, path)?;
    out.extend(b")")
}

fn write_fact_side(out: &mut Text, number: u32, side: Side) -> Result<(), AllocError>
    ensures { OnOk result (out.new ≡ out.old ++ fact_side_text number side) }
{
    write_number(out, number)?;
    out.extend(b", ")?;
    out.extend(side_text(side))
}

fn side_text(side: Side) -> &'static [u8]
    ensures { result.now ≡ side_text side }
{
    match side {
        Side::Left => b"l",
        Side::Right => b"r",
    }
}

fn way_text(left_to_right: bool) -> &'static [u8]
    ensures { result.now ≡ way_text left_to_right }
{
    if left_to_right { b"lr" } else { b"rl" }
}

fn write_number(out: &mut Text, number: u32) -> Result<(), AllocError>
    ensures { OnOk result (out.new ≡ out.old ++ decimal number) }
{
    let mut buffer = Buffer::new();
    out.extend(buffer.format(number).as_bytes())
}

fn write_path(out: &mut Text, path: &[u32]) -> Result<(), AllocError>
    ensures { OnOk result (out.new ≡ out.old ++ path_text path.now) }
{
    out.extend(b"[")?;
    if let [first, rest @ ..] = path {
        write_number(out, *first)?;
        write_more_numbers(out, rest)?;
    }
    out.extend(b"]")
}

fn write_more_numbers(out: &mut Text, numbers: &[u32]) -> Result<(), AllocError>
    ensures { OnOk result (out.new ≡ out.old ++ further (codes ",") decimal numbers.now) }
{
    for number in numbers {
        out.extend(b",")?;
        write_number(out, *number)?;
    }
    Ok(())
}

fn write_moves(
    alloc: Global,
    out: &mut Text,
    moves: &[Move],
    symbols: &Symbols,
) -> Result<(), AllocError>
    requires { AreMovesOf symbols.now moves.now }
    ensures { OnOk result (out.new ≡ out.old ++ moves_text symbols.now moves.now) }
{
    out.extend(b"[")?;
    write_listed_moves(alloc, out, moves, symbols)?;
    out.extend(b"]")
}

// Moves with a comma between each two.
fn write_listed_moves(
    alloc: Global,
    out: &mut Text,
    moves: &[Move],
    symbols: &Symbols,
) -> Result<(), AllocError>
    requires { AreMovesOf symbols.now moves.now }
    ensures { OnOk result (out.new ≡ out.old ++ listed (codes ", ") (move_text symbols.now) moves.now) }
{
    match moves {
        [first, rest @ ..] => {
            write_move(alloc, out, first, symbols)?;
            write_more_moves(alloc, out, rest, symbols)
        }
        [] => Ok(()),
    }
}

fn write_more_moves(
    alloc: Global,
    out: &mut Text,
    moves: &[Move],
    symbols: &Symbols,
) -> Result<(), AllocError>
    requires { AreMovesOf symbols.now moves.now }
    ensures { OnOk result (out.new ≡ out.old ++ further (codes ", ") (move_text symbols.now) moves.now) }
{
    for step in moves {
        out.extend(b", ")?;
        write_move(alloc, out, step, symbols)?;
    }
    Ok(())
}

fn write_move(
    alloc: Global,
    out: &mut Text,
    step: &Move,
    symbols: &Symbols,
) -> Result<(), AllocError>
    requires { IsOf symbols.now step.now.to }
    ensures { OnOk result (out.new ≡ out.old ++ move_text symbols.now step.now) }
{
    out.extend(b"step(")?;
    write_number(out, step.fact)?;
    out.extend(b", ")?;
    write_replacement(alloc, out, step, symbols)?;
    out.extend(b")")
}

// What a move does with its fact: which way, where, and the term behind it.
fn write_replacement(
    alloc: Global,
    out: &mut Text,
    step: &Move,
    symbols: &Symbols,
) -> Result<(), AllocError>
    requires { IsOf symbols.now step.now.to }
    ensures { OnOk result (out.new ≡ out.old ++ replacement_text symbols.now step.now) }
{
    out.extend(way_text(step.left_to_right))?;
    out.extend(b", ")?;
    write_path(out, step.path.as_slice())?;
    out.extend(b", ")?;
    let term = print_term(alloc, &step.to, symbols)?;
    out.extend(term.as_bytes())
}

fn write_end(alloc: Global, out: &mut Text, end: &End, symbols: &Symbols) -> Result<(), AllocError>
    requires { IsEndOf symbols.now end.now }
    ensures { OnOk result (out.new ≡ out.old ++ ending_text symbols.now end.now) }
{
    match end {
        End::Same => out.extend(b"same"),
        End::Instance(number) => {
            out.extend(b"instance(")?;
            write_number(out, *number)?;
            out.extend(b")")
        }
        End::Orders(cases) => {
            out.extend(b"orders(")?;
            write_cases(alloc, out, cases.as_slice(), symbols)?;
            out.extend(b")")
        }
        End::Ac(triples) => {
            out.extend(b"ac(")?;
            write_triples(out, triples.as_slice())?;
            out.extend(b")")
        }
    }
}

fn write_cases(
    alloc: Global,
    out: &mut Text,
    cases: &[Case],
    symbols: &Symbols,
) -> Result<(), AllocError>
    requires { AllByRecursion (IsCaseOf symbols.now) cases.now }
    ensures { OnOk result (out.new ≡ out.old ++ list_text (case_text symbols.now) cases.now) }
{
    out.extend(b"[")?;
    write_listed_cases(alloc, out, cases, symbols)?;
    out.extend(b"]")
}

// Cases with a comma between each two.
fn write_listed_cases(
    alloc: Global,
    out: &mut Text,
    cases: &[Case],
    symbols: &Symbols,
) -> Result<(), AllocError>
    requires { AllByRecursion (IsCaseOf symbols.now) cases.now }
    ensures { OnOk result (out.new ≡ out.old ++ listed (codes ", ") (case_text symbols.now) cases.now) }
{
    match cases {
        [first, rest @ ..] => {
            write_case(alloc, out, first, symbols)?;
            write_more_cases(alloc, out, rest, symbols)
        }
        [] => Ok(()),
    }
}

fn write_more_cases(
    alloc: Global,
    out: &mut Text,
    cases: &[Case],
    symbols: &Symbols,
) -> Result<(), AllocError>
    requires { AllByRecursion (IsCaseOf symbols.now) cases.now }
    ensures { OnOk result (out.new ≡ out.old ++ further (codes ", ") (case_text symbols.now) cases.now) }
{
    for case in cases {
        out.extend(b", ")?;
        write_case(alloc, out, case, symbols)?;
    }
    Ok(())
}

fn write_case(
    alloc: Global,
    out: &mut Text,
    case: &Case,
    symbols: &Symbols,
) -> Result<(), AllocError>
    requires { IsCaseOf symbols.now case.now }
    ensures { OnOk result (out.new ≡ out.old ++ case_text symbols.now case.now) }
{
    out.extend(b"case(")?;
    write_classes(out, case.cases.classes())?;
    out.extend(b", ")?;
    write_moves(alloc, out, case.left.as_slice(), symbols)?;
    out.extend(b", ")?;
    write_moves(alloc, out, case.right.as_slice(), symbols)?;
    out.extend(b")")
}

fn write_triples(out: &mut Text, triples: &[AcTriple]) -> Result<(), AllocError>
    ensures { OnOk result (out.new ≡ out.old ++ list_text triple_text triples.now) }
{
    out.extend(b"[")?;
    if let [first, rest @ ..] = triples {
        write_triple(out, *first)?;
        write_more_triples(out, rest)?;
    }
    out.extend(b"]")
}

fn write_more_triples(out: &mut Text, triples: &[AcTriple]) -> Result<(), AllocError>
    ensures { OnOk result (out.new ≡ out.old ++ further (codes ", ") triple_text triples.now) }
{
    for triple in triples {
        out.extend(b", ")?;
        write_triple(out, *triple)?;
    }
    Ok(())
}

fn write_triple(out: &mut Text, triple: AcTriple) -> Result<(), AllocError>
    ensures { OnOk result (out.new ≡ out.old ++ triple_text triple) }
{
    out.extend(b"[")?;
    write_number(out, triple.assoc)?;
    out.extend(b", ")?;
    write_number(out, triple.comm)?;
    out.extend(b", ")?;
    write_number(out, triple.extended)?;
    out.extend(b"]")
}

fn write_classes(out: &mut Text, classes: &[Seq<u32>]) -> Result<(), AllocError>
    ensures { OnOk result (out.new ≡ out.old ++ list_text class_text classes.now) }
{
    out.extend(b"[")?;
    if let [first, rest @ ..] = classes {
        write_class(out, first.as_slice())?;
        write_more_classes(out, rest)?;
    }
    out.extend(b"]")
}

fn write_more_classes(out: &mut Text, classes: &[Seq<u32>]) -> Result<(), AllocError>
    ensures { OnOk result (out.new ≡ out.old ++ further (codes ", ") class_text classes.now) }
{
    for class in classes {
        out.extend(b", ")?;
        write_class(out, class.as_slice())?;
    }
    Ok(())
}

fn write_class(out: &mut Text, class: &[u32]) -> Result<(), AllocError>
    ensures { OnOk result (out.new ≡ out.old ++ class_text class.now) }
{
    out.extend(b"[")?;
    if let [first, rest @ ..] = class {
        write_variable(out, *first)?;
        write_more_variables(out, rest)?;
    }
    out.extend(b"]")
}

fn write_more_variables(out: &mut Text, variables: &[u32]) -> Result<(), AllocError>
    ensures { OnOk result (out.new ≡ out.old ++ further (codes ", ") variable_text variables.now) }
{
    for variable in variables {
        out.extend(b", ")?;
        write_variable(out, *variable)?;
    }
    Ok(())
}

fn write_variable(out: &mut Text, variable: u32) -> Result<(), AllocError>
    ensures { OnOk result (out.new ≡ out.old ++ variable_text variable) }
{
    let mut buffer = Buffer::new();
    out.push(b'X')?;
    out.extend(buffer.format(u64::from(variable) + 1).as_bytes())
}
