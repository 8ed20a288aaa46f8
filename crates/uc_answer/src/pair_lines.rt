//! The lines of the pairs of equations.

ghost use Rattle.std.specs.Prelude.{◌≡◌, ◌<◌, ◌^◌, ◌++◌, length, slice_get, Some, All, IfOk, OnOk};
ghost use Rattle.uc_term.specs.Equations.{side_of};
ghost use Rattle.uc_term.specs.Table.{IsOf};
ghost use Rattle.uc_pair.specs.Overlapping.{IsOverlapOf, IsFormedOf};
ghost use Rattle.uc_answer.specs.Axioms.{AreEquationsOf};
ghost use Rattle.uc_answer.specs.Lines.{joined};
ghost use Rattle.uc_answer.specs.PairLines.{side_letter, overlap_words, formation_text, pair_line, IsFormationOver, IsPairLine, ArePairLines, ArePairsOf, AreInnerLines, AreOuterLines};

use crate::chaining::{write_number, write_path};
use std::alloc::{AllocError, Global};
use uc_clause::print_equation;
use uc_fact::{Overlap, Side};
use uc_order::Order;
use uc_pair::{Formation, Formed, overlaps, pair_of};
use uc_term::{Equation, Seq, Symbols, Term, Text};

// The letter of a side.
pub(crate) fn side_letter(side: Side) -> &'static [u8]
    ensures { result.now ≡ side_letter side }
{
    match side {
        Side::Left => b"l",
        Side::Right => b"r",
    }
}

// The side of an equation.
pub(crate) fn side_of(equation: &Equation, side: Side) -> &Term
    ensures { result.now ≡ side_of side equation.now }
{
    match side {
        Side::Left => &equation.left,
        Side::Right => &equation.right,
    }
}

// The equation of a pair, or that it is too large.
fn formation_text(
    alloc: Global,
    formation: &Formation,
    symbols: &Symbols,
) -> Result<Text, AllocError>
    requires { IsFormationOver symbols.now formation.now }
    ensures { IfOk result (λ text. text ≡ formation_text symbols.now formation.now) }
{
    match formation {
        Formation::Pair { left, right, .. } => print_equation(alloc, true, left, right, symbols),
        Formation::TooLarge => Text::from_bytes(alloc, b"too large"),
    }
}

// An overlap at the position of this path.
pub(crate) fn write_overlap(
    out: &mut Text,
    overlap: &Overlap,
    path: &[u32],
) -> Result<(), AllocError>
    ensures { OnOk result (out.new ≡ out.old ++ overlap_words overlap.now path.now) }
{
    write_number(out, overlap.outer)?;
    out.extend(b" ")?;
    out.extend(side_letter(overlap.outer_side))?;
    out.extend(b" ")?;
    write_number(out, overlap.inner)?;
    out.extend(b" ")?;
    out.extend(side_letter(overlap.inner_side))?;
    out.extend(b" ")?;
    write_path(out, path)
}

// The line of an overlap at the position of this path, whose pair comes to this.
fn pair_line(
    alloc: Global,
    overlap: &Overlap,
    path: &[u32],
    formation: &Formation,
    symbols: &Symbols,
) -> Result<Text, AllocError>
    requires { IsFormationOver symbols.now formation.now }
    ensures { IfOk result (λ text. text ≡ pair_line symbols.now overlap.now path.now formation.now) }
{
    let said = formation_text(alloc, formation, symbols)?;
    let mut line = Text::new(alloc);
    write_overlap(&mut line, overlap, path)?;
    line.extend(b" ")?;
    line.extend(said.as_bytes())?;
    line.extend(b"\n")?;
    Ok(line)
}

// The line of an overlap of two equations.
fn line_of(
    alloc: Global,
    a: &Equation,
    b: &Equation,
    formed: &Formed,
    symbols: &Symbols,
) -> Result<Text, AllocError>
    requires a { IsOf symbols.now a.now.left × IsOf symbols.now a.now.right }
    requires b { IsOf symbols.now b.now.left × IsOf symbols.now b.now.right }
    requires overlaps { IsOverlapOf a.now b.now formed.now.overlap }
    ensures { IfOk result (IsPairLine symbols.now a.now b.now formed.now.overlap) }
{
    let overlap = &formed.overlap;
    let path = side_of(a, overlap.outer_side).path(alloc, overlap.position)?;
    let formation = pair_of(alloc, overlap, a, b)?;
    pair_line(alloc, overlap, path.as_slice(), &formation, symbols)
}

// The lines of overlaps of two equations, in order.
fn lines_of(
    alloc: Global,
    a: &Equation,
    b: &Equation,
    list: &[Formed],
    symbols: &Symbols,
) -> Result<Seq<Text>, AllocError>
    requires a { IsOf symbols.now a.now.left × IsOf symbols.now a.now.right }
    requires b { IsOf symbols.now b.now.left × IsOf symbols.now b.now.right }
    requires overlaps { All (IsFormedOf a.now b.now) list.now }
    ensures { IfOk result (λ lines. ArePairLines symbols.now a.now b.now list.now (joined lines)) }
{
    let mut lines = Seq::new(alloc);
    for formed in list {
        lines.push(line_of(alloc, a, b, formed, symbols)?)?;
    }
    Ok(lines)
}

// The lines of all overlaps of an outer equation with an inner one, by their numbers.
fn pairs_of<O: Order>(
    alloc: Global,
    order: &O,
    outer: u32,
    a: &Equation,
    inner: u32,
    b: &Equation,
    symbols: &Symbols,
) -> Result<Seq<Text>, AllocError>
    requires a { IsOf symbols.now a.now.left × IsOf symbols.now a.now.right }
    requires b { IsOf symbols.now b.now.left × IsOf symbols.now b.now.right }
    requires same { outer ≡ inner → a.now ≡ b.now }
    ensures { IfOk result (λ lines. ArePairsOf symbols.now (O.meaning order.now) outer a.now inner b.now (joined lines)) }
{
    let list = overlaps(alloc, outer, a, inner, b, order)?;
    lines_of(alloc, a, b, list.as_slice(), symbols)
}

// The lines of an outer equation with each of the equations, of which it is the one of this number.
fn inner_lines<O: Order>(
    alloc: Global,
    order: &O,
    outer: u32,
    a: &Equation,
    equations: &[Equation],
    symbols: &Symbols,
) -> Result<Seq<Text>, AllocError>
    requires over { AreEquationsOf symbols.now equations.now }
    requires few { length equations.now < 2 ^ 31 }
    requires one { slice_get equations.now outer ≡ Some a.now }
    ensures { IfOk result (λ lines. AreInnerLines symbols.now (O.meaning order.now) outer a.now 0 equations.now (joined lines)) }
{
    let mut lines = Seq::new(alloc);
    for inner in 0..equations.len() {
        let b = &equations[inner];
        lines.append(pairs_of(alloc, order, outer, a, inner as u32, b, symbols)?)?;
    }
    Ok(lines)
}

/// Returns the lines of the pairs of equations, each outer one with each inner one, numbered from 0.
pub fn all_pair_lines<O: Order>(
    alloc: Global,
    order: &O,
    equations: &[Equation],
    symbols: &Symbols,
) -> Result<Seq<Text>, AllocError>
    requires over { AreEquationsOf symbols.now equations.now }
    requires few { length equations.now < 2 ^ 31 }
    ensures { IfOk result (λ lines. AreOuterLines symbols.now (O.meaning order.now) equations.now 0 equations.now (joined lines)) }
{
    let mut lines = Seq::new(alloc);
    for outer in 0..equations.len() {
        let a = &equations[outer];
        lines.append(inner_lines(alloc, order, outer as u32, a, equations, symbols)?)?;
    }
    Ok(lines)
}
