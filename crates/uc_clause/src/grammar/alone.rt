//! A term, or an equation of two, that is a whole text.

ghost use Rattle.std.specs.Prelude.{◌≡◌, ◌<◌, ◌^◌, ℕ, Ok, Err, length, IfOk, IfErr};
ghost use Rattle.uc_term.specs.Tree.{Tree};
ghost use Rattle.uc_term.specs.Table.{Grows};
ghost use Rattle.uc_clause.specs.Tokens.{AreTokens};
ghost use Rattle.uc_clause.specs.Rules.{Stops};
ghost use Rattle.uc_clause.specs.Items.{term_alone, equals_alone};
ghost use Rattle.uc_clause.specs.Reading.{ReadsTerm, ReadsEquation, Refuses, IsFault, IsUnlessMemory, IsAnswer};
ghost use Rattle.uc_clause.specs.Interning.{InternsAt, InternsTerm, InternsEquation, with_term, with_sides};
ghost use Rattle.uc_clause.specs.Sides.{IsTermAlone, IsEquationAlone};
ghost use Rattle.uc_clause.specs.declared.fault.ClauseFault.{ClauseFault};

use super::literal::equals_at;
use super::refusal::refusal;
use super::term::part_at;
use crate::{ClauseFault, Stop, Terminal, Token, Variables, Why, stands_at, tokens};
use std::alloc::Global;
use uc_term::{Symbols, Term};

/// The term that a text of fewer than 2^31 bytes is, with its variables numbered from 0 by first occurrence.
///
/// It is refused as a file is: `Syntax` where the text isn't tokens, or else at the first token with which no term goes
/// on, whatever stands behind a whole term; `Unsupported` at a number, a text in double quotes or a dollar word in a term's
/// place; `Limit` at the 4,097th node, and at a functor with a 256th argument. Symbols are interned when their arguments
/// are closed; after a refusal the table may have grown, and only grown.
pub fn read_term(alloc: Global, bytes: &[u8], symbols: &mut Symbols) -> Result<Term, ClauseFault>
    requires { length bytes.now < 2 ^ 31 }
    ensures reads { IfOk result (ReadsTerm bytes.now symbols.new) }
    ensures refused { IfErr result (IsFault (Refuses term_alone bytes.now)) }
    ensures complete { (t : Tree) → ReadsTerm bytes.now symbols.new t → IsUnlessMemory (Ok t) result }
    ensures refuses { (fault : ClauseFault) → Refuses term_alone bytes.now fault → IsUnlessMemory (Err fault) result }
    ensures grows { Grows symbols.old symbols.new }
    ensures interns { IfOk result (λ _. InternsTerm bytes.now symbols.old symbols.new) }
{
    let result = term_of(alloc, bytes, symbols);
    // The entries of the table are all different, so what was read is the only reading.
    let _ = symbols.len();
    result
}

// The same, in one clause.
fn term_of(alloc: Global, bytes: &[u8], symbols: &mut Symbols) -> Result<Term, ClauseFault>
    requires { length bytes.now < 2 ^ 31 }
    ensures answer { IsAnswer (ReadsTerm bytes.now symbols.new) (Refuses term_alone bytes.now) result }
    ensures grows { Grows symbols.old symbols.new }
    ensures interns { IfOk result (λ _. InternsTerm bytes.now symbols.old symbols.new) }
{
    let list = tokens(alloc, bytes)?;
    match term_in(alloc, bytes, list.as_slice(), symbols) {
        Ok(term) => Ok(term),
        Err(stop) => Err(refusal(alloc, bytes, list.as_slice(), stop)),
    }
}

// The term that all the tokens are.
fn term_in(
    alloc: Global,
    bytes: &[u8],
    tokens: &[Token],
    symbols: &mut Symbols,
) -> Result<Term, Stop>
    requires tokens { AreTokens bytes.now tokens.now }
    ensures reads { IfOk result (IsTermAlone bytes.now tokens.now symbols.new) }
    ensures stops { IfErr result (Stops (term_alone bytes.now tokens.now 0)) }
    ensures grows { Grows symbols.old symbols.new }
    ensures interns { IfOk result (λ _. (end : ℕ) × InternsAt (term_alone bytes.now tokens.now 0) (with_term bytes.now tokens.now) symbols.old symbols.new end) }
{
    let mut variables = Variables::new(alloc);
    let part = part_at(alloc, bytes, tokens, 0, &mut variables, symbols)?;
    if !stands_at(bytes, tokens, part.end, Terminal::End) {
        return Err(Stop::At(Why::NoToken, part.end));
    }
    Ok(part.term)
}

/// The two terms of the equation `s = t` that a text of fewer than 2^31 bytes is, with the variables of both numbered
/// together from 0 by first occurrence.
///
/// It is refused as `read_term` says, and `NotUnit` at a bar behind either side, `NotEquality` at the first token where a
/// closing bracket or a comma stands behind the left side.
pub fn read_equation(
    alloc: Global,
    bytes: &[u8],
    symbols: &mut Symbols,
) -> Result<(Term, Term), ClauseFault>
    requires { length bytes.now < 2 ^ 31 }
    ensures reads { IfOk result (ReadsEquation bytes.now symbols.new) }
    ensures refused { IfErr result (IsFault (Refuses equals_alone bytes.now)) }
    ensures complete { (pair : Tree × Tree) → ReadsEquation bytes.now symbols.new pair → IsUnlessMemory (Ok pair) result }
    ensures refuses { (fault : ClauseFault) → Refuses equals_alone bytes.now fault → IsUnlessMemory (Err fault) result }
    ensures grows { Grows symbols.old symbols.new }
    ensures interns { IfOk result (λ _. InternsEquation bytes.now symbols.old symbols.new) }
{
    let result = equation_of(alloc, bytes, symbols);
    // The entries of the table are all different, so what was read is the only reading.
    let _ = symbols.len();
    result
}

// The same, in one clause.
fn equation_of(
    alloc: Global,
    bytes: &[u8],
    symbols: &mut Symbols,
) -> Result<(Term, Term), ClauseFault>
    requires { length bytes.now < 2 ^ 31 }
    ensures answer { IsAnswer (ReadsEquation bytes.now symbols.new) (Refuses equals_alone bytes.now) result }
    ensures grows { Grows symbols.old symbols.new }
    ensures interns { IfOk result (λ _. InternsEquation bytes.now symbols.old symbols.new) }
{
    let list = tokens(alloc, bytes)?;
    match equation_in(alloc, bytes, list.as_slice(), symbols) {
        Ok(pair) => Ok(pair),
        Err(stop) => Err(refusal(alloc, bytes, list.as_slice(), stop)),
    }
}

// The two sides of the equation that all the tokens are.
fn equation_in(
    alloc: Global,
    bytes: &[u8],
    tokens: &[Token],
    symbols: &mut Symbols,
) -> Result<(Term, Term), Stop>
    requires tokens { AreTokens bytes.now tokens.now }
    ensures reads { IfOk result (IsEquationAlone bytes.now tokens.now symbols.new) }
    ensures stops { IfErr result (Stops (equals_alone bytes.now tokens.now 0)) }
    ensures grows { Grows symbols.old symbols.new }
    ensures interns { IfOk result (λ _. (end : ℕ) × InternsAt (equals_alone bytes.now tokens.now 0) (with_sides bytes.now tokens.now) symbols.old symbols.new end) }
{
    let mut variables = Variables::new(alloc);
    let pair = equals_at(alloc, bytes, tokens, 0, &mut variables, symbols)?;
    if !stands_at(bytes, tokens, pair.end, Terminal::End) {
        return Err(Stop::At(Why::NoEnd, pair.end));
    }
    Ok((pair.left, pair.right))
}
