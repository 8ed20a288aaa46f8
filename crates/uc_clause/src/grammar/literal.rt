//! Literals, and the brackets round them.

ghost use Rattle.std.specs.Prelude.{◌≡◌, ◌≤◌, ◌+◌, IfOk, IfErr};
ghost use Rattle.uc_term.specs.Table.{Grows};
ghost use Rattle.uc_clause.specs.Tokens.{AreTokens};
ghost use Rattle.uc_clause.specs.Terminals.{terminal_at};
ghost use Rattle.uc_clause.specs.Rules.{Stops};
ghost use Rattle.uc_clause.specs.Terms.{Term as ReadsTerm};
ghost use Rattle.uc_clause.specs.Items as items;
ghost use Rattle.uc_clause.specs.Interning.{InternsAt, with_term, with_sides, with_literal};
ghost use Rattle.uc_clause.specs.Sides.{AddsSide, ReadsPair, ReadsLiteral};

use super::term::{Part, part_at};
use crate::{Place, Stop, Terminal, Token, Variables, Why, stands_at, terminal_at};
use std::alloc::Global;
use uc_term::{Symbols, Term};

/// Two terms that are read, the places of their nodes, and the number of the token behind them.
#[derive(Drop)]
pub(crate) struct Pair {
    pub(crate) left: Term,
    pub(crate) right: Term,
    pub(crate) places: Vec<Place>,
    pub(crate) end: usize,
}

/// An equation that is read, or its denial.
#[derive(Drop)]
pub(crate) struct Equation {
    pub(crate) positive: bool,
    pub(crate) pair: Pair,
}

// Reads the right side, from a token on.
fn right_at(
    alloc: Global,
    bytes: &[u8],
    tokens: &[Token],
    left: Part,
    at: usize,
    variables: &mut Variables,
    symbols: &mut Symbols,
) -> Result<Pair, Stop>
    requires tokens { AreTokens bytes.now tokens.now }
    ensures adds { IfOk result (AddsSide bytes.now tokens.now left at variables.old variables.new symbols.new) }
    ensures stops { IfErr result (Stops (ReadsTerm bytes.now tokens.now 0 at)) }
    ensures grows { Grows symbols.old symbols.new }
    ensures interns { IfOk result (λ pair. InternsAt (ReadsTerm bytes.now tokens.now 0 at) (with_term bytes.now tokens.now) symbols.old symbols.new pair.end) }
{
    let right = part_at(alloc, bytes, tokens, at, variables, symbols)?;
    let Part {
        term,
        mut places,
        end: _,
    } = left;
    places.extend_from_slice(&right.places)?;
    Ok(Pair {
        left: term,
        right: right.term,
        places,
        end: right.end,
    })
}

// Reads `term = term`.
pub(crate) fn equals_at(
    alloc: Global,
    bytes: &[u8],
    tokens: &[Token],
    from: usize,
    variables: &mut Variables,
    symbols: &mut Symbols,
) -> Result<Pair, Stop>
    requires tokens { AreTokens bytes.now tokens.now }
    ensures reads { IfOk result (ReadsPair (items.equals bytes.now tokens.now) bytes.now tokens.now from variables.old variables.new symbols.new) }
    ensures stops { IfErr result (Stops (items.equals bytes.now tokens.now from)) }
    ensures grows { Grows symbols.old symbols.new }
    ensures interns { IfOk result (λ pair. InternsAt (items.equals bytes.now tokens.now from) (with_sides bytes.now tokens.now) symbols.old symbols.new pair.end) }
{
    let left = part_at(alloc, bytes, tokens, from, variables, symbols)?;
    if !stands_at(bytes, tokens, left.end, Terminal::Equal) {
        return Err(Stop::At(Why::NoSign(from), left.end));
    }
    let at = left.end + 1;
    right_at(alloc, bytes, tokens, left, at, variables, symbols)
}

impl Pair {
    // The same, with another token behind it.
    fn up_to(self, end: usize) -> Pair
        ensures { result ≡ record self { end = end } }
    {
        Pair {
            left: self.left,
            right: self.right,
            places: self.places,
            end,
        }
    }
}

// The sign that a token is, if it is one: whether it is `=`, and not `!=`.
fn sign_of(terminal: Terminal) -> Option<bool>
    ensures { result ≡ items.sign_of terminal }
{
    match terminal {
        Terminal::Equal => Some(true),
        Terminal::Unequal => Some(false),
        _ => None,
    }
}

// Reads `term = term` or `term != term`.
fn equation_at(
    alloc: Global,
    bytes: &[u8],
    tokens: &[Token],
    from: usize,
    variables: &mut Variables,
    symbols: &mut Symbols,
) -> Result<Equation, Stop>
    requires tokens { AreTokens bytes.now tokens.now }
    ensures reads { IfOk result (ReadsLiteral (items.equation bytes.now tokens.now) bytes.now tokens.now from variables.old variables.new symbols.new) }
    ensures stops { IfErr result (Stops (items.equation bytes.now tokens.now from)) }
    ensures grows { Grows symbols.old symbols.new }
    ensures interns { IfOk result (λ equation. InternsAt (items.equation bytes.now tokens.now from) (with_literal bytes.now tokens.now) symbols.old symbols.new equation.pair.end) }
{
    let left = part_at(alloc, bytes, tokens, from, variables, symbols)?;
    let Some(positive) = sign_of(terminal_at(bytes, tokens, left.end)) else {
        return Err(Stop::At(Why::NoSign(from), left.end));
    };
    let at = left.end + 1;
    let pair = right_at(alloc, bytes, tokens, left, at, variables, symbols)?;
    Ok(Equation { positive, pair })
}

// Reads `( term = term )`.
fn bracketed_at(
    alloc: Global,
    bytes: &[u8],
    tokens: &[Token],
    from: usize,
    variables: &mut Variables,
    symbols: &mut Symbols,
) -> Result<Pair, Stop>
    requires tokens { AreTokens bytes.now tokens.now }
    requires opens { terminal_at bytes.now tokens.now from ≡ Terminal.Open }
    ensures reads { IfOk result (ReadsPair (items.equals_in_brackets bytes.now tokens.now) bytes.now tokens.now from variables.old variables.new symbols.new) }
    ensures stops { IfErr result (Stops (items.equals_in_brackets bytes.now tokens.now from)) }
    ensures grows { Grows symbols.old symbols.new }
    ensures interns { IfOk result (λ pair. InternsAt (items.equals_in_brackets bytes.now tokens.now from) (with_sides bytes.now tokens.now) symbols.old symbols.new pair.end) }
{
    let pair = equals_at(alloc, bytes, tokens, from + 1, variables, symbols)?;
    if !stands_at(bytes, tokens, pair.end, Terminal::Close) {
        return Err(Stop::At(Why::NoToken, pair.end));
    }
    let end = pair.end + 1;
    Ok(pair.up_to(end))
}

// Reads what `~` denies.
fn denied_at(
    alloc: Global,
    bytes: &[u8],
    tokens: &[Token],
    from: usize,
    variables: &mut Variables,
    symbols: &mut Symbols,
) -> Result<Pair, Stop>
    requires tokens { AreTokens bytes.now tokens.now }
    ensures reads { IfOk result (ReadsPair (items.denied bytes.now tokens.now) bytes.now tokens.now from variables.old variables.new symbols.new) }
    ensures stops { IfErr result (Stops (items.denied bytes.now tokens.now from)) }
    ensures grows { Grows symbols.old symbols.new }
    ensures interns { IfOk result (λ pair. InternsAt (items.denied bytes.now tokens.now from) (with_sides bytes.now tokens.now) symbols.old symbols.new pair.end) }
{
    if stands_at(bytes, tokens, from, Terminal::Open) {
        bracketed_at(alloc, bytes, tokens, from, variables, symbols)
    } else {
        equals_at(alloc, bytes, tokens, from, variables, symbols)
    }
}

// Reads a literal.
pub(crate) fn equation_or_denial_at(
    alloc: Global,
    bytes: &[u8],
    tokens: &[Token],
    from: usize,
    variables: &mut Variables,
    symbols: &mut Symbols,
) -> Result<Equation, Stop>
    requires tokens { AreTokens bytes.now tokens.now }
    ensures reads { IfOk result (ReadsLiteral (items.literal bytes.now tokens.now) bytes.now tokens.now from variables.old variables.new symbols.new) }
    ensures stops { IfErr result (Stops (items.literal bytes.now tokens.now from)) }
    ensures grows { Grows symbols.old symbols.new }
    ensures interns { IfOk result (λ equation. InternsAt (items.literal bytes.now tokens.now from) (with_literal bytes.now tokens.now) symbols.old symbols.new equation.pair.end) }
{
    if stands_at(bytes, tokens, from, Terminal::Tilde) {
        let pair = denied_at(alloc, bytes, tokens, from + 1, variables, symbols)?;
        Ok(Equation {
            positive: false,
            pair,
        })
    } else {
        equation_at(alloc, bytes, tokens, from, variables, symbols)
    }
}

/// The most round brackets round a clause.
pub const MAX_BRACKETS: u32 = 16;

// Reads a clause inside this many brackets; it goes no deeper than there are brackets left.
pub(crate) fn clause_at(
    alloc: Global,
    bytes: &[u8],
    tokens: &[Token],
    brackets: u32,
    from: usize,
    variables: &mut Variables,
    symbols: &mut Symbols,
) -> Result<Equation, Stop>
    requires tokens { AreTokens bytes.now tokens.now }
    requires brackets { brackets ≤ MAX_BRACKETS }
    ensures reads { IfOk result (ReadsLiteral (items.Clause bytes.now tokens.now brackets) bytes.now tokens.now from variables.old variables.new symbols.new) }
    ensures stops { IfErr result (Stops (items.Clause bytes.now tokens.now brackets from)) }
    ensures grows { Grows symbols.old symbols.new }
    ensures interns { IfOk result (λ equation. InternsAt (items.Clause bytes.now tokens.now brackets from) (with_literal bytes.now tokens.now) symbols.old symbols.new equation.pair.end) }
{
    if !stands_at(bytes, tokens, from, Terminal::Open) {
        return equation_or_denial_at(alloc, bytes, tokens, from, variables, symbols);
    }
    if brackets >= MAX_BRACKETS {
        return Err(Stop::At(Why::Parentheses, from));
    }
    let Equation { positive, pair } = clause_at(
        alloc,
        bytes,
        tokens,
        brackets + 1,
        from + 1,
        variables,
        symbols,
    )?;
    if !stands_at(bytes, tokens, pair.end, Terminal::Close) {
        return Err(Stop::At(Why::NoEnd, pair.end));
    }
    let end = pair.end + 1;
    Ok(Equation {
        positive,
        pair: pair.up_to(end),
    })
}
