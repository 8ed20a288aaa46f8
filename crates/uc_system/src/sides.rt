//! How large the sides of a printed equation are, whatever they are.

ghost use Rattle.std.specs.Prelude.{◌≡◌, ◌<◌, ◌^◌, length, IfOk};
ghost use Rattle.uc_clause.specs.Printable.{IsPrintableSymbol};
ghost use Rattle.uc_clause.specs.Tokens.{AreTokens};
ghost use Rattle.uc_order.specs.Members.{Each};
ghost use Rattle.uc_system.specs.Unread.{IsLargeIn};
ghost use Rattle.uc_system.specs.Passing.{AreSides, IsJoined, large_of};

use crate::pass::Pass;
use indexmap::IndexSet;
use std::alloc::{AllocError, Global};
use uc_clause::{Terminal, Token, TokenFault, stands_at, tokens};
use uc_term::{MAX_NODES, Sym, Symbols};

/// How many nodes the two sides have, and the byte at which the right one begins.
#[derive(Clone, Copy, Debug)]
pub(crate) struct Sides {
    left: usize,
    right: usize,
    second: usize,
}

/// The byte at which the first term of more than 4,096 nodes begins in the text of an equation, which is a fact of these symbols
/// but for its size; none where the text is that of no such equation.
pub(crate) fn large_term(
    alloc: Global,
    text: &[u8],
    known: &IndexSet<Sym>,
    symbols: &Symbols,
) -> Result<Option<usize>, AllocError>
    requires small { length text.now < 2 ^ 31 }
    requires known { Each (IsPrintableSymbol symbols.now) known.now.keys }
    ensures { IfOk result (IsLargeIn symbols.now known.now.keys text.now) }
{
    match tokens(alloc, text) {
        Ok(list) => large_among(alloc, text, list.as_slice(), known, symbols),
        Err(TokenFault::NoMemory) => Err(AllocError),
        Err(TokenFault::Syntax(_)) => Ok(None),
    }
}

fn large_among(
    alloc: Global,
    text: &[u8],
    tokens: &[Token],
    known: &IndexSet<Sym>,
    symbols: &Symbols,
) -> Result<Option<usize>, AllocError>
    requires tokens { AreTokens text.now tokens.now }
    requires few { length tokens.now < 2 ^ 31 }
    requires known { Each (IsPrintableSymbol symbols.now) known.now.keys }
    ensures { IfOk result (IsLargeIn symbols.now known.now.keys text.now) }
{
    match sides_of(alloc, text, tokens, known, symbols)? {
        Some(sides) => Ok(large_of(sides)),
        None => Ok(None),
    }
}

fn large_of(sides: Sides) -> Option<usize>
    ensures { result ≡ large_of sides }
{
    if sides.left > MAX_NODES {
        Some(0)
    } else if sides.right > MAX_NODES {
        Some(sides.second)
    } else {
        None
    }
}

// How large the sides are of an equation of these tokens.
fn sides_of(
    alloc: Global,
    text: &[u8],
    tokens: &[Token],
    known: &IndexSet<Sym>,
    symbols: &Symbols,
) -> Result<Option<Sides>, AllocError>
    requires tokens { AreTokens text.now tokens.now }
    requires few { length tokens.now < 2 ^ 31 }
    requires known { Each (IsPrintableSymbol symbols.now) known.now.keys }
    ensures { IfOk result (AreSides symbols.now known.now.keys text.now) }
{
    let Some(left) = Pass::over(alloc, text, tokens, 0, 0, known, symbols)? else {
        return Ok(None);
    };
    if !stands_at(text, tokens, left.at, Terminal::Equal) {
        return Ok(None);
    }
    let Some(right) = Pass::over(alloc, text, tokens, left.at + 1, left.seen, known, symbols)?
    else {
        return Ok(None);
    };
    joined(text, left, right)
}

// The sides that make this text.
fn joined(text: &[u8], left: Pass, right: Pass) -> Result<Option<Sides>, AllocError>
    ensures { IfOk result (IsJoined text.now left right) }
{
    let mut again = left.again;
    again.extend(b" = ")?;
    let second = again.len();
    again.extend(right.again.as_bytes())?;
    if again.as_bytes() != text {
        return Ok(None);
    }
    Ok(Some(Sides {
        left: left.nodes,
        right: right.nodes,
        second,
    }))
}
