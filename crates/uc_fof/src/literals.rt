//! Literals.

ghost use Rattle.std.specs.Prelude.{◌≡◌, ◌<◌, ◌^◌, ℕ, IfOk, IfErr, length};
ghost use Rattle.uc_clause.specs.Tokens.{AreTokens};
ghost use Rattle.uc_clause.specs.declared.terminal.Terminal.TheVariants as terminal;
ghost use Rattle.uc_fof.specs.Formulas as formulas;
ghost use Rattle.uc_fof.specs.Given.{Passes};

use crate::bound::Bound;
use crate::terms::term_end;
use crate::tokens::{expect, is_mark};
use crate::{Halt, Reason};
use std::alloc::Global;
use uc_clause::{Terminal, Token, Why, stands_at, terminal_at};
use uc_term::Symbols;

// Goes over the right side, behind `=`.
fn right_side_end(
    alloc: Global,
    bytes: &[u8],
    tokens: &[Token],
    conjecture: bool,
    bound: &Bound,
    from: usize,
    symbols: &mut Symbols,
) -> Result<usize, Halt>
    requires { AreTokens bytes.now tokens.now }
    ensures { Passes (formulas.right_side bytes.now tokens.now conjecture bound.now from) result }
{
    if is_mark(bytes, tokens, from, b'>') {
        return Err(Halt::At(Reason::Connective, from));
    }
    term_end(alloc, bytes, tokens, conjecture, bound, from, symbols)
}

// Goes over the right side, behind `=` or `!=`.
fn side_end(
    alloc: Global,
    bytes: &[u8],
    tokens: &[Token],
    conjecture: bool,
    bound: &Bound,
    positive: bool,
    from: usize,
    symbols: &mut Symbols,
) -> Result<usize, Halt>
    requires { AreTokens bytes.now tokens.now }
    ensures { Passes (formulas.side_behind bytes.now tokens.now conjecture bound.now positive from) result }
{
    if positive {
        right_side_end(alloc, bytes, tokens, conjecture, bound, from, symbols)
    } else {
        term_end(alloc, bytes, tokens, conjecture, bound, from, symbols)
    }
}

// The sign that a token is, if the literal can have it: whether it is `=`, and not `!=`.
fn sign_by(conjecture: bool, terminal: Terminal) -> Option<bool>
    ensures { result ≡ formulas.sign_by conjecture terminal }
{
    match terminal {
        Terminal::Equal => Some(true),
        Terminal::Unequal => { if conjecture { None } else { Some(false) } }
        _ => None,
    }
}

// Goes over `term = term` or `term != term`.
fn equation_end(
    alloc: Global,
    bytes: &[u8],
    tokens: &[Token],
    conjecture: bool,
    bound: &Bound,
    from: usize,
    symbols: &mut Symbols,
) -> Result<usize, Halt>
    requires { AreTokens bytes.now tokens.now }
    ensures { Passes (formulas.equation bytes.now tokens.now conjecture bound.now from) result }
{
    let at = term_end(alloc, bytes, tokens, conjecture, bound, from, symbols)?;
    let Some(positive) = sign_by(conjecture, terminal_at(bytes, tokens, at)) else {
        return Err(Halt::At(Reason::Inside(conjecture, Why::NoSign(from)), at));
    };
    side_end(
        alloc,
        bytes,
        tokens,
        conjecture,
        bound,
        positive,
        at + 1,
        symbols,
    )
}

// Goes over `term = term`.
fn equals_end(
    alloc: Global,
    bytes: &[u8],
    tokens: &[Token],
    conjecture: bool,
    bound: &Bound,
    from: usize,
    symbols: &mut Symbols,
) -> Result<usize, Halt>
    requires { AreTokens bytes.now tokens.now }
    ensures { Passes (formulas.equals bytes.now tokens.now conjecture bound.now from) result }
{
    let at = term_end(alloc, bytes, tokens, conjecture, bound, from, symbols)?;
    let reason = Reason::Inside(conjecture, Why::NoSign(from));
    let at = expect(bytes, tokens, at, Terminal::Equal, reason)?;
    right_side_end(alloc, bytes, tokens, conjecture, bound, at, symbols)
}

// Goes over `( term = term )`.
fn bracketed_end(
    alloc: Global,
    bytes: &[u8],
    tokens: &[Token],
    conjecture: bool,
    bound: &Bound,
    from: usize,
    symbols: &mut Symbols,
) -> Result<usize, Halt>
    requires { AreTokens bytes.now tokens.now }
    ensures { Passes (formulas.equals_in_brackets bytes.now tokens.now conjecture bound.now from) result }
{
    let reason = Reason::Inside(conjecture, Why::NoToken);
    let at = expect(bytes, tokens, from, Terminal::Open, reason)?;
    let at = equals_end(alloc, bytes, tokens, conjecture, bound, at, symbols)?;
    expect(bytes, tokens, at, Terminal::Close, reason)
}

// Goes over what `~` denies.
fn denied_end(
    alloc: Global,
    bytes: &[u8],
    tokens: &[Token],
    conjecture: bool,
    bound: &Bound,
    from: usize,
    symbols: &mut Symbols,
) -> Result<usize, Halt>
    requires { AreTokens bytes.now tokens.now }
    ensures { Passes (formulas.denied bytes.now tokens.now conjecture bound.now from) result }
{
    if is_mark(bytes, tokens, from, b'!') {
        return Err(Halt::At(Reason::Unread, from));
    }
    if stands_at(bytes, tokens, from, Terminal::Open) {
        bracketed_end(alloc, bytes, tokens, conjecture, bound, from, symbols)
    } else {
        equals_end(alloc, bytes, tokens, conjecture, bound, from, symbols)
    }
}

// Whether a denial begins at a token.
fn denies(conjecture: bool, terminal: Terminal) -> bool
    ensures { result ≡ formulas.denies conjecture terminal }
{
    match terminal {
        Terminal::Tilde => !conjecture,
        _ => false,
    }
}

// Goes over a literal, and gives the number of the token behind it.
pub(crate) fn literal_end(
    alloc: Global,
    bytes: &[u8],
    tokens: &[Token],
    conjecture: bool,
    bound: &Bound,
    from: usize,
    symbols: &mut Symbols,
) -> Result<usize, Halt>
    requires { AreTokens bytes.now tokens.now }
    ensures { Passes (formulas.literal bytes.now tokens.now conjecture bound.now from) result }
{
    if denies(conjecture, terminal_at(bytes, tokens, from)) {
        denied_end(alloc, bytes, tokens, conjecture, bound, from + 1, symbols)
    } else {
        equation_end(alloc, bytes, tokens, conjecture, bound, from, symbols)
    }
}
