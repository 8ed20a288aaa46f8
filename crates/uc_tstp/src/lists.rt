//! The lists of a proof: paths, and the parents of a line.

ghost use Rattle.std.specs.Prelude.{◌≡◌, ◌<◌, IfOk, IfErr, length};
ghost use Rattle.uc_clause.specs.Tokens.{AreTokens};
ghost use Rattle.uc_clause.specs.Rules.{read, Stops};
ghost use Rattle.uc_tstp.specs.Lines as lines;
ghost use Rattle.uc_tstp.specs.Drafts.{IsNext, NoNext};

use crate::words::{expect, lower, number};
use std::alloc::Global;
use uc_clause::{Stop, Terminal, Token, Why, stands_at, terminal_at};
use uc_term::Seq;

/// Whether a comma stands behind a member, and not the closing square bracket.
pub fn has_next(bytes: &[u8], tokens: &[Token], at: usize) -> Result<bool, Stop>
    ensures next { IfOk result (IsNext bytes.now tokens.now at) }
    ensures stops { IfErr result (NoNext bytes.now tokens.now at) }
{
    match terminal_at(bytes, tokens, at) {
        Terminal::Comma => Ok(true),
        Terminal::CloseSquare => Ok(false),
        _ => Err(Stop::At(Why::NoToken, at)),
    }
}

// Numbers up to the closing square bracket.
fn numbers(
    alloc: Global,
    bytes: &[u8],
    tokens: &[Token],
    from: usize,
) -> Result<(Seq<u32>, usize), Stop>
    requires { AreTokens bytes.now tokens.now }
    ensures reads { IfOk result (λ r. lines.Members bytes.now tokens.now (lines.number bytes.now tokens.now) from (read r.0 r.1)) }
    ensures stops { IfErr result (Stops (lines.Members bytes.now tokens.now (lines.number bytes.now tokens.now) from)) }
{
    let mut list = Seq::new(alloc);
    let mut at = from;
    let mut more = true;
    'members: while more {
        let member = number(bytes, tokens, at)?;
        list.push(member.0)?;
        more = has_next(bytes, tokens, member.1)?;
        at = member.1 + 1;
    }
    Ok((list, at))
}

/// Reads a path.
pub fn path(
    alloc: Global,
    bytes: &[u8],
    tokens: &[Token],
    from: usize,
) -> Result<(Seq<u32>, usize), Stop>
    requires { AreTokens bytes.now tokens.now }
    ensures reads { IfOk result (λ r. lines.path bytes.now tokens.now from (read r.0 r.1)) }
    ensures stops { IfErr result (Stops (lines.path bytes.now tokens.now from)) }
{
    let at = expect(bytes, tokens, from, Terminal::OpenSquare)?;
    if stands_at(bytes, tokens, at, Terminal::CloseSquare) {
        return Ok((Seq::new(alloc), at + 1));
    }
    numbers(alloc, bytes, tokens, at)
}

// Lowers up to the closing square bracket, by their numbers.
fn lowers(
    alloc: Global,
    bytes: &[u8],
    tokens: &[Token],
    from: usize,
) -> Result<(Seq<usize>, usize), Stop>
    requires { AreTokens bytes.now tokens.now }
    ensures reads { IfOk result (λ r. lines.Members bytes.now tokens.now (lines.lower bytes.now tokens.now) from (read r.0 r.1)) }
    ensures stops { IfErr result (Stops (lines.Members bytes.now tokens.now (lines.lower bytes.now tokens.now) from)) }
{
    let mut list = Seq::new(alloc);
    let mut at = from;
    let mut more = true;
    'members: while more {
        let member = lower(bytes, tokens, at)?;
        list.push(member.0)?;
        more = has_next(bytes, tokens, member.1)?;
        at = member.1 + 1;
    }
    Ok((list, at))
}

/// Reads the parents of a line, which are Lowers by their numbers.
pub(crate) fn parents(
    alloc: Global,
    bytes: &[u8],
    tokens: &[Token],
    from: usize,
) -> Result<(Seq<usize>, usize), Stop>
    requires { AreTokens bytes.now tokens.now }
    ensures reads { IfOk result (λ r. lines.parents bytes.now tokens.now from (read r.0 r.1)) }
    ensures stops { IfErr result (Stops (lines.parents bytes.now tokens.now from)) }
{
    let at = expect(bytes, tokens, from, Terminal::OpenSquare)?;
    if stands_at(bytes, tokens, at, Terminal::CloseSquare) {
        return Ok((Seq::new(alloc), at + 1));
    }
    lowers(alloc, bytes, tokens, at)
}
