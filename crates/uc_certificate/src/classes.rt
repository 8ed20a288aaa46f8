//! The orders of variables in join lines.

ghost use Rattle.std.specs.Prelude.{◌≡◌, IfOk, IfErr};
ghost use Rattle.uc_clause.specs.Tokens.{AreTokens};
ghost use Rattle.uc_clause.specs.Rules.{read, Stops};
ghost use Rattle.uc_tstp.specs.Lines as lines;
ghost use Rattle.uc_certificate.specs.JoinLines as rules;

use crate::words::variable;
use std::alloc::Global;
use uc_clause::{Stop, Terminal, Token, stands_at};
use uc_term::Seq;
use uc_tstp::{expect, has_next};

// Reads variables up to the closing square bracket.
fn variables(
    alloc: Global,
    bytes: &[u8],
    tokens: &[Token],
    from: usize,
) -> Result<(Seq<u32>, usize), Stop>
    requires { AreTokens bytes.now tokens.now }
    ensures reads { IfOk result (λ r. lines.Members bytes.now tokens.now (rules.variable bytes.now tokens.now) from (read r.0 r.1)) }
    ensures stops { IfErr result (Stops (lines.Members bytes.now tokens.now (rules.variable bytes.now tokens.now) from)) }
{
    let mut list = Seq::new(alloc);
    let mut at = from;
    let mut more = true;
    'members: while more {
        let member = variable(bytes, tokens, at)?;
        list.push(member.0)?;
        more = has_next(bytes, tokens, member.1)?;
        at = member.1 + 1;
    }
    Ok((list, at))
}

// Reads a class.
fn class(
    alloc: Global,
    bytes: &[u8],
    tokens: &[Token],
    from: usize,
) -> Result<(Seq<u32>, usize), Stop>
    requires { AreTokens bytes.now tokens.now }
    ensures reads { IfOk result (λ r. rules.class bytes.now tokens.now from (read r.0 r.1)) }
    ensures stops { IfErr result (Stops (rules.class bytes.now tokens.now from)) }
{
    let at = expect(bytes, tokens, from, Terminal::OpenSquare)?;
    variables(alloc, bytes, tokens, at)
}

// Reads classes up to the closing square bracket.
fn more_classes(
    alloc: Global,
    bytes: &[u8],
    tokens: &[Token],
    from: usize,
) -> Result<(Seq<Seq<u32>>, usize), Stop>
    requires { AreTokens bytes.now tokens.now }
    ensures reads { IfOk result (λ r. lines.Members bytes.now tokens.now (rules.class bytes.now tokens.now) from (read r.0 r.1)) }
    ensures stops { IfErr result (Stops (lines.Members bytes.now tokens.now (rules.class bytes.now tokens.now) from)) }
{
    let mut list = Seq::new(alloc);
    let mut at = from;
    let mut more = true;
    'members: while more {
        let member = class(alloc, bytes, tokens, at)?;
        list.push(member.0)?;
        more = has_next(bytes, tokens, member.1)?;
        at = member.1 + 1;
    }
    Ok((list, at))
}

/// Reads a list of classes.
pub(crate) fn classes(
    alloc: Global,
    bytes: &[u8],
    tokens: &[Token],
    from: usize,
) -> Result<(Seq<Seq<u32>>, usize), Stop>
    requires { AreTokens bytes.now tokens.now }
    ensures reads { IfOk result (λ r. rules.classes bytes.now tokens.now from (read r.0 r.1)) }
    ensures stops { IfErr result (Stops (rules.classes bytes.now tokens.now from)) }
{
    let at = expect(bytes, tokens, from, Terminal::OpenSquare)?;
    if stands_at(bytes, tokens, at, Terminal::CloseSquare) {
        return Ok((Seq::new(alloc), at + 1));
    }
    more_classes(alloc, bytes, tokens, at)
}
