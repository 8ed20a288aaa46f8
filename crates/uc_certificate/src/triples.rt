//! The triples of facts in join lines.

ghost use Rattle.std.specs.Prelude.{◌≡◌, codes, IfOk, IfErr};
ghost use Rattle.uc_clause.specs.Tokens.{AreTokens};
ghost use Rattle.uc_clause.specs.Rules.{read, Stops};
ghost use Rattle.uc_certificate.specs.JoinParse.{by_ac};
ghost use Rattle.uc_tstp.specs.Lines as lines;
ghost use Rattle.uc_certificate.specs.JoinLines as rules;

use crate::AcTriple;
use crate::words::integer;
use std::alloc::Global;
use uc_clause::{Stop, Terminal, Token};
use uc_term::Seq;
use uc_tstp::{expect, has_next, word};

// Reads a triple.
fn triple(bytes: &[u8], tokens: &[Token], from: usize) -> Result<(AcTriple, usize), Stop>
    requires { AreTokens bytes.now tokens.now }
    ensures reads { IfOk result (λ r. rules.triple bytes.now tokens.now from (read r.0 r.1)) }
    ensures stops { IfErr result (Stops (rules.triple bytes.now tokens.now from)) }
{
    let at = expect(bytes, tokens, from, Terminal::OpenSquare)?;
    let (assoc, at) = integer(bytes, tokens, at)?;
    let at = expect(bytes, tokens, at, Terminal::Comma)?;
    let (comm, at) = integer(bytes, tokens, at)?;
    let at = expect(bytes, tokens, at, Terminal::Comma)?;
    let (extended, at) = integer(bytes, tokens, at)?;
    let end = expect(bytes, tokens, at, Terminal::CloseSquare)?;
    let triple = AcTriple {
        assoc,
        comm,
        extended,
    };
    Ok((triple, end))
}

// Reads triples up to the closing square bracket.
fn triples(
    alloc: Global,
    bytes: &[u8],
    tokens: &[Token],
    from: usize,
) -> Result<(Seq<AcTriple>, usize), Stop>
    requires { AreTokens bytes.now tokens.now }
    ensures reads { IfOk result (λ r. lines.Members bytes.now tokens.now (rules.triple bytes.now tokens.now) from (read r.0 r.1)) }
    ensures stops { IfErr result (Stops (lines.Members bytes.now tokens.now (rules.triple bytes.now tokens.now) from)) }
{
    let mut list = Seq::new(alloc);
    let mut at = from;
    let mut more = true;
    'members: while more {
        let member = triple(bytes, tokens, at)?;
        list.push(member.0)?;
        more = has_next(bytes, tokens, member.1)?;
        at = member.1 + 1;
    }
    Ok((list, at))
}

/// Reads the triples of facts by which two ends are equal up to brackets and order.
pub(crate) fn ac(
    alloc: Global,
    bytes: &[u8],
    tokens: &[Token],
    from: usize,
) -> Result<(Seq<AcTriple>, usize), Stop>
    requires { AreTokens bytes.now tokens.now }
    ensures reads { IfOk result (λ r. rules.ac bytes.now tokens.now from (read (by_ac r.0) r.1)) }
    ensures stops { IfErr result (Stops (rules.ac bytes.now tokens.now from)) }
{
    let at = word(bytes, tokens, from, b"ac")?;
    let at = expect(bytes, tokens, at, Terminal::Open)?;
    let at = expect(bytes, tokens, at, Terminal::OpenSquare)?;
    let (triples, at) = triples(alloc, bytes, tokens, at)?;
    let end = expect(bytes, tokens, at, Terminal::Close)?;
    Ok((triples, end))
}
