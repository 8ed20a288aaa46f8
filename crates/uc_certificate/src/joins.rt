//! Join lines.

ghost use Rattle.std.specs.Prelude.{◌≡◌, ◌≤◌, codes, length, IfOk, IfErr};
ghost use Rattle.uc_term.specs.Table.{Grows};
ghost use Rattle.uc_clause.specs.Tokens.{AreTokens};
ghost use Rattle.uc_clause.specs.Rules.{read, Stops};
ghost use Rattle.uc_certificate.specs.JoinLines as rules;
ghost use Rattle.uc_certificate.specs.JoinMeaning.{MeansJoin, MeanJoins};
ghost use Rattle.uc_certificate.specs.Interning.{with_join, with_joins};
ghost use Rattle.uc_certificate.specs.Reads.{ReadsAs, AreVariables};

use crate::cases::ending;
use crate::replacements::moves;
use crate::terms::names_of;
use crate::words::{integer, is_word, side};
use crate::{Join, What};
use std::alloc::Global;
use uc_clause::{Stop, Terminal, Token, Variables, stands_at};
use uc_term::{Seq, Symbols};
use uc_tstp::{expect, path, word};

// Reads the axiom that is joined.
fn axiom(bytes: &[u8], tokens: &[Token], from: usize) -> Result<(What, usize), Stop>
    requires { AreTokens bytes.now tokens.now }
    ensures reads { IfOk result (λ r. rules.of_axiom bytes.now tokens.now from (read r.0 r.1)) }
    ensures stops { IfErr result (Stops (rules.of_axiom bytes.now tokens.now from)) }
{
    let at = word(bytes, tokens, from, b"axiom")?;
    let at = expect(bytes, tokens, at, Terminal::Open)?;
    let (number, at) = integer(bytes, tokens, at)?;
    let end = expect(bytes, tokens, at, Terminal::Close)?;
    Ok((What::Axiom(number), end))
}

// Reads the overlap that is joined.
fn overlap(
    alloc: Global,
    bytes: &[u8],
    tokens: &[Token],
    from: usize,
) -> Result<(What, usize), Stop>
    requires { AreTokens bytes.now tokens.now }
    ensures reads { IfOk result (λ r. rules.of_overlap bytes.now tokens.now from (read r.0 r.1)) }
    ensures stops { IfErr result (Stops (rules.of_overlap bytes.now tokens.now from)) }
{
    let at = word(bytes, tokens, from, b"overlap")?;
    let at = expect(bytes, tokens, at, Terminal::Open)?;
    let (outer, at) = integer(bytes, tokens, at)?;
    let at = expect(bytes, tokens, at, Terminal::Comma)?;
    let (outer_side, at) = side(bytes, tokens, at)?;
    let at = expect(bytes, tokens, at, Terminal::Comma)?;
    let (inner, at) = integer(bytes, tokens, at)?;
    let at = expect(bytes, tokens, at, Terminal::Comma)?;
    let (inner_side, at) = side(bytes, tokens, at)?;
    let at = expect(bytes, tokens, at, Terminal::Comma)?;
    let (path, at) = path(alloc, bytes, tokens, at)?;
    let end = expect(bytes, tokens, at, Terminal::Close)?;
    let what = What::Overlap {
        outer,
        outer_side,
        inner,
        inner_side,
        path,
    };
    Ok((what, end))
}

// Reads what is joined.
fn what(alloc: Global, bytes: &[u8], tokens: &[Token], from: usize) -> Result<(What, usize), Stop>
    requires { AreTokens bytes.now tokens.now }
    ensures reads { IfOk result (λ r. rules.what bytes.now tokens.now from (read r.0 r.1)) }
    ensures stops { IfErr result (Stops (rules.what bytes.now tokens.now from)) }
{
    if is_word(bytes, tokens, from, b"axiom") {
        axiom(bytes, tokens, from)
    } else {
        overlap(alloc, bytes, tokens, from)
    }
}

// Reads a join line.
fn join(
    alloc: Global,
    bytes: &[u8],
    tokens: &[Token],
    from: usize,
    variables: &mut Variables,
    symbols: &mut Symbols,
) -> Result<(Join, usize), Stop>
    requires tokens { AreTokens bytes.now tokens.now }
    requires seen { AreVariables bytes.now tokens.now variables.old }
    ensures reads { IfOk result (λ r. ReadsAs (rules.join bytes.now tokens.now) (MeansJoin bytes.now tokens.now) (with_join bytes.now tokens.now) from r.1 symbols.old symbols.new r.0) }
    ensures same { IfOk result (λ _. variables.new ≡ variables.old) }
    ensures stops { IfErr result (Stops (rules.join bytes.now tokens.now from)) }
    ensures grows { Grows symbols.old symbols.new }
{
    let at = word(bytes, tokens, from, b"join")?;
    let at = expect(bytes, tokens, at, Terminal::Open)?;
    let (what, at) = what(alloc, bytes, tokens, at)?;
    let at = expect(bytes, tokens, at, Terminal::Comma)?;
    let (left, at) = moves(alloc, bytes, tokens, at, variables, symbols)?;
    let at = expect(bytes, tokens, at, Terminal::Comma)?;
    let (right, at) = moves(alloc, bytes, tokens, at, variables, symbols)?;
    let at = expect(bytes, tokens, at, Terminal::Comma)?;
    let (end, at) = ending(alloc, bytes, tokens, at, variables, symbols)?;
    let at = expect(bytes, tokens, at, Terminal::Close)?;
    let behind = expect(bytes, tokens, at, Terminal::Dot)?;
    let join = Join {
        what,
        left,
        right,
        end,
    };
    Ok((join, behind))
}

/// Reads join lines up to the end of the tokens.
pub(crate) fn joins(
    alloc: Global,
    bytes: &[u8],
    tokens: &[Token],
    symbols: &mut Symbols,
) -> Result<(Seq<Join>, usize), Stop>
    requires tokens { AreTokens bytes.now tokens.now }
    ensures reads { IfOk result (λ r. ReadsAs (rules.joins bytes.now tokens.now) (MeanJoins bytes.now tokens.now) (with_joins bytes.now tokens.now) 0 r.1 symbols.old symbols.new r.0) }
    ensures few { IfOk result (λ r. length r.0 ≤ length tokens.now) }
    ensures stops { IfErr result (Stops (rules.joins bytes.now tokens.now 0)) }
    ensures grows { Grows symbols.old symbols.new }
{
    let mut variables = names_of(alloc, bytes, tokens)?;
    let mut list = Seq::new(alloc);
    let mut at = 0;
    'joins: while !stands_at(bytes, tokens, at, Terminal::End) {
        let member = join(alloc, bytes, tokens, at, &mut variables, symbols)?;
        list.push(member.0)?;
        at = member.1;
    }
    Ok((list, at))
}
