//! The ends of join lines.

ghost use Rattle.std.specs.Prelude.{◌≡◌, codes, true, false, IfOk, IfErr};
ghost use Rattle.uc_term.specs.Table.{Grows};
ghost use Rattle.uc_clause.specs.Tokens.{AreTokens};
ghost use Rattle.uc_clause.specs.Rules.{read, Stops};
ghost use Rattle.uc_certificate.specs.JoinParse.{by_instance};
ghost use Rattle.uc_tstp.specs.Lines as lines;
ghost use Rattle.uc_certificate.specs.JoinLines as rules;
ghost use Rattle.uc_certificate.specs.JoinMeaning.{MeansCase, MeanCases, MeansEnd};
ghost use Rattle.uc_certificate.specs.Interning.{with_case, with_cases, with_ending};
ghost use Rattle.uc_certificate.specs.Reads.{ReadsAs, AreVariables};

use crate::classes::classes;
use crate::replacements::moves;
use crate::triples::ac;
use crate::words::{integer, is_word};
use crate::{Case, End};
use std::alloc::Global;
use uc_clause::{Stop, Terminal, Token, Variables};
use uc_order::VarOrder;
use uc_term::{Seq, Symbols};
use uc_tstp::{expect, has_next, word};

// Reads a case.
fn case(
    alloc: Global,
    bytes: &[u8],
    tokens: &[Token],
    from: usize,
    variables: &mut Variables,
    symbols: &mut Symbols,
) -> Result<(Case, usize), Stop>
    requires tokens { AreTokens bytes.now tokens.now }
    requires seen { AreVariables bytes.now tokens.now variables.old }
    ensures reads { IfOk result (λ r. ReadsAs (rules.case bytes.now tokens.now) (MeansCase bytes.now tokens.now) (with_case bytes.now tokens.now) from r.1 symbols.old symbols.new r.0) }
    ensures same { IfOk result (λ _. variables.new ≡ variables.old) }
    ensures stops { IfErr result (Stops (rules.case bytes.now tokens.now from)) }
    ensures grows { Grows symbols.old symbols.new }
{
    let at = word(bytes, tokens, from, b"case")?;
    let at = expect(bytes, tokens, at, Terminal::Open)?;
    let (classes, at) = classes(alloc, bytes, tokens, at)?;
    let at = expect(bytes, tokens, at, Terminal::Comma)?;
    let (left, at) = moves(alloc, bytes, tokens, at, variables, symbols)?;
    let at = expect(bytes, tokens, at, Terminal::Comma)?;
    let (right, at) = moves(alloc, bytes, tokens, at, variables, symbols)?;
    let end = expect(bytes, tokens, at, Terminal::Close)?;
    let cases = VarOrder::from_classes(classes);
    Ok((Case { cases, left, right }, end))
}

// Reads cases up to the closing square bracket.
fn cases(
    alloc: Global,
    bytes: &[u8],
    tokens: &[Token],
    from: usize,
    variables: &mut Variables,
    symbols: &mut Symbols,
) -> Result<(Seq<Case>, usize), Stop>
    requires tokens { AreTokens bytes.now tokens.now }
    requires seen { AreVariables bytes.now tokens.now variables.old }
    ensures reads { IfOk result (λ r. ReadsAs (lines.members bytes.now tokens.now (rules.case bytes.now tokens.now)) (MeanCases bytes.now tokens.now) (with_cases bytes.now tokens.now) from r.1 symbols.old symbols.new r.0) }
    ensures same { IfOk result (λ _. variables.new ≡ variables.old) }
    ensures stops { IfErr result (Stops (lines.members bytes.now tokens.now (rules.case bytes.now tokens.now) from)) }
    ensures grows { Grows symbols.old symbols.new }
{
    let mut list = Seq::new(alloc);
    let mut at = from;
    let mut more = true;
    'members: while more {
        let member = case(alloc, bytes, tokens, at, variables, symbols)?;
        list.push(member.0)?;
        more = has_next(bytes, tokens, member.1)?;
        at = member.1 + 1;
    }
    Ok((list, at))
}

// Reads the end of two terms that are joined under each order of their variables.
fn orders(
    alloc: Global,
    bytes: &[u8],
    tokens: &[Token],
    from: usize,
    variables: &mut Variables,
    symbols: &mut Symbols,
) -> Result<(End, usize), Stop>
    requires tokens { AreTokens bytes.now tokens.now }
    requires seen { AreVariables bytes.now tokens.now variables.old }
    ensures reads { IfOk result (λ r. ReadsAs (rules.orders bytes.now tokens.now) (MeansEnd bytes.now tokens.now) (with_ending bytes.now tokens.now) from r.1 symbols.old symbols.new r.0) }
    ensures same { IfOk result (λ _. variables.new ≡ variables.old) }
    ensures stops { IfErr result (Stops (rules.orders bytes.now tokens.now from)) }
    ensures grows { Grows symbols.old symbols.new }
{
    let at = word(bytes, tokens, from, b"orders")?;
    let at = expect(bytes, tokens, at, Terminal::Open)?;
    let at = expect(bytes, tokens, at, Terminal::OpenSquare)?;
    let (cases, at) = cases(alloc, bytes, tokens, at, variables, symbols)?;
    let end = expect(bytes, tokens, at, Terminal::Close)?;
    Ok((End::Orders(cases), end))
}

// Reads the number of a fact, an instance of which two terms are.
fn instance(bytes: &[u8], tokens: &[Token], from: usize) -> Result<(u32, usize), Stop>
    requires { AreTokens bytes.now tokens.now }
    ensures reads { IfOk result (λ r. rules.instance bytes.now tokens.now from (read (by_instance r.0) r.1)) }
    ensures stops { IfErr result (Stops (rules.instance bytes.now tokens.now from)) }
{
    let at = word(bytes, tokens, from, b"instance")?;
    let at = expect(bytes, tokens, at, Terminal::Open)?;
    let (number, at) = integer(bytes, tokens, at)?;
    let end = expect(bytes, tokens, at, Terminal::Close)?;
    Ok((number, end))
}

/// Reads why two ends are joined.
pub(crate) fn ending(
    alloc: Global,
    bytes: &[u8],
    tokens: &[Token],
    from: usize,
    variables: &mut Variables,
    symbols: &mut Symbols,
) -> Result<(End, usize), Stop>
    requires tokens { AreTokens bytes.now tokens.now }
    requires seen { AreVariables bytes.now tokens.now variables.old }
    ensures reads { IfOk result (λ r. ReadsAs (rules.ending bytes.now tokens.now) (MeansEnd bytes.now tokens.now) (with_ending bytes.now tokens.now) from r.1 symbols.old symbols.new r.0) }
    ensures same { IfOk result (λ _. variables.new ≡ variables.old) }
    ensures stops { IfErr result (Stops (rules.ending bytes.now tokens.now from)) }
    ensures grows { Grows symbols.old symbols.new }
{
    if is_word(bytes, tokens, from, b"same") {
        let end = word(bytes, tokens, from, b"same")?;
        return Ok((End::Same, end));
    }
    if is_word(bytes, tokens, from, b"instance") {
        let (number, end) = instance(bytes, tokens, from)?;
        return Ok((End::Instance(number), end));
    }
    if is_word(bytes, tokens, from, b"ac") {
        let (triples, end) = ac(alloc, bytes, tokens, from)?;
        return Ok((End::Ac(triples), end));
    }
    orders(alloc, bytes, tokens, from, variables, symbols)
}
