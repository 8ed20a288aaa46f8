//! The terms of join lines.

ghost use Rattle.std.specs.Prelude.{IfSome, ◌≡◌, ◌≤◌, ◌<◌, ◌-◌, ◌+◌, ℕ, Some, IfOk, IfErr, length};
ghost use Rattle.uc_term.specs.Table.{Table, Grows};
ghost use Rattle.uc_clause.specs.Tokens.{AreTokens};
ghost use Rattle.uc_clause.specs.Terminals.{terminal_at, bytes_at};
ghost use Rattle.uc_clause.specs.Printing.{variable_text};
ghost use Rattle.uc_clause.specs.Rules.{Stops};
ghost use Rattle.uc_clause.specs.declared.grammar.stop.Stop.{Stop};
ghost use Rattle.uc_clause.specs.Items as items;
ghost use Rattle.uc_certificate.specs.JoinLines as rules;
ghost use Rattle.uc_certificate.specs.JoinMeaning.{MeansTerm};
ghost use Rattle.uc_clause.specs.Interning.{with_term};
ghost use Rattle.uc_certificate.specs.Reads.{ReadsAs, AreVariables};

use crate::words::{is_foreign, variable_by};
use itoa::Buffer;
use std::alloc::{AllocError, Global};
use uc_clause::{Stop, Token, Variables, Why, spelling_at, term_at, terminal_at};
use uc_term::{Symbols, Term, Text};

// The first Upper that names no variable, from one token up to another.
fn first_foreign(bytes: &[u8], tokens: &[Token], from: usize, to: usize) -> Option<usize>
    requires { AreTokens bytes.now tokens.now }
    ensures { result ≡ rules.first_foreign bytes.now tokens.now (to - from) from }
{
    for at in from..to {
        if is_foreign(bytes, tokens, at) {
            return Some(at);
        }
    }
    None
}

// A stop in a term that begins at this token, where that is too large.
fn at_first(why: Why, at: usize, from: usize) -> Stop
    ensures { result ≡ Stop.At why (rules.stop_place why from at) }
{
    match why {
        Why::Nodes => Stop::At(Why::Nodes, from),
        _ => Stop::At(why, at),
    }
}

// What a stop in a term that begins at this token comes to.
fn stop_in(bytes: &[u8], tokens: &[Token], from: usize, stop: Stop) -> Stop
    requires tokens { AreTokens bytes.now tokens.now }
    requires stops { Stops (items.term bytes.now tokens.now from) stop }
    ensures { Stops (rules.term bytes.now tokens.now from) result }
{
    match stop {
        Stop::At(why, at) => match first_foreign(bytes, tokens, from, at) {
            Some(foreign) => Stop::At(Why::NoToken, foreign),
            None => at_first(why, at, from),
        },
        Stop::NoMemory => Stop::NoMemory,
    }
}

/// Reads a term.
pub(crate) fn term(
    alloc: Global,
    bytes: &[u8],
    tokens: &[Token],
    from: usize,
    variables: &mut Variables,
    symbols: &mut Symbols,
) -> Result<(Term, usize), Stop>
    requires tokens { AreTokens bytes.now tokens.now }
    requires seen { AreVariables bytes.now tokens.now variables.old }
    ensures reads { IfOk result (λ r. ReadsAs (rules.term bytes.now tokens.now) (MeansTerm bytes.now tokens.now) (with_term bytes.now tokens.now) from r.1 symbols.old symbols.new r.0) }
    ensures same { IfOk result (λ _. variables.new ≡ variables.old) }
    ensures stops { IfErr result (Stops (rules.term bytes.now tokens.now from)) }
    ensures grows { Grows symbols.old symbols.new }
{
    match term_at(alloc, bytes, tokens, from, variables, symbols) {
        Ok((term, end)) => match first_foreign(bytes, tokens, from, end) {
            Some(foreign) => Err(Stop::At(Why::NoToken, foreign)),
            None => Ok((term, end)),
        },
        Err(stop) => Err(stop_in(bytes, tokens, from, stop)),
    }
}

// The number of the variable behind the one of a name, or that of another one where it is greater.
fn at_least(variable: Option<u32>, most: u32) -> u32
    requires { IfSome variable (λ n. n < 8192) }
    ensures kept { most ≤ result }
    ensures more { (n : ℕ) → variable ≡ Some n → n < result }
    ensures few { most ≤ 8192 → result ≤ 8192 }
{
    match variable {
        Some(n) => { if n < most { most } else { n + 1 } }
        None => most,
    }
}

// How many variables there are up to the last one that a token names.
fn variables_in(bytes: &[u8], tokens: &[Token]) -> u32
    requires { AreTokens bytes.now tokens.now }
    ensures all { (at n : ℕ) → rules.variable_by (terminal_at bytes.now tokens.now at) (bytes_at bytes.now tokens.now at) ≡ Some n → n < result }
    ensures few { result ≤ 8192 }
{
    let mut most = 0;
    for at in 0..tokens.len() {
        let variable = variable_by(
            terminal_at(bytes, tokens, at),
            spelling_at(bytes, tokens, at),
        );
        most = at_least(variable, most);
    }
    most
}

// The name of a variable.
fn name_of(alloc: Global, variable: u32) -> Result<Text, AllocError>
    requires { variable < 8192 }
    ensures { IfOk result (λ name. name ≡ variable_text variable) }
{
    let mut name = Text::from_bytes(alloc, b"X")?;
    let mut buffer = Buffer::new();
    name.extend(buffer.format(variable + 1).as_bytes())?;
    Ok(name)
}

/// The names of the first variables, up to the last one that a token names.
pub(crate) fn names_of(
    alloc: Global,
    bytes: &[u8],
    tokens: &[Token],
) -> Result<Variables, AllocError>
    requires { AreTokens bytes.now tokens.now }
    ensures { IfOk result (AreVariables bytes.now tokens.now) }
{
    let mut names = Variables::new(alloc);
    for variable in 0..variables_in(bytes, tokens) {
        let name = name_of(alloc, variable)?;
        names.number(alloc, name.as_bytes())?;
    }
    Ok(names)
}
