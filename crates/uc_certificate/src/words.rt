//! The single tokens of join lines: numbers, variables and sides.

ghost use Rattle.std.specs.Prelude.{◌≡◌, ◌<◌, ◌+◌, IfOk, IfErr, IfSome};
ghost use Rattle.uc_clause.specs.Tokens.{AreTokens};
ghost use Rattle.uc_clause.specs.Rules.{read, pick, Stops};
ghost use Rattle.uc_clause.specs.declared.grammar.stop.Why.{Why};
ghost use Rattle.uc_tstp.specs.Lines as lines;
ghost use Rattle.uc_certificate.specs.JoinLines as rules;

use crate::numerals::number;
use uc_clause::{Stop, Terminal, Token, Why, spelling_at, terminal_at};
use uc_term::Side;

const MOST_VARIABLES: u64 = 8_192;

// The value of the next token with the number of the token behind it, or a stop there.
fn picked<T: Drop>(value: Option<T>, at: usize) -> Result<(T, usize), Stop>
    requires { IfSome value (λ _. at < usize.MAX) }
    ensures ok { IfOk result (λ r. pick Why.NoToken value at (read r.0 r.1)) }
    ensures stops { IfErr result (Stops (pick Why.NoToken value at)) }
{
    match value {
        Some(value) => Ok((value, at + 1)),
        None => Err(Stop::At(Why::NoToken, at)),
    }
}

// The number below 2^32 that digits write.
fn integer_of(digits: &[u8]) -> Option<u32>
    ensures { result ≡ rules.integer_of digits.now }
{
    match number(digits) {
        Some(n) => {
            if n < 4_294_967_296 {
                Some(n as u32)
            } else {
                None
            }
        }
        None => None,
    }
}

fn integer_by(terminal: Terminal, spelling: &[u8]) -> Option<u32>
    ensures { result ≡ rules.integer_by terminal spelling.now }
{
    match terminal {
        Terminal::Integer => integer_of(spelling),
        _ => None,
    }
}

/// Reads an Integer without a sign that is below 2^32.
pub(crate) fn integer(bytes: &[u8], tokens: &[Token], at: usize) -> Result<(u32, usize), Stop>
    requires { AreTokens bytes.now tokens.now }
    ensures ok { IfOk result (λ r. rules.integer bytes.now tokens.now at (read r.0 r.1)) }
    ensures stops { IfErr result (Stops (rules.integer bytes.now tokens.now at)) }
{
    let value = integer_by(
        terminal_at(bytes, tokens, at),
        spelling_at(bytes, tokens, at),
    );
    picked(value, at)
}

fn begins_with_zero(digits: &[u8]) -> bool
    ensures { result ≡ rules.begins_with_zero digits.now }
{
    match digits {
        [first, ..] => *first == b'0',
        [] => false,
    }
}

// The variable of digits that write 1 to 8,192 without a leading zero.
fn variable_of(digits: &[u8]) -> Option<u32>
    ensures { result ≡ rules.variable_of digits.now }
{
    if begins_with_zero(digits) {
        return None;
    }
    match number(digits) {
        Some(n) => {
            if n >= 1 && n <= MOST_VARIABLES {
                Some(n as u32 - 1)
            } else {
                None
            }
        }
        None => None,
    }
}

// The variable of a name.
fn named_by(name: &[u8]) -> Option<u32>
    ensures { result ≡ rules.named_by name.now }
{
    match name {
        [first, rest @ ..] => {
            if *first == b'X' {
                variable_of(rest)
            } else {
                None
            }
        }
        [] => None,
    }
}

/// The variable whose name a token is.
pub(crate) fn variable_by(terminal: Terminal, spelling: &[u8]) -> Option<u32>
    ensures { result ≡ rules.variable_by terminal spelling.now }
{
    match terminal {
        Terminal::Upper => named_by(spelling),
        _ => None,
    }
}

/// Reads the name of a variable.
pub(crate) fn variable(bytes: &[u8], tokens: &[Token], at: usize) -> Result<(u32, usize), Stop>
    requires { AreTokens bytes.now tokens.now }
    ensures ok { IfOk result (λ r. rules.variable bytes.now tokens.now at (read r.0 r.1)) }
    ensures stops { IfErr result (Stops (rules.variable bytes.now tokens.now at)) }
{
    let value = variable_by(
        terminal_at(bytes, tokens, at),
        spelling_at(bytes, tokens, at),
    );
    picked(value, at)
}

// Whether a token is an Upper that names no variable.
fn is_foreign_by(terminal: Terminal, spelling: &[u8]) -> bool
    ensures { result ≡ rules.is_foreign_by terminal spelling.now }
{
    match terminal {
        Terminal::Upper => named_by(spelling).is_none(),
        _ => false,
    }
}

/// Whether an Upper stands here that names no variable.
pub(crate) fn is_foreign(bytes: &[u8], tokens: &[Token], at: usize) -> bool
    requires { AreTokens bytes.now tokens.now }
    ensures { result ≡ rules.is_foreign bytes.now tokens.now at }
{
    is_foreign_by(
        terminal_at(bytes, tokens, at),
        spelling_at(bytes, tokens, at),
    )
}

/// Whether this very word is spelled here, as a Lower.
pub(crate) fn is_word(bytes: &[u8], tokens: &[Token], at: usize, wanted: &[u8]) -> bool
    requires { AreTokens bytes.now tokens.now }
    ensures { result ≡ lines.word_at bytes.now tokens.now wanted.now at }
{
    match terminal_at(bytes, tokens, at) {
        Terminal::Lower => spelling_at(bytes, tokens, at) == wanted,
        _ => false,
    }
}

fn side_of(word: &[u8]) -> Option<Side>
    ensures { result ≡ rules.side_of word.now }
{
    if word == b"l".as_slice() {
        Some(Side::Left)
    } else if word == b"r".as_slice() {
        Some(Side::Right)
    } else {
        None
    }
}

fn side_by(terminal: Terminal, spelling: &[u8]) -> Option<Side>
    ensures { result ≡ rules.side_by terminal spelling.now }
{
    match terminal {
        Terminal::Lower => side_of(spelling),
        _ => None,
    }
}

/// Reads a side.
pub(crate) fn side(bytes: &[u8], tokens: &[Token], at: usize) -> Result<(Side, usize), Stop>
    requires { AreTokens bytes.now tokens.now }
    ensures ok { IfOk result (λ r. rules.side bytes.now tokens.now at (read r.0 r.1)) }
    ensures stops { IfErr result (Stops (rules.side bytes.now tokens.now at)) }
{
    let value = side_by(
        terminal_at(bytes, tokens, at),
        spelling_at(bytes, tokens, at),
    );
    picked(value, at)
}
