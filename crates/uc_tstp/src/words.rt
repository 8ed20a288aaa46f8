//! The single tokens of a proof: words, names, marks and numbers.

ghost use Rattle.std.specs.Prelude.{◌≡◌, ◌≢◌, ◌<◌, ◌+◌, IfOk, IfErr, IfSome, Option, None};
ghost use Rattle.uc_clause.specs.Tokens.{AreTokens};
ghost use Rattle.uc_clause.specs.Bytes.{is_digit};
ghost use Rattle.uc_clause.specs.Rules.{read, pick, Stops};
ghost use Rattle.uc_clause.specs.Items as items;
ghost use Rattle.uc_clause.specs.declared.grammar.stop.Why.{Why};
ghost use Rattle.uc_clause.specs.declared.terminal.Terminal.{Terminal};
ghost use Rattle.uc_tstp.specs.Lines as lines;

use uc_clause::{Stop, Terminal, Token, Why, spelling_at, stands_at, terminal_at};

/// The inference rules of a proof.
#[derive(Clone, Copy, PartialEq, Eq, Debug)]
pub(crate) enum Inference {
    Chain,
    Encode,
    Refute,
}

// The value of the next token with the number of the token behind it, or a stop there.
fn picked<T: Drop>(value: Option<T>, at: usize) -> Result<(T, usize), Stop>
    requires { IfSome value (λ _. at < usize.MAX) }
    ensures ok { IfOk result (λ r. pick Why.NoToken value at (read r.0 r.1)) }
    ensures stops { IfErr result (Stops (pick Why.NoToken value at)) }
{
    match value {
        Some(value) => Ok((value, at + 1)),
        None => Err(Stop::At(Why::NoToken, at)),
    }
}

/// Reads this very token, and answers the number of the token behind it.
pub fn expect(bytes: &[u8], tokens: &[Token], at: usize, terminal: Terminal) -> Result<usize, Stop>
    requires { terminal ≢ Terminal.End }
    ensures ok { IfOk result (λ end. lines.token bytes.now tokens.now terminal at (read tt end)) }
    ensures stops { IfErr result (Stops (lines.token bytes.now tokens.now terminal at)) }
{
    if !stands_at(bytes, tokens, at, terminal) {
        return Err(Stop::At(Why::NoToken, at));
    }
    Ok(at + 1)
}

fn lower_by(terminal: Terminal, at: usize) -> Option<usize>
    ensures { result ≡ lines.lower_by terminal at }
{
    match terminal {
        Terminal::Lower => Some(at),
        _ => None,
    }
}

/// Reads a Lower, whose value is its own number.
pub(crate) fn lower(bytes: &[u8], tokens: &[Token], at: usize) -> Result<(usize, usize), Stop>
    ensures ok { IfOk result (λ r. lines.lower bytes.now tokens.now at (read r.0 r.1)) }
    ensures stops { IfErr result (Stops (lines.lower bytes.now tokens.now at)) }
{
    picked(lower_by(terminal_at(bytes, tokens, at), at), at)
}

fn functor_by(terminal: Terminal, at: usize) -> Option<usize>
    ensures { result ≡ lines.functor_by terminal at }
{
    match terminal {
        Terminal::Lower => Some(at),
        Terminal::Quoted => Some(at),
        _ => None,
    }
}

/// Reads a functor without arguments, whose value is its own number.
pub(crate) fn functor(bytes: &[u8], tokens: &[Token], at: usize) -> Result<(usize, usize), Stop>
    ensures ok { IfOk result (λ r. lines.functor bytes.now tokens.now at (read r.0 r.1)) }
    ensures stops { IfErr result (Stops (lines.functor bytes.now tokens.now at)) }
{
    picked(functor_by(terminal_at(bytes, tokens, at), at), at)
}

fn name_by(terminal: Terminal, at: usize) -> Option<usize>
    ensures { result ≡ items.name_by terminal at }
{
    match terminal {
        Terminal::Lower => Some(at),
        Terminal::Quoted => Some(at),
        Terminal::Integer => Some(at),
        _ => None,
    }
}

/// Reads the name of a clause, whose value is its own number.
pub(crate) fn name(bytes: &[u8], tokens: &[Token], at: usize) -> Result<(usize, usize), Stop>
    ensures ok { IfOk result (λ r. items.name bytes.now tokens.now at (read r.0 r.1)) }
    ensures stops { IfErr result (Stops (items.name bytes.now tokens.now at)) }
{
    picked(name_by(terminal_at(bytes, tokens, at), at), at)
}

/// Whether this very word is spelled here, as a Lower.
pub(crate) fn is_word(bytes: &[u8], tokens: &[Token], at: usize, word: &[u8]) -> bool
    requires { AreTokens bytes.now tokens.now }
    ensures { result ≡ lines.word_at bytes.now tokens.now word.now at }
{
    match terminal_at(bytes, tokens, at) {
        Terminal::Lower => spelling_at(bytes, tokens, at) == word,
        _ => false,
    }
}

/// Reads this very word, and answers the number of the token behind it.
pub fn word(bytes: &[u8], tokens: &[Token], at: usize, word: &[u8]) -> Result<usize, Stop>
    requires { AreTokens bytes.now tokens.now }
    ensures ok { IfOk result (λ end. lines.word bytes.now tokens.now word.now at (read tt end)) }
    ensures stops { IfErr result (Stops (lines.word bytes.now tokens.now word.now at)) }
{
    if is_word(bytes, tokens, at, word) {
        Ok(at + 1)
    } else {
        Err(Stop::At(Why::NoToken, at))
    }
}

fn is_digit(byte: u8) -> bool
    ensures { result ≡ is_digit byte }
{
    byte >= 48 && byte <= 57
}

// The number from 1 to 255 that digits are.
fn path_number(digits: &[u8]) -> Option<u32>
    ensures { result ≡ lines.path_number 0 digits.now }
{
    let mut number: u32 = 0;
    for byte in digits {
        if !is_digit(*byte) {
            return None;
        }
        number = number * 10 + (*byte as u32 - 48);
        if number > 255 {
            return None;
        }
    }
    if number == 0 { None } else { Some(number) }
}

fn number_by(terminal: Terminal, spelling: &[u8]) -> Option<u32>
    ensures { result ≡ lines.number_by terminal spelling.now }
{
    match terminal {
        Terminal::Integer => path_number(spelling),
        _ => None,
    }
}

/// Reads a number of a path.
pub(crate) fn number(bytes: &[u8], tokens: &[Token], at: usize) -> Result<(u32, usize), Stop>
    requires { AreTokens bytes.now tokens.now }
    ensures ok { IfOk result (λ r. lines.number bytes.now tokens.now at (read r.0 r.1)) }
    ensures stops { IfErr result (Stops (lines.number bytes.now tokens.now at)) }
{
    let value = number_by(
        terminal_at(bytes, tokens, at),
        spelling_at(bytes, tokens, at),
    );
    picked(value, at)
}

// The way that a word says: left to right, or right to left.
fn way_of(word: &[u8]) -> Option<bool>
    ensures { result ≡ lines.way_of word.now }
{
    if word == b"lr".as_slice() {
        Some(true)
    } else if word == b"rl".as_slice() {
        Some(false)
    } else {
        None
    }
}

fn way_by(terminal: Terminal, spelling: &[u8]) -> Option<bool>
    ensures { result ≡ lines.way_by terminal spelling.now }
{
    match terminal {
        Terminal::Lower => way_of(spelling),
        _ => None,
    }
}

/// Reads the way of a step: whether it is from left to right.
pub fn way(bytes: &[u8], tokens: &[Token], at: usize) -> Result<(bool, usize), Stop>
    requires { AreTokens bytes.now tokens.now }
    ensures ok { IfOk result (λ r. lines.way bytes.now tokens.now at (read r.0 r.1)) }
    ensures stops { IfErr result (Stops (lines.way bytes.now tokens.now at)) }
{
    let value = way_by(
        terminal_at(bytes, tokens, at),
        spelling_at(bytes, tokens, at),
    );
    picked(value, at)
}

// What an encode line is of, by its word.
fn of_goal_of(word: &[u8]) -> Option<bool>
    ensures { result ≡ lines.of_goal_of word.now }
{
    if word == b"reflexive".as_slice() {
        Some(false)
    } else if word == b"goal".as_slice() {
        Some(true)
    } else {
        None
    }
}

fn of_goal_by(terminal: Terminal, spelling: &[u8]) -> Option<bool>
    ensures { result ≡ lines.of_goal_by terminal spelling.now }
{
    match terminal {
        Terminal::Lower => of_goal_of(spelling),
        _ => None,
    }
}

/// Reads what an encode line is of: whether it is a goal.
pub(crate) fn of_goal(bytes: &[u8], tokens: &[Token], at: usize) -> Result<(bool, usize), Stop>
    requires { AreTokens bytes.now tokens.now }
    ensures ok { IfOk result (λ r. lines.of_goal bytes.now tokens.now at (read r.0 r.1)) }
    ensures stops { IfErr result (Stops (lines.of_goal bytes.now tokens.now at)) }
{
    let value = of_goal_by(
        terminal_at(bytes, tokens, at),
        spelling_at(bytes, tokens, at),
    );
    picked(value, at)
}

// The inference rule of a name.
fn rule_of(word: &[u8]) -> Option<Inference>
    ensures { result ≡ lines.rule_of word.now }
{
    if word == b"chain".as_slice() {
        Some(Inference::Chain)
    } else if word == b"encode".as_slice() {
        Some(Inference::Encode)
    } else if word == b"refute".as_slice() {
        Some(Inference::Refute)
    } else {
        None
    }
}

/// Reads the name of an inference rule.
pub(crate) fn rule_word(
    bytes: &[u8],
    tokens: &[Token],
    at: usize,
) -> Result<(Inference, usize), Stop>
    requires { AreTokens bytes.now tokens.now }
    ensures ok { IfOk result (λ r. lines.rule_word bytes.now tokens.now at (read r.0 r.1)) }
    ensures stops { IfErr result (Stops (lines.rule_word bytes.now tokens.now at)) }
{
    if !stands_at(bytes, tokens, at, Terminal::Lower) {
        return Err(Stop::At(Why::NoToken, at));
    }
    match rule_of(spelling_at(bytes, tokens, at)) {
        Some(rule) => Ok((rule, at + 1)),
        None => Err(Stop::At(Why::NoRule, at)),
    }
}

/// Whether `$false` stands here.
pub(crate) fn is_falsum(bytes: &[u8], tokens: &[Token], at: usize) -> bool
    requires { AreTokens bytes.now tokens.now }
    ensures { result ≡ lines.falsum_at bytes.now tokens.now at }
{
    match terminal_at(bytes, tokens, at) {
        Terminal::Dollar => spelling_at(bytes, tokens, at) == b"$false".as_slice(),
        _ => false,
    }
}
