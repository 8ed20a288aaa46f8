//! Which fault it is that reading stops.

ghost use Rattle.std.specs.Prelude.{◌≡◌, ◌<◌, ◌^◌, length};
ghost use Rattle.uc_clause.specs.Tokens.{AreTokens};
ghost use Rattle.uc_clause.specs.Refusals as clause;
ghost use Rattle.uc_clause.specs.Terminals.{place_at, bytes_at};
ghost use Rattle.uc_clause.specs.declared.fault.ClauseFault.{ClauseFault};
ghost use Rattle.uc_fof.specs.Refusals.{is_connective_mark, is_connective, is_second_part, not_unit, is_denial, inside_fault, fault_of, IsFaultOf};

use crate::{Halt, Reason};
use std::alloc::Global;
use uc_clause::{
    ClauseFault, Place, Terminal, Token, What, Why, place_at, spelling_at, terminal_at,
};
use uc_term::Text;

// The fault that it is to stop so.
pub(crate) fn refusal(alloc: Global, bytes: &[u8], tokens: &[Token], halt: Halt) -> ClauseFault
    requires tokens { AreTokens bytes.now tokens.now }
    requires small { length bytes.now < 2 ^ 31 }
    ensures { IsFaultOf bytes.now tokens.now halt result }
{
    match halt {
        Halt::At(reason, at) => fault_at(alloc, bytes, tokens, reason, at),
        Halt::NoMemory => ClauseFault::NoMemory,
    }
}

fn fault_at(alloc: Global, bytes: &[u8], tokens: &[Token], reason: Reason, at: usize) -> ClauseFault
    requires tokens { AreTokens bytes.now tokens.now }
    requires small { length bytes.now < 2 ^ 31 }
    ensures { clause.IsOrMemory (fault_of bytes.now tokens.now reason at) result }
{
    match reason {
        Reason::Outside(why) => clause_fault(alloc, bytes, tokens, why, at),
        Reason::Inside(conjecture, why) => inside_fault(alloc, bytes, tokens, conjecture, why, at),
        Reason::Unread => unsupported_at(alloc, bytes, tokens, at),
        Reason::Connective => ClauseFault::NotUnit(place_at(bytes, tokens, at)),
    }
}

// The fault that the token isn't read.
fn unsupported_at(alloc: Global, bytes: &[u8], tokens: &[Token], at: usize) -> ClauseFault
    requires tokens { AreTokens bytes.now tokens.now }
    requires small { length bytes.now < 2 ^ 31 }
    ensures { clause.IsOrMemory (ClauseFault.Unsupported (place_at bytes.now tokens.now at) (bytes_at bytes.now tokens.now at)) result }
{
    unsupported(
        alloc,
        place_at(bytes, tokens, at),
        spelling_at(bytes, tokens, at),
    )
}

// Whether a token begins a connective.
fn is_connective(terminal: Terminal, word: &[u8]) -> bool
    ensures { result ≡ is_connective terminal word.now }
{
    match terminal {
        Terminal::Bar => true,
        Terminal::Tilde => true,
        _ => is_connective_mark(word),
    }
}

fn is_connective_mark(word: &[u8]) -> bool
    ensures { result ≡ is_connective_mark word.now }
{
    word == b"&".as_slice() || word == b"<".as_slice()
}

// Whether a token behind a whole literal says that the formula has a second part.
fn is_second_part(terminal: Terminal, word: &[u8]) -> bool
    ensures { result ≡ is_second_part terminal word.now }
{
    match terminal {
        Terminal::Equal => true,
        _ => is_connective(terminal, word),
    }
}

// Whether a token says that the formula has a second part, where this is called for.
fn not_unit(why: Why, terminal: Terminal, word: &[u8]) -> bool
    ensures { result ≡ not_unit why terminal word.now }
{
    match why {
        Why::NoSign(_) => is_connective(terminal, word),
        Why::NoEnd => is_second_part(terminal, word),
        _ => false,
    }
}

// Whether a token is one that no conjecture has.
fn is_denial(terminal: Terminal) -> bool
    ensures { result ≡ is_denial terminal }
{
    match terminal {
        Terminal::Tilde => true,
        Terminal::Unequal => true,
        _ => false,
    }
}

// The fault inside a formula.
fn inside_fault(
    alloc: Global,
    bytes: &[u8],
    tokens: &[Token],
    conjecture: bool,
    why: Why,
    at: usize,
) -> ClauseFault
    requires tokens { AreTokens bytes.now tokens.now }
    requires small { length bytes.now < 2 ^ 31 }
    ensures { clause.IsOrMemory (inside_fault bytes.now tokens.now conjecture why at) result }
{
    let terminal = terminal_at(bytes, tokens, at);
    if not_unit(why, terminal, spelling_at(bytes, tokens, at)) {
        return ClauseFault::NotUnit(place_at(bytes, tokens, at));
    }
    if conjecture && is_denial(terminal) {
        return unsupported_at(alloc, bytes, tokens, at);
    }
    clause_fault(alloc, bytes, tokens, why, at)
}

// The fault of clauses.
fn clause_fault(alloc: Global, bytes: &[u8], tokens: &[Token], why: Why, at: usize) -> ClauseFault
    requires tokens { AreTokens bytes.now tokens.now }
    requires small { length bytes.now < 2 ^ 31 }
    ensures { clause.IsOrMemory (clause.fault_of bytes.now tokens.now why at) result }
{
    let terminal = terminal_at(bytes, tokens, at);
    let place = place_at(bytes, tokens, at);
    let word = spelling_at(bytes, tokens, at);
    match why {
        Why::NoItem => item_fault(alloc, terminal, place, word),
        Why::NoRole => role_fault(alloc, terminal, place, word),
        Why::NoSelection => selection_fault(alloc, terminal, place, word),
        Why::NoTerm => term_fault(alloc, terminal, place, word),
        Why::NoSign(first) => sign_fault(terminal, place_at(bytes, tokens, first), place),
        Why::NoEnd => end_fault(terminal, place),
        Why::NoToken => ClauseFault::Syntax(place),
        Why::Nodes => ClauseFault::Limit(place, What::Nodes),
        Why::Parentheses => ClauseFault::Limit(place, What::Parentheses),
        Why::Arity => ClauseFault::Limit(place, What::Arity),
        Why::NoRule => ClauseFault::Syntax(place),
        Why::Repeated => ClauseFault::Syntax(place),
    }
}

fn unsupported(alloc: Global, place: Place, word: &[u8]) -> ClauseFault
    ensures { clause.IsOrMemory (ClauseFault.Unsupported place word.now) result }
{
    match Text::from_bytes(alloc, word) {
        Ok(text) => ClauseFault::Unsupported(place, text),
        Err(_) => ClauseFault::NoMemory,
    }
}

fn bad_role(alloc: Global, place: Place, word: &[u8]) -> ClauseFault
    ensures { clause.IsOrMemory (ClauseFault.BadRole place word.now) result }
{
    match Text::from_bytes(alloc, word) {
        Ok(text) => ClauseFault::BadRole(place, text),
        Err(_) => ClauseFault::NoMemory,
    }
}

// Whether a word begins the items of another language.
fn is_other_language(word: &[u8]) -> bool
    ensures { result ≡ clause.is_other_language word.now }
{
    word == b"fof".as_slice()
        || word == b"tff".as_slice()
        || word == b"thf".as_slice()
        || word == b"tcf".as_slice()
        || word == b"tpi".as_slice()
}

fn item_fault(alloc: Global, terminal: Terminal, place: Place, word: &[u8]) -> ClauseFault
    ensures { clause.IsOrMemory (clause.item_fault terminal place word.now) result }
{
    match terminal {
        Terminal::Lower => {
            if is_other_language(word) {
                unsupported(alloc, place, word)
            } else {
                ClauseFault::Syntax(place)
            }
        }
        _ => ClauseFault::Syntax(place),
    }
}

fn role_fault(alloc: Global, terminal: Terminal, place: Place, word: &[u8]) -> ClauseFault
    ensures { clause.IsOrMemory (clause.role_fault terminal place word.now) result }
{
    match terminal {
        Terminal::Lower => bad_role(alloc, place, word),
        _ => ClauseFault::Syntax(place),
    }
}

fn selection_fault(alloc: Global, terminal: Terminal, place: Place, word: &[u8]) -> ClauseFault
    ensures { clause.IsOrMemory (clause.selection_fault terminal place word.now) result }
{
    match terminal {
        Terminal::Star => unsupported(alloc, place, word),
        _ => ClauseFault::Syntax(place),
    }
}

fn term_fault(alloc: Global, terminal: Terminal, place: Place, word: &[u8]) -> ClauseFault
    ensures { clause.IsOrMemory (clause.term_fault terminal place word.now) result }
{
    match terminal {
        Terminal::Integer => unsupported(alloc, place, word),
        Terminal::Distinct => unsupported(alloc, place, word),
        Terminal::Dollar => unsupported(alloc, place, word),
        _ => ClauseFault::Syntax(place),
    }
}

fn sign_fault(terminal: Terminal, first: Place, place: Place) -> ClauseFault
    ensures { result ≡ clause.sign_fault terminal first place }
{
    match terminal {
        Terminal::Bar => ClauseFault::NotUnit(place),
        Terminal::Close => ClauseFault::NotEquality(first),
        Terminal::Comma => ClauseFault::NotEquality(first),
        _ => ClauseFault::Syntax(place),
    }
}

fn end_fault(terminal: Terminal, place: Place) -> ClauseFault
    ensures { result ≡ clause.end_fault terminal place }
{
    match terminal {
        Terminal::Bar => ClauseFault::NotUnit(place),
        _ => ClauseFault::Syntax(place),
    }
}
