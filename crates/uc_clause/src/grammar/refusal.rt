//! Which fault it is that reading stops.

ghost use Rattle.std.specs.Prelude.{◌≡◌, ◌<◌, ◌^◌, length};
ghost use Rattle.uc_clause.specs.Tokens.{AreTokens};
ghost use Rattle.uc_clause.specs.Refusals.{is_other_language, item_fault, role_fault, selection_fault, term_fault, sign_fault, end_fault, fault_of, IsOrMemory, IsFaultOf};

use crate::terminal::spelling_at;
use crate::{ClauseFault, Place, Stop, Terminal, Token, What, Why, place_at, terminal_at};
use std::alloc::Global;
use uc_term::Text;

// The fault that a stop is.
pub(crate) fn refusal(alloc: Global, bytes: &[u8], tokens: &[Token], stop: Stop) -> ClauseFault
    requires tokens { AreTokens bytes.now tokens.now }
    requires small { length bytes.now < 2 ^ 31 }
    ensures { IsFaultOf bytes.now tokens.now stop result }
{
    match stop {
        Stop::At(why, at) => fault_at(alloc, bytes, tokens, why, at),
        Stop::NoMemory => ClauseFault::NoMemory,
    }
}

fn fault_at(alloc: Global, bytes: &[u8], tokens: &[Token], why: Why, at: usize) -> ClauseFault
    requires tokens { AreTokens bytes.now tokens.now }
    requires small { length bytes.now < 2 ^ 31 }
    ensures { IsOrMemory (fault_of bytes.now tokens.now why at) result }
{
    let terminal = terminal_at(bytes, tokens, at);
    let place = place_at(bytes, tokens, at);
    let word = spelling_at(bytes, tokens, at);
    match why {
        Why::NoItem => item_fault(alloc, terminal, place, word),
        Why::NoRole => role_fault(alloc, terminal, place, word),
        Why::NoSelection => selection_fault(alloc, terminal, place, word),
        Why::NoTerm => term_fault(alloc, terminal, place, word),
        Why::NoSign(first) => sign_fault(terminal, place_at(bytes, tokens, first), place),
        Why::NoEnd => end_fault(terminal, place),
        Why::NoToken => ClauseFault::Syntax(place),
        Why::Nodes => ClauseFault::Limit(place, What::Nodes),
        Why::Parentheses => ClauseFault::Limit(place, What::Parentheses),
        Why::Arity => ClauseFault::Limit(place, What::Arity),
        Why::NoRule => ClauseFault::Syntax(place),
        Why::Repeated => ClauseFault::Syntax(place),
    }
}

fn unsupported(alloc: Global, place: Place, word: &[u8]) -> ClauseFault
    ensures { IsOrMemory (ClauseFault.Unsupported place word.now) result }
{
    match Text::from_bytes(alloc, word) {
        Ok(text) => ClauseFault::Unsupported(place, text),
        Err(_) => ClauseFault::NoMemory,
    }
}

fn bad_role(alloc: Global, place: Place, word: &[u8]) -> ClauseFault
    ensures { IsOrMemory (ClauseFault.BadRole place word.now) result }
{
    match Text::from_bytes(alloc, word) {
        Ok(text) => ClauseFault::BadRole(place, text),
        Err(_) => ClauseFault::NoMemory,
    }
}

// Whether a word begins the items of another language.
fn is_other_language(word: &[u8]) -> bool
    ensures { result ≡ is_other_language word.now }
{
    word == b"fof".as_slice()
        || word == b"tff".as_slice()
        || word == b"thf".as_slice()
        || word == b"tcf".as_slice()
        || word == b"tpi".as_slice()
}

fn item_fault(alloc: Global, terminal: Terminal, place: Place, word: &[u8]) -> ClauseFault
    ensures { IsOrMemory (item_fault terminal place word.now) result }
{
    match terminal {
        Terminal::Lower => {
            if is_other_language(word) {
                unsupported(alloc, place, word)
            } else {
                ClauseFault::Syntax(place)
            }
        }
        _ => ClauseFault::Syntax(place),
    }
}

fn role_fault(alloc: Global, terminal: Terminal, place: Place, word: &[u8]) -> ClauseFault
    ensures { IsOrMemory (role_fault terminal place word.now) result }
{
    match terminal {
        Terminal::Lower => bad_role(alloc, place, word),
        _ => ClauseFault::Syntax(place),
    }
}

fn selection_fault(alloc: Global, terminal: Terminal, place: Place, word: &[u8]) -> ClauseFault
    ensures { IsOrMemory (selection_fault terminal place word.now) result }
{
    match terminal {
        Terminal::Star => unsupported(alloc, place, word),
        _ => ClauseFault::Syntax(place),
    }
}

fn term_fault(alloc: Global, terminal: Terminal, place: Place, word: &[u8]) -> ClauseFault
    ensures { IsOrMemory (term_fault terminal place word.now) result }
{
    match terminal {
        Terminal::Integer => unsupported(alloc, place, word),
        Terminal::Distinct => unsupported(alloc, place, word),
        Terminal::Dollar => unsupported(alloc, place, word),
        _ => ClauseFault::Syntax(place),
    }
}

fn sign_fault(terminal: Terminal, first: Place, place: Place) -> ClauseFault
    ensures { result ≡ sign_fault terminal first place }
{
    match terminal {
        Terminal::Bar => ClauseFault::NotUnit(place),
        Terminal::Close => ClauseFault::NotEquality(first),
        Terminal::Comma => ClauseFault::NotEquality(first),
        _ => ClauseFault::Syntax(place),
    }
}

fn end_fault(terminal: Terminal, place: Place) -> ClauseFault
    ensures { result ≡ end_fault terminal place }
{
    match terminal {
        Terminal::Bar => ClauseFault::NotUnit(place),
        _ => ClauseFault::Syntax(place),
    }
}
