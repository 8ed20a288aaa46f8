//! Which fault it is that reading a proof stops.

ghost use Rattle.std.specs.Prelude.{◌≡◌, ◌+◌, ◌<◌, ◌≤◌, ◌^◌, length, slice_get};
ghost use Rattle.uc_clause.specs.Tokens.{AreTokens, IsRefused};
ghost use Rattle.uc_tstp.specs.Reading.{inside, fault_of, first_byte, place_in};
ghost use Rattle.uc_tstp.specs.Faults.{StandsIn, behind_lines, token_fault, line_fault, name_fault};

use crate::resolving::Unresolved;
use crate::{Frame, ProofFault};
use uc_clause::{Place, Stop, Token, TokenFault, What, Why, place_behind};

// The fault of a stop at this place.
fn fault_of(why: Why, place: Place) -> ProofFault
    ensures { result ≡ fault_of why place }
{
    match why {
        Why::Nodes => ProofFault::Limit(What::Nodes, place),
        Why::Arity => ProofFault::Limit(What::Arity, place),
        Why::NoRule => ProofFault::UnknownRule(place),
        Why::Repeated => ProofFault::RepeatedName(place),
        _ => ProofFault::Syntax(place),
    }
}

// The first byte of the token of this number in a text of this many bytes, or the end of the text.
fn first_byte(bytes: &[u8], tokens: &[Token], at: usize) -> usize
    requires { AreTokens bytes.now tokens.now }
    ensures value { result ≡ first_byte (length bytes.now) (slice_get tokens.now at) }
    ensures within { result ≤ length bytes.now }
{
    if at < tokens.len() {
        tokens[at].from as usize
    } else {
        bytes.len()
    }
}

// Where a token of the frame begins in the whole text.
fn place_in(bytes: &[u8], frame: Frame, tokens: &[Token], at: usize) -> Place
    requires frame { StandsIn bytes.now frame }
    requires tokens { AreTokens (inside bytes.now frame) tokens.now }
    ensures { result ≡ place_in bytes.now frame tokens.now at }
{
    let first = first_byte(&bytes[frame.from..frame.to], tokens, at);
    place_behind(bytes.split_at(frame.from + first).0)
}

// Where a place stands in the whole text that is counted from behind these lines.
fn behind_lines(front: Place, place: Place) -> Place
    requires first { 1 ≤ front.line }
    requires few { front.line + place.line < 2 ^ 32 }
    ensures { result ≡ behind_lines front place }
{
    Place {
        line: front.line - 1 + place.line,
        column: place.column,
    }
}

/// The fault of a byte in the frame that begins no token.
pub(crate) fn token_fault(bytes: &[u8], frame: Frame, fault: TokenFault) -> ProofFault
    requires frame { StandsIn bytes.now frame }
    requires refused { IsRefused (inside bytes.now frame) fault }
    ensures { result ≡ token_fault bytes.now frame fault }
{
    match fault {
        TokenFault::Syntax(place) => {
            let front = place_behind(bytes.split_at(frame.from).0);
            ProofFault::Syntax(behind_lines(front, place))
        }
        TokenFault::NoMemory => ProofFault::NoMemory,
    }
}

/// The fault of a stop in the lines of the frame.
pub(crate) fn line_fault(bytes: &[u8], frame: Frame, tokens: &[Token], stop: Stop) -> ProofFault
    requires frame { StandsIn bytes.now frame }
    requires tokens { AreTokens (inside bytes.now frame) tokens.now }
    ensures { result ≡ line_fault bytes.now frame tokens.now stop }
{
    match stop {
        Stop::At(why, at) => fault_of(why, place_in(bytes, frame, tokens, at)),
        Stop::NoMemory => ProofFault::NoMemory,
    }
}

/// The fault of a token in the frame that names no line.
pub(crate) fn name_fault(
    bytes: &[u8],
    frame: Frame,
    tokens: &[Token],
    unresolved: Unresolved,
) -> ProofFault
    requires frame { StandsIn bytes.now frame }
    requires tokens { AreTokens (inside bytes.now frame) tokens.now }
    ensures { result ≡ name_fault bytes.now frame tokens.now unresolved }
{
    match unresolved {
        Unresolved::Unknown(at) => ProofFault::UnknownName(place_in(bytes, frame, tokens, at)),
        Unresolved::NoMemory => ProofFault::NoMemory,
    }
}
