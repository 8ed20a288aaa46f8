//! The lines of a text, and the places of their bytes.

ghost use Rattle.std.specs.Prelude.{◌≡◌, ◌<◌, ◌≤◌, ◌^◌, None, drop, length, MatchOption};
ghost use Rattle.std.specs.List.{prefix_len};
ghost use Rattle.uc_clause.specs.Bytes.{in_line};
ghost use Rattle.uc_system.specs.Lines.{first_line, place_in, departs};
ghost use Rattle.uc_system.specs.Places.{IsAt, IsNext};

use crate::SystemFault;
use uc_clause::Place;

/// Where reading stands in a text: at the first byte of the line of this number.
#[derive(Clone, Copy, PartialEq, Eq, Debug)]
pub struct Cursor {
    pub from: usize,
    pub number: u32,
}

// How many bytes stand before the end of the line.
fn line_len(bytes: &[u8]) -> usize
    ensures longest { result ≡ prefix_len in_line bytes.now }
    ensures within { result ≤ length bytes.now }
{
    bytes.iter().take_while(|b| **b != b'\n').count()
}

// The line that begins here, without its line feed, and where the next one begins; none where no line feed ends it.
pub(crate) fn line_at(bytes: &[u8], at: Cursor) -> Option<(&[u8], Cursor)>
    requires small { length bytes.now < 2 ^ 31 }
    requires at { IsAt bytes.now at }
    ensures { MatchOption result (first_line (drop at.from bytes.now) ≡ None) (λ r. IsNext bytes.now at r.0.now r.1) }
{
    let (_, rest) = bytes.split_at(at.from);
    let length = line_len(rest);
    if length >= rest.len() {
        return None;
    }
    let next = Cursor {
        from: at.from + length + 1,
        number: at.number + 1,
    };
    let (line, _) = rest.split_at(length);
    Some((line, next))
}

// The place behind so many bytes of the line of this number.
pub(crate) fn place_in(number: u32, bytes: usize) -> Place
    requires { bytes < 2 ^ 31 }
    ensures { result ≡ place_in number bytes }
{
    Place {
        line: number,
        column: bytes as u32 + 1,
    }
}

// The fault that the line of this number, or the end of the text there, isn't called for.
pub(crate) fn departs(number: u32) -> SystemFault
    ensures { result ≡ departs number }
{
    SystemFault::Syntax(place_in(number, 0))
}
