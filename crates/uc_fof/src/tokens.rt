//! Single tokens.

ghost use Rattle.std.specs.Prelude.{◌≡◌, ◌≢◌, MatchBool};
ghost use Rattle.uc_clause.specs.Tokens.{AreTokens};
ghost use Rattle.uc_clause.specs.declared.terminal.Terminal.{Terminal};
ghost use Rattle.uc_fof.specs.Rules.{Goes, the};
ghost use Rattle.uc_fof.specs.Formulas.{stands, is_mark};

use crate::{Halt, Reason};
use uc_clause::{Terminal, Token, spelling_at, stands_at};

// Whether a token is a mark.
pub(crate) fn is_mark(bytes: &[u8], tokens: &[Token], at: usize, mark: u8) -> bool
    requires { AreTokens bytes.now tokens.now }
    ensures { MatchBool result (is_mark bytes.now tokens.now mark at) (is_mark bytes.now tokens.now mark at → ⊥) }
{
    match spelling_at(bytes, tokens, at) {
        [byte] => *byte == mark,
        _ => false,
    }
}

// Reads this very token, and gives the number of the next.
pub(crate) fn expect(
    bytes: &[u8],
    tokens: &[Token],
    at: usize,
    terminal: Terminal,
    reason: Reason,
) -> Result<usize, Halt>
    requires { terminal ≢ Terminal.End }
    ensures { Goes (the (stands bytes.now tokens.now terminal) reason at) result }
{
    if stands_at(bytes, tokens, at, terminal) {
        Ok(at + 1)
    } else {
        Err(Halt::At(reason, at))
    }
}

// Reads this very mark, and gives the number of the next token.
pub(crate) fn expect_mark(
    bytes: &[u8],
    tokens: &[Token],
    at: usize,
    mark: u8,
    reason: Reason,
) -> Result<usize, Halt>
    requires { AreTokens bytes.now tokens.now }
    ensures { Goes (the (is_mark bytes.now tokens.now mark) reason at) result }
{
    if is_mark(bytes, tokens, at, mark) {
        Ok(at + 1)
    } else {
        Err(Halt::At(reason, at))
    }
}
