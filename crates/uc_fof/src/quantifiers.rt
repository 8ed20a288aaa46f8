//! Quantifiers.

ghost use Rattle.std.specs.Prelude.{◌≡◌, ℕ, IfOk, IfErr};
ghost use Rattle.uc_clause.specs.Tokens.{AreTokens};
ghost use Rattle.uc_fof.specs.Rules.{Gives, Stops};
ghost use Rattle.uc_fof.specs.Formulas as formulas;
ghost use Rattle.uc_fof.specs.Given.{Binds, BindsNames};

use crate::bound::Bound;
use crate::tokens::{expect, expect_mark};
use crate::{Halt, Reason};
use std::alloc::Global;
use uc_clause::{Terminal, Token, Why, spelling_at, terminal_at};

// Reads a variable: the number of its token, and of the next.
fn upper_at(
    bytes: &[u8],
    tokens: &[Token],
    conjecture: bool,
    at: usize,
) -> Result<(usize, usize), Halt>
    ensures { Gives (formulas.upper bytes.now tokens.now conjecture at) result }
{
    match terminal_at(bytes, tokens, at) {
        Terminal::Upper => Ok((at, at + 1)),
        _ => Err(Halt::At(Reason::Inside(conjecture, Why::NoToken), at)),
    }
}

// Reads `Upper { , Upper } ]`, and binds these variables.
fn uppers_at(
    alloc: Global,
    bytes: &[u8],
    tokens: &[Token],
    conjecture: bool,
    from: usize,
    bound: &mut Bound,
) -> Result<usize, Halt>
    requires { AreTokens bytes.now tokens.now }
    ensures binds { IfOk result (BindsNames bytes.now tokens.now conjecture from bound.old bound.new) }
    ensures stops { IfErr result (Stops (formulas.Uppers bytes.now tokens.now conjecture from)) }
{
    let mut at = from;
    'uppers: loop {
        let (name, end) = upper_at(bytes, tokens, conjecture, at)?;
        bound.bind(alloc, spelling_at(bytes, tokens, name))?;
        match terminal_at(bytes, tokens, end) {
            Terminal::CloseSquare => return Ok(end + 1),
            Terminal::Comma => at = end + 1,
            _ => return Err(Halt::At(Reason::Inside(conjecture, Why::NoToken), end)),
        }
    }
}

// Reads `! [ Upper { , Upper } ] :`, and binds these variables.
pub(crate) fn quantifier_at(
    alloc: Global,
    bytes: &[u8],
    tokens: &[Token],
    conjecture: bool,
    from: usize,
    bound: &mut Bound,
) -> Result<usize, Halt>
    requires { AreTokens bytes.now tokens.now }
    ensures binds { IfOk result (Binds bytes.now tokens.now conjecture from bound.old bound.new) }
    ensures stops { IfErr result (Stops (formulas.quantifier bytes.now tokens.now conjecture from)) }
{
    let reason = Reason::Inside(conjecture, Why::NoToken);
    let at = expect_mark(bytes, tokens, from, b'!', reason)?;
    let at = expect(bytes, tokens, at, Terminal::OpenSquare, reason)?;
    let at = uppers_at(alloc, bytes, tokens, conjecture, at, bound)?;
    expect_mark(bytes, tokens, at, b':', reason)
}
