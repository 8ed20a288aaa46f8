//! Formulas: a literal inside brackets and quantifiers.

ghost use Rattle.std.specs.Prelude.{◌≡◌, ◌≤◌, ◌<◌, ℕ, IfOk, IfErr};
ghost use Rattle.uc_clause.specs.Tokens.{AreTokens};
ghost use Rattle.uc_clause.specs.Terminals.{terminal_at};
ghost use Rattle.uc_clause.specs.declared.terminal.Terminal.{Terminal};
ghost use Rattle.uc_fof.specs.Rules.{Stops};
ghost use Rattle.uc_fof.specs.Formulas as formulas;
ghost use Rattle.uc_fof.specs.Given.{IsOpened, Opens, ClosesAll, HasLiteral};

use crate::bound::Bound;
use crate::literals::literal_end;
use crate::quantifiers::quantifier_at;
use crate::tokens::{expect, is_mark};
use crate::{Halt, Reason};
use std::alloc::Global;
use uc_clause::{MAX_BRACKETS, Terminal, Token, Why, stands_at};
use uc_term::Symbols;

/// What stands in front of a literal: so many brackets, and quantifiers of these variables; and the literal's first token.
#[derive(Drop)]
struct Opened {
    brackets: u32,
    bound: Bound,
    at: usize,
}

// Reads the brackets and quantifiers in front of a literal.
fn opened_at(
    alloc: Global,
    bytes: &[u8],
    tokens: &[Token],
    conjecture: bool,
    from: usize,
) -> Result<Opened, Halt>
    requires { AreTokens bytes.now tokens.now }
    ensures opened { IfOk result (λ o. IsOpened bytes.now tokens.now conjecture from o.brackets o.bound o.at) }
    ensures few { IfOk result (λ o. o.brackets ≤ MAX_BRACKETS) }
    ensures stops { IfErr result (Stops (formulas.formula bytes.now tokens.now conjecture from)) }
{
    let mut opened = Opened {
        brackets: 0,
        bound: Bound::new(alloc),
        at: from,
    };
    'openings: while opened.step(alloc, bytes, tokens, conjecture)? {}
    Ok(opened)
}

impl Opened {
    // Goes over the next bracket or quantifier, and answers whether there was one.
    fn step(
        &mut self,
        alloc: Global,
        bytes: &[u8],
        tokens: &[Token],
        conjecture: bool,
    ) -> Result<bool, Halt>
        requires tokens { AreTokens bytes.now tokens.now }
        requires few { self.old.brackets ≤ MAX_BRACKETS }
        ensures goes { IfOk result (Opens bytes.now tokens.now conjecture self.old self.new) }
        ensures stops { IfErr result (Stops (formulas.Formula bytes.now tokens.now conjecture self.old.brackets self.old.bound self.old.at)) }
    {
        if stands_at(bytes, tokens, self.at, Terminal::Open) {
            if self.brackets >= MAX_BRACKETS {
                return Err(Halt::At(Reason::Inside(conjecture, Why::Parentheses), self.at));
            }
            self.brackets += 1;
            self.at += 1;
            return Ok(true);
        }
        if is_mark(bytes, tokens, self.at, b'!') {
            let end = quantifier_at(alloc, bytes, tokens, conjecture, self.at, &mut self.bound)?;
            self.at = end;
            return Ok(true);
        }
        if is_mark(bytes, tokens, self.at, b'?') {
            return Err(Halt::At(Reason::Unread, self.at));
        }
        Ok(false)
    }
}

// Reads so many closing brackets behind a literal, and gives the number of the token behind them.
fn closed_at(
    bytes: &[u8],
    tokens: &[Token],
    conjecture: bool,
    brackets: u32,
    from: usize,
) -> Result<usize, Halt>
    ensures { ClosesAll bytes.now tokens.now conjecture brackets from result }
{
    let mut at = from;
    let mut closed = 0;
    'closings: while closed < brackets {
        at = expect(
            bytes,
            tokens,
            at,
            Terminal::Close,
            Reason::Inside(conjecture, Why::NoEnd),
        )?;
        closed += 1;
    }
    Ok(at)
}

// Goes over a formula: the number of its literal's first token, and that of the token behind the formula.
pub(crate) fn formula_at(
    alloc: Global,
    bytes: &[u8],
    tokens: &[Token],
    conjecture: bool,
    from: usize,
) -> Result<(usize, usize), Halt>
    requires { AreTokens bytes.now tokens.now }
    ensures reads { IfOk result (λ r. HasLiteral bytes.now tokens.now conjecture from r.0 r.1) }
    ensures stops { IfErr result (Stops (formulas.formula bytes.now tokens.now conjecture from)) }
{
    let opened = opened_at(alloc, bytes, tokens, conjecture, from)?;
    // The symbols here are those of this pass alone.
    let mut symbols = Symbols::new(alloc);
    let at = literal_end(
        alloc,
        bytes,
        tokens,
        conjecture,
        &opened.bound,
        opened.at,
        &mut symbols,
    )?;
    let end = closed_at(bytes, tokens, conjecture, opened.brackets, at)?;
    Ok((opened.at, end))
}
