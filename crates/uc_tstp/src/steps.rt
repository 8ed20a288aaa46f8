//! The steps of a chain.

ghost use Rattle.std.specs.Prelude.{◌≡◌, IfOk, IfErr};
ghost use Rattle.uc_term.specs.Table.{Grows};
ghost use Rattle.uc_clause.specs.Tokens.{AreTokens};
ghost use Rattle.uc_clause.specs.Rules.{read, Stops};
ghost use Rattle.uc_tstp.specs.Lines as lines;
ghost use Rattle.uc_tstp.specs.Parts.{ReadsStepAt, ReadsStepsBy};

use crate::drafts::StepDraft;
use crate::lists::{has_next, path};
use crate::words::{expect, lower, way, word};
use std::alloc::Global;
use uc_clause::{Stop, Terminal, Token, Variables, stands_at, term_at};
use uc_term::{Seq, Symbols};

/// What stands before the term of a step.
#[derive(Drop)]
struct StepHead {
    by: usize,
    left_to_right: bool,
    path: Seq<u32>,
}

// Reads what stands before the term of a step.
fn step_head(
    alloc: Global,
    bytes: &[u8],
    tokens: &[Token],
    from: usize,
) -> Result<(StepHead, usize), Stop>
    requires { AreTokens bytes.now tokens.now }
    ensures reads { IfOk result (λ r. lines.step_head bytes.now tokens.now from (read (record { by = r.0.by; left_to_right = r.0.left_to_right; path = r.0.path }) r.1)) }
    ensures stops { IfErr result (Stops (lines.step_head bytes.now tokens.now from)) }
{
    let at = word(bytes, tokens, from, b"step")?;
    let at = expect(bytes, tokens, at, Terminal::Open)?;
    let (by, at) = lower(bytes, tokens, at)?;
    let at = expect(bytes, tokens, at, Terminal::Comma)?;
    let (left_to_right, at) = way(bytes, tokens, at)?;
    let at = expect(bytes, tokens, at, Terminal::Comma)?;
    let (path, at) = path(alloc, bytes, tokens, at)?;
    let end = expect(bytes, tokens, at, Terminal::Comma)?;
    Ok((
        StepHead {
            by,
            left_to_right,
            path,
        },
        end,
    ))
}

// Reads a step.
fn step(
    alloc: Global,
    bytes: &[u8],
    tokens: &[Token],
    from: usize,
    variables: &mut Variables,
    symbols: &mut Symbols,
) -> Result<(StepDraft, usize), Stop>
    requires { AreTokens bytes.now tokens.now }
    ensures reads { IfOk result (λ r. ReadsStepAt bytes.now tokens.now from r.1 variables.old variables.new symbols.old symbols.new r.0) }
    ensures stops { IfErr result (Stops (lines.step bytes.now tokens.now from)) }
    ensures grows { Grows symbols.old symbols.new }
{
    let (head, at) = step_head(alloc, bytes, tokens, from)?;
    let (to, at) = term_at(alloc, bytes, tokens, at, variables, symbols)?;
    let end = expect(bytes, tokens, at, Terminal::Close)?;
    Ok((
        StepDraft {
            by: head.by,
            left_to_right: head.left_to_right,
            path: head.path,
            to,
        },
        end,
    ))
}

// Reads steps up to the closing square bracket.
fn more_steps(
    alloc: Global,
    bytes: &[u8],
    tokens: &[Token],
    from: usize,
    variables: &mut Variables,
    symbols: &mut Symbols,
) -> Result<(Seq<StepDraft>, usize), Stop>
    requires { AreTokens bytes.now tokens.now }
    ensures reads { IfOk result (λ r. ReadsStepsBy bytes.now tokens.now (lines.members bytes.now tokens.now (lines.step bytes.now tokens.now)) from r.1 variables.old variables.new symbols.old symbols.new r.0) }
    ensures stops { IfErr result (Stops (lines.members bytes.now tokens.now (lines.step bytes.now tokens.now) from)) }
    ensures grows { Grows symbols.old symbols.new }
{
    let mut list = Seq::new(alloc);
    let mut at = from;
    let mut more = true;
    'members: while more {
        let member = step(alloc, bytes, tokens, at, variables, symbols)?;
        list.push(member.0)?;
        more = has_next(bytes, tokens, member.1)?;
        at = member.1 + 1;
    }
    Ok((list, at))
}

/// Reads the steps behind the first term of a chain, up to the closing square bracket.
pub(crate) fn steps(
    alloc: Global,
    bytes: &[u8],
    tokens: &[Token],
    from: usize,
    variables: &mut Variables,
    symbols: &mut Symbols,
) -> Result<(Seq<StepDraft>, usize), Stop>
    requires { AreTokens bytes.now tokens.now }
    ensures reads { IfOk result (λ r. ReadsStepsBy bytes.now tokens.now (lines.steps bytes.now tokens.now) from r.1 variables.old variables.new symbols.old symbols.new r.0) }
    ensures stops { IfErr result (Stops (lines.steps bytes.now tokens.now from)) }
    ensures grows { Grows symbols.old symbols.new }
{
    if stands_at(bytes, tokens, from, Terminal::CloseSquare) {
        return Ok((Seq::new(alloc), from + 1));
    }
    let at = expect(bytes, tokens, from, Terminal::Comma)?;
    more_steps(alloc, bytes, tokens, at, variables, symbols)
}
