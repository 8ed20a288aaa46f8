//! Chain lines.

ghost use Rattle.std.specs.Prelude.{◌≡◌, ◌≤◌, ◌↔◌, ℕ, List, Option, IsTrue, IfOk, MatchOption, length};
ghost use Rattle.uc_term.specs.declared.fresh.Fresh.{Fresh};
ghost use Rattle.uc_term.specs.Variables.{is_among};
ghost use Rattle.uc_clause.specs.declared.clause.Sourced.{Sourced};
ghost use Rattle.uc_check.specs.declared.proof.LineSource.TheVariants.{Chain};
ghost use Rattle.uc_check.specs.Replacements.{Leads, chain_end};
ghost use Rattle.uc_check.specs.Lines.{Tested, named_by};
ghost use Rattle.uc_check.specs.Parents.{NamesParent, NamesNoParent};

use crate::replacement::is_replacement;
use crate::{Cause, Line, LineStep};
use std::alloc::{AllocError, Global};
use uc_term::Term;

/// The outcome of the tests of a chain line: its first term, its steps in turn, its last term, its parents.
pub(crate) fn test_chain(
    alloc: Global,
    lines: &[Line],
    number: usize,
    line: &Line,
    start: &Term,
    steps: &[LineStep],
    parents: &[u32],
) -> Result<Option<Cause>, AllocError>
    requires { number ≤ length lines.now }
    ensures { IfOk result (λ outcome. (clauses : List Sourced) (fresh : Option Fresh) → Tested clauses fresh lines.now number line.now (Chain start.now steps.now parents.now) outcome) }
{
    if !start.same(&line.left) {
        return Ok(Some(Cause::EndsDiffer));
    }
    match test_steps(alloc, lines, number, start, steps)? {
        Some(cause) => Ok(Some(cause)),
        None => {
            if !last_term(start, steps).same(&line.right) {
                return Ok(Some(Cause::EndsDiffer));
            }
            if !are_named_by(parents, steps) {
                return Ok(Some(Cause::WrongParents));
            }
            Ok(None)
        }
    }
}

/// The first test of the steps that fails.
fn test_steps(
    alloc: Global,
    lines: &[Line],
    number: usize,
    start: &Term,
    steps: &[LineStep],
) -> Result<Option<Cause>, AllocError>
    requires { number ≤ length lines.now }
    ensures { IfOk result (λ outcome. MatchOption outcome (Leads lines.now number start.now steps.now (Ok (chain_end start.now steps.now))) (λ cause. Leads lines.now number start.now steps.now (Err cause))) }
{
    let mut before = start;
    for step in steps {
        if step.by as usize >= number {
            return Ok(Some(Cause::NotEarlier));
        }
        if !is_replacement(alloc, lines, before, step)? {
            return Ok(Some(Cause::NotAReplacement));
        }
        before = &step.to;
    }
    Ok(None)
}

/// The last term of a chain.
fn last_term<'a>(start: &'a Term, steps: &'a [LineStep]) -> &'a Term
    ensures { result.now ≡ chain_end start.now steps.now }
{
    match steps.last() {
        Some(step) => &step.to,
        None => start,
    }
}

/// Whether the parents are the lines that the steps name, each once, by first use.
fn are_named_by(parents: &[u32], steps: &[LineStep]) -> bool
    ensures { IsTrue result ↔ (parents.now ≡ named_by steps.now) }
{
    let mut named = 0;
    for step in steps {
        match named_with(parents, named, step.by) {
            Some(more) => named = more,
            None => return false,
        }
    }
    named == parents.len()
}

/// How many of the first parents a further step names, where so many are named before. None where it names neither one of
/// these nor the next.
fn named_with(parents: &[u32], named: usize, by: u32) -> Option<usize>
    requires { named ≤ length parents.now }
    ensures { MatchOption result (NamesNoParent parents.now named by) (NamesParent parents.now named by) }
{
    if is_among(by, &parents[..named]) {
        return Some(named);
    }
    if named < parents.len() && parents[named] == by {
        return Some(named + 1);
    }
    None
}

/// Whether the number is one of these.
fn is_among(number: u32, numbers: &[u32]) -> bool
    ensures { result ≡ is_among number numbers.now }
{
    for other in numbers {
        if number == *other {
            return true;
        }
    }
    false
}
