//! The checker.

ghost use Rattle.std.specs.Prelude.{◌≡◌, ◌<◌, ◌≤◌, ◌^◌, List, Option, IfOk, length};
ghost use Rattle.std.specs.Option.{option_copied};
ghost use Rattle.uc_term.specs.declared.fresh.Fresh.{Fresh};
ghost use Rattle.uc_term.specs.Conversion.{SomeFollows};
ghost use Rattle.uc_clause.specs.declared.clause.Sourced.{Sourced};
ghost use Rattle.uc_check.specs.Clauses.{axioms_of, goals_of, AreFresh, HasGoalIfEncoded};
ghost use Rattle.uc_check.specs.Lines.{Tested};
ghost use Rattle.uc_check.specs.Checks.{AreRightBefore, FirstFailure, IsChecked};

use crate::chain::test_chain;
use crate::encode::{test_goal, test_reflexive};
use crate::file::is_clause;
use crate::refute::test_refute;
use crate::replacement::is_refutation;
use crate::{Line, LineSource, Proof};
use std::alloc::{AllocError, Global};
use thiserror::Error;
use uc_clause::Sourced;
use uc_term::Fresh;

/// Why a line isn't right.
#[derive(Clone, Copy, PartialEq, Eq, Debug)]
pub enum Cause {
    NotAProblemClause,
    NotAReplacement,
    NotEarlier,
    EndsDiffer,
    WrongParents,
    NoGoal,
}

/// What the checker answers: that the proof refutes a goal, or the first line that fails and the cause of its first test that
/// does. The last line stands for a proof that refutes nothing, and no line for one that has none.
#[derive(Clone, Copy, PartialEq, Eq, Debug)]
pub enum Checked {
    Accepted,
    Rejected { line: Option<u32>, cause: Cause },
}

/// Whether the proof refutes a goal of the clauses, and else the first line and the first of its tests that fails. `fresh` has
/// the symbols of the encoding where the problem is encoded, as it is where a goal has a variable. `AllocError` comes for want
/// of memory alone.
pub fn check(
    alloc: Global,
    clauses: &[Sourced],
    fresh: Option<&Fresh>,
    proof: &Proof,
) -> Result<Checked, AllocError>
    requires fresh { AreFresh (option_copied fresh) clauses.now }
    requires few { length proof.now.lines < 2 ^ 31 }
    ensures checked { IfOk result (IsChecked clauses.now (option_copied fresh.entry) proof.now.lines) }
    ensures accepted { result ≡ Ok Checked.Accepted → HasGoalIfEncoded (option_copied fresh.entry) clauses.now → SomeFollows (axioms_of clauses.now) (goals_of clauses.now) }
{
    match check_lines(alloc, clauses, fresh, proof)? {
        Some((line, cause)) => Ok(Checked::Rejected {
            line: Some(line),
            cause,
        }),
        None => Ok(check_last(proof.lines.as_slice())),
    }
}

/// The first line that isn't right, by its number from 0, and the cause of the first of its tests that fails; or none.
pub fn check_lines(
    alloc: Global,
    clauses: &[Sourced],
    fresh: Option<&Fresh>,
    proof: &Proof,
) -> Result<Option<(u32, Cause)>, AllocError>
    requires few { length proof.now.lines < 2 ^ 31 }
    ensures { IfOk result (FirstFailure clauses.now (option_copied fresh.entry) proof.now.lines) }
{
    let marks = fresh.copied();
    let lines = proof.lines.as_slice();
    for (number, line) in lines.iter().enumerate() {
        if let Some(cause) = test_line(alloc, clauses, marks, lines, number, line)? {
            return Ok(Some((number as u32, cause)));
        }
    }
    Ok(None)
}

/// The outcome of the tests of a line: none where all are passed, and else the cause of the first that fails.
fn test_line(
    alloc: Global,
    clauses: &[Sourced],
    fresh: Option<Fresh>,
    lines: &[Line],
    number: usize,
    line: &Line,
) -> Result<Option<Cause>, AllocError>
    requires { number ≤ length lines.now }
    ensures { IfOk result (Tested clauses.now fresh lines.now number line.now line.now.source) }
{
    match &line.source {
        LineSource::File(name) => {
            if is_clause(alloc, clauses, name, line)? {
                Ok(None)
            } else {
                Ok(Some(Cause::NotAProblemClause))
            }
        }
        LineSource::Chain {
            start,
            steps,
            parents,
        } => test_chain(
            alloc,
            lines,
            number,
            line,
            start,
            steps.as_slice(),
            parents.as_slice(),
        ),
        LineSource::Reflexive { parents } => Ok(test_reflexive(
            fresh,
            number,
            line,
            parents.as_slice(),
        )),
        LineSource::EncodeGoal { parents } => test_goal(
            alloc,
            fresh,
            lines,
            number,
            line,
            parents.as_slice(),
        ),
        LineSource::Refute { parents } => Ok(test_refute(
            fresh,
            lines,
            number,
            line,
            parents.as_slice(),
        )),
    }
}

/// The answer for lines that are all right.
fn check_last(lines: &[Line]) -> Checked
    requires { length lines.now < 2 ^ 31 }
    ensures { (clauses : List Sourced) (fresh : Option Fresh) → AreRightBefore clauses fresh lines.now (length lines.now) → IsChecked clauses fresh lines.now result }
{
    if lines.is_empty() {
        return Checked::Rejected {
            line: None,
            cause: Cause::NoGoal,
        };
    }
    let last = lines.len() - 1;
    if is_refutation(&lines[last].source) {
        Checked::Accepted
    } else {
        Checked::Rejected {
            line: Some(last as u32),
            cause: Cause::NoGoal,
        }
    }
}
