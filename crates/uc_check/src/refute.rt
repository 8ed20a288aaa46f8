//! Refute lines.

ghost use Rattle.std.specs.Prelude.{◌≡◌, ◌↔◌, ℕ, List, IsTrue};
ghost use Rattle.uc_clause.specs.declared.clause.Sourced.{Sourced};
ghost use Rattle.uc_check.specs.declared.proof.LineSource.TheVariants.{Refute};
ghost use Rattle.uc_check.specs.Lines.{Tested, RefutesGround, RefutesEncoded, ShowsDenied, ShowsFalse};

use crate::parents::{are_earlier, is_constant, is_denial, is_derived, is_open, only_parent};
use crate::{Cause, Line};
use uc_term::Fresh;

/// The outcome of the tests of a refutation.
pub(crate) fn test_refute(
    fresh: Option<Fresh>,
    lines: &[Line],
    number: usize,
    line: &Line,
    parents: &[u32],
) -> Option<Cause>
    ensures { (clauses : List Sourced) → Tested clauses fresh lines.now number line.now (Refute parents.now) result }
{
    if !are_earlier(number, parents) {
        return Some(Cause::NotEarlier);
    }
    if refutes_ground(lines, parents) {
        return None;
    }
    if refutes_encoded(fresh, lines, parents) {
        return None;
    }
    Some(Cause::NoGoal)
}

/// Whether there are two parents, a denial and a chain line that shows what it denies.
fn refutes_ground(lines: &[Line], parents: &[u32]) -> bool
    ensures { IsTrue result ↔ RefutesGround lines.now parents.now }
{
    if parents.len() != 2 {
        return false;
    }
    match lines.get(parents[0] as usize) {
        None => false,
        Some(goal) => match lines.get(parents[1] as usize) {
            None => false,
            Some(chain) => shows_denied(goal, chain),
        },
    }
}

/// Whether the chain line shows what the ground denial denies.
fn shows_denied(goal: &Line, chain: &Line) -> bool
    ensures { IsTrue result ↔ ShowsDenied goal.now chain.now }
{
    if !is_denial(goal) || is_open(goal) {
        return false;
    }
    is_derived(chain) && chain.left.same(&goal.left) && chain.right.same(&goal.right)
}

/// Whether there is one parent, a chain line of `true = false`.
fn refutes_encoded(fresh: Option<Fresh>, lines: &[Line], parents: &[u32]) -> bool
    ensures { IsTrue result ↔ RefutesEncoded fresh lines.now parents.now }
{
    match fresh {
        None => false,
        Some(marks) => match only_parent(lines, parents) {
            None => false,
            Some(chain) => shows_false(marks, chain),
        },
    }
}

/// Whether the chain line says that `true` and `false` are equal.
fn shows_false(marks: Fresh, chain: &Line) -> bool
    ensures { IsTrue result ↔ ShowsFalse marks chain.now }
{
    is_derived(chain) && is_constant(&chain.left, marks.yes) && is_constant(&chain.right, marks.no)
}
