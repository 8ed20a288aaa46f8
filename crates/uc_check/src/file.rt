//! File lines: whether the problem has the clause.

ghost use Rattle.std.specs.Prelude.{◌≡◌, ◌↔◌, IsTrue, IfOk};
ghost use Rattle.uc_check.specs.Lines.{SaysSame, IsClause};

use crate::Line;
use crate::variants::are_variants;
use std::alloc::{AllocError, Global};
use uc_clause::{Clause, Name, Sourced};

/// Whether some clause of the problem has this name, and the line's polarity and equation up to a renaming.
pub(crate) fn is_clause(
    alloc: Global,
    clauses: &[Sourced],
    name: &Name,
    line: &Line,
) -> Result<bool, AllocError>
    ensures { IfOk result (λ found. IsTrue found ↔ IsClause clauses.now name.now line.now.positive line.now.left line.now.right) }
{
    for sourced in clauses {
        if says_same(alloc, &sourced.clause, name, line)? {
            return Ok(true);
        }
    }
    Ok(false)
}

/// Whether the clause has this name, and the line's polarity and equation up to a renaming.
fn says_same(alloc: Global, clause: &Clause, name: &Name, line: &Line) -> Result<bool, AllocError>
    ensures { IfOk result (λ same. IsTrue same ↔ SaysSame clause.now name.now line.now.positive line.now.left line.now.right) }
{
    if clause.positive != line.positive {
        return Ok(false);
    }
    if !clause.name.same(name) {
        return Ok(false);
    }
    are_variants(
        alloc,
        clause.left.as_nodes(),
        clause.right.as_nodes(),
        line.left.as_nodes(),
        line.right.as_nodes(),
    )
}
