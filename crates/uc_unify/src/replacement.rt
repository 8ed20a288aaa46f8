//! Replacement of equals by equals at one place of a term (Baader and Nipkow, Term Rewriting and All That, section 3.1).

ghost use Rattle.std.specs.Prelude.{◌↔◌, IsTrue, IfOk};
ghost use Rattle.uc_unify.specs.Replacing.{ReplacesAt};

use crate::matching::matches_both;
use std::alloc::{AllocError, Global};
use uc_term::{Pos, Term, end_of, same_nodes};

/// Whether the place is one of the term before, one substitution makes the two sides the subterms at this place, and all else
/// is the same.
pub fn replaces_at(
    alloc: Global,
    from: &Term,
    to: &Term,
    before: &Term,
    pos: Pos,
    after: &Term,
) -> Result<bool, AllocError>
    ensures { IfOk result (λ fits. IsTrue fits ↔ ReplacesAt from.now to.now before.now pos.0 after.now) }
{
    let place = pos.0 as usize;
    let old = before.as_nodes();
    let new = after.as_nodes();
    if place >= old.len() {
        return Ok(false);
    }
    if place >= new.len() {
        return Ok(false);
    }
    let old_end = end_of(old, place);
    let new_end = end_of(new, place);
    if !same_nodes(&old[..place], &new[..place]) {
        return Ok(false);
    }
    if !same_nodes(&old[old_end..], &new[new_end..]) {
        return Ok(false);
    }
    match matches_both(
        alloc,
        from.as_nodes(),
        &old[place..old_end],
        to.as_nodes(),
        &new[place..new_end],
    )? {
        None => Ok(false),
        Some(_) => Ok(true),
    }
}
