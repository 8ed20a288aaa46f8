//! Numbered equations and their sides as rules, numbered from 0 by the facts' order, left before right.

ghost use Rattle.std.specs.Prelude.{◌≡◌, ◌+◌, ◌*◌, ◌/◌, ◌<◌, ◌≤◌, ℕ, length, slice_get, Some, IfOk};
ghost use Rattle.uc_term.specs.declared.equation.Equation.{Equation as AnyEquation};
ghost use Rattle.uc_term.specs.Equations.{side_of, other_side_of};
ghost use Rattle.uc_disc.specs.Numbered.{IsRule};

use std::alloc::{AllocError, Global};
use uc_fact::{Equation, Side};
use uc_term::Term;

/// Tells the side that a rule is read from.
#[inline]
pub fn side_of_rule(facts: &[(u32, Equation)], rule: u32) -> Side
    requires { rule < 2 * length facts.now }
    ensures { (fact : ℕ × AnyEquation) → slice_get facts.now (rule / 2) ≡ Some fact → IsRule facts.now rule fact result }
{
    if rule % 2 == 0 {
        Side::Left
    } else {
        Side::Right
    }
}

/// Returns the term of a side.
#[inline]
pub fn side_term(equation: &Equation, side: Side) -> &Term
    ensures { result.now ≡ side_of side equation.now }
{
    match side {
        Side::Left => &equation.left,
        Side::Right => &equation.right,
    }
}

/// Returns the term of the other side.
#[inline]
pub fn other_side_term(equation: &Equation, side: Side) -> &Term
    ensures { result.now ≡ other_side_of side equation.now }
{
    match side {
        Side::Left => &equation.right,
        Side::Right => &equation.left,
    }
}

/// Copies numbered equations.
pub fn copy_facts(
    alloc: Global,
    facts: &[(u32, Equation)],
) -> Result<Vec<(u32, Equation)>, AllocError>
    ensures { IfOk result (λ list. list.items ≡ facts.now) }
{
    let mut list = Vec::new(alloc);
    for fact in facts {
        let left = fact.1.left.copy(alloc)?;
        let right = fact.1.right.copy(alloc)?;
        list.push((fact.0, Equation { left, right }))?;
    }
    Ok(list)
}
