//! Whether an equation reduces another one.

ghost use Rattle.std.specs.Prelude.{◌↔◌, IsTrue, IfOk, IfSome};
ghost use Rattle.uc_pair.specs.Listing.{IsWayOf};
ghost use Rattle.uc_machine.specs.Results.{Reduces, StepsIn};
ghost use Rattle.uc_task.specs.Reducing.{HasInstance, Gives};

use crate::of_fact::OfFact;
use crate::parts::may_step;
use std::alloc::{AllocError, Global};
use std::slice::from_ref;
use uc_fact::Equation;
use uc_order::{Cmp, Order};
use uc_rewrite::{Scan, is_reducible};
use uc_term::Term;
use uc_unify::matches_both;

/// Whether the equation of a fact makes an ordered step in a side of another one, or has it as an instance, either way round.
/// How the two sides of the fact's equation compare may be known; else the order is asked where a side has an instance. By the
/// fact's number it is asked again where a step may be made; the answer is the same for each number.
pub fn reduces<O: Order>(
    alloc: Global,
    number: u32,
    equation: &Equation,
    known: Option<Cmp>,
    other: &Equation,
    order: &O,
) -> Result<bool, AllocError>
    requires { IfSome known (IsWayOf (O.meaning order.now).greater equation.now) }
    ensures { IfOk result (λ answer. IsTrue answer ↔ Reduces (O.meaning order.now) equation.now other.now) }
{
    if steps_in(alloc, number, equation, known, &other.left, order)? {
        return Ok(true);
    }
    if steps_in(alloc, number, equation, known, &other.right, order)? {
        return Ok(true);
    }
    has_instance(alloc, equation, other)
}

/// Whether the equation of a fact makes an ordered step in a term. Where none may be made, this takes no memory.
fn steps_in<O: Order>(
    alloc: Global,
    number: u32,
    equation: &Equation,
    known: Option<Cmp>,
    term: &Term,
    order: &O,
) -> Result<bool, AllocError>
    requires { IfSome known (IsWayOf (O.meaning order.now).greater equation.now) }
    ensures { IfOk result (λ answer. IsTrue answer ↔ StepsIn (O.meaning order.now) equation.now term.now) }
{
    if !may_step(number, equation, known, term, order) {
        return Ok(false);
    }
    let order = OfFact { order, number };
    if is_reducible(alloc, term, &Scan::new(from_ref(equation)), &order)? {
        Ok(true)
    } else {
        Ok(false)
    }
}

/// Whether an equation has another one as an instance, either way round.
fn has_instance(alloc: Global, equation: &Equation, other: &Equation) -> Result<bool, AllocError>
    ensures { IfOk result (λ answer. IsTrue answer ↔ HasInstance equation.now other.now) }
{
    if is_instance(alloc, &equation.left, &equation.right, other)? {
        return Ok(true);
    }
    is_instance(alloc, &equation.right, &equation.left, other)
}

/// Whether one substitution makes the two terms the left and the right side of an equation.
fn is_instance(
    alloc: Global,
    left: &Term,
    right: &Term,
    other: &Equation,
) -> Result<bool, AllocError>
    ensures { IfOk result (λ answer. IsTrue answer ↔ Gives left.now right.now other.now) }
{
    let both = matches_both(
        alloc,
        left.as_nodes(),
        other.left.as_nodes(),
        right.as_nodes(),
        other.right.as_nodes(),
    )?;
    Ok(both.is_some())
}
