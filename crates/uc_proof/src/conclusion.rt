//! The chain between the two sides of a goal.

ghost use Rattle.std.specs.Prelude.{◌≡◌, ◌≤◌, ◌++◌, length, take, IfOk, OnOk};
ghost use Rattle.uc_fact.specs.Chains.{last_term, step_back, steps_back};
ghost use Rattle.uc_proof.specs.Chains.{conclusion_of};

use std::alloc::{AllocError, Global};
use uc_fact::{Chain, Step};
use uc_term::{Seq, Term};

/// The left side's chain, followed by the right side's gone back.
pub(crate) fn conclusion(alloc: Global, left: &Chain, right: &Chain) -> Result<Chain, AllocError>
    ensures { IfOk result (λ chain. chain ≡ conclusion_of left.now right.now) }
{
    let chain = left.copy(alloc)?;
    let mut steps = chain.steps.into_vec();
    push_back(alloc, &mut steps, &right.start, right.steps.as_slice())?;
    Ok(Chain {
        start: chain.start,
        steps: Seq::from_vec(steps),
    })
}

// The steps from a term gone back, the last one first.
fn push_back(
    alloc: Global,
    steps: &mut Vec<Step>,
    start: &Term,
    forth: &[Step],
) -> Result<(), AllocError>
    ensures { OnOk result (steps.new.items ≡ steps.old.items ++ steps_back start.now forth.now) }
{
    let mut number = forth.len();
    while number > 0 {
        number -= 1;
        let before = term_before(start, forth, number);
        steps.push(back(alloc, before, &forth[number])?)?;
    }
    Ok(())
}

// The term before a step.
fn term_before<'a>(start: &'a Term, steps: &'a [Step], number: usize) -> &'a Term
    requires { number ≤ length steps.now }
    ensures { result.now ≡ last_term start.now (take number steps.now) }
{
    if number == 0 {
        start
    } else {
        &steps[number - 1].to
    }
}

// A step gone back, to the term before it.
fn back(alloc: Global, before: &Term, step: &Step) -> Result<Step, AllocError>
    ensures { IfOk result (λ b. b ≡ step_back before.now step.now) }
{
    Ok(Step {
        by: step.by,
        left_to_right: !step.left_to_right,
        position: step.position,
        to: before.copy(alloc)?,
    })
}
