//! Chains put together and gone back.

ghost use Rattle.std.specs.Prelude.{◌≡◌, IfOk};
ghost use Rattle.uc_fact.specs.Chains.{one_step, followed_by, reversed};

use std::alloc::{AllocError, Global};
use std::mem;
use uc_fact::{By, Chain, Step};
use uc_term::{Pos, Seq, Term};

/// The chain of one step by an equation from its left side to its right one.
pub fn one_step(alloc: Global, by: By, left: &Term, right: &Term) -> Result<Chain, AllocError>
    ensures { IfOk result (λ chain. chain ≡ one_step by (record { left = left.now; right = right.now })) }
{
    let mut steps = Seq::new(alloc);
    steps.push(Step {
        by,
        left_to_right: true,
        position: Pos(0),
        to: right.copy(alloc)?,
    })?;
    Ok(Chain {
        start: left.copy(alloc)?,
        steps,
    })
}

/// The steps of a second chain behind those of the first.
pub fn followed_by(first: Chain, second: Chain) -> Result<Chain, AllocError>
    ensures { IfOk result (λ chain. chain ≡ followed_by first second) }
{
    let mut steps = first.steps;
    steps.append(second.steps)?;
    Ok(Chain {
        start: first.start,
        steps,
    })
}

/// The chain gone back from its end to its start.
pub fn reversed(alloc: Global, chain: Chain) -> Result<Chain, AllocError>
    ensures { IfOk result (λ back. back ≡ reversed chain) }
{
    let mut steps = Vec::new(alloc);
    let mut last = chain.start;
    for step in chain.steps.into_vec() {
        steps.push(Step {
            by: step.by,
            left_to_right: !step.left_to_right,
            position: step.position,
            to: mem::replace(&mut last, step.to),
        })?;
    }
    steps.reverse();
    Ok(Chain {
        start: last,
        steps: Seq::from_vec(steps),
    })
}
