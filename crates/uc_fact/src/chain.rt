//! Chains of steps by equations.

ghost use Rattle.std.specs.Prelude.{◌≡◌, IfOk};

use std::alloc::{AllocError, Global};
use uc_term::{Pos, Seq, Term};

/// The equation by which a step is made: an axiom or a fact, by its number.
#[derive(Clone, Copy, PartialEq, Eq, Debug)]
pub enum By {
    Axiom(u32),
    Fact(u32),
}

/// A step of a chain: by which equation, from which of its sides to the other, at which place of the term before, and the
/// whole term after it.
#[derive(Debug, Drop)]
pub struct Step {
    pub by: By,
    pub left_to_right: bool,
    pub position: Pos,
    pub to: Term,
}

/// A list of steps, each from the term after the one before it.
#[derive(Debug, Drop)]
pub struct Chain {
    pub start: Term,
    pub steps: Seq<Step>,
}

impl Step {
    /// An equal step.
    pub fn copy(&self, alloc: Global) -> Result<Step, AllocError>
        ensures { IfOk result (λ step. step ≡ self.now) }
    {
        Ok(Step {
            by: self.by,
            left_to_right: self.left_to_right,
            position: self.position,
            to: self.to.copy(alloc)?,
        })
    }
}

impl Chain {
    /// An equal chain.
    pub fn copy(&self, alloc: Global) -> Result<Chain, AllocError>
        ensures { IfOk result (λ chain. chain ≡ self.now) }
    {
        let mut steps = Vec::new(alloc);
        for step in self.steps.as_slice() {
            steps.push(step.copy(alloc)?)?;
        }
        Ok(Chain {
            start: self.start.copy(alloc)?,
            steps: Seq::from_vec(steps),
        })
    }
}
