//! Facts: equations with what they come from.

ghost use Rattle.std.specs.Prelude.{◌≡◌, IfOk};

use crate::{Chain, Equation, Side};
use std::alloc::{AllocError, Global};
use uc_term::{Pos, Seq, Term};

/// A side of one fact, the inner one, unified with the subterm at a place of a side of another one, the outer one.
#[derive(Clone, Copy, PartialEq, Eq, Debug)]
pub struct Overlap {
    pub outer: u32,
    pub outer_side: Side,
    pub inner: u32,
    pub inner_side: Side,
    pub position: Pos,
}

/// What a pair or a fact comes from: an axiom, an overlap of two facts, or a fact that died.
#[derive(Clone, Copy, PartialEq, Eq, Debug)]
pub enum Origin {
    Axiom(u32),
    Overlap(Overlap),
    Revived(u32),
}

/// Why normalising stopped: no step is possible, as many steps were made as were allowed and a further one is possible, or
/// the next step would lead to a term of more than 4,096 nodes.
#[derive(Clone, Copy, PartialEq, Eq, Debug)]
pub enum Stop {
    Full,
    Steps,
    Size,
}

/// An equation that was kept. The chain leads from the left side to the right one; where the fact is oriented, its left side
/// is greater. `front` counts the entries over which it was computed, and `stops` says why each of its sides is as it is.
#[derive(Debug, Drop)]
pub struct Fact {
    pub left: Term,
    pub right: Term,
    pub oriented: bool,
    pub origin: Origin,
    pub chain: Chain,
    pub front: u32,
    pub stops: (Stop, Stop),
}

impl Fact {
    /// An equal fact.
    pub fn copy(&self, alloc: Global) -> Result<Fact, AllocError>
        ensures { IfOk result (λ fact. fact ≡ self.now) }
    {
        Ok(Fact {
            left: self.left.copy(alloc)?,
            right: self.right.copy(alloc)?,
            oriented: self.oriented,
            origin: self.origin,
            chain: self.chain.copy(alloc)?,
            front: self.front,
            stops: self.stops,
        })
    }
}

/// A list of equations.
#[derive(Drop)]
pub struct System {
    pub facts: Seq<Equation>,
}
