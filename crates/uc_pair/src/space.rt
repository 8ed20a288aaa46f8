//! Memory that is lent to the meeting of facts.

use std::alloc::Global;
use std::marker::Model;
use uc_term::{Node, Subst};
use uc_unify::Workspace;

/// The memory in which overlaps are judged, lent from one call to the next. What stands in it between calls is arbitrary.
#[derive(Drop)]
pub struct Space {
    pub(crate) renaming: Renaming,
    pub(crate) judging: Judging,
}

/// Where two rules are renamed apart.
#[derive(Drop)]
pub(crate) struct Renaming {
    /// The variables of a rule.
    pub(crate) names: Vec<u32>,
    /// The renamed sides.
    pub(crate) outer_from: Vec<Node>,
    pub(crate) outer_to: Vec<Node>,
    pub(crate) inner_from: Vec<Node>,
    pub(crate) inner_to: Vec<Node>,
}

/// Where their overlaps are judged.
#[derive(Drop)]
pub(crate) struct Judging {
    /// What a unification works in.
    pub(crate) unifying: Workspace,
    /// The unifier.
    pub(crate) unifier: Subst,
    /// What is built by it.
    pub(crate) built: Built,
}

/// Where the instances of the two sides of a rule are built, or the two sides of a pair.
#[derive(Drop)]
pub(crate) struct Built {
    pub(crate) from: Vec<Node>,
    pub(crate) to: Vec<Node>,
}

impl Model for Space {
    ghost Value = { Unit {0} };

    ghost view = { λ s. tt };
}

impl Space {
    /// A space for any facts. It takes no memory until it is lent.
    pub fn new(alloc: Global) -> Space {
        Space {
            renaming: Renaming::new(alloc),
            judging: Judging {
                unifying: Workspace::new(alloc),
                unifier: Subst::new(alloc),
                built: Built {
                    from: Vec::new(alloc),
                    to: Vec::new(alloc),
                },
            },
        }
    }
}

impl Renaming {
    /// It takes no memory until it is lent.
    pub(crate) fn new(alloc: Global) -> Renaming {
        Renaming {
            names: Vec::new(alloc),
            outer_from: Vec::new(alloc),
            outer_to: Vec::new(alloc),
            inner_from: Vec::new(alloc),
            inner_to: Vec::new(alloc),
        }
    }
}
