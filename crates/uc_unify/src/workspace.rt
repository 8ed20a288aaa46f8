//! The memory that a unification works in.

use std::alloc::Global;
use std::marker::Model;
use uc_term::Node;

/// Memory for unifications, lent to one after the other so that they take none of their own. What stands in it between calls
/// is arbitrary and says nothing, so all workspaces have one value.
#[derive(Drop)]
pub struct Workspace {
    /// The nodes of both terms.
    pub(crate) both: Vec<Node>,
    /// The place behind the term at each place.
    pub(crate) ends: Vec<usize>,
    /// The first place of each variable that has a small number.
    pub(crate) noted: Vec<usize>,
    /// The place above each place in its tree.
    pub(crate) parents: Vec<usize>,
    /// The place that stands for the class of each place.
    pub(crate) heads: Vec<usize>,
    /// The pairs of places that are to be brought into one class.
    pub(crate) pairs: Vec<(usize, usize)>,
    /// The size of each place that stands for a class.
    pub(crate) sizes: Vec<u32>,
    /// A variable's term, while it is written.
    pub(crate) written: Vec<Node>,
    /// The places from which terms are to be written, with the number of these.
    pub(crate) pending: Vec<(usize, u32)>,
}

impl Model for Workspace {
    ghost Value = { Unit {0} };

    ghost view = { λ s. tt };
}

impl Workspace {
    /// A workspace that holds no memory yet. It grows with the terms that it is lent for, and keeps what it has grown to.
    pub fn new(alloc: Global) -> Workspace {
        Workspace {
            both: Vec::new(alloc),
            ends: Vec::new(alloc),
            noted: Vec::new(alloc),
            parents: Vec::new(alloc),
            heads: Vec::new(alloc),
            pairs: Vec::new(alloc),
            sizes: Vec::new(alloc),
            written: Vec::new(alloc),
            pending: Vec::new(alloc),
        }
    }
}
