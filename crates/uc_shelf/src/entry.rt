//! Entries: what a front is a list of.

ghost use Rattle.std.specs.Prelude.{◌≡◌, ◌↔◌, IsTrue, IfOk};
ghost use Rattle.uc_shelf.specs.Numbers.{dying};

use crate::same::same_fact;
use std::alloc::{AllocError, Global};
use uc_fact::Fact;

/// A fact is born, or the fact of this number dies, killed by another one. Facts are numbered from 0 in the order of their
/// births.
#[derive(Debug, Drop)]
pub enum Entry {
    Born(Fact),
    Dies { fact: u32, killer: u32 },
}

impl Entry {
    /// An equal entry.
    pub fn copy(&self, alloc: Global) -> Result<Entry, AllocError>
        ensures { IfOk result (λ entry. entry ≡ self.now) }
    {
        match self {
            Entry::Born(fact) => Ok(Entry::Born(fact.copy(alloc)?)),
            Entry::Dies { fact, killer } => Ok(Entry::Dies {
                fact: *fact,
                killer: *killer,
            }),
        }
    }

    /// The number of the fact that dies by it.
    pub(crate) fn dies(&self) -> Option<u32>
        ensures { result ≡ dying self.now }
    {
        match self {
            Entry::Born(_) => None,
            Entry::Dies { fact, .. } => Some(*fact),
        }
    }

    /// Whether the two are equal.
    pub fn same(&self, other: &Entry) -> bool
        ensures { IsTrue result ↔ (self.now ≡ other.now) }
    {
        match (self, other) {
            (Entry::Born(a), Entry::Born(b)) => same_fact(a, b),
            (Entry::Dies { fact: a, killer: k }, Entry::Dies { fact: b, killer: l }) => *a == *b
                && *k == *l,
            _ => false,
        }
    }
}
