//! Classes of terms, each with a number.

ghost use Rattle.std.specs.Prelude.{◌≡◌, [], Some, slice_get, IfOk, OnOk};
ghost use Rattle.uc_term.specs.Keys.{AreDifferent};
ghost use Rattle.uc_ac.specs.Classes.{IsGrown};

use indexmap::IndexSet;
use std::alloc::{AllocError, Global};
use std::marker::Model;

/// Classes, each once, in the order in which they came. A class is written as a list of numbers, and its number is its place.
#[derive(Drop)]
pub(crate) struct Classes {
    list: IndexSet<Vec<usize>>,
}

impl Model for Classes {
    ghost use Rattle.std.specs.Prelude.{List, ℕ};

    ghost Value = { List (List ℕ) };

    ghost use Rattle.uc_term.specs.Keys.{names_of, AreDifferent};

    ghost view = { λ s. names_of s.list.keys };

    ghost invariant = { λ s. AreDifferent (names_of s.list.keys) };
}

impl Classes {
    /// No classes. It takes no memory.
    pub(crate) fn new(alloc: Global) -> Self
        ensures { result ≡ [] }
    {
        Classes {
            list: IndexSet::new(alloc),
        }
    }

    /// The number of a class, which goes behind the others where it is new.
    pub(crate) fn insert(&mut self, class: Vec<usize>) -> Result<usize, AllocError>
        ensures number { IfOk result (λ number. slice_get self.new number ≡ Some class.items) }
        ensures grown { OnOk result (IsGrown self.old self.new) }
        ensures different { OnOk result (AreDifferent self.new) }
    {
        let (number, _) = self.list.insert_full(class)?;
        Ok(number)
    }
}
