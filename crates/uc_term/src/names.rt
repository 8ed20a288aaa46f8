//! The names of a table of symbols.

ghost use Rattle.std.specs.Prelude.{◌≡◌, ◌<◌, ◌⊎◌, [], ◌∷◌, ◌++◌, length, get_or, slice_get, Some, position, bytes_eq, IfOk, OnOk, OnErr};
ghost use Rattle.uc_term.specs.Keys.{AreDifferent};

use indexmap::IndexSet;
use std::alloc::{AllocError, Global};
use std::marker::Model;

/// Names, each once, in the order in which they came.
#[derive(Drop)]
pub(crate) struct Names {
    list: IndexSet<Vec<u8>>,
}

impl Model for Names {
    ghost use Rattle.std.specs.Prelude.{List, ℕ};

    ghost Value = { List (List ℕ) };

    ghost use Rattle.uc_term.specs.Keys.{names_of, AreDifferent};

    ghost view = { λ s. names_of s.list.keys };

    ghost invariant = { λ s. AreDifferent (names_of s.list.keys) };
}

impl Names {
    /// No names. It takes no memory.
    pub(crate) fn new(alloc: Global) -> Self
        ensures { result ≡ [] }
    {
        Names {
            list: IndexSet::new(alloc),
        }
    }

    /// The place of a name, which goes behind the others where it is new.
    pub(crate) fn insert(&mut self, alloc: Global, name: &[u8]) -> Result<usize, AllocError>
        ensures place { IfOk result (λ place. slice_get self.new place ≡ Some name.now) }
        ensures adds { OnOk result ((self.new ≡ self.old) ⊎ (self.new ≡ self.old ++ name.now ∷ [])) }
        ensures different { OnOk result (AreDifferent self.new) }
        ensures err { OnErr result (self.new ≡ self.old) }
    {
        if let Some(place) = self.list.get_index_of(name) {
            return Ok(place);
        }
        let name = Vec::from_slice(alloc, name)?;
        let (place, _) = self.list.insert_full(name)?;
        Ok(place)
    }

    /// The place of a name, if it is one of the names. It takes no memory.
    pub(crate) fn place_of(&self, name: &[u8]) -> Option<usize>
        ensures place { result ≡ position (bytes_eq name.now) self.now }
        ensures different { AreDifferent self.now }
    {
        self.list.get_index_of(name)
    }

    /// The name at a place.
    pub(crate) fn at(&self, place: usize) -> &[u8]
        requires { place < length self.now }
        ensures { result.now ≡ get_or self.now place [] }
    {
        self.list.get_index(place).unwrap()
    }
}
