//! Numbers by names.

ghost use Rattle.std.specs.Prelude.{◌≡◌, ℕ, List, None, Some, is_some, bytes_eq, IfOk, OnOk, if◌then◌else◌};
ghost use Rattle.uc_ordering.specs.Numbers.{number_in};

use indexmap::IndexMap;
use std::alloc::{AllocError, Global};

/// Numbers by names, looked up by hash: an option may have as many names as a signature has symbols.
#[derive(Drop)]
pub(crate) struct Numbers {
    map: IndexMap<Vec<u8>, u32>,
}

impl Numbers {
    /// No numbers. It takes no memory.
    pub(crate) fn new(alloc: Global) -> Self
        ensures { (name : List ℕ) → number_in result.map.entries name ≡ None }
    {
        Numbers {
            map: IndexMap::new(alloc),
        }
    }

    /// Puts a number at a name, in place of the one that is there; and tells whether one was.
    pub(crate) fn put(
        &mut self,
        alloc: Global,
        name: &[u8],
        number: u32,
    ) -> Result<bool, AllocError>
        ensures was { IfOk result (λ was. was ≡ is_some (number_in self.old.map.entries name.now)) }
        ensures put { OnOk result ((n : List ℕ) → number_in self.new.map.entries n ≡ (if bytes_eq name.now n then Some number else number_in self.old.map.entries n)) }
    {
        let name = Vec::from_slice(alloc, name)?;
        let old = self.map.insert(name, number)?;
        Ok(old.is_some())
    }

    /// The number at a name.
    pub(crate) fn get(&self, name: &[u8]) -> Option<u32>
        ensures { result ≡ number_in self.now.map.entries name.now }
    {
        self.map.get(name).copied()
    }
}
