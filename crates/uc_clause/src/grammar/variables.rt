//! The names of variables.

ghost use Rattle.std.specs.Prelude.{◌≡◌, ◌-◌, ◌<◌, ◌≤◌, ◌^◌, [], Some, slice_get, length, IfOk, OnOk, OnErr};
ghost use Rattle.uc_clause.specs.Distinct.{AreDistinct};
ghost use Rattle.uc_clause.specs.Meaning.{with_name};

use indexmap::IndexSet;
use std::alloc::{AllocError, Global};
use std::marker::Model;

/// The names of the variables seen so far, each once, by first occurrence: a variable's number is its name's place.
#[derive(Drop)]
pub struct Variables {
    names: IndexSet<Vec<u8>>,
}

impl Model for Variables {
    ghost use Rattle.std.specs.Prelude.{List, ℕ, map};

    ghost Value = { List (List ℕ) };

    ghost view = { λ s. map (λ name. name.items) s.names.keys };

    ghost use Rattle.uc_clause.specs.Distinct.{AreDistinct};

    ghost invariant = { λ s. AreDistinct (map (λ name. name.items) s.names.keys) };
}

impl Variables {
    /// No names. It takes no memory.
    pub fn new(alloc: Global) -> Self
        ensures { result ≡ [] }
    {
        Variables {
            names: IndexSet::new(alloc),
        }
    }

    /// How many names there are.
    pub(crate) fn len(&self) -> usize
        ensures count { result ≡ length self.now }
        ensures distinct { AreDistinct self.now }
    {
        self.names.len()
    }

    /// The number of a name, which may be new. Room for 2^32 - 1 names is enough for every text that is read; past it the
    /// answer is that of want of memory, which leaves the names as they were.
    pub fn number(&mut self, alloc: Global, name: &[u8]) -> Result<u32, AllocError>
        ensures seen { IfOk result (λ n. self.new ≡ with_name self.old name.now) }
        ensures number { IfOk result (λ n. slice_get self.new n ≡ Some name.now) }
        ensures err { OnErr result (self.new ≡ self.old) }
    {
        check_names(self.names.len())?;
        let name = Vec::from_slice(alloc, name)?;
        let (index, _) = self.names.insert_full(name)?;
        Ok(index as u32)
    }
}

/// The most names.
const MOST: usize = u32::MAX as usize;

/// Refuses a name more exactly where there are the most.
fn check_names(count: usize) -> Result<(), AllocError>
    ensures few { OnOk result (count < 2 ^ 32 - 1) }
    ensures refused { OnErr result (2 ^ 32 - 1 ≤ count) }
{
    if count >= MOST {
        return Err(AllocError);
    }
    Ok(())
}
