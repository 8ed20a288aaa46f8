//! The names of lines.

ghost use Rattle.std.specs.Prelude.{◌≡◌, ◌-◌, ◌<◌, ◌≤◌, ◌^◌, [], length, position, bytes_eq, IfOk, OnOk, OnErr};
ghost use Rattle.std.specs.List.{list_any};
ghost use Rattle.uc_clause.specs.Meaning.{with_name};

use indexmap::IndexSet;
use std::alloc::{AllocError, Global};
use std::marker::Model;

/// The names of the lines read so far, each once, in order: a line's number is its name's place.
#[derive(Drop)]
pub(crate) struct Names {
    names: IndexSet<Vec<u8>>,
}

impl Model for Names {
    ghost use Rattle.std.specs.Prelude.{List, ℕ, map, length, ◌<◌, ◌^◌};

    ghost Value = { List (List ℕ) };

    ghost view = { λ s. map (λ name. name.items) s.names.keys };

    ghost invariant = { λ s. length s.names.keys < 2 ^ 31 };
}

impl Names {
    /// No names. It takes no memory.
    pub(crate) fn new(alloc: Global) -> Self
        ensures { result ≡ [] }
    {
        Names {
            names: IndexSet::new(alloc),
        }
    }

    /// Puts a name behind the others, where it isn't among them. Room for 2^31 - 1 names is enough for every proof that is
    /// read; past it the answer is that of want of memory, which leaves the names as they were.
    pub(crate) fn insert(&mut self, alloc: Global, name: &[u8]) -> Result<(), AllocError>
        ensures ok { IfOk result (λ _. self.new ≡ with_name self.old name.now) }
        ensures small { IfOk result (λ _. length self.new < 2 ^ 31) }
        ensures err { OnErr result (self.new ≡ self.old) }
    {
        check_names(self.names.len())?;
        let name = Vec::from_slice(alloc, name)?;
        self.names.insert(name)?;
        Ok(())
    }

    /// Whether this is one of the names.
    pub(crate) fn contains(&self, name: &[u8]) -> bool
        ensures { result ≡ list_any (bytes_eq name.now) self.now }
    {
        self.names.contains(name)
    }

    /// The number of the line of this name, if there is one.
    pub(crate) fn number(&self, name: &[u8]) -> Option<u32>
        ensures { result ≡ position (bytes_eq name.now) self.now }
    {
        match self.names.get_index_of(name) {
            Some(index) => Some(index as u32),
            None => None,
        }
    }

    /// How many names there are.
    pub(crate) fn len(&self) -> usize
        ensures count { result ≡ length self.now }
        ensures small { result < 2 ^ 31 }
    {
        self.names.len()
    }
}

/// The most names.
const MOST: usize = i32::MAX as usize;

/// Refuses a name more exactly where there are the most.
fn check_names(count: usize) -> Result<(), AllocError>
    ensures few { OnOk result (count < 2 ^ 31 - 1) }
    ensures refused { OnErr result (2 ^ 31 - 1 ≤ count) }
{
    if count >= MOST {
        return Err(AllocError);
    }
    Ok(())
}
