//! The variables that quantifiers bind.

ghost use Rattle.std.specs.Prelude.{◌≡◌, [], bytes_eq, IfOk, OnErr};
ghost use Rattle.std.specs.List.{list_any};
ghost use Rattle.uc_clause.specs.Meaning.{with_name};

use indexmap::IndexSet;
use std::alloc::{AllocError, Global};
use std::marker::Model;

/// The names of the variables that the quantifiers of a formula bind, each once.
#[derive(Drop)]
pub(crate) struct Bound {
    names: IndexSet<Vec<u8>>,
}

impl Model for Bound {
    ghost use Rattle.std.specs.Prelude.{List, ℕ, map};

    ghost Value = { List (List ℕ) };

    ghost view = { λ s. map (λ name. name.items) s.names.keys };
}

impl Bound {
    /// No names. It takes no memory.
    pub(crate) fn new(alloc: Global) -> Self
        ensures { result ≡ [] }
    {
        Bound {
            names: IndexSet::new(alloc),
        }
    }

    /// Binds a variable by its name, which may be bound already.
    pub(crate) fn bind(&mut self, alloc: Global, name: &[u8]) -> Result<(), AllocError>
        ensures ok { IfOk result (λ _. self.new ≡ with_name self.old name.now) }
        ensures err { OnErr result (self.new ≡ self.old) }
    {
        let name = Vec::from_slice(alloc, name)?;
        self.names.insert(name)?;
        Ok(())
    }

    /// Whether a variable is bound.
    pub(crate) fn contains(&self, name: &[u8]) -> bool
        ensures { result ≡ list_any (bytes_eq name.now) self.now }
    {
        self.names.contains(name)
    }
}
