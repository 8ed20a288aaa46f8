//! Sets of names of clauses.

ghost use Rattle.std.specs.Prelude.{◌≡◌, [], IfOk, false, ◌||◌};
ghost use Rattle.uc_clause.specs.declared.clause.Name.{Name};
ghost use Rattle.uc_problem.specs.Loading.{same_name};
ghost use Rattle.uc_problem.specs.NameSets.{has_name};

use indexmap::IndexSet;
use std::alloc::{AllocError, Global};
use uc_clause::Name;

/// A set of names, looked up by hash: a file of 16 MB may list millions of names. Words and integers are kept apart, since
/// they differ though their bytes may be the same.
#[derive(Drop)]
pub(crate) struct Names {
    words: IndexSet<Vec<u8>>,
    integers: IndexSet<Vec<u8>>,
}

impl Names {
    /// No names. It takes no memory.
    pub(crate) fn new(alloc: Global) -> Self
        ensures { (name : Name) → has_name result.words.keys result.integers.keys name ≡ false }
    {
        Names {
            words: IndexSet::new(alloc),
            integers: IndexSet::new(alloc),
        }
    }

    /// Puts a name to the others.
    pub(crate) fn insert(&mut self, alloc: Global, name: &Name) -> Result<(), AllocError>
        ensures { IfOk result (λ _. (n : Name) → has_name self.new.words.keys self.new.integers.keys n ≡ (has_name self.old.words.keys self.old.integers.keys n || same_name name.now n)) }
    {
        let text = Vec::from_slice(alloc, name.text.as_bytes())?;
        if name.integer {
            self.integers.insert(text)?;
        } else {
            self.words.insert(text)?;
        }
        Ok(())
    }

    /// Whether this name is among them.
    pub(crate) fn contains(&self, name: &Name) -> bool
        ensures { result ≡ has_name self.now.words.keys self.now.integers.keys name.now }
    {
        if name.integer {
            self.integers.contains(name.text.as_bytes())
        } else {
            self.words.contains(name.text.as_bytes())
        }
    }
}
