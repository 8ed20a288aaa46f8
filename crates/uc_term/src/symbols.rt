//! The table of symbols.

ghost use Rattle.std.specs.Prelude.{◌≡◌, ◌<◌, ◌≤◌, ◌-◌, ◌^◌, ℕ, [], ◌∷◌, ◌++◌, length, IfOk, OnOk, OnErr, MatchOption};
ghost use Rattle.uc_term.specs.declared.node.Sym.{Sym};
ghost use Rattle.uc_term.specs.Table.{IsSymbol, IsDistinct, IsInterned, Has, name_of, arity_of};

use crate::Sym;
use crate::names::Names;
use indexmap::IndexSet;
use std::alloc::{AllocError, Global};
use std::marker::Model;

/// The place of a symbol's name among the names, with its arity.
#[derive(Clone, Copy, PartialEq, Eq, Hash)]
struct Key {
    place: usize,
    arity: u32,
}

/// A table that numbers names with arities in the order in which they came. A name with two arities is two symbols.
///
/// Names and keys are hashed, so that no look-up goes over the table, and each name is kept once.
#[derive(Drop)]
pub struct Symbols {
    names: Names,
    keys: IndexSet<Key>,
}

impl Model for Symbols {
    ghost use Rattle.uc_term.specs.Table.{Table, table_code};

    ghost Value = { Table };

    ghost coded = { table_code };

    ghost use Rattle.uc_term.specs.Keys.{table_of, AreNamed};

    ghost view = { λ s. table_of s.names s.keys.keys };

    ghost use Rattle.std.specs.Prelude.{◌<◌, ◌^◌, length};
    ghost use Rattle.uc_term.specs.Table.{IsDistinct};

    ghost invariant = { λ s. IsDistinct (table_of s.names s.keys.keys) × AreNamed s.names s.keys.keys × (length s.keys.keys < 2 ^ 32) };
}

impl Symbols {
    /// The empty table. It takes no memory.
    pub fn new(alloc: Global) -> Self
        ensures { result ≡ [] }
    {
        Symbols {
            names: Names::new(alloc),
            keys: IndexSet::new(alloc),
        }
    }

    /// How many symbols there are.
    pub fn len(&self) -> usize
        ensures count { result ≡ length self.now }
        ensures small { result < 2 ^ 32 }
        ensures distinct { IsDistinct self.now }
    {
        self.keys.len()
    }

    /// The symbol of a name and an arity, which may be new. A table of 4,294,967,295 symbols is full: it takes no other one,
    /// and answers as where an allocation fails; then it stays as it was.
    pub fn intern(&mut self, alloc: Global, name: &[u8], arity: u32) -> Result<Sym, AllocError>
        ensures interned { IfOk result (IsInterned self.old self.new name.now arity) }
        ensures err { OnErr result (self.new ≡ self.old) }
    {
        check_room(self.keys.len())?;
        let place = self.names.insert(alloc, name)?;
        let (index, _) = self.keys.insert_full(Key { place, arity })?;
        Ok(Sym(index as u32))
    }

    /// The symbol of a name and an arity, if there is one. It takes no memory.
    pub fn find(&self, name: &[u8], arity: u32) -> Option<Sym>
        ensures { MatchOption result ((f : Sym) → IsSymbol self.now f name.now arity → ⊥) (λ f. IsSymbol self.now f name.now arity) }
    {
        let place = self.names.place_of(name)?;
        let index = self.keys.get_index_of(&Key { place, arity })?;
        Some(Sym(index as u32))
    }

    /// The name of a symbol.
    pub fn name(&self, sym: Sym) -> &[u8]
        requires { Has self.now sym }
        ensures { result.now ≡ name_of self.now sym }
    {
        let key = self.keys.get_index(sym.0 as usize).unwrap();
        self.names.at(key.place)
    }

    /// The arity of a symbol.
    pub fn arity(&self, sym: Sym) -> u32
        requires { Has self.now sym }
        ensures { result ≡ arity_of self.now sym }
    {
        self.keys.get_index(sym.0 as usize).unwrap().arity
    }
}

/// The most symbols that a table has.
const MOST: usize = u32::MAX as usize;

/// Refuses exactly a symbol more than a table may have.
fn check_room(count: usize) -> Result<(), AllocError>
    ensures room { OnOk result (count < 2 ^ 32 - 1) }
    ensures refused { OnErr result (2 ^ 32 - 1 ≤ count) }
{
    if count >= MOST {
        return Err(AllocError);
    }
    Ok(())
}
