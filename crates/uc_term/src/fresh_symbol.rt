//! Symbols whose names no symbol of a list has.

ghost use Rattle.std.specs.Prelude.{◌≡◌, ℕ, ◌<◌, List, IfOk, OnErr, IsTrue, ◌↔◌};
ghost use Rattle.uc_term.specs.declared.node.Sym.{Sym as AnySym};
ghost use Rattle.uc_term.specs.Table.{Table, Grows, AddsAtMost};
ghost use Rattle.uc_term.specs.Signatures.{tried_name, IsFree, IsFreshFor};
ghost use Rattle.uc_term.specs.Gathering.{HasAll, AreNamesOf};

use crate::names::Names;
use crate::{Sym, Symbols};
use itoa::Buffer;
use std::alloc::{AllocError, Global};

/// A symbol of this arity with the first name among the word, the word with `_1`, the word with `_2` and so on that none
/// of the taken symbols has. Where the table lacks it, it is added. Of one more name than there are taken symbols some is
/// free.
pub fn add_fresh(
    alloc: Global,
    symbols: &mut Symbols,
    taken: &[Sym],
    word: &[u8],
    arity: u32,
) -> Result<Sym, AllocError>
    requires { HasAll symbols.old taken.now }
    ensures fresh { IfOk result (IsFreshFor symbols.new word.now arity taken.now) }
    ensures only { IfOk result (AddsAtMost symbols.old symbols.new) }
    ensures grows { Grows symbols.old symbols.new }
    ensures err { OnErr result (symbols.new ≡ symbols.old) }
{
    let names = taken_names(alloc, symbols, taken)?;
    let most = taken.len() + 1;
    for number in 0..most {
        let name = name_tried(alloc, word, number)?;
        if is_free(&names, name.as_slice()) {
            return symbols.intern(alloc, name.as_slice(), arity);
        }
    }
    unreachable!()
}

/// The name of this number that is tried.
fn name_tried(alloc: Global, word: &[u8], number: usize) -> Result<Vec<u8>, AllocError>
    ensures { IfOk result (λ name. name.items ≡ tried_name word.now number) }
{
    let mut name = Vec::from_slice(alloc, word)?;
    if number > 0 {
        let mut buffer = Buffer::new();
        name.extend_from_slice(b"_")?;
        name.extend_from_slice(buffer.format(number).as_bytes())?;
    }
    Ok(name)
}

/// The names of the symbols.
fn taken_names(alloc: Global, symbols: &Symbols, taken: &[Sym]) -> Result<Names, AllocError>
    requires { HasAll symbols.now taken.now }
    ensures { IfOk result (AreNamesOf symbols.now taken.now) }
{
    let mut names = Names::new(alloc);
    for f in taken {
        names.insert(alloc, symbols.name(*f))?;
    }
    Ok(names)
}

/// Whether none of the symbols whose names these are has this name.
fn is_free(names: &Names, name: &[u8]) -> bool
    ensures { (table : Table) (fs : List AnySym) → AreNamesOf table fs names.now → (IsTrue result ↔ IsFree table fs name.now) }
{
    names.place_of(name).is_none()
}
