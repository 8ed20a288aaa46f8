//! Whether two terms are equal up to brackets and order at some symbols.

ghost use Rattle.std.specs.Prelude.{List, ◌↔◌, IsTrue, IfOk};
ghost use Rattle.uc_term.specs.declared.node.Sym.{Sym as AnySym};
ghost use Rattle.uc_ac.specs.AcEqual.{AcEqual};

use crate::classes::Classes;
use crate::numbering::number_of;
use std::alloc::{AllocError, Global};
use uc_term::{Sym, Term, same_nodes};

/// Whether two terms are equal up to brackets and order at these binary symbols: whether they are of one class, where the class of
/// a term is that of its arguments' classes, or of the sorted list of its parts' classes.
///
/// With n nodes this takes n log n steps, and for each node with two arguments a look at each of the symbols. It makes no
/// recursion, however deep the terms are.
pub fn ac_equal(alloc: Global, symbols: &[Sym], s: &Term, t: &Term) -> Result<bool, AllocError>
    ensures { IfOk result (λ same. IsTrue same ↔ AcEqual symbols.now s.now t.now) }
{
    if s.same(t) {
        return Ok(true);
    }
    if sizes_or_heads_differ(s, t) {
        return Ok(false);
    }
    let mut classes = Classes::new(alloc);
    let left = number_of(alloc, &mut classes, symbols, s.as_nodes())?;
    let right = number_of(alloc, &mut classes, symbols, t.as_nodes())?;
    Ok(left == right)
}

/// Whether two terms differ in their number of nodes or in their first nodes, so that they aren't equal up to brackets and order
/// at any symbols. A quick test to ask before [`ac_equal`]: `false` says nothing of the rest.
pub fn sizes_or_heads_differ(s: &Term, t: &Term) -> bool
    ensures { IsTrue result → (symbols : List AnySym) → AcEqual symbols s.now t.now → ⊥ }
{
    if s.nodes() != t.nodes() {
        return true;
    }
    let (first, other) = (s.as_nodes()[0], t.as_nodes()[0]);
    !same_nodes(&[first], &[other])
}
