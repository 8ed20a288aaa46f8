//! Variables renumbered by their places in a list of names.

ghost use Rattle.std.specs.Prelude.{◌≡◌, ◌+◌, ◌<◌, ◌≤◌, ◌⊎◌, ◌++◌, ◌∷◌, [], ℕ, List, length, slice_get, Some, IfOk, OnOk};
ghost use Rattle.uc_term.specs.Tree.{nodes};
ghost use Rattle.uc_term.specs.Flat.{tree_of, IsWhole};
ghost use Rattle.uc_term.specs.Variables.{variables, firsts_after};
ghost use Rattle.uc_pair.specs.Numbering.{placed_by, IsNumberedNode, IsNameAt};

use crate::term_ref::TermRef;
use std::alloc::{AllocError, Global};
use uc_term::{MAX_NODES, Node, Term};

/// The term with each variable replaced by its place among the names, behind an offset. Its new variables go behind the
/// names, by first occurrence.
pub(crate) fn number(
    alloc: Global,
    term: &Term,
    names: &mut Vec<u32>,
    offset: u32,
) -> Result<Term, AllocError>
    requires few { length names.old.items ≤ 8192 }
    requires low { offset ≤ 8192 }
    ensures names { IfOk result (λ _. names.new.items ≡ names.old.items ++ firsts_after names.old.items (variables term.now)) }
    ensures length { IfOk result (λ _. length names.new.items ≤ length names.old.items + 4096) }
    // more names behind change nothing
    ensures numbered { IfOk result (λ t. (rest : List ℕ) → t ≡ placed_by (names.new.items ++ rest) offset term.now) }
{
    let mut list = Vec::new(alloc);
    fill_numbered(&mut list, term, names, offset)?;
    Ok(Term::from_nodes(list))
}

/// The same in a list that is lent.
pub(crate) fn number_in<'a>(
    list: &'a mut Vec<Node>,
    term: &Term,
    names: &mut Vec<u32>,
    offset: u32,
) -> Result<TermRef<'a>, AllocError>
    requires few { length names.old.items ≤ 8192 }
    requires low { offset ≤ 8192 }
    ensures names { IfOk result (λ _. names.new.items ≡ names.old.items ++ firsts_after names.old.items (variables term.now)) }
    ensures length { IfOk result (λ _. length names.new.items ≤ length names.old.items + 4096) }
    ensures numbered { IfOk result (λ t. (rest : List ℕ) → t ≡ placed_by (names.new.items ++ rest) offset term.now) }
{
    fill_numbered(list, term, names, offset)?;
    Ok(TermRef::from_nodes(list.as_slice()))
}

/// Fills a list with the nodes of this term.
fn fill_numbered(
    list: &mut Vec<Node>,
    term: &Term,
    names: &mut Vec<u32>,
    offset: u32,
) -> Result<(), AllocError>
    requires few { length names.old.items ≤ 8192 }
    requires low { offset ≤ 8192 }
    ensures names { OnOk result (names.new.items ≡ names.old.items ++ firsts_after names.old.items (variables term.now)) }
    ensures length { OnOk result (length names.new.items ≤ length names.old.items + 4096) }
    ensures whole { OnOk result (IsWhole list.new.items) }
    ensures small { OnOk result (length list.new.items ≤ MAX_NODES) }
    ensures numbered { OnOk result ((rest : List ℕ) → tree_of list.new.items ≡ placed_by (names.new.items ++ rest) offset term.now) }
{
    let nodes = term.as_nodes();
    list.clear();
    list.reserve(nodes.len())?;
    for node in nodes {
        list.push(number_node(*node, names, offset)?)?;
    }
    Ok(())
}

/// The node with its variable renumbered so.
fn number_node(node: Node, names: &mut Vec<u32>, offset: u32) -> Result<Node, AllocError>
    requires few { length names.old.items ≤ 16384 }
    requires low { offset ≤ 8192 }
    ensures { IfOk result (IsNumberedNode offset node names.old.items names.new.items) }
{
    match node {
        Node::Var(x) => Ok(Node::Var(name_place(names, x)? + offset)),
        Node::App(f, n) => Ok(Node::App(f, n)),
    }
}

/// The place of a name, which goes behind the others where it is new.
fn name_place(names: &mut Vec<u32>, x: u32) -> Result<u32, AllocError>
    requires few { length names.old.items ≤ 16384 }
    ensures { IfOk result (IsNameAt x names.old.items names.new.items) }
{
    for place in 0..names.len() {
        if names[place] == x {
            return Ok(place as u32);
        }
    }
    let place = names.len() as u32;
    names.push(x)?;
    Ok(place)
}
