//! The terms that closed classes stand for, written out.

ghost use Rattle.std.specs.Prelude.{◌≡◌, ℕ, ◌+◌, ◌<◌, ◌≤◌, length, drop, OnOk};
ghost use Rattle.uc_term.specs.Tree.{Tree, count};
ghost use Rattle.uc_term.specs.Flat.{flat, trees_of, AreWhole};
ghost use Rattle.uc_unify.specs.Closure.{AreClasses, AreEnds};
ghost use Rattle.uc_unify.specs.Solutions.{IsOpened, IsWritten, IsWritable, Solves};

use crate::closure::MAX_BOTH;
use std::alloc::AllocError;
use uc_term::Node;

/// Fills a lent list with the nodes of a place's term. Which places are still to be written is noted in another one.
pub fn write_term(
    nodes: &[Node],
    ends: &[usize],
    classes: &[usize],
    list: &mut Vec<Node>,
    pending: &mut Vec<(usize, u32)>,
    start: usize,
) -> Result<(), AllocError>
    requires whole { AreWhole nodes.now }
    requires ends { AreEnds nodes.now ends.now }
    requires few { length nodes.now ≤ MAX_BOTH }
    requires classes { AreClasses nodes.now classes.now }
    requires within { start < length nodes.now }
    requires writable { IsWritable nodes.now classes.now start }
    ensures { OnOk result ((t : Tree) → Solves nodes.now classes.now start t → list.new.items ≡ flat t) }
{
    list.clear();
    // places with the number of terms that are to be written from each on, the next one last
    pending.clear();
    pending.push((start, 1))?;
    while let Some((place, terms)) = pending.pop() {
        write_node(nodes, ends, classes, list, pending, place, terms)?;
    }
    Ok(())
}

/// Writes the first node of the first of so many terms from a place on, and leaves the others and its arguments open.
fn write_node(
    nodes: &[Node],
    ends: &[usize],
    classes: &[usize],
    list: &mut Vec<Node>,
    pending: &mut Vec<(usize, u32)>,
    place: usize,
    terms: u32,
) -> Result<(), AllocError>
    requires whole { AreWhole nodes.now }
    requires ends { AreEnds nodes.now ends.now }
    requires few { length nodes.now ≤ MAX_BOTH }
    requires classes { AreClasses nodes.now classes.now }
    requires fits { terms ≤ count (trees_of (drop place nodes.now)) }
    requires some { 0 < terms }
    ensures { OnOk result (IsWritten nodes.now classes.now place terms list.old.items pending.old.items list.new.items pending.new.items) }
{
    push_terms(pending, ends[place], terms - 1)?;
    let class = classes[place];
    list.push(nodes[class])?;
    match nodes[class] {
        Node::Var(_) => Ok(()),
        Node::App(_, arity) => push_terms(pending, class + 1, arity),
    }
}

/// So many terms from a place on are open too.
fn push_terms(pending: &mut Vec<(usize, u32)>, place: usize, terms: u32) -> Result<(), AllocError>
    ensures { OnOk result (IsOpened place terms pending.old.items pending.new.items) }
{
    if terms > 0 {
        pending.push((place, terms))?;
    }
    Ok(())
}
