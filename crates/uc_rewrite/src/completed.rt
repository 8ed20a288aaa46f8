//! Instances in which the variables that have no term are the least constant.

ghost use Rattle.std.specs.Prelude.{◌≡◌, ◌≤◌, length, IfOk, OnOk};
ghost use Rattle.uc_term.specs.Tree.{apply};
ghost use Rattle.uc_term.specs.Flat.{flat, tree_of, IsWhole};
ghost use Rattle.uc_rewrite.specs.Completed.{completed};

use std::alloc::{AllocError, Global};
use uc_term::{MAX_INSTANCE, MAX_NODES, Node, Subst, Sym};

/// How many nodes beside the pattern's own there is room for from the start.
const ROOM: usize = 24;

/// The nodes of the pattern's instance, whatever its size, in which variables without a pair are the least constant.
pub fn completed_instance(
    alloc: Global,
    pattern: &[Node],
    subst: &Subst,
    least: Sym,
) -> Result<Vec<Node>, AllocError>
    requires whole { IsWhole pattern.now }
    requires small { length pattern.now ≤ MAX_NODES }
    ensures nodes { IfOk result (λ list. list.items ≡ flat (apply (completed least subst.now) (tree_of pattern.now))) }
    ensures small { IfOk result (λ list. length list.items ≤ MAX_INSTANCE) }
{
    let mut list = Vec::new(alloc);
    fill_completed(&mut list, pattern, subst, least)?;
    Ok(list)
}

/// Fills a lent list, whatever it was, with the nodes that `completed_instance` gives.
pub fn fill_completed(
    list: &mut Vec<Node>,
    pattern: &[Node],
    subst: &Subst,
    least: Sym,
) -> Result<(), AllocError>
    requires whole { IsWhole pattern.now }
    requires small { length pattern.now ≤ MAX_NODES }
    ensures nodes { OnOk result (list.new.items ≡ flat (apply (completed least subst.now) (tree_of pattern.now))) }
    ensures small { OnOk result (length list.new.items ≤ MAX_INSTANCE) }
{
    list.clear();
    list.reserve(pattern.len() + ROOM)?;
    for node in pattern {
        match *node {
            Node::Var(x) => match subst.get(x) {
                Some(nodes) => list.extend_from_slice(nodes)?,
                None => list.push(Node::App(least, 0))?,
            },
            Node::App(_, _) => list.push(*node)?,
        }
    }
    Ok(())
}
