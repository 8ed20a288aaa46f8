//! Spells a side as the labels on the way to its leaf.

ghost use Rattle.std.specs.Prelude.{◌≡◌, ◌↔◌, ◌≤◌, ◌+◌, length, IsTrue, IfOk};
ghost use Rattle.uc_disc.specs.Spelling.{first_place as first_place_of, label_of as label_in, spelling as labels_in};

use crate::place::Label;
use std::alloc::{AllocError, Global};
use uc_term::{MAX_NODES, Node};

/// Finds the place of the first occurrence of a variable.
fn first_place(nodes: &[Node], x: u32) -> usize
    ensures value { result ≡ first_place_of nodes.now x }
    ensures small { result ≤ length nodes.now }
{
    let mut place = 0;
    while place < nodes.len() {
        if is_variable(nodes[place], x) {
            return place;
        }
        place += 1;
    }
    place
}

/// Whether a node is this variable.
#[inline]
fn is_variable(node: Node, x: u32) -> bool
    ensures { IsTrue result ↔ (node ≡ Node.Var x) }
{
    match node {
        Node::Var(y) => x == y,
        Node::App(_, _) => false,
    }
}

/// Returns a node's label.
fn label_of(nodes: &[Node], node: Node) -> Label
    requires small { length nodes.now ≤ MAX_NODES }
    ensures { result ≡ label_in nodes.now node }
{
    match node {
        Node::Var(x) => Label::Variable(first_place(nodes, x) as u32),
        Node::App(f, n) => Label::Head(f.0, n),
    }
}

/// Spells nodes as their labels.
pub fn spelling(alloc: Global, nodes: &[Node]) -> Result<Vec<Label>, AllocError>
    requires small { length nodes.now ≤ MAX_NODES }
    ensures { IfOk result (λ labels. labels.items ≡ labels_in nodes.now) }
{
    let mut labels = Vec::new(alloc);
    for node in nodes {
        labels.push(label_of(nodes, *node))?;
    }
    Ok(labels)
}
