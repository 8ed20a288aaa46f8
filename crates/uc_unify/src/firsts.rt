//! Where each variable first stands in a list of nodes.

ghost use Rattle.std.specs.Prelude.{◌≡◌, ℕ, ◌+◌, ◌<◌, ◌≤◌, length, slice_get, Some, OnOk, IsTrue, ◌↔◌};
ghost use Rattle.uc_term.specs.declared.node.Node.TheVariants.{Var};
ghost use Rattle.uc_unify.specs.Closure.{IsFirstPlace, AreFirst, AreNoted};

use crate::closure::MAX_BOTH;
use std::alloc::AllocError;
use uc_term::Node;

/// Of the variables below this number the first place is noted; the others are looked for.
const MOST_NOTED: usize = 2 * MAX_BOTH;

/// Fills a lent list with each place, but for those of a variable the first one.
pub fn first_places(
    nodes: &[Node],
    noted: &mut Vec<usize>,
    firsts: &mut Vec<usize>,
) -> Result<(), AllocError>
    requires small { length nodes.now ≤ MAX_BOTH }
    ensures { OnOk result (AreFirst nodes.now firsts.new.items) }
{
    noted.clear();
    noted.resize(noted_variables(nodes), nodes.len())?;
    firsts.clear();
    firsts.reserve(nodes.len())?;
    for place in 0..nodes.len() {
        let first = first_place(nodes, noted, place);
        firsts.push(first)?;
    }
    Ok(())
}

/// How many variables are noted.
fn noted_variables(nodes: &[Node]) -> usize {
    let mut most = 0;
    for node in nodes {
        if let Node::Var(x) = *node {
            most = most.max(x as usize + 1);
        }
    }
    most.min(MOST_NOTED)
}

/// The first place of the variable at a place, noted if it is this one; the place itself where a symbol stands.
#[inline]
fn first_place(nodes: &[Node], noted: &mut Vec<usize>, place: usize) -> usize
    requires within { place < length nodes.now }
    requires noted { AreNoted nodes.now place noted.old.items }
    ensures first { IsFirstPlace nodes.now place result }
    ensures noted { AreNoted nodes.now (place + 1) noted.new.items }
{
    match nodes[place] {
        Node::Var(x) => first_place_of(nodes, noted, place, x),
        Node::App(_, _) => place,
    }
}

/// The first place of the variable that stands at a place.
#[inline]
fn first_place_of(nodes: &[Node], noted: &mut Vec<usize>, place: usize, x: u32) -> usize
    requires variable { slice_get nodes.now place ≡ Some (Var x) }
    requires noted { AreNoted nodes.now place noted.old.items }
    ensures first { IsFirstPlace nodes.now place result }
    ensures noted { AreNoted nodes.now (place + 1) noted.new.items }
{
    let variable = x as usize;
    if variable >= noted.len() {
        return search(nodes, place, x);
    }
    let first = noted[variable];
    if first < place {
        return first;
    }
    noted[variable] = place;
    place
}

/// The first place of the variable that stands at a place, looked for among the nodes.
fn search(nodes: &[Node], place: usize, x: u32) -> usize
    requires variable { slice_get nodes.now place ≡ Some (Var x) }
    ensures { IsFirstPlace nodes.now place result }
{
    for p in 0..place {
        if is_var(nodes[p], x) {
            return p;
        }
    }
    place
}

/// Whether the node is this variable.
#[inline]
pub fn is_var(node: Node, x: u32) -> bool
    ensures { IsTrue result ↔ (node ≡ Node.Var x) }
{
    match node {
        Node::Var(y) => y == x,
        Node::App(_, _) => false,
    }
}
