//! The classes of places that must have one instance.

ghost use Rattle.std.specs.Prelude.{◌≡◌, ℕ, ◌+◌, ◌<◌, ◌≤◌, ◌++◌, ◌∷◌, [], length, List, IfOk, OnOk};
ghost use Rattle.uc_term.specs.Flat.{AreWhole};
ghost use Rattle.uc_unify.specs.Closure.{AreClasses, AreEnds, AllBelow, AreJoined, HasArguments, pairs_from, left_of};
ghost use Rattle.uc_unify.specs.Forest.{IsForest, HasForest, IsUnited};

use crate::firsts::first_places;
use crate::forest::{find, link, settle};
use crate::matching::is_head;
use std::alloc::AllocError;
use uc_term::Node;

/// The most nodes that two terms have.
pub const MAX_BOTH: usize = 8192;

/// Fills the lent heads with the classes of the places where the terms at place 0 and at the second place are to be equal.
/// False where two places of one class have different symbols, so that no substitution makes them equal.
pub fn closure(
    nodes: &[Node],
    ends: &[usize],
    second: usize,
    noted: &mut Vec<usize>,
    parents: &mut Vec<usize>,
    heads: &mut Vec<usize>,
    pairs: &mut Vec<(usize, usize)>,
) -> Result<bool, AllocError>
    requires whole { AreWhole nodes.now }
    requires ends { AreEnds nodes.now ends.now }
    requires within { second < length nodes.now }
    requires small { length nodes.now ≤ MAX_BOTH }
    ensures { IfOk result (AreJoined nodes.now second heads.new.items) }
{
    first_places(nodes, noted, parents)?;
    heads.clear();
    heads.extend_from_slice(parents.as_slice())?;
    pairs.clear();
    // Where two symbols meet, the head of the pair's second place stands for the class, and of a symbol and a variable the
    // symbol's. So symbols of the first term stand for both here, and the values of its variables mostly lie behind it: places are
    // sized from the last to the first, so that one pass is mostly enough.
    pairs.push((second, 0))?;
    while let Some((p, q)) = pairs.pop() {
        if !unite(nodes, ends, parents, heads, pairs, p, q)? {
            return Ok(false);
        }
    }
    settle(parents.as_slice(), heads);
    Ok(true)
}

/// Brings two places into one class; false where two different symbols meet so.
fn unite(
    nodes: &[Node],
    ends: &[usize],
    parents: &mut Vec<usize>,
    heads: &mut Vec<usize>,
    pairs: &mut Vec<(usize, usize)>,
    p: usize,
    q: usize,
) -> Result<bool, AllocError>
    requires whole { AreWhole nodes.now }
    requires ends { AreEnds nodes.now ends.now }
    requires small { length nodes.now ≤ MAX_BOTH }
    requires forest { HasForest nodes.now parents.old.items heads.old.items }
    requires pairs { AllBelow (length nodes.now) pairs.old.items }
    requires p { p < length nodes.now }
    requires q { q < length nodes.now }
    ensures united { (classes : List ℕ) → AreClasses nodes.now classes → IsForest parents.old.items heads.old.items classes → IfOk result (IsUnited nodes.now classes (pairs.old.items ++ (p, q) ∷ []) parents.new.items heads.new.items pairs.new.items) }
    ensures less { OnOk result (left_of parents.new.items pairs.new.items < left_of parents.old.items (pairs.old.items ++ (p, q) ∷ [])) }
{
    let a = find(parents, p);
    let b = find(parents, q);
    if a == b {
        return Ok(true);
    }
    let s = heads[a];
    let t = heads[b];
    match (nodes[s], nodes[t]) {
        (Node::Var(_), _) => link(parents, heads, a, b, t),
        (_, Node::Var(_)) => link(parents, heads, a, b, s),
        (Node::App(f, n), other) => {
            if !is_head(other, f, n) {
                return Ok(false);
            }
            link(parents, heads, a, b, t);
            push_arguments(nodes, ends, pairs, s, t, n)?;
        }
    }
    Ok(true)
}

/// The pairs of the arguments of two terms with one symbol.
fn push_arguments(
    nodes: &[Node],
    ends: &[usize],
    pairs: &mut Vec<(usize, usize)>,
    a: usize,
    b: usize,
    count: u32,
) -> Result<(), AllocError>
    requires whole { AreWhole nodes.now }
    requires ends { AreEnds nodes.now ends.now }
    requires small { length nodes.now ≤ MAX_BOTH }
    requires left { HasArguments nodes.now a count }
    requires right { HasArguments nodes.now b count }
    ensures { OnOk result (pairs.new.items ≡ pairs.old.items ++ pairs_from nodes.now (a + 1) (b + 1) count) }
{
    let mut p = a + 1;
    let mut q = b + 1;
    for _ in 0..count {
        pairs.push((p, q))?;
        p = ends[p];
        q = ends[q];
    }
    Ok(())
}
