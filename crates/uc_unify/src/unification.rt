//! Unification: a most general substitution that makes two terms equal.
//!
//! Mostly the walk of `walking` finds it. Else the places of the two flat lists that must have one instance are brought into one
//! class; the arguments of joined terms follow. Then the classes are sized from the leaves on; where that stops, a class holds a
//! term of itself. No term is built before its size is known, so nothing grows exponentially. Where each term ends and each
//! variable first stands is found in one pass, and a place's class by union and find. (Huet's unification closure; Baader and
//! Snyder, Unification Theory, section 2.3.)

ghost use Rattle.std.specs.Prelude.{◌≡◌, ℕ, ◌+◌, ◌<◌, ◌≤◌, ◌++◌, length, slice_get, slice_index, Some, IfOk, OnOk};
ghost use Rattle.uc_term.specs.declared.node.Node.TheVariants.{Var};
ghost use Rattle.uc_term.specs.Tree.{Tree, nodes};
ghost use Rattle.uc_term.specs.Subst.{image};
ghost use Rattle.uc_term.specs.Flat.{IsWhole, AreWhole, tree_of};
ghost use Rattle.uc_unify.specs.Unifiers.{IsMostGeneral, IsUnified, IsUnifiedIn};
ghost use Rattle.uc_unify.specs.Closure.{at, next, class, AreClasses, AreEnds, IsClosed};
ghost use Rattle.uc_unify.specs.Solutions.{IsWritable, IsSolution, AddsSolution};

use crate::closure::{MAX_BOTH, closure};
use crate::ends::ends_of;
use crate::firsts::is_var;
use crate::sizes::sizes_of;
use crate::solution::write_term;
use crate::walking::{Walked, walk};
use crate::workspace::Workspace;
use std::alloc::{AllocError, Global};
use uc_term::{MAX_NODES, Node, Subst, instance_size};

/// What two terms come to.
#[derive(Drop)]
pub enum Unified {
    /// A most general unifier.
    Unifier(Subst),
    /// There is no unifier.
    Apart,
    /// There is one, and the common instance has more than 4,096 nodes.
    TooLarge,
}

/// What two terms come to whose unifier is lent.
#[derive(Clone, Copy)]
pub enum UnifiedIn {
    /// What was lent is a most general unifier.
    Unifier,
    /// There is no unifier.
    Apart,
    /// There is one, and the common instance has more than 4,096 nodes.
    TooLarge,
}

/// A most general unifier of two terms: it makes them equal, and every unifier is itself after it. `Apart` comes exactly
/// where there is no unifier, and `TooLarge` exactly where there is one and the common instance has more than 4,096 nodes.
pub fn unify(alloc: Global, s: &[Node], t: &[Node]) -> Result<Unified, AllocError>
    requires whole_s { IsWhole s.now }
    requires whole_t { IsWhole t.now }
    requires small_s { length s.now ≤ MAX_NODES }
    requires small_t { length t.now ≤ MAX_NODES }
    ensures { IfOk result (IsUnified (tree_of s.now) (tree_of t.now)) }
{
    let mut space = Workspace::new(alloc);
    let mut subst = Subst::new(alloc);
    match unify_in(&mut space, &mut subst, s, t)? {
        UnifiedIn::Unifier => Ok(Unified::Unifier(subst)),
        UnifiedIn::Apart => Ok(Unified::Apart),
        UnifiedIn::TooLarge => Ok(Unified::TooLarge),
    }
}

/// The same as `unify` in lent memory, whatever stood in it: the substitution is the unifier then, and else of no further use.
/// New memory is taken only where what is lent is too small.
pub fn unify_in(
    space: &mut Workspace,
    subst: &mut Subst,
    s: &[Node],
    t: &[Node],
) -> Result<UnifiedIn, AllocError>
    requires whole_s { IsWhole s.now }
    requires whole_t { IsWhole t.now }
    requires small_s { length s.now ≤ MAX_NODES }
    requires small_t { length t.now ≤ MAX_NODES }
    ensures { IfOk result (IsUnifiedIn (tree_of s.now) (tree_of t.now) subst.new) }
{
    match walk(s, t, subst)? {
        Walked::Apart => Ok(UnifiedIn::Apart),
        Walked::Reduced => {
            if subst.is_idempotent() {
                Ok(judged(s, subst))
            } else {
                unify_by_classes(space, subst, s, t)
            }
        }
        Walked::Unclear => unify_by_classes(space, subst, s, t),
    }
}

/// What two terms come to of which this is a most general unifier.
fn judged(s: &[Node], subst: &Subst) -> UnifiedIn
    requires whole_s { IsWhole s.now }
    requires small_s { length s.now ≤ MAX_NODES }
    ensures { (t : Tree) → IsMostGeneral (tree_of s.now) t (image subst.now) → IsUnifiedIn (tree_of s.now) t subst.now result }
{
    if instance_size(s, subst) > MAX_NODES {
        return UnifiedIn::TooLarge;
    }
    UnifiedIn::Unifier
}

/// What two terms come to, by the classes of their places.
fn unify_by_classes(
    space: &mut Workspace,
    subst: &mut Subst,
    s: &[Node],
    t: &[Node],
) -> Result<UnifiedIn, AllocError>
    requires whole_s { IsWhole s.now }
    requires whole_t { IsWhole t.now }
    requires small_s { length s.now ≤ MAX_NODES }
    requires small_t { length t.now ≤ MAX_NODES }
    ensures { IfOk result (IsUnifiedIn (tree_of s.now) (tree_of t.now) subst.new) }
{
    let Workspace {
        both,
        ends,
        noted,
        parents,
        heads,
        pairs,
        sizes,
        written,
        pending,
    } = space;
    join(s, t, both)?;
    let nodes = both.as_slice();
    ends_of(nodes, ends)?;
    let ends = ends.as_slice();
    let second = s.len();
    if closure(nodes, ends, second, noted, parents, heads, pairs)? {
        let classes = heads.as_slice();
        return read_off(nodes, ends, second, classes, sizes, written, pending, subst);
    }
    Ok(UnifiedIn::Apart)
}

/// Fills a lent list with the nodes of both terms.
fn join(s: &[Node], t: &[Node], both: &mut Vec<Node>) -> Result<(), AllocError>
    requires small_s { length s.now ≤ MAX_NODES }
    requires small_t { length t.now ≤ MAX_NODES }
    ensures { OnOk result (both.new.items ≡ s.now ++ t.now) }
{
    both.clear();
    both.reserve(s.len() + t.len())?;
    both.extend_from_slice(s)?;
    both.extend_from_slice(t)?;
    Ok(())
}

/// What two terms come to whose classes are closed: the first one at place 0, and the second one behind it.
fn read_off(
    nodes: &[Node],
    ends: &[usize],
    second: usize,
    classes: &[usize],
    sizes: &mut Vec<u32>,
    written: &mut Vec<Node>,
    pending: &mut Vec<(usize, u32)>,
    subst: &mut Subst,
) -> Result<UnifiedIn, AllocError>
    requires whole { AreWhole nodes.now }
    requires ends { AreEnds nodes.now ends.now }
    requires few { length nodes.now ≤ MAX_BOTH }
    requires first { next nodes.now 0 ≡ second }
    requires last { next nodes.now second ≡ length nodes.now }
    requires within { second < length nodes.now }
    requires closed { IsClosed nodes.now second classes.now }
    ensures { IfOk result (IsUnifiedIn (at nodes.now 0) (at nodes.now second) subst.new) }
{
    if !sizes_of(nodes, ends, classes, sizes)? {
        return Ok(UnifiedIn::Apart);
    }
    if sizes[classes[0]] > MAX_NODES as u32 {
        return Ok(UnifiedIn::TooLarge);
    }
    solution(nodes, ends, classes, written, pending, subst)?;
    Ok(UnifiedIn::Unifier)
}

/// Makes a lent substitution the one that gives each variable the term of its place.
fn solution(
    nodes: &[Node],
    ends: &[usize],
    classes: &[usize],
    written: &mut Vec<Node>,
    pending: &mut Vec<(usize, u32)>,
    subst: &mut Subst,
) -> Result<(), AllocError>
    requires whole { AreWhole nodes.now }
    requires ends { AreEnds nodes.now ends.now }
    requires few { length nodes.now ≤ MAX_BOTH }
    requires classes { AreClasses nodes.now classes.now }
    requires writable { (p : ℕ) → p < length nodes.now → IsWritable nodes.now classes.now p }
    ensures { OnOk result (IsSolution nodes.now classes.now (image subst.new)) }
{
    subst.clear();
    for place in 0..nodes.len() {
        match nodes[place] {
            Node::Var(x) => {
                add_variable(nodes, ends, classes, written, pending, subst, place, x)?
            }
            Node::App(_, _) => {}
        }
    }
    Ok(())
}

/// Gives the variable at a place the place's term, where that is another one and it has none yet.
fn add_variable(
    nodes: &[Node],
    ends: &[usize],
    classes: &[usize],
    written: &mut Vec<Node>,
    pending: &mut Vec<(usize, u32)>,
    subst: &mut Subst,
    place: usize,
    x: u32,
) -> Result<(), AllocError>
    requires whole { AreWhole nodes.now }
    requires ends { AreEnds nodes.now ends.now }
    requires few { length nodes.now ≤ MAX_BOTH }
    requires classes { AreClasses nodes.now classes.now }
    requires within { place < length nodes.now }
    requires writable { IsWritable nodes.now classes.now place }
    ensures { OnOk result (AddsSolution nodes.now classes.now place x subst.old subst.new) }
{
    if is_var(nodes[classes[place]], x) {
        return Ok(());
    }
    if subst.get(x).is_none() {
        write_term(nodes, ends, classes, written, pending, place)?;
        subst.add(x, written.as_slice())?;
    }
    Ok(())
}
