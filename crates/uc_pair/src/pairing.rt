//! The pair of an overlap.

ghost use Rattle.std.specs.Prelude.{◌≡◌, ◌<◌, IfOk};
ghost use Rattle.uc_term.specs.Tree.{nodes};
ghost use Rattle.uc_term.specs.Subst.{image};
ghost use Rattle.uc_pair.specs.Overlapping.{IsOverlapOf};
ghost use Rattle.uc_pair.specs.Pairs.{IsPairOf, ReplaysPair, is_left, is_right};
ghost use Rattle.uc_pair.specs.Forming.{IsPairByTerms, IsNumberedPair};

use crate::Formation;
use crate::instances::{RenamedApart, instance_of, rename_apart, replaced};
use crate::numbering::number;
use crate::reading::Read;
use crate::space::Renaming;
use std::alloc::{AllocError, Global};
use uc_fact::{By, Chain, Overlap, Side, Step};
use uc_term::{Equation, Pos, Seq, Subst, Term, end_of};
use uc_unify::{Unified, unify};

/// The pair of an overlap of the outer equation `a` and the inner one `b`. The left side is the instance of the outer fact's
/// other side, and the right side that of the outer side with the inner fact's other side at the position. The variables are
/// numbered by first occurrence, left side first; those that only the chain has come behind.
///
/// The chain goes from the left side to the outer side's instance, and from there to the right side. `TooLarge` comes exactly
/// where that instance or one of the sides has more than 4,096 nodes.
pub fn pair_of(
    alloc: Global,
    overlap: &Overlap,
    a: &Equation,
    b: &Equation,
) -> Result<Formation, AllocError>
    requires { IsOverlapOf a.now b.now overlap.now }
    ensures pair { IfOk result (IsPairOf a.now b.now overlap.now) }
    // what follows: each step of the chain is a replacement of equals
    ensures replays { IfOk result (ReplaysPair a.now b.now overlap.now) }
{
    let outer = Read::new(overlap.outer, overlap.outer_side, a);
    let inner = Read::new(overlap.inner, overlap.inner_side, b);
    let mut renaming = Renaming::new(alloc);
    let terms = rename_apart(&mut renaming, &outer, &inner)?;
    let nodes = terms.outer_from.as_nodes();
    let from = overlap.position.0 as usize;
    let to = end_of(nodes, from);
    match unify(alloc, &nodes[from..to], terms.inner_from.as_nodes())? {
        Unified::Unifier(subst) => pair_by(alloc, overlap, &terms, &subst),
        Unified::Apart => Ok(Formation::TooLarge),
        Unified::TooLarge => Ok(Formation::TooLarge),
    }
}

/// The pair by this unifier.
fn pair_by(
    alloc: Global,
    overlap: &Overlap,
    terms: &RenamedApart,
    subst: &Subst,
) -> Result<Formation, AllocError>
    requires { overlap.now.position.0 < nodes terms.now.outer_from }
    ensures { IfOk result (IsPairByTerms overlap.now terms.now (image subst.now)) }
{
    let peak = instance_of(alloc, &terms.outer_from, subst)?;
    let left = instance_of(alloc, &terms.outer_to, subst)?;
    let part = instance_of(alloc, &terms.inner_to, subst)?;
    let outer_from = terms.outer_from.to_term(alloc)?;
    let right = replaced(alloc, &outer_from, overlap.position.0, &peak, &part)?;
    let Some(peak) = peak else {
        return Ok(Formation::TooLarge);
    };
    let Some(left) = left else {
        return Ok(Formation::TooLarge);
    };
    let Some(right) = right else {
        return Ok(Formation::TooLarge);
    };
    numbered(alloc, overlap, &peak, &left, &right.term, right.there)
}

/// The pair of these sides, with its variables numbered by first occurrence.
fn numbered(
    alloc: Global,
    overlap: &Overlap,
    peak: &Term,
    left: &Term,
    right: &Term,
    there: Pos,
) -> Result<Formation, AllocError>
    ensures { IfOk result (IsNumberedPair overlap.now peak.now left.now right.now there.0) }
{
    let mut names = Vec::new(alloc);
    let left = number(alloc, left, &mut names, 0)?;
    let right = number(alloc, right, &mut names, 0)?;
    let peak = number(alloc, peak, &mut names, 0)?;
    let mut steps = Vec::new(alloc);
    steps.push(Step {
        by: By::Fact(overlap.outer),
        left_to_right: is_right(overlap.outer_side),
        position: Pos(0),
        to: peak,
    })?;
    steps.push(Step {
        by: By::Fact(overlap.inner),
        left_to_right: is_left(overlap.inner_side),
        position: there,
        to: right.copy(alloc)?,
    })?;
    let chain = Chain {
        start: left.copy(alloc)?,
        steps: Seq::from_vec(steps),
    };
    Ok(Formation::Pair { left, right, chain })
}

/// Whether a side is the left one.
fn is_left(side: Side) -> bool
    ensures { result ≡ is_left side }
{
    match side {
        Side::Left => true,
        Side::Right => false,
    }
}

/// Whether a side is the right one.
fn is_right(side: Side) -> bool
    ensures { result ≡ is_right side }
{
    match side {
        Side::Left => false,
        Side::Right => true,
    }
}
