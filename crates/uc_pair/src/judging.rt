//! Whether there is an overlap at a place, whether it is left out, and how large its pair is.

ghost use Rattle.std.specs.Prelude.{◌≡◌, ◌↔◌, ◌<◌, IsTrue, IfOk};
ghost use Rattle.uc_term.specs.Tree.{apply, put};
ghost use Rattle.uc_term.specs.Subst.{image};
ghost use Rattle.uc_pair.specs.Fitting.{IsPart, IsFit};
ghost use Rattle.uc_pair.specs.Listing.{NeverDown, IsRepeated};
ghost use Rattle.uc_pair.specs.Reading.{rule_read, AreApart, AreInstances, IsTold};
ghost use Rattle.uc_pair.specs.Judging.{StaysAt, IsSmallSize, IsRightSize, IsSameOr, IsSizeBy, IsJudged, IsJudgedBy};

use crate::Size;
use crate::fitting::Part;
use crate::instances::{RenamedApart, fill_instance, fill_put, is_too_large};
use crate::reading::{Read, is_at_most, is_repeated};
use crate::space::{Built, Judging};
use crate::term_ref::TermRef;
use std::alloc::AllocError;
use uc_order::Order;
use uc_term::{Subst, instance_size, same_nodes};
use uc_unify::{UnifiedIn, unify_in};

/// The size of the overlap of two rules, each of which leads down somewhere, at a part of the outer one's side at which a symbol
/// stands. None where there is no overlap, or it is left out.
pub(crate) fn size_at<O: Order>(
    space: &mut Judging,
    terms: &RenamedApart,
    outer: &Read,
    inner: &Read,
    there: Part,
    order: &O,
) -> Result<Option<Size>, AllocError>
    requires apart { AreApart (rule_read outer.now) (rule_read inner.now) terms.now }
    requires fit { IsFit outer.now.from.now there }
    requires outer_down { NeverDown (O.meaning order.now).greater (rule_read outer.now) → ⊥ }
    requires inner_down { NeverDown (O.meaning order.now).greater (rule_read inner.now) → ⊥ }
    requires outer_told { IsTold (O.meaning order.now).greater outer.now }
    requires inner_told { IsTold (O.meaning order.now).greater inner.now }
    ensures { IfOk result (IsJudged (O.meaning order.now).greater (rule_read outer.now) (rule_read inner.now) there.place) }
{
    if is_repeated(outer, inner, there.place) {
        return Ok(None);
    }
    let Judging {
        unifying,
        unifier,
        built,
    } = space;
    match unify_in(
        unifying,
        unifier,
        terms.outer_from.part(there),
        terms.inner_from.as_nodes(),
    )? {
        UnifiedIn::Apart => Ok(None),
        // the peak is at least as large, and the rules themselves lead down
        UnifiedIn::TooLarge => Ok(Some(Size::Large)),
        UnifiedIn::Unifier => judged(built, terms, outer, inner, there, unifier, order),
    }
}

/// The size of the pair of an overlap by this unifier. None where one of the rules goes up or stays from the peak.
fn judged<O: Order>(
    built: &mut Built,
    terms: &RenamedApart,
    outer: &Read,
    inner: &Read,
    there: Part,
    subst: &Subst,
    order: &O,
) -> Result<Option<Size>, AllocError>
    requires apart { AreApart (rule_read outer.now) (rule_read inner.now) terms.now }
    requires part { IsPart terms.now.outer_from there }
    requires outer_told { IsTold (O.meaning order.now).greater outer.now }
    requires inner_told { IsTold (O.meaning order.now).greater inner.now }
    ensures { IfOk result (IsJudgedBy (O.meaning order.now).greater terms.now there.place (image subst.now)) }
{
    if goes_up(
        built,
        outer,
        &terms.outer_from,
        &terms.outer_to,
        subst,
        order,
    )? {
        return Ok(None);
    }
    if goes_up(
        built,
        inner,
        &terms.inner_from,
        &terms.inner_to,
        subst,
        order,
    )? {
        return Ok(None);
    }
    Ok(Some(size_by(built, terms, there, subst)?))
}

/// Whether the instance of a rule's renamed side is at most that of its other side, where both are small. No instance is built
/// where the rule leads down everywhere.
fn goes_up<O: Order>(
    built: &mut Built,
    rule: &Read,
    from: &TermRef,
    to: &TermRef,
    subst: &Subst,
    order: &O,
) -> Result<bool, AllocError>
    requires told { IsTold (O.meaning order.now).greater rule.now }
    requires renamed { AreInstances (rule_read rule.now) from.now to.now }
    ensures { IfOk result (λ up. IsTrue up ↔ StaysAt (O.meaning order.now).greater (apply (image subst.now) from.now) (apply (image subst.now) to.now)) }
{
    if rule.always_down {
        return Ok(false);
    }
    if !fill_instance(&mut built.from, from, subst)? {
        return Ok(false);
    }
    if !fill_instance(&mut built.to, to, subst)? {
        return Ok(false);
    }
    Ok(is_at_most(built.from.as_slice(), built.to.as_slice(), order))
}

/// The size of the pair that a unifier makes. It is counted, and the two sides are built only where they have as many nodes.
fn size_by(
    built: &mut Built,
    terms: &RenamedApart,
    there: Part,
    subst: &Subst,
) -> Result<Size, AllocError>
    requires part { IsPart terms.now.outer_from there }
    ensures { IfOk result (IsSizeBy (apply (image subst.now) terms.now.outer_from) (apply (image subst.now) terms.now.outer_to) (apply (image subst.now) (put terms.now.outer_from there.place terms.now.inner_to))) }
{
    let Some(left) = small_size(&terms.outer_to, subst) else {
        return Ok(Size::Large);
    };
    let Some(right) = right_size(terms, there, subst) else {
        return Ok(Size::Large);
    };
    if left == right {
        same_or(built, terms, there, subst, left + right)
    } else {
        Ok(Size::Weight(left + right))
    }
}

/// How many nodes the term's instance has. None exactly where these are more than 4,096.
fn small_size(term: &TermRef, subst: &Subst) -> Option<u32>
    ensures { IsSmallSize (apply (image subst.now) term.now) result }
{
    let size = instance_size(term.as_nodes(), subst);
    if is_too_large(size) {
        None
    } else {
        Some(size as u32)
    }
}

/// How many nodes the pair's right side has. None exactly where the outer side's instance or the right side has more than 4,096.
fn right_size(terms: &RenamedApart, there: Part, subst: &Subst) -> Option<u32>
    requires part { IsPart terms.now.outer_from there }
    ensures { IsRightSize (apply (image subst.now) terms.now.outer_from) (apply (image subst.now) (put terms.now.outer_from there.place terms.now.inner_to)) result }
{
    let peak = small_size(&terms.outer_from, subst)?;
    let inner = small_size(&terms.inner_to, subst)?;
    let part = instance_size(terms.outer_from.part(there), subst);
    let size = peak - part as u32 + inner;
    if is_too_large(size as usize) {
        None
    } else {
        Some(size)
    }
}

/// Whether the pair's two small sides are equal; else their weight.
fn same_or(
    built: &mut Built,
    terms: &RenamedApart,
    there: Part,
    subst: &Subst,
    weight: u32,
) -> Result<Size, AllocError>
    requires part { IsPart terms.now.outer_from there }
    ensures { IfOk result (IsSameOr (apply (image subst.now) terms.now.outer_to) (apply (image subst.now) (put terms.now.outer_from there.place terms.now.inner_to)) weight) }
{
    if !fill_instance(&mut built.from, &terms.outer_to, subst)? {
        return Ok(Size::Weight(weight));
    }
    if !fill_put(
        &mut built.to,
        &terms.outer_from,
        there,
        &terms.inner_to,
        subst,
    )? {
        return Ok(Size::Weight(weight));
    }
    if same_nodes(built.from.as_slice(), built.to.as_slice()) {
        Ok(Size::Same)
    } else {
        Ok(Size::Weight(weight))
    }
}
