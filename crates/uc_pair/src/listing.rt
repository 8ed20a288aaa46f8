//! The overlaps of two facts.

ghost use Rattle.std.specs.Prelude.{◌≡◌, ◌<◌, [], ◌∷◌, IfOk, OnOk, All};
ghost use Rattle.uc_term.specs.Tree.{nodes};
ghost use Rattle.uc_term.specs.declared.equation.Side.TheVariants.{Left, Right};
ghost use Rattle.uc_pair.specs.Overlapping.{IsFormedOf, read_from};
ghost use Rattle.uc_pair.specs.Listing.{NeverDown, IsWayOf, Lists, ListsEach, AreOverlaps};
ghost use Rattle.uc_pair.specs.Reading.{rule_read, IsTold};
ghost use Rattle.uc_pair.specs.Adding.{Adds, AddsAt};

use crate::fitting::next_fit;
use crate::instances::rename_apart;
use crate::judging::size_at;
use crate::reading::{Read, way_of};
use crate::{Formed, Size, Space};
use std::alloc::{AllocError, Global};
use uc_fact::{Overlap, Side};
use uc_order::{Cmp, Order};
use uc_term::{Equation, Pos, Seq};

/// The overlaps of an outer and an inner fact with the sizes of their pairs, by outer side, inner side, and position in
/// preorder. At each position of the outer side that is no variable there is one where the subterm unifies with the inner
/// side, the variables of the two facts being renamed apart.
///
/// An overlap is left out where the order says that one of the two facts, read so, goes up or stays: its side's instance is less
/// than or equal to that of its other side (where the order can't tell, as for commutativity, the overlap is listed). Where an
/// instance of a side has more than 4,096 nodes, the fact's own two sides decide instead. At the root, where the inner side is no
/// variable, it is also left out where the inner fact and side come after the outer ones, and where they are the same and the
/// other side has no further variable. No term of more than 4,096 nodes is built.
pub fn overlaps<O: Order>(
    alloc: Global,
    outer: u32,
    a: &Equation,
    inner: u32,
    b: &Equation,
    order: &O,
) -> Result<Seq<Formed>, AllocError>
    requires same { outer ≡ inner → a.now ≡ b.now }
    ensures list { IfOk result (AreOverlaps (O.meaning order.now).greater outer a.now inner b.now) }
    // what follows for each of them
    ensures formed { IfOk result (All (IsFormedOf a.now b.now)) }
{
    let a_way = way_of(outer, a, order);
    let b_way = way_of(inner, b, order);
    let mut space = Space::new(alloc);
    overlaps_by(alloc, &mut space, outer, a, a_way, inner, b, b_way, order)
}

/// The same where it is known how the order compares the left side of each fact to its right one, so that a fact that meets
/// many is compared once, and in memory that is lent.
pub fn overlaps_by<O: Order>(
    alloc: Global,
    space: &mut Space,
    outer: u32,
    a: &Equation,
    a_way: Cmp,
    inner: u32,
    b: &Equation,
    b_way: Cmp,
    order: &O,
) -> Result<Seq<Formed>, AllocError>
    requires same { outer ≡ inner → a.now ≡ b.now }
    requires a_way { IsWayOf (O.meaning order.now).greater a.now a_way }
    requires b_way { IsWayOf (O.meaning order.now).greater b.now b_way }
    ensures list { IfOk result (AreOverlaps (O.meaning order.now).greater outer a.now inner b.now) }
    // what follows for each of them
    ensures formed { IfOk result (All (IsFormedOf a.now b.now)) }
{
    let mut list = Vec::new(alloc);
    let left = Read::told(outer, Side::Left, a, a_way, order);
    add_outer(space, &mut list, &left, inner, b, b_way, order)?;
    let right = Read::told(outer, Side::Right, a, a_way, order);
    add_outer(space, &mut list, &right, inner, b, b_way, order)?;
    Ok(Seq::from_vec(list))
}

/// Adds the overlaps of a rule with an inner fact.
fn add_outer<O: Order>(
    space: &mut Space,
    list: &mut Vec<Formed>,
    outer: &Read,
    inner: u32,
    b: &Equation,
    way: Cmp,
    order: &O,
) -> Result<(), AllocError>
    requires told { IsTold (O.meaning order.now).greater outer.now }
    requires way { IsWayOf (O.meaning order.now).greater b.now way }
    ensures { OnOk result (Adds (ListsEach (O.meaning order.now).greater ((rule_read outer.now, read_from inner Left b.now) ∷ (rule_read outer.now, read_from inner Right b.now) ∷ [])) list.old.items list.new.items) }
{
    if outer.never_down {
        return Ok(());
    }
    let left = Read::told(inner, Side::Left, b, way, order);
    add_inner(space, list, outer, &left, order)?;
    let right = Read::told(inner, Side::Right, b, way, order);
    add_inner(space, list, outer, &right, order)
}

/// Adds the overlaps of two rules, of which the outer one leads down somewhere.
fn add_inner<O: Order>(
    space: &mut Space,
    list: &mut Vec<Formed>,
    outer: &Read,
    inner: &Read,
    order: &O,
) -> Result<(), AllocError>
    requires down { NeverDown (O.meaning order.now).greater (rule_read outer.now) → ⊥ }
    requires outer_told { IsTold (O.meaning order.now).greater outer.now }
    requires told { IsTold (O.meaning order.now).greater inner.now }
    ensures { OnOk result (Adds (Lists (O.meaning order.now).greater (rule_read outer.now) (rule_read inner.now) 0) list.old.items list.new.items) }
{
    if inner.never_down {
        return Ok(());
    }
    let Some(first) = next_fit(outer.from, inner.from, 0) else {
        return Ok(());
    };
    let terms = rename_apart(&mut space.renaming, outer, inner)?;
    let mut next = Some(first);
    while let Some(there) = next {
        let size = size_at(&mut space.judging, &terms, outer, inner, there, order)?;
        add(list, outer, inner, there.place, size)?;
        next = next_fit(outer.from, inner.from, there.place + 1);
    }
    Ok(())
}

/// Adds the overlap at a place, where it has a size.
fn add(
    list: &mut Vec<Formed>,
    outer: &Read,
    inner: &Read,
    place: u32,
    size: Option<Size>,
) -> Result<(), AllocError>
    ensures { OnOk result (AddsAt (rule_read outer.now) (rule_read inner.now) place size list.old.items list.new.items) }
{
    if let Some(size) = size {
        list.push(Formed {
            overlap: Overlap {
                outer: outer.number,
                outer_side: outer.side,
                inner: inner.number,
                inner_side: inner.side,
                position: Pos(place),
            },
            size,
        })?;
    }
    Ok(())
}
