//! Tasks in which a fact meets the facts before it.

ghost use Rattle.std.specs.Prelude.{◌≡◌, ◌↔◌, ◌<◌, ◌++◌, ◌∷◌, [], ℕ, List, length, map, IsTrue, IfOk, OnOk};
ghost use Rattle.uc_term.specs.declared.equation.Equation.{Equation as AnyEquation};
ghost use Rattle.uc_shelf.specs.declared.entry.Entry.{Entry};
ghost use Rattle.uc_shelf.specs.Entries.{born};
ghost use Rattle.uc_shelf.specs.Fronts.{IsOf};
ghost use Rattle.uc_machine.specs.Results.{IsResult, AreKills, AreMeetings};
ghost use Rattle.uc_machine.specs.declared.task.Job.TheVariants.{Meet};
ghost use Rattle.uc_shelf.specs.Lending.{lent_of};
ghost use Rattle.uc_pair.specs.Listing.{IsWayOf};
ghost use Rattle.uc_task.specs.Meeting.{Adds, IsReducedByIt, FirstReducer, KillsOne, MeetsOne};

use crate::live::copy_equation;
use crate::reducing::reduces;
use std::alloc::{AllocError, Global};
use uc_fact::Equation;
use uc_machine::Finding;
use uc_order::{Cmp, Order};
use uc_pair::{Formed, Space, overlaps_by, way_of};
use uc_shelf::{Front, Lent, Shelf};
use uc_term::Seq;

/// A fact meets the others that live. It is stale where one of them reduces it, by the least such. Else it kills the earlier
/// ones that it reduces, and is overlapped with each earlier one and with itself.
pub fn meet<O: Order>(
    alloc: Global,
    number: u32,
    shelf: &Shelf,
    front: &Front,
    order: &O,
) -> Result<Finding, AllocError>
    requires of { IsOf shelf.now front.now }
    requires born { number < length (born front.now.entries) }
    ensures { IfOk result (λ finding. (axioms : List AnyEquation) → IsResult (O.meaning order.now) axioms front.now.entries (Meet number) finding) }
{
    let fact = shelf.fact(front, number);
    let own = copy_equation(alloc, &fact.left, &fact.right)?;
    let facts = shelf.view(front).facts(alloc)?;
    if let Some(other) = stale_by(alloc, number, &own, facts.as_slice(), order)? {
        return Ok(Finding::Stale(other));
    }
    let way = way_of(number, &own, order);
    let kills = kills(alloc, number, &own, way, facts.as_slice(), order)?;
    let overlaps = meetings(alloc, number, &own, way, facts.as_slice(), order)?;
    Ok(Finding::Met { kills, overlaps })
}

/// The first fact of the list but the one of this number that reduces its equation.
fn stale_by<O: Order>(
    alloc: Global,
    number: u32,
    own: &Equation,
    facts: &[Lent],
    order: &O,
) -> Result<Option<u32>, AllocError>
    ensures { IfOk result (FirstReducer (O.meaning order.now) number own.now (map lent_of facts.now)) }
{
    for fact in facts {
        if is_reduced_by(alloc, number, own, fact, order)? {
            return Ok(Some(fact.number));
        }
    }
    Ok(None)
}

/// Whether a fact of another number reduces the equation.
fn is_reduced_by<O: Order>(
    alloc: Global,
    number: u32,
    own: &Equation,
    fact: &Lent,
    order: &O,
) -> Result<bool, AllocError>
    ensures { IfOk result (λ answer. IsTrue answer ↔ IsReducedByIt (O.meaning order.now) number own.now (lent_of fact.now)) }
{
    if fact.number == number {
        return Ok(false);
    }
    reduces(alloc, fact.number, fact.equation, None, own, order)
}

/// The earlier facts of the list that the equation of this number reduces.
fn kills<O: Order>(
    alloc: Global,
    number: u32,
    own: &Equation,
    way: Cmp,
    facts: &[Lent],
    order: &O,
) -> Result<Seq<u32>, AllocError>
    requires { IsWayOf (O.meaning order.now).greater own.now way }
    ensures { IfOk result (λ list. (entries : List Entry) → AreKills (O.meaning order.now) entries number own.now (map lent_of facts.now) list) }
{
    let mut list = Seq::new(alloc);
    for fact in facts {
        add_kill(alloc, &mut list, number, own, way, fact, order)?;
    }
    Ok(list)
}

/// Puts an earlier fact that the equation reduces at the end of the list.
fn add_kill<O: Order>(
    alloc: Global,
    list: &mut Seq<u32>,
    number: u32,
    own: &Equation,
    way: Cmp,
    fact: &Lent,
    order: &O,
) -> Result<(), AllocError>
    requires { IsWayOf (O.meaning order.now).greater own.now way }
    ensures { OnOk result (Adds (KillsOne (O.meaning order.now) number own.now (lent_of fact.now)) list.old list.new) }
{
    if fact.number >= number {
        return Ok(());
    }
    if !reduces(alloc, number, own, Some(way), fact.equation, order)? {
        return Ok(());
    }
    list.push(fact.number)?;
    Ok(())
}

/// The overlaps of the equation of this number with each earlier fact of the list, the other one outside first, and last those
/// with itself.
fn meetings<O: Order>(
    alloc: Global,
    number: u32,
    own: &Equation,
    way: Cmp,
    facts: &[Lent],
    order: &O,
) -> Result<Seq<Formed>, AllocError>
    requires { IsWayOf (O.meaning order.now).greater own.now way }
    ensures { IfOk result (λ list. (entries : List Entry) → AreMeetings (O.meaning order.now) entries number own.now (map lent_of facts.now) list) }
{
    let mut space = Space::new(alloc);
    let mut list = Seq::new(alloc);
    for fact in facts {
        add_overlaps(alloc, &mut space, &mut list, number, own, way, fact, order)?;
    }
    let with_itself = overlaps_by(alloc, &mut space, number, own, way, number, own, way, order)?;
    list.append(with_itself)?;
    Ok(list)
}

/// Puts the overlaps with an earlier fact at the end of the list, the other one outside first.
fn add_overlaps<O: Order>(
    alloc: Global,
    space: &mut Space,
    list: &mut Seq<Formed>,
    number: u32,
    own: &Equation,
    way: Cmp,
    fact: &Lent,
    order: &O,
) -> Result<(), AllocError>
    requires { IsWayOf (O.meaning order.now).greater own.now way }
    ensures { OnOk result (Adds (MeetsOne (O.meaning order.now) number own.now (lent_of fact.now)) list.old list.new) }
{
    let other = fact.number;
    if other >= number {
        return Ok(());
    }
    let theirs = fact.equation;
    let their_way = way_of(other, theirs, order);
    let inside = overlaps_by(
        alloc, space, other, theirs, their_way, number, own, way, order,
    )?;
    list.append(inside)?;
    let outside = overlaps_by(
        alloc, space, number, own, way, other, theirs, their_way, order,
    )?;
    list.append(outside)?;
    Ok(())
}
