//! Fronts of a few facts.

ghost use Rattle.std.specs.Prelude.{◌≡◌, ◌+◌, ◌++◌, ◌∷◌, [], length, IfOk};
ghost use Rattle.uc_shelf.specs.Entries.{born};
ghost use Rattle.uc_shelf.specs.Fronts.{IsOf};

use crate::alphabet::{Sides, fact};
use std::alloc::Global;
use std::sync::Wait;
use std::test::Fail;
use uc_shelf::{Entry, Front, Shelf};

/// Puts one entry more on a front that is short.
pub fn put<R: Wait>(
    rt: &R,
    alloc: Global,
    shelf: &Shelf,
    front: &mut Front,
    entry: Entry,
) -> Result<(), Fail>
    requires of { IsOf shelf.now front.old }
    ensures of { IsOf shelf.now front.new }
    ensures more { IfOk result (λ _. front.new.entries ≡ front.old.entries ++ entry ∷ []) }
{
    if front.len() >= 9 {
        return Err(Fail::from("too long"));
    }
    Ok(shelf.publish(rt, alloc, front, entry)?)
}

// One fact more.
fn put_fact<R: Wait>(
    rt: &R,
    alloc: Global,
    shelf: &Shelf,
    front: &mut Front,
    sides: &Sides,
) -> Result<(), Fail>
    requires of { IsOf shelf.now front.old }
    ensures of { IsOf shelf.now front.new }
    ensures one { IfOk result (λ _. length (born front.new.entries) ≡ length (born front.old.entries) + 1) }
{
    let fact = fact(alloc, sides)?;
    put(rt, alloc, shelf, front, Entry::Born(fact))?;
    Ok(())
}

/// Returns the front on which facts with these sides are born.
pub fn front_of<R: Wait>(
    rt: &R,
    alloc: Global,
    shelf: &Shelf,
    facts: &[Sides],
) -> Result<Front, Fail>
    ensures of { IfOk result (λ front. IsOf shelf.now front) }
    ensures all { IfOk result (λ front. length (born front.entries) ≡ length facts.now) }
{
    let mut front = Front::empty(alloc);
    for sides in facts {
        put_fact(rt, alloc, shelf, &mut front, sides)?;
    }
    Ok(front)
}

/// Lets the first fact of a front die, killed by the second.
pub fn first_dies<R: Wait>(
    rt: &R,
    alloc: Global,
    shelf: &Shelf,
    front: &mut Front,
) -> Result<(), Fail>
    requires of { IsOf shelf.now front.old }
    ensures of { IsOf shelf.now front.new }
{
    put(rt, alloc, shelf, front, Entry::Dies { fact: 0, killer: 1 })
}
