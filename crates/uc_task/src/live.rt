//! The facts of a front.

ghost use Rattle.std.specs.Prelude.{◌≡◌, ◌≤◌, ◌++◌, ◌∷◌, [], List, IfOk, OnOk, length, map};
ghost use Rattle.uc_shelf.specs.declared.entry.Entry.{Entry as AnyEntry};
ghost use Rattle.uc_shelf.specs.Entries.{born, is_dead, live, living};
ghost use Rattle.uc_shelf.specs.Fronts.{IsOf};
ghost use Rattle.uc_task.specs.Living.{live_of};

use std::alloc::{AllocError, Global};
use uc_fact::Equation;
use uc_shelf::{Entry, Front, Shelf};
use uc_term::Term;

/// A fact that lives: its number and its two sides.
#[derive(Drop)]
pub struct LiveFact {
    pub number: u32,
    pub equation: Equation,
}

/// An equation of copies of two terms.
pub fn copy_equation(alloc: Global, left: &Term, right: &Term) -> Result<Equation, AllocError>
    ensures { IfOk result (λ equation. equation ≡ record { left = left.now; right = right.now }) }
{
    Ok(Equation {
        left: left.copy(alloc)?,
        right: right.copy(alloc)?,
    })
}

/// How many facts are born in one entry.
#[inline]
fn births(entry: &Entry) -> u32
    ensures value { result ≡ length (born (entry.now ∷ [])) }
    ensures few { result ≤ 1 }
{
    match entry {
        Entry::Born(_) => 1,
        Entry::Dies { .. } => 0,
    }
}

/// The facts that live in the front, by their numbers.
pub fn live_facts(alloc: Global, shelf: &Shelf, front: &Front) -> Result<Vec<LiveFact>, AllocError>
    requires of { IsOf shelf.now front.now }
    ensures { IfOk result (λ list. map live_of list.items ≡ live front.now.entries) }
{
    let mut list = Vec::new(alloc);
    let mut number = 0;
    for k in 0..front.len() {
        let entry = shelf.read(front, k);
        add_living(alloc, &mut list, entry, number, front.is_dead(number))?;
        number += births(entry);
    }
    Ok(list)
}

/// Puts the fact that is born in an entry at the end of the list, unless it is dead.
fn add_living(
    alloc: Global,
    list: &mut Vec<LiveFact>,
    entry: &Entry,
    number: u32,
    dead: bool,
) -> Result<(), AllocError>
    ensures { OnOk result ((all : List AnyEntry) → is_dead all number ≡ dead → map live_of list.new.items ≡ map live_of list.old.items ++ living all number (entry.now ∷ [])) }
{
    if dead {
        return Ok(());
    }
    match entry {
        Entry::Born(fact) => {
            let equation = copy_equation(alloc, &fact.left, &fact.right)?;
            list.push(LiveFact { number, equation })?;
            Ok(())
        }
        Entry::Dies { .. } => Ok(()),
    }
}
