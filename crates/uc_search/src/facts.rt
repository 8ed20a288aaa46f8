//! The facts of a front.

ghost use Rattle.std.specs.Prelude.{◌≡◌, ◌++◌, ◌∷◌, [], map, IfOk, OnOk};
ghost use Rattle.uc_fact.specs.Live.{equations_of};
ghost use Rattle.uc_shelf.specs.Entries.{born, live};
ghost use Rattle.uc_shelf.specs.Fronts.{IsOf};

use std::alloc::{AllocError, Global};
use uc_fact::{Fact, System};
use uc_shelf::{Entry, Front, Shelf};
use uc_task::live_facts;
use uc_term::Seq;

/// All facts that are born in a front, by number.
pub fn all_facts<'a>(
    alloc: Global,
    shelf: &'a Shelf,
    front: &Front,
) -> Result<Vec<&'a Fact>, AllocError>
    requires { IsOf shelf.now front.now }
    ensures { IfOk result (λ facts. map (λ f. f.now) facts.items ≡ born front.now.entries) }
{
    let mut facts = Vec::new(alloc);
    for k in 0..front.len() {
        add_if_born(&mut facts, shelf.read(front, k))?;
    }
    Ok(facts)
}

/// Puts the fact that is born in an entry, if one is, at the end of the list.
fn add_if_born<'a>(facts: &mut Vec<&'a Fact>, entry: &'a Entry) -> Result<(), AllocError>
    ensures { OnOk result (map (λ f. f.now) facts.new.items ≡ map (λ f. f.now) facts.old.items ++ born (entry.now ∷ [])) }
{
    match entry {
        Entry::Born(fact) => {
            facts.push(fact)?;
            Ok(())
        }
        Entry::Dies { .. } => Ok(()),
    }
}

/// The facts that live in a front, by number.
pub fn live_system(alloc: Global, shelf: &Shelf, front: &Front) -> Result<System, AllocError>
    requires { IsOf shelf.now front.now }
    ensures { IfOk result (λ system. system.facts ≡ equations_of (live front.now.entries)) }
{
    let mut facts = Seq::new(alloc);
    for fact in live_facts(alloc, shelf, front)? {
        facts.push(fact.equation)?;
    }
    Ok(System { facts })
}

/// The numbers of the facts that live in a front, in order.
pub fn live_numbers(alloc: Global, shelf: &Shelf, front: &Front) -> Result<Seq<u32>, AllocError>
    requires { IsOf shelf.now front.now }
    ensures { IfOk result (λ numbers. numbers ≡ map (λ f. f.number) (live front.now.entries)) }
{
    let mut numbers = Seq::new(alloc);
    for fact in live_facts(alloc, shelf, front)? {
        numbers.push(fact.number)?;
    }
    Ok(numbers)
}
