//! What an aim needs.

ghost use Rattle.std.specs.Prelude.{◌≡◌, ◌<◌, ◌^◌, ◌↔◌, ◌⊎◌, [], map, List, ℕ, Some, None, IsTrue, OnOk, IfOk, length, slice_get};
ghost use Rattle.uc_proof.specs.declared.aim.Aim.{Aim};
ghost use Rattle.uc_proof.specs.declared.part.Part.{Part};
ghost use Rattle.uc_proof.specs.declared.part.Part.TheVariants as part;
ghost use Rattle.uc_proof.specs.Needed.{IsNeeded};
ghost use Rattle.uc_proof.specs.Parts.{part_of};
ghost use Rattle.uc_proof.specs.Making.{IsAmong, IsNamedPart, IsUsedPart, IsFactPart, IsAimedPart, IsGoalPart, IsWithin, NameEarlier, IsDeniedFrom, IsGoalOf, IsClauseOf};

use crate::aim::Aim;
use crate::part::Part;
use indexmap::IndexSet;
use std::alloc::{AllocError, Global};
use std::marker::Model;
use uc_fact::{By, Fact, Step};
use uc_problem::{Encoded, Source};

// The parts for which a proof has lines, in no order that matters.
#[derive(Drop)]
pub(crate) struct Needed {
    parts: IndexSet<Part>,
}

impl Model for Needed {
    ghost use Rattle.std.specs.Prelude.{List};
    ghost use Rattle.uc_proof.specs.declared.part.Part.{Part};

    ghost Value = { List Part };

    ghost view = { λ s. s.parts.keys };
}

impl Needed {
    // None. It takes no memory.
    fn new(alloc: Global) -> Needed
        ensures { result ≡ [] }
    {
        Needed {
            parts: IndexSet::new(alloc),
        }
    }

    fn add(&mut self, part: Part) -> Result<(), AllocError>
        ensures { OnOk result ((p : Part) → IsAmong p self.new ↔ ((part ≡ p) ⊎ IsAmong p self.old)) }
    {
        self.parts.insert(part)?;
        Ok(())
    }

    pub(crate) fn has(&self, part: Part) -> bool
        ensures { IsTrue result ↔ IsAmong part self.now }
    {
        self.parts.contains(&part)
    }
}

/// The parts that an aim needs. Facts name earlier facts alone, so one pass from the last fact to the first finds
/// all that are used: it takes as many turns as there are facts, and as many as the used chains have steps.
pub(crate) fn needed_for(
    alloc: Global,
    facts: &[&Fact],
    aim: &Aim,
    encoded: &Encoded,
) -> Result<Needed, AllocError>
    requires few { length facts.now < 2 ^ 32 }
    requires sources { length encoded.now.sources < 2 ^ 32 }
    requires earlier { NameEarlier (map (λ f. f.now) facts.now) }
    requires goal { IsWithin encoded.now aim.now }
    ensures { IfOk result (λ parts. (p : Part) → IsAmong p parts ↔ IsNeeded encoded.now (map (λ f. f.now) facts.now) aim.now p) }
{
    let mut needed = Needed::new(alloc);
    add_aimed(&mut needed, aim)?;
    add_used(&mut needed, facts)?;
    add_denied(&mut needed, encoded.sources.as_slice())?;
    add_goal(&mut needed, aim, encoded)?;
    Ok(needed)
}

// What the aim names.
fn add_aimed(needed: &mut Needed, aim: &Aim) -> Result<(), AllocError>
    ensures { OnOk result ((p : Part) → IsAmong p needed.new ↔ (IsAmong p needed.old ⊎ IsAimedPart aim.now p)) }
{
    match aim {
        Aim::Goal { chain, .. } => add_named(needed, chain.steps.as_slice()),
        Aim::Facts(live) => add_facts(needed, live.as_slice()),
    }
}

// Facts.
fn add_facts(needed: &mut Needed, live: &[u32]) -> Result<(), AllocError>
    ensures { OnOk result ((p : Part) → IsAmong p needed.new ↔ (IsAmong p needed.old ⊎ IsFactPart live.now p)) }
{
    for number in live {
        needed.add(Part::Fact(*number))?;
    }
    Ok(())
}

// What the chains of used facts name, from the last fact on.
fn add_used(needed: &mut Needed, facts: &[&Fact]) -> Result<(), AllocError>
    requires few { length facts.now < 2 ^ 32 }
    requires earlier { NameEarlier (map (λ f. f.now) facts.now) }
    ensures { OnOk result ((a : Aim) → ((p : Part) → IsAmong p needed.old ↔ IsAimedPart a p) → (p : Part) → IsAmong p needed.new ↔ IsUsedPart (map (λ f. f.now) facts.now) a p) }
{
    let mut number = facts.len();
    while number > 0 {
        number -= 1;
        add_if_used(needed, facts[number], number as u32)?;
    }
    Ok(())
}

// What the chain of the fact of this number names, where the fact is used.
fn add_if_used(needed: &mut Needed, fact: &Fact, number: u32) -> Result<(), AllocError>
    ensures { OnOk result ((p : Part) → IsAmong p needed.new ↔ (IsAmong p needed.old ⊎ (IsAmong (part.Fact number) needed.old × IsNamedPart fact.now.chain.steps p))) }
{
    if needed.has(Part::Fact(number)) {
        add_named(needed, fact.chain.steps.as_slice())?;
    }
    Ok(())
}

// What the steps name.
fn add_named(needed: &mut Needed, steps: &[Step]) -> Result<(), AllocError>
    ensures { OnOk result ((p : Part) → IsAmong p needed.new ↔ (IsAmong p needed.old ⊎ IsNamedPart steps.now p)) }
{
    for step in steps {
        needed.add(part_of(step.by))?;
    }
    Ok(())
}

// The goals whose encoded axioms are used.
fn add_denied(needed: &mut Needed, sources: &[Source]) -> Result<(), AllocError>
    requires { length sources.now < 2 ^ 32 }
    ensures { OnOk result ((p : Part) → IsAmong p needed.new ↔ (IsAmong p needed.old ⊎ IsDeniedFrom 0 sources.now needed.old p)) }
{
    for (number, source) in sources.iter().enumerate() {
        add_source(needed, number as u32, *source)?;
    }
    Ok(())
}

// The goal of this source, where the axiom of this number is used.
fn add_source(needed: &mut Needed, number: u32, source: Source) -> Result<(), AllocError>
    ensures { OnOk result ((p : Part) → IsAmong p needed.new ↔ (IsAmong p needed.old ⊎ (IsAmong (part.Axiom number) needed.old × IsGoalOf source p))) }
{
    match source {
        Source::Clause(_) => Ok(()),
        Source::Reflexive => Ok(()),
        Source::Goal(clause) => {
            if needed.has(Part::Axiom(number)) {
                needed.add(Part::Denial(clause))?;
            }
            Ok(())
        }
    }
}

// Of a goal its clause, where it is one of the problem's, its chain and the refutation.
fn add_goal(needed: &mut Needed, aim: &Aim, encoded: &Encoded) -> Result<(), AllocError>
    requires { IsWithin encoded.now aim.now }
    ensures { OnOk result ((p : Part) → IsAmong p needed.new ↔ (IsAmong p needed.old ⊎ IsGoalPart encoded.now aim.now p)) }
{
    match aim {
        Aim::Goal { goal, .. } => {
            add_clause(needed, encoded.goal_clauses.as_slice()[*goal as usize])?;
            needed.add(Part::Conclusion)?;
            needed.add(Part::Refutation)
        }
        Aim::Facts(_) => Ok(()),
    }
}

// The clause of the goal, where it is one of the problem's.
fn add_clause(needed: &mut Needed, clause: Option<u32>) -> Result<(), AllocError>
    ensures { OnOk result ((p : Part) → IsAmong p needed.new ↔ (IsAmong p needed.old ⊎ IsClauseOf clause p)) }
{
    match clause {
        Some(clause) => {
            needed.add(Part::Denial(clause))?;
            Ok(())
        }
        None => Ok(()),
    }
}

/// The part whose line says the equation by which a step is made.
pub(crate) fn part_of(by: By) -> Part
    ensures { result ≡ part_of by }
{
    match by {
        By::Axiom(number) => Part::Axiom(number),
        By::Fact(number) => Part::Fact(number),
    }
}
