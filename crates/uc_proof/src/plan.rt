//! The order of a proof's lines.

ghost use Rattle.std.specs.Prelude.{◌≡◌, ◌<◌, ◌+◌, ◌^◌, ◌∷◌, [], List, ℕ, map, Bool, if◌then◌else◌, IfOk, OnOk, length, slice_get, Some};
ghost use Rattle.uc_problem.specs.declared.problem.Source.{Source};
ghost use Rattle.uc_proof.specs.declared.part.Part.{Part};
ghost use Rattle.uc_proof.specs.declared.part.Part.TheVariants as part;
ghost use Rattle.uc_proof.specs.Parts.{is_clause, is_encoding, axioms_where, facts_from, all_parts, Selects};
ghost use Rattle.uc_proof.specs.Extracted.{AreNumbersOf};
ghost use Rattle.uc_proof.specs.Making.{IsAmong, Adds, AreNumbered, HaveParts};

use crate::needed::Needed;
use crate::part::Part;
use indexmap::IndexMap;
use std::alloc::{AllocError, Global};
use std::marker::Model;
use uc_problem::{Encoded, Problem, Source};
use uc_term::Seq;

// The parts of a proof in the order of their lines, and the number of each part's line.
#[derive(Drop)]
pub(crate) struct Plan {
    parts: Vec<Part>,
    numbers: IndexMap<Part, u32>,
}

impl Model for Plan {
    ghost use Rattle.std.specs.Prelude.{List};
    ghost use Rattle.uc_proof.specs.declared.part.Part.{Part};
    ghost use Rattle.uc_proof.specs.Making.{AreNumbered};

    ghost Value = { List Part };

    ghost view = { λ s. s.parts.items };

    ghost invariant = { λ s. AreNumbered s.parts.items s.numbers.entries };
}

impl Plan {
    /// The parts that are needed, in the order of their lines.
    pub(crate) fn of(
        alloc: Global,
        needed: &Needed,
        problem: &Problem,
        encoded: &Encoded,
        facts: usize,
    ) -> Result<Plan, AllocError>
        requires { length encoded.now.sources + length problem.now.goals + facts + 2 < 2 ^ 32 }
        ensures { IfOk result (λ plan. Selects (λ p. IsAmong p needed.now) (all_parts problem.now encoded.now facts) plan) }
    {
        let parts = in_order(alloc, needed, problem, encoded, facts)?;
        let numbers = numbers(alloc, parts.as_slice())?;
        Ok(Plan { parts, numbers })
    }

    /// The parts in order.
    pub(crate) fn parts(&self) -> &[Part]
        ensures { result.now ≡ self.now }
    {
        self.parts.as_slice()
    }

    /// The number of each fact's line.
    pub(crate) fn numbers_of(&self, alloc: Global, facts: &[u32]) -> Result<Seq<u32>, AllocError>
        requires { HaveParts self.now facts.now }
        ensures { IfOk result (AreNumbersOf self.now facts.now) }
    {
        let mut numbers = Vec::new(alloc);
        for fact in facts {
            numbers.push(self.number(Part::Fact(*fact)))?;
        }
        Ok(Seq::from_vec(numbers))
    }

    /// The number of the part's line.
    pub(crate) fn number(&self, part: Part) -> u32
        requires { IsAmong part self.now }
        ensures { slice_get self.now result ≡ Some part }
    {
        match self.numbers.get(&part) {
            Some(number) => *number,
            None => unreachable!(),
        }
    }
}

// The parts that are needed, in the order of their lines.
fn in_order(
    alloc: Global,
    needed: &Needed,
    problem: &Problem,
    encoded: &Encoded,
    facts: usize,
) -> Result<Vec<Part>, AllocError>
    requires { length encoded.now.sources + length problem.now.goals + facts + 2 < 2 ^ 32 }
    ensures selected { IfOk result (λ plan. Selects (λ p. IsAmong p needed.now) (all_parts problem.now encoded.now facts) plan.items) }
    ensures few { IfOk result (λ plan. length plan.items < 2 ^ 32) }
{
    let mut plan = Vec::new(alloc);
    let sources = encoded.sources.as_slice();
    push_axioms(&mut plan, needed, sources, true)?;
    push_denials(&mut plan, needed, problem.goals.as_slice())?;
    push_axioms(&mut plan, needed, sources, false)?;
    push_facts(&mut plan, needed, facts)?;
    push_needed(&mut plan, needed, Part::Conclusion)?;
    push_needed(&mut plan, needed, Part::Refutation)?;
    Ok(plan)
}

// The axioms that are clauses, or those of the encoding.
fn push_axioms(
    plan: &mut Vec<Part>,
    needed: &Needed,
    sources: &[Source],
    clauses: bool,
) -> Result<(), AllocError>
    requires { length sources.now < 2 ^ 32 }
    ensures { OnOk result (Adds (λ p. IsAmong p needed.now) (axioms_where (if clauses then is_clause else is_encoding) 0 sources.now) plan.old.items plan.new.items) }
{
    for (number, source) in sources.iter().enumerate() {
        push_axiom(plan, needed, *source, number as u32, clauses)?;
    }
    Ok(())
}

// The axiom of this source and number.
fn push_axiom(
    plan: &mut Vec<Part>,
    needed: &Needed,
    source: Source,
    number: u32,
    clauses: bool,
) -> Result<(), AllocError>
    ensures { OnOk result (Adds (λ p. IsAmong p needed.now) (axioms_where (if clauses then is_clause else is_encoding) number (source ∷ [])) plan.old.items plan.new.items) }
{
    if is_clause(source) == clauses {
        push_needed(plan, needed, Part::Axiom(number))?;
    }
    Ok(())
}

fn is_clause(source: Source) -> bool
    ensures { result ≡ is_clause source }
{
    match source {
        Source::Clause(_) => true,
        Source::Reflexive => false,
        Source::Goal(_) => false,
    }
}

fn push_denials(plan: &mut Vec<Part>, needed: &Needed, goals: &[u32]) -> Result<(), AllocError>
    ensures { OnOk result (Adds (λ p. IsAmong p needed.now) (map part.Denial goals.now) plan.old.items plan.new.items) }
{
    for clause in goals {
        push_needed(plan, needed, Part::Denial(*clause))?;
    }
    Ok(())
}

fn push_facts(plan: &mut Vec<Part>, needed: &Needed, count: usize) -> Result<(), AllocError>
    requires { count < 2 ^ 32 }
    ensures { OnOk result (Adds (λ p. IsAmong p needed.now) (facts_from 0 count) plan.old.items plan.new.items) }
{
    for number in 0..count {
        push_needed(plan, needed, Part::Fact(number as u32))?;
    }
    Ok(())
}

// The part, where it is needed.
fn push_needed(plan: &mut Vec<Part>, needed: &Needed, part: Part) -> Result<(), AllocError>
    ensures { OnOk result (Adds (λ p. IsAmong p needed.now) (part ∷ []) plan.old.items plan.new.items) }
{
    if needed.has(part) {
        plan.push(part)?;
    }
    Ok(())
}

// The number of each part's line.
fn numbers(alloc: Global, parts: &[Part]) -> Result<IndexMap<Part, u32>, AllocError>
    requires { length parts.now < 2 ^ 32 }
    ensures { IfOk result (λ numbers. AreNumbered parts.now numbers.entries) }
{
    let mut numbers = IndexMap::new(alloc);
    for (number, part) in parts.iter().enumerate() {
        numbers.insert(*part, number as u32)?;
    }
    Ok(numbers)
}
