//! The proof of a goal, and the derivation of facts.

ghost use Rattle.std.specs.Prelude.{◌≡◌, ◌<◌, ◌+◌, ◌^◌, List, ℕ, length, map, IfOk};
ghost use Rattle.uc_check.specs.Checks.{AreRightBefore, EndsInRefutation};
ghost use Rattle.uc_tstp.specs.Printable.{AreInOrder};
ghost use Rattle.uc_rewrite.specs.Replay.{FactsReplay};
ghost use Rattle.uc_proof.specs.Chains.{AreBorn, ProvesGoal};
ghost use Rattle.uc_proof.specs.Extracted.{IsEncodingOf, IsDerivation, IsExtracted, AreDerivedFacts, HaveLines, NoneRefutes};
ghost use Rattle.uc_proof.specs.Making.{IsReached};

use crate::aim::Aim;
use crate::conclusion::conclusion;
use crate::files::files;
use crate::lines::line_of;
use crate::needed::needed_for;
use crate::plan::Plan;
use crate::renumbering::renumbered;
use std::alloc::{AllocError, Global};
use uc_check::Proof;
use uc_fact::{Chain, Fact};
use uc_problem::{Encoded, Problem};
use uc_term::{Seq, Text};

/// A proof, with the name of a file for each of its lines: that of its clause, for a clause of the problem, and else none.
#[derive(Drop)]
pub struct Extracted {
    pub proof: Proof,
    pub files: Seq<Text>,
}

/// The proof of a goal of an encoded problem, by the facts' chains and the two chains from the goal's sides to one term.
///
/// It has a line for each axiom and fact that the goal's chain names, directly or through facts, and for no other: first the
/// clauses of the axioms, then those of the goals, the encoding's axioms, the facts, the goal's chain, which is that of the left
/// side followed by that of the right side gone back, and the refutation. Lines are called `p1`, `p2` and so on, and the
/// variables of each are numbered by first occurrence.
///
/// `facts` has all facts by number, and each one's chain leads from its left to its right side over the axioms and the facts
/// before it.
pub fn extract_from(
    alloc: Global,
    facts: &[&Fact],
    left: &Chain,
    right: &Chain,
    problem: &Problem,
    encoded: &Encoded,
    goal: u32,
) -> Result<Extracted, AllocError>
    requires encoding { IsEncodingOf problem.now encoded.now }
    requires facts { FactsReplay encoded.now.axioms (map (λ f. f.now) facts.now) }
    requires goal { ProvesGoal encoded.now (map (λ f. f.now) facts.now) goal left.now right.now }
    requires few { length encoded.now.sources + length problem.now.goals + length facts.now + 2 < 2 ^ 32 }
    ensures extracted { IfOk result (λ made. IsExtracted problem.now encoded.now (map (λ f. f.now) facts.now) left.now right.now goal made.proof.lines made.files) }
    ensures right { IfOk result (λ made. AreRightBefore problem.now.clauses encoded.now.fresh made.proof.lines (length made.proof.lines)) }
    ensures refutes { IfOk result (λ made. EndsInRefutation made.proof.lines) }
    ensures in_order { IfOk result (λ made. AreInOrder made.proof.lines) }
{
    let chain = conclusion(alloc, left, right)?;
    let aim = Aim::Goal { chain, goal };
    let (extracted, _) = derivation(alloc, facts, &aim, problem, encoded)?;
    Ok(extracted)
}

/// The derivation of facts of an encoded problem, by the facts' chains, and for each of them the number of its line.
///
/// It has a line for each of these facts and for each axiom and fact that their chains name, directly or through facts, and for no
/// other: first the clauses of the axioms, then those of the goals whose encoded axioms are named, the encoding's axioms, and the
/// facts, by number. Lines are called `p1`, `p2` and so on, and the variables of each are numbered by first occurrence.
///
/// `facts` has all facts by number, and each one's chain leads from its left to its right side over the axioms and the facts
/// before it. `live` has the numbers of those that are derived.
pub fn extract_facts_from(
    alloc: Global,
    facts: &[&Fact],
    live: &[u32],
    problem: &Problem,
    encoded: &Encoded,
) -> Result<(Extracted, Seq<u32>), AllocError>
    requires encoding { IsEncodingOf problem.now encoded.now }
    requires facts { FactsReplay encoded.now.axioms (map (λ f. f.now) facts.now) }
    requires live { AreBorn (map (λ f. f.now) facts.now) live.now }
    requires few { length encoded.now.sources + length problem.now.goals + length facts.now + 2 < 2 ^ 32 }
    ensures derived { IfOk result (λ made. AreDerivedFacts problem.now encoded.now (map (λ f. f.now) facts.now) live.now made.0.proof.lines made.0.files made.1) }
    ensures right { IfOk result (λ made. AreRightBefore problem.now.clauses encoded.now.fresh made.0.proof.lines (length made.0.proof.lines)) }
    ensures none_refutes { IfOk result (λ made. NoneRefutes made.0.proof.lines) }
    ensures in_order { IfOk result (λ made. AreInOrder made.0.proof.lines) }
    ensures lines { IfOk result (λ made. HaveLines (map (λ f. f.now) facts.now) made.0.proof.lines live.now made.1) }
    ensures as_many { IfOk result (λ made. length made.1 ≡ length live.now) }
{
    let aim = Aim::Facts(Seq::from_vec(Vec::from_slice(alloc, live)?));
    let (extracted, plan) = derivation(alloc, facts, &aim, problem, encoded)?;
    let numbers = plan.numbers_of(alloc, live)?;
    Ok((extracted, numbers))
}

/// The lines that an aim needs, with the plan of their parts.
fn derivation(
    alloc: Global,
    facts: &[&Fact],
    aim: &Aim,
    problem: &Problem,
    encoded: &Encoded,
) -> Result<(Extracted, Plan), AllocError>
    requires encoding { IsEncodingOf problem.now encoded.now }
    requires facts { FactsReplay encoded.now.axioms (map (λ f. f.now) facts.now) }
    requires reached { IsReached encoded.now (map (λ f. f.now) facts.now) aim.now }
    requires few { length encoded.now.sources + length problem.now.goals + length facts.now + 2 < 2 ^ 32 }
    ensures { IfOk result (λ made. (d : IsDerivation problem.now encoded.now (map (λ f. f.now) facts.now) aim.now made.0.proof.lines made.0.files) × (d.plan ≡ made.1)) }
{
    let needed = needed_for(alloc, facts, aim, encoded)?;
    let plan = Plan::of(alloc, &needed, problem, encoded, facts.len())?;
    let mut lines = Vec::new(alloc);
    let parts = plan.parts();
    for (number, part) in parts.iter().enumerate() {
        let line = line_of(alloc, &plan, problem, encoded, facts, aim, number, *part)?;
        lines.push(renumbered(alloc, line)?)?;
    }
    let files = files(alloc, problem, encoded, parts)?;
    let proof = Proof {
        lines: Seq::from_vec(lines),
    };
    Ok((Extracted { proof, files }, plan))
}
