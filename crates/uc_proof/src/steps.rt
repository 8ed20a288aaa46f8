//! The steps of a line's chain, and its parents.

ghost use Rattle.std.specs.Prelude.{◌≡◌, ◌<◌, IfOk};
ghost use Rattle.uc_term.specs.Tree.{nodes};
ghost use Rattle.uc_check.specs.Lines.{named_by};
ghost use Rattle.uc_proof.specs.Parts.{part_of};
ghost use Rattle.uc_proof.specs.Written.{IsStepFor, AreStepsFor};
ghost use Rattle.uc_proof.specs.Making.{IsAmong, IsReady, IsSourceFor};

use crate::needed::part_of;
use crate::plan::Plan;
use indexmap::IndexSet;
use std::alloc::{AllocError, Global};
use uc_check::{LineSource, LineStep};
use uc_fact::{Chain, Step};
use uc_term::{Seq, Term};

/// The chain as the source of a line. Its parents are the lines that its steps name, each once, by first use.
pub(crate) fn chain_source(
    alloc: Global,
    plan: &Plan,
    chain: &Chain,
) -> Result<LineSource, AllocError>
    requires { IsReady plan.now chain.now }
    ensures { IfOk result (IsSourceFor plan.now chain.now) }
{
    let steps = line_steps(alloc, plan, chain)?;
    Ok(LineSource::Chain {
        start: chain.start.copy(alloc)?,
        parents: parents(alloc, steps.as_slice())?,
        steps: Seq::from_vec(steps),
    })
}

// The steps, each with the number of its line and the path of its position.
fn line_steps(alloc: Global, plan: &Plan, chain: &Chain) -> Result<Vec<LineStep>, AllocError>
    requires { IsReady plan.now chain.now }
    ensures { IfOk result (λ written. AreStepsFor plan.now chain.now.start chain.now.steps written.items) }
{
    let mut written = Vec::new(alloc);
    let mut before = &chain.start;
    let steps = chain.steps.as_slice();
    for step in steps {
        written.push(line_step(alloc, plan, before, step)?)?;
        before = &step.to;
    }
    Ok(written)
}

fn line_step(alloc: Global, plan: &Plan, before: &Term, step: &Step) -> Result<LineStep, AllocError>
    requires named { IsAmong (part_of step.now.by) plan.now }
    requires inside { step.now.position.0 < nodes before.now }
    ensures { IfOk result (IsStepFor plan.now before.now step.now) }
{
    Ok(LineStep {
        by: plan.number(part_of(step.by)),
        left_to_right: step.left_to_right,
        path: before.path(alloc, step.position)?,
        to: step.to.copy(alloc)?,
    })
}

// The lines that the steps name, each once, by first use.
fn parents(alloc: Global, steps: &[LineStep]) -> Result<Seq<u32>, AllocError>
    ensures { IfOk result (λ parents. parents ≡ named_by steps.now) }
{
    let mut seen: IndexSet<u32> = IndexSet::new(alloc);
    for step in steps {
        seen.insert(step.by)?;
    }
    Ok(Seq::from_vec(Vec::from_slice(alloc, seen.as_slice())?))
}
