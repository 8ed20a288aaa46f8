//! Lines whose variables are numbered by first occurrence.

ghost use Rattle.std.specs.Prelude.{◌≡◌, ◌++◌, ◌-◌, ◌<◌, ◌≤◌, ◌^◌, ℕ, List, map, IfOk, OnOk, OnErr};
ghost use Rattle.uc_term.specs.Variables.{variables, firsts_after, renumbered_by};
ghost use Rattle.uc_pair.specs.Numbering.{IsNumberedNode, IsNameAt};
ghost use Rattle.uc_tstp.specs.Printable.{renumbered_line, renumbered_source, renumbered_step, source_variables};
ghost use Rattle.uc_proof.specs.Making.{step_variables};

use indexmap::IndexSet;
use std::alloc::{AllocError, Global};
use uc_check::{Line, LineSource, LineStep};
use uc_term::{Node, Seq, Term};

/// The line with its variables numbered by first occurrence, over its sides, then its chain.
pub(crate) fn renumbered(alloc: Global, line: Line) -> Result<Line, AllocError>
    ensures { IfOk result (λ numbered. numbered ≡ renumbered_line line) }
{
    let mut names: IndexSet<u32> = IndexSet::new(alloc);
    Ok(Line {
        name: line.name,
        left: number(alloc, &line.left, &mut names)?,
        right: number(alloc, &line.right, &mut names)?,
        source: number_source(alloc, line.source, &mut names)?,
        positive: line.positive,
    })
}

fn number_source(
    alloc: Global,
    source: LineSource,
    names: &mut IndexSet<u32>,
) -> Result<LineSource, AllocError>
    ensures names { IfOk result (λ _. names.new.keys ≡ names.old.keys ++ firsts_after names.old.keys (source_variables source)) }
    ensures numbered { IfOk result (λ s. s ≡ renumbered_source names.new.keys source) }
{
    match source {
        LineSource::Chain {
            start,
            steps,
            parents,
        } => Ok(LineSource::Chain {
            start: number(alloc, &start, names)?,
            steps: number_steps(alloc, steps.as_slice(), names)?,
            parents,
        }),
        LineSource::File(name) => Ok(LineSource::File(name)),
        LineSource::Reflexive { parents } => Ok(LineSource::Reflexive { parents }),
        LineSource::EncodeGoal { parents } => Ok(LineSource::EncodeGoal { parents }),
        LineSource::Refute { parents } => Ok(LineSource::Refute { parents }),
    }
}

fn number_steps(
    alloc: Global,
    steps: &[LineStep],
    names: &mut IndexSet<u32>,
) -> Result<Seq<LineStep>, AllocError>
    ensures names { IfOk result (λ _. names.new.keys ≡ names.old.keys ++ firsts_after names.old.keys (step_variables steps.now)) }
    ensures numbered { IfOk result (λ ss. (rest : List ℕ) → ss ≡ map (renumbered_step (names.new.keys ++ rest)) steps.now) }
{
    let mut numbered = Vec::new(alloc);
    for step in steps {
        numbered.push(number_step(alloc, step, names)?)?;
    }
    Ok(Seq::from_vec(numbered))
}

fn number_step(
    alloc: Global,
    step: &LineStep,
    names: &mut IndexSet<u32>,
) -> Result<LineStep, AllocError>
    ensures names { IfOk result (λ _. names.new.keys ≡ names.old.keys ++ firsts_after names.old.keys (variables step.now.to)) }
    ensures numbered { IfOk result (λ s. (rest : List ℕ) → s ≡ renumbered_step (names.new.keys ++ rest) step.now) }
{
    Ok(LineStep {
        by: step.by,
        left_to_right: step.left_to_right,
        path: Seq::from_vec(Vec::from_slice(alloc, step.path.as_slice())?),
        to: number(alloc, &step.to, names)?,
    })
}

// The term with each variable numbered by its place among the names. New ones go behind the names, by first occurrence.
fn number(alloc: Global, term: &Term, names: &mut IndexSet<u32>) -> Result<Term, AllocError>
    ensures names { IfOk result (λ _. names.new.keys ≡ names.old.keys ++ firsts_after names.old.keys (variables term.now)) }
    // more names behind change nothing
    ensures numbered { IfOk result (λ t. (rest : List ℕ) → t ≡ renumbered_by (names.new.keys ++ rest) term.now) }
{
    let mut list = Vec::new(alloc);
    let nodes = term.as_nodes();
    for node in nodes {
        list.push(number_node(*node, names)?)?;
    }
    Ok(Term::from_nodes(list))
}

// The node with its variable numbered so. Room for 2^32 - 1 names is enough for every line that comes from a problem; past it
// the answer is that of want of memory.
fn number_node(node: Node, names: &mut IndexSet<u32>) -> Result<Node, AllocError>
    ensures { IfOk result (IsNumberedNode 0 node names.old.keys names.new.keys) }
{
    match node {
        Node::Var(x) => Ok(Node::Var(name_place(x, names)?)),
        Node::App(f, n) => Ok(Node::App(f, n)),
    }
}

// The place of a name, which goes behind the others where it is new.
fn name_place(x: u32, names: &mut IndexSet<u32>) -> Result<u32, AllocError>
    ensures { IfOk result (IsNameAt x names.old.keys names.new.keys) }
{
    check_names(names.len())?;
    let (place, _) = names.insert_full(x)?;
    Ok(place as u32)
}

// The most names.
const MOST: usize = u32::MAX as usize;

// Refuses a name more exactly where there are the most.
fn check_names(count: usize) -> Result<(), AllocError>
    ensures few { OnOk result (count < 2 ^ 32 - 1) }
    ensures refused { OnErr result (2 ^ 32 - 1 ≤ count) }
{
    if count >= MOST {
        return Err(AllocError);
    }
    Ok(())
}
