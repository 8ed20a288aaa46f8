//! The start of a book.

ghost use Rattle.std.specs.Prelude.{◌≡◌, ℕ, ◌<◌, ◌^◌, length, None, IfOk, OnOk};
ghost use Rattle.boxcar.specs.Table.{Shelves};
ghost use Rattle.uc_machine.specs.declared.event.Verdict.TheVariants as Verdict;
ghost use Rattle.uc_machine.specs.State.{Opening};
ghost use Rattle.uc_machine.specs.Runs.{Starts, axiom_pairs, opened};
ghost use Rattle.uc_book.specs.Parts.{state_of, Fit, HasRoom};

use crate::limits::check_count;
use crate::parts::Parts;
use std::alloc::{AllocError, Global};
use uc_fact::{Equation, Origin};
use uc_ledger::State;
use uc_machine::Verdict;
use uc_problem::Encoded;
use uc_rows::{Facts, Goals, Pairs, no_numbers};

/// Refuses more axioms or goals than a book may have.
fn check_counts(problem: &Encoded) -> Result<(), AllocError>
    ensures axioms { OnOk result (length problem.now.axioms < 2 ^ 31) }
    ensures goals { OnOk result (length problem.now.goals < 2 ^ 31) }
{
    check_count(problem.axioms.len())?;
    check_count(problem.goals.len())
}

/// A pair for each axiom, which waits.
fn axiom_pairs(alloc: Global, axioms: &[Equation]) -> Result<Pairs, AllocError>
    requires { length axioms.now < 2 ^ 31 }
    ensures pairs { IfOk result (λ p. p.pairs ≡ axiom_pairs 0 axioms.now) }
    ensures draws { IfOk result (λ p. p.draws ≡ 0) }
{
    let mut pairs = Pairs::new(alloc)?;
    pairs.reserve(alloc, axioms.len() as u32)?;
    for k in 0..axioms.len() {
        let axiom = &axioms[k];
        let weight = axiom.left.nodes() + axiom.right.nodes();
        pairs.add(alloc, Origin::Axiom(k as u32), weight, State::Waiting);
    }
    Ok(pairs)
}

impl Parts {
    /// Each axiom is a pair that waits, and each goal is Due. Where there are more axioms than pairs may wait, the book is
    /// closed, and none waits. From 2^31 axioms or goals on it is refused: so many need more memory than a book may have.
    pub(crate) fn start(alloc: Global, problem: &Encoded, limit: u32) -> Result<Parts, AllocError>
        ensures axioms { OnOk result (length problem.now.axioms < 2 ^ 31) }
        ensures goals { OnOk result (length problem.now.goals < 2 ^ 31) }
        ensures starts { IfOk result (λ p. (budget : ℕ) → Starts (record { axioms = problem.now.axioms; goals = problem.now.goals; budget = budget; limit = limit }) (state_of p)) }
        ensures fit { IfOk result (λ p. (shelf : Shelves) → Fit shelf p) }
        ensures room { IfOk result HasRoom }
    {
        check_counts(problem)?;
        let axioms = problem.axioms.as_slice();
        if axioms.len() > limit as usize {
            let mut parts = opened(alloc, problem, Pairs::new(alloc)?)?;
            parts.close(0, too_many(axioms.len() as u64));
            return Ok(parts);
        }
        opened(alloc, problem, axiom_pairs(alloc, axioms)?)
    }
}

/// There are more new pairs than may wait.
fn too_many(new: u64) -> Verdict
    ensures { result ≡ Verdict.PairsOut 0 new }
{
    Verdict::PairsOut { waiting: 0, new }
}

/// The parts of a book in which nothing happened yet, with these pairs.
fn opened(alloc: Global, problem: &Encoded, pairs: Pairs) -> Result<Parts, AllocError>
    requires goals { length problem.now.goals < 2 ^ 31 }
    requires draws { pairs.draws ≡ 0 }
    ensures state { IfOk result (λ p. (o : Opening) → o.goals ≡ problem.now.goals → state_of p ≡ opened o pairs.pairs) }
    ensures fit { IfOk result (λ p. (shelf : Shelves) → Fit shelf p) }
    ensures room { IfOk result HasRoom }
    ensures verdict { IfOk result (λ p. p.verdict ≡ None) }
{
    let mut history = Vec::new(alloc);
    history.reserve(1)?;
    Ok(Parts {
        facts: Facts::new(alloc),
        pairs,
        goals: Goals::new(alloc, problem.goals.as_slice())?,
        tasks: Vec::new(alloc),
        next: 0,
        counted: 0,
        reserved: 0,
        verdict: None,
        numbers: no_numbers(alloc)?,
        history,
    })
}
