//! The final pass.

ghost use Rattle.std.specs.Prelude.{◌≡◌, ◌+◌, ◌-◌, ◌<◌, ◌^◌, length, min, IfOk};
ghost use Rattle.uc_shelf.specs.Fronts.{IsOf};
ghost use Rattle.uc_machine.specs.State.{State};
ghost use Rattle.uc_machine.specs.Finals.{IsFinal};
ghost use Rattle.uc_final.specs.Stages.{stages_of};

use crate::answering::answer;
use crate::counted::FinalPasses;
use crate::overlapping::all_overlaps;
use crate::selecting::origins;
use crate::testing::missing_among;
use std::alloc::{AllocError, Global};
use std::thread::Threads;
use uc_fact::Equation;
use uc_machine::{Outcome, Stage};
use uc_order::Order;
use uc_shelf::{Front, Shelf};
use uc_task::live_facts;

/// Whether the facts that live in a front converge, for the axioms and by an order, where the goals are in these states: what
/// the final pass answers for each state of the book with this front and these goals.
///
/// Every axiom is tested in order, and then every overlap of two facts that live, also of a fact with itself, by outer fact,
/// inner fact and the order of their overlaps, but those that are too large: both sides are normalised by the facts that live,
/// with 4,096 steps each, and tested for equality up to brackets and order at associative and commutative symbols, and then, where
/// they aren't equal so, for ground joinability. The answer is the first of these that holds: `Missing`, where some of them aren't
/// joined, with all that aren't, in this order; `Large`, where some overlap is too large, with the first; `GoalUnsettled`, where
/// some goal is `Stuck`, with the first; `Convergent`, with the facts that live, in order. The pass is counted, also where it is
/// refused for want of memory.
///
/// The overlaps are formed and the pairs are tested by as many threads as there are workers, and the answer is the same for every
/// number of them. With one worker no thread is made.
pub fn final_pass<O: Order + Sync, R: Threads + Sync>(
    rt: &R,
    alloc: Global,
    shelf: &Shelf,
    front: &Front,
    axioms: &[Equation],
    stages: &[Stage],
    order: &O,
    workers: u32,
    passes: &mut FinalPasses,
) -> Result<Outcome, AllocError>
    requires of { IsOf shelf.now front.now }
    requires few_axioms { length axioms.now < 2 ^ 31 }
    requires few_goals { length stages.now < 2 ^ 31 }
    ensures outcome { IfOk result (λ outcome. (s : State) → s.entries ≡ front.now.entries → stages_of s.goals ≡ stages.now → IsFinal (O.meaning order.now) axioms.now s outcome) }
    ensures passes { passes.new ≡ min (passes.old + 1) (2 ^ 64 - 1) }
{
    passes.count();
    let threads = threads_for(workers);
    let facts = live_facts(alloc, shelf, front)?;
    let overlaps = all_overlaps(rt, alloc, facts.as_slice(), order, threads)?;
    let origins = origins(alloc, axioms, overlaps.as_slice())?;
    let missing = missing_among(
        rt,
        alloc,
        origins.as_slice(),
        shelf,
        front,
        axioms,
        order,
        threads,
    )?;
    answer(alloc, missing, overlaps.as_slice(), stages, facts)
}

/// How many threads make the tests: one at least.
fn threads_for(workers: u32) -> usize
    ensures some { 0 < result }
    ensures few { result < 2 ^ 32 }
{
    (workers as usize).max(1)
}
