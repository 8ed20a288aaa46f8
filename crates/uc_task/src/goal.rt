//! Tasks about goals.

ghost use Rattle.std.specs.Prelude.{◌≡◌, IfOk, List, ℕ};
ghost use Rattle.uc_term.specs.declared.equation.Equation.{Equation};
ghost use Rattle.uc_shelf.specs.Fronts.{IsOf};
ghost use Rattle.uc_machine.specs.Results.{IsResult, stop_of};
ghost use Rattle.uc_machine.specs.declared.task.Job.TheVariants.{Goal, More};

use std::alloc::{AllocError, Global};
use uc_bank::{Bank, normalise_in};
use uc_fact::Stop;
use uc_machine::Finding;
use uc_order::Order;
use uc_shelf::Front;
use uc_term::Term;

/// The most steps from the two ends of a goal together.
const MOST_STEPS: u32 = 4096;

/// The two ends of a goal are normalised, the left one first, with 4,096 steps together.
pub fn both_ends<O: Order>(
    alloc: Global,
    bank: &mut Bank<O>,
    left: &Term,
    right: &Term,
    front: &Front,
) -> Result<Finding, AllocError>
    requires of { IsOf bank.old.shelf front.now }
    ensures goal { IfOk result (λ finding. (axioms : List Equation) (g : ℕ) → IsResult (O.meaning bank.old.order) axioms front.now.entries (Goal g left.now right.now) finding) }
    ensures more { IfOk result (λ finding. (axioms : List Equation) (g : ℕ) → IsResult (O.meaning bank.old.order) axioms front.now.entries (More g left.now right.now) finding) }
    ensures bank { bank.new ≡ bank.old }
{
    let left = normalise_in(alloc, bank, left, front, MOST_STEPS)?;
    let rest = MOST_STEPS - left.chain.steps.len() as u32;
    let right = normalise_in(alloc, bank, right, front, rest)?;
    Ok(Finding::Ends {
        left: left.chain,
        right: right.chain,
        stop: stop_of(left.stop, right.stop),
    })
}

/// Why a task on two ends stopped.
fn stop_of(left: Stop, right: Stop) -> Stop
    ensures { result ≡ stop_of left right }
{
    match left {
        Stop::Steps => Stop::Steps,
        Stop::Size => match right {
            Stop::Steps => Stop::Steps,
            Stop::Size => Stop::Size,
            Stop::Full => Stop::Size,
        },
        Stop::Full => right,
    }
}
