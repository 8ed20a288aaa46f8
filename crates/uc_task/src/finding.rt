//! What a job comes to over a front.

ghost use Rattle.std.specs.Prelude.{◌≡◌, IfOk};
ghost use Rattle.uc_shelf.specs.Fronts.{IsOf};
ghost use Rattle.uc_machine.specs.Results.{IsResult};
ghost use Rattle.uc_task.specs.Jobs.{CanBeDone};

use crate::goal::both_ends;
use crate::join::join;
use crate::meet::meet;
use std::alloc::{AllocError, Global};
use uc_bank::Bank;
use uc_fact::Equation;
use uc_machine::{Finding, Job};
use uc_order::Order;
use uc_shelf::Front;

/// What a job comes to over the facts that live in a front, on the shelf and by the order of a bank, whatever this remembers.
/// The two ends of a goal are normalised, with 4,096 steps together. The two sides of a pair are normalised, with 4,096 steps
/// each, and tested for equality up to brackets and order at associative and commutative symbols, and then for ground
/// joinability; what isn't joined gives a fact. A fact that another one reduces is stale; any other meets the earlier ones: it
/// kills those that it reduces, and is overlapped with each of them and with itself.
pub fn finding_of<O: Order>(
    alloc: Global,
    bank: &mut Bank<O>,
    job: &Job,
    front: &Front,
    axioms: &[Equation],
) -> Result<Finding, AllocError>
    requires of { IsOf bank.old.shelf front.now }
    requires can { CanBeDone (O.meaning bank.old.order) axioms.now front.now.entries job.now }
    ensures result { IfOk result (IsResult (O.meaning bank.old.order) axioms.now front.now.entries job.now) }
    ensures bank { bank.new ≡ bank.old }
{
    match job {
        Job::Goal { left, right, .. } => both_ends(alloc, bank, left, right, front),
        Job::More { left, right, .. } => both_ends(alloc, bank, left, right, front),
        Job::Meet(number) => meet(alloc, *number, bank.shelf(), front, bank.order()),
        Job::Join { origin, .. } => {
            join(alloc, origin, bank.shelf(), front, axioms, bank.order())
        }
    }
}
