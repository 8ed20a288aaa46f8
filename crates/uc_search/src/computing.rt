//! Results of tasks.

ghost use Rattle.std.specs.Prelude.{◌≡◌, IfOk};
ghost use Rattle.uc_shelf.specs.Fronts.{IsOf};
ghost use Rattle.uc_task.specs.Jobs.{CanBeDone};
ghost use Rattle.uc_book.specs.Answers.{IsRight};
ghost use Rattle.uc_search.specs.Working.{IsDoneFor};

use std::alloc::{AllocError, Global};
use uc_bank::Bank;
use uc_book::{Done, Opened, Task, copy_job};
use uc_order::Order;
use uc_problem::Encoded;
use uc_shelf::Shelf;
use uc_task::finding_of;

/// The result of a task over the facts that live in its front: that of [`compute_in`] with an empty bank.
pub fn compute<O: Order>(
    alloc: Global,
    task: &Task,
    shelf: &Shelf,
    problem: &Encoded,
    order: &O,
) -> Result<Done, AllocError>
    requires problem { task.now.opening.problem ≡ problem.now }
    requires shelf { task.now.opening.shelf ≡ shelf.now }
    requires of { IsOf shelf.now task.now.front }
    requires can { CanBeDone (O.meaning order.now) problem.now.axioms task.now.front.entries task.now.job }
    ensures done { IfOk result (IsDoneFor task.now) }
    ensures right { IfOk result (IsRight (O.meaning order.now)) }
{
    compute_in(alloc, &mut Bank::new(alloc, shelf, order), task, problem)
}

/// The result of a task over the facts that live in its front, on the shelf and by the order of a bank. It is the same whatever
/// the bank remembers, and the bank may remember more after it.
pub fn compute_in<O: Order>(
    alloc: Global,
    bank: &mut Bank<O>,
    task: &Task,
    problem: &Encoded,
) -> Result<Done, AllocError>
    requires problem { task.now.opening.problem ≡ problem.now }
    requires shelf { task.now.opening.shelf ≡ bank.old.shelf }
    requires of { IsOf bank.old.shelf task.now.front }
    requires can { CanBeDone (O.meaning bank.old.order) problem.now.axioms task.now.front.entries task.now.job }
    ensures done { IfOk result (IsDoneFor task.now) }
    ensures right { IfOk result (IsRight (O.meaning bank.old.order)) }
    ensures bank { bank.new ≡ bank.old }
{
    // What can't be remembered is compared where it is wanted.
    let _ = bank.learn(alloc, &task.front);
    let axioms = problem.axioms.as_slice();
    let found = finding_of(alloc, bank, &task.job, &task.front, axioms)?;
    let (budget, limit) = (task.opening.budget(), task.opening.limit());
    Ok(Done {
        ticket: task.ticket,
        job: copy_job(alloc, &task.job)?,
        front: task.front.copy(alloc)?,
        found,
        opening: Opened::new(problem, bank.shelf(), budget, limit),
    })
}
