//! The turns of a worker: a task is drawn and computed, and its result is committed.

ghost use Rattle.std.specs.Prelude.{◌≡◌, IfOk, IfSome, OnOk};
ghost use Rattle.uc_shelf.specs.Fronts.{IsOf};
ghost use Rattle.uc_task.specs.Jobs.{CanBeDone};
ghost use Rattle.uc_book.specs.Answers.{IsRight, IsSameBook};

use std::alloc::{AllocError, Global};
use std::sync::Wait;
use std::test::Fail;
use uc_bank::Bank;
use uc_book::{Book, CommitFault, Done, Drawn, Opened, Pass, Task, copy_job};
use uc_order::Order;
use uc_problem::Encoded;
use uc_shelf::Shelf;
use uc_task::finding_of;

// The result of a task over the facts that live in its front.
fn compute<O: Order>(
    alloc: Global,
    task: &Task,
    problem: &Encoded,
    order: &O,
    shelf: &Shelf,
) -> Result<Done, AllocError>
    requires problem { task.now.opening.problem ≡ problem.now }
    requires shelf { task.now.opening.shelf ≡ shelf.now }
    requires of { IsOf shelf.now task.now.front }
    requires can { CanBeDone (O.meaning order.now) problem.now.axioms task.now.front.entries task.now.job }
    ensures opening { IfOk result (λ d. d.opening ≡ task.now.opening) }
    ensures front { IfOk result (λ d. d.front ≡ task.now.front) }
    ensures right { IfOk result (IsRight (O.meaning order.now)) }
{
    let axioms = problem.axioms.as_slice();
    let mut bank = Bank::new(alloc, shelf, order);
    let found = finding_of(alloc, &mut bank, &task.job, &task.front, axioms)?;
    let (budget, limit) = (task.opening.budget(), task.opening.limit());
    Ok(Done {
        ticket: task.ticket,
        job: copy_job(alloc, &task.job)?,
        front: task.front.copy(alloc)?,
        found,
        opening: Opened::new(problem, shelf, budget, limit),
    })
}

/// The result of the task that the worker draws next.
pub fn next_done<O: Order>(
    alloc: Global,
    problem: &Encoded,
    order: &O,
    shelf: &Shelf,
    book: &mut Book<O>,
    pass: &mut Pass,
) -> Result<Done, Fail>
    requires problem { book.old.opening.problem ≡ problem.now }
    requires order { book.old.order ≡ order.now }
    requires shelf { book.old.opening.shelf ≡ shelf.now }
    requires pass { pass.old.opening ≡ book.old.opening }
    ensures book { OnOk result (IsSameBook book.old book.new) }
    ensures pass { OnOk result (pass.new.opening ≡ pass.old.opening) }
    ensures opening { IfOk result (λ d. d.opening ≡ book.old.opening) }
    ensures of { IfOk result (λ d. IsOf book.old.opening.shelf d.front) }
    ensures right { IfOk result (IsRight (O.meaning book.old.order)) }
{
    let Drawn::Task(task) = book.draw(alloc, pass)? else {
        return Err(Fail::from("no task"));
    };
    Ok(compute(alloc, &task, problem, order, shelf)?)
}

/// Commits a result. A commit that finds no memory changes nothing, and is made again.
pub fn commit<R: Wait, O: Order>(
    rt: &R,
    alloc: Global,
    book: &mut Book<O>,
    pass: &mut Pass,
    done: Done,
) -> Result<(), Fail>
    requires pass { pass.old.opening ≡ book.old.opening }
    requires opening { done.opening ≡ book.old.opening }
    requires of { IsOf book.old.opening.shelf done.front }
    requires right { IsRight (O.meaning book.old.order) done }
    ensures book { OnOk result (IsSameBook book.old book.new) }
    ensures pass { OnOk result (pass.new.opening ≡ pass.old.opening) }
{
    let before = book.history().len();
    match book.commit(rt, alloc, pass, done) {
        Ok(_) => Ok(()),
        Err((_, CommitFault::NotOut(_))) => Err(Fail::from("not out")),
        Err((done, CommitFault::NoMemory)) => commit_again(rt, alloc, book, pass, done, before),
    }
}

// Commits a result that was refused, where the history is as long as before.
fn commit_again<R: Wait, O: Order>(
    rt: &R,
    alloc: Global,
    book: &mut Book<O>,
    pass: &mut Pass,
    done: Done,
    before: usize,
) -> Result<(), Fail>
    requires pass { pass.old.opening ≡ book.old.opening }
    requires opening { done.opening ≡ book.old.opening }
    requires of { IsOf book.old.opening.shelf done.front }
    requires right { IsRight (O.meaning book.old.order) done }
    ensures book { OnOk result (IsSameBook book.old book.new) }
    ensures pass { OnOk result (pass.new.opening ≡ pass.old.opening) }
{
    if book.history().len() != before {
        return Err(Fail::from("a refused commit changed the book"));
    }
    match book.commit(rt, alloc, pass, done) {
        Ok(_) => Ok(()),
        Err(_) => Err(Fail::from("refused twice")),
    }
}

/// So many turns.
pub fn turns<R: Wait, O: Order>(
    rt: &R,
    alloc: Global,
    problem: &Encoded,
    order: &O,
    shelf: &Shelf,
    book: &mut Book<O>,
    pass: &mut Pass,
    count: u32,
) -> Result<(), Fail>
    requires problem { book.old.opening.problem ≡ problem.now }
    requires order { book.old.order ≡ order.now }
    requires shelf { book.old.opening.shelf ≡ shelf.now }
    requires pass { pass.old.opening ≡ book.old.opening }
    ensures book { OnOk result (IsSameBook book.old book.new) }
    ensures pass { OnOk result (pass.new.opening ≡ pass.old.opening) }
{
    for _ in 0..count {
        let done = next_done(alloc, problem, order, shelf, book, pass)?;
        commit(rt, alloc, book, pass, done)?;
    }
    Ok(())
}

/// Whether a task comes next.
pub fn gets_task<O: Order>(
    alloc: Global,
    book: &mut Book<O>,
    pass: &mut Pass,
) -> Result<bool, AllocError>
    requires pass { pass.old.opening ≡ book.old.opening }
    ensures book { IsSameBook book.old book.new }
    ensures pass { pass.new ≡ pass.old }
{
    let drawn = book.draw(alloc, pass)?;
    Ok(matches!(drawn, Drawn::Task(_)))
}

/// Whether the task of the first ticket is put back, once.
pub fn is_put_back<O: Order>(book: &mut Book<O>, pass: &mut Pass) -> bool
    requires pass { pass.old.opening ≡ book.old.opening }
    ensures book { IsSameBook book.old book.new }
    ensures pass { pass.new ≡ pass.old }
{
    let is_out = book.reclaim(pass, 0).is_ok();
    let again = book.reclaim(pass, 0);
    is_out && matches!(again, Err(CommitFault::NotOut(0)))
}

// The result, where it is refused as one whose task isn't out.
fn refused<R: Wait, O: Order>(
    rt: &R,
    alloc: Global,
    book: &mut Book<O>,
    pass: &mut Pass,
    done: Done,
) -> Option<Done>
    requires pass { pass.old.opening ≡ book.old.opening }
    requires opening { done.opening ≡ book.old.opening }
    requires of { IsOf book.old.opening.shelf done.front }
    requires right { IsRight (O.meaning book.old.order) done }
    ensures book { IsSameBook book.old book.new }
    ensures pass { IfSome result (λ _. pass.new ≡ pass.old) }
    ensures done { IfSome result (λ d. d ≡ done) }
{
    match book.commit(rt, alloc, pass, done) {
        Ok(_) => None,
        Err((_, CommitFault::NoMemory)) => None,
        Err((done, CommitFault::NotOut(_))) => Some(done),
    }
}

/// Whether a result is refused before and after a newer one, and the newer one is taken.
pub fn takes_new_alone<R: Wait, O: Order>(
    rt: &R,
    alloc: Global,
    book: &mut Book<O>,
    pass: &mut Pass,
    old: Done,
    new: Done,
) -> Result<bool, Fail>
    requires pass { pass.old.opening ≡ book.old.opening }
    requires old_opening { old.opening ≡ book.old.opening }
    requires old_of { IsOf book.old.opening.shelf old.front }
    requires old_right { IsRight (O.meaning book.old.order) old }
    requires new_opening { new.opening ≡ book.old.opening }
    requires new_of { IsOf book.old.opening.shelf new.front }
    requires new_right { IsRight (O.meaning book.old.order) new }
{
    let Some(old) = refused(rt, alloc, book, pass, old) else {
        return Err(Fail::from("the old result is taken"));
    };
    commit(rt, alloc, book, pass, new)?;
    Ok(refused(rt, alloc, book, pass, old).is_some())
}
