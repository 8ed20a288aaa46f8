//! The calls of one worker, each made on the book and on the machine, whose answers are compared.

ghost use Rattle.std.specs.Prelude.{◌≡◌, OnOk, IfOk, IsTrue};
ghost use Rattle.uc_machine.specs.Runs.{IsDrained};
ghost use Rattle.uc_shelf.specs.Fronts.{IsOf};
ghost use Rattle.uc_book.specs.Answers.{IfTask, IsRight, IsSameBook};
ghost use Rattle.uc_search.specs.Working.{IsToCompute};
ghost use Rattle.trial_book.specs.Hands.{IsHandOf};

use crate::images::{found_of, is_drawn, lines_of, work_of};
use crate::machine::{Found, Machine};
use crate::trouble::{Trouble, check};
use std::alloc::{AllocError, Global};
use std::sync::Wait;
use uc_book::{Book, CommitFault, Done, Drawn, Pass, Receipt, Task};
use uc_order::Order;
use uc_problem::Encoded;
use uc_search::compute;
use uc_shelf::Shelf;

/// A worker: its pass, and the task that it drew last, which may have been put back meanwhile.
#[derive(Drop)]
pub struct Hand {
    pub pass: Pass,
    pub task: Option<Task>,
}

/// The worker draws. True where the answer is that the book is drained.
pub fn draw<O: Order>(
    alloc: Global,
    book: &mut Book<O>,
    shelf: &Shelf,
    machine: &mut Machine,
    hand: &mut Hand,
) -> Result<bool, Trouble>
    requires hand { IsHandOf (O.meaning book.old.order) book.old.opening hand.old }
    requires shelf { book.old.opening.shelf ≡ shelf.now }
    ensures drained { IfOk result (λ is_drained. IsTrue is_drained → IsDrained book.new.state) }
    ensures book { OnOk result (IsSameBook book.old book.new) }
    ensures hand { OnOk result (IsHandOf (O.meaning book.old.order) book.old.opening hand.new) }
{
    let drawn = book.draw(alloc, &mut hand.pass)?;
    agree_on_draw(shelf, machine, hand.pass.worker(), &drawn)?;
    match drawn {
        Drawn::Task(task) => {
            hand.task = Some(task);
            Ok(false)
        }
        Drawn::Drained => Ok(true),
        Drawn::Idle(_) | Drawn::Closed(_) => Ok(false),
    }
}

// The machine draws, and answers alike.
fn agree_on_draw(
    shelf: &Shelf,
    machine: &mut Machine,
    worker: u32,
    drawn: &Drawn,
) -> Result<(), Trouble>
    requires { IfTask drawn.now (λ task. IsOf shelf.now task.front) }
{
    let answer = machine.draw(worker)?;
    check(is_drawn(shelf, machine, &answer, drawn), "a draw")
}

/// The worker commits the result of the task that it drew last, whether it is out or not.
pub fn commit<R: Wait, O: Order>(
    rt: &R,
    alloc: Global,
    book: &mut Book<O>,
    shelf: &Shelf,
    problem: &Encoded,
    order: &O,
    machine: &mut Machine,
    hand: &mut Hand,
) -> Result<(), Trouble>
    requires hand { IsHandOf (O.meaning book.old.order) book.old.opening hand.old }
    requires problem { book.old.opening.problem ≡ problem.now }
    requires shelf { book.old.opening.shelf ≡ shelf.now }
    requires order { book.old.order ≡ order.now }
    ensures book { OnOk result (IsSameBook book.old book.new) }
    ensures hand { OnOk result (IsHandOf (O.meaning book.old.order) book.old.opening hand.new) }
{
    match hand.task.take() {
        Some(task) => {
            let pass = &mut hand.pass;
            commit_task(rt, alloc, book, shelf, problem, order, machine, pass, &task)
        }
        None => Ok(()),
    }
}

// The worker commits the result of this task.
fn commit_task<R: Wait, O: Order>(
    rt: &R,
    alloc: Global,
    book: &mut Book<O>,
    shelf: &Shelf,
    problem: &Encoded,
    order: &O,
    machine: &mut Machine,
    pass: &mut Pass,
    task: &Task,
) -> Result<(), Trouble>
    requires pass { pass.old.opening ≡ book.old.opening }
    requires task { IsToCompute (O.meaning book.old.order) book.old.opening task.now }
    requires problem { book.old.opening.problem ≡ problem.now }
    requires shelf { book.old.opening.shelf ≡ shelf.now }
    requires order { book.old.order ≡ order.now }
    ensures book { OnOk result (IsSameBook book.old book.new) }
    ensures pass { OnOk result (pass.new.opening ≡ pass.old.opening) }
{
    let done = compute(alloc, task, shelf, problem, order)?;
    let event = commit_slowly(alloc, shelf, machine, pass.worker(), &done)?;
    commit_alike(rt, alloc, book, pass, done, event)
}

// The machine takes the result.
fn commit_slowly(
    alloc: Global,
    shelf: &Shelf,
    machine: &mut Machine,
    worker: u32,
    done: &Done,
) -> Result<Option<usize>, AllocError>
    requires { IsOf shelf.now done.now.front }
{
    let found = found_of(alloc, &done.found)?;
    commit_found(alloc, shelf, machine, worker, done, &found)
}

// The machine takes the result, in which this was found.
fn commit_found(
    alloc: Global,
    shelf: &Shelf,
    machine: &mut Machine,
    worker: u32,
    done: &Done,
    found: &Found,
) -> Result<Option<usize>, AllocError>
    requires { IsOf shelf.now done.now.front }
{
    let lines = lines_of(alloc, shelf, &done.front)?;
    let work = work_of(&done.job);
    machine.commit(alloc, worker, done.ticket, work, &lines, found)
}

// The book takes the result as the machine did.
fn commit_alike<R: Wait, O: Order>(
    rt: &R,
    alloc: Global,
    book: &mut Book<O>,
    pass: &mut Pass,
    done: Done,
    event: Option<usize>,
) -> Result<(), Trouble>
    requires pass { pass.old.opening ≡ book.old.opening }
    requires opening { done.opening ≡ book.old.opening }
    requires of { IsOf book.old.opening.shelf done.front }
    requires right { IsRight (O.meaning book.old.order) done }
    ensures book { OnOk result (IsSameBook book.old book.new) }
    ensures pass { OnOk result (pass.new.opening ≡ pass.old.opening) }
{
    match book.commit(rt, alloc, pass, done) {
        Ok(receipt) => is_event(&receipt, event),
        Err((done, fault)) => is_refused(fault, done.ticket, event),
    }
}

// Whether the receipt is for the event of this number.
fn is_event(receipt: &Receipt, event: Option<usize>) -> Result<(), Trouble> {
    match event {
        Some(number) => check(receipt.event == number as u64, "a receipt"),
        None => check(false, "a result taken"),
    }
}

// Whether the result of the ticket is refused alike.
fn is_refused(fault: CommitFault, ticket: u64, event: Option<usize>) -> Result<(), Trouble> {
    match fault {
        CommitFault::NotOut(other) => {
            check(event.is_none() && other == ticket, "a result refused")
        }
        CommitFault::NoMemory => Err(Trouble::NoMemory),
    }
}

/// The worker puts the task back that it drew last, whether it is out or not, and keeps it in hand.
pub fn put_back<O: Order>(
    book: &mut Book<O>,
    machine: &mut Machine,
    hand: &mut Hand,
) -> Result<(), Trouble>
    requires hand { IsHandOf (O.meaning book.old.order) book.old.opening hand.old }
    ensures book { OnOk result (IsSameBook book.old book.new) }
    ensures hand { OnOk result (IsHandOf (O.meaning book.old.order) book.old.opening hand.new) }
{
    let Some(ticket) = ticket_of(&hand.task) else {
        return Ok(());
    };
    let is_out = machine.reclaim(hand.pass.worker(), ticket)?;
    match book.reclaim(&mut hand.pass, ticket) {
        Ok(()) => check(is_out, "a task put back"),
        Err(CommitFault::NotOut(other)) => check(!is_out && other == ticket, "a ticket refused"),
        Err(CommitFault::NoMemory) => check(false, "a task put back"),
    }
}

fn ticket_of(task: &Option<Task>) -> Option<u64> {
    match task {
        Some(task) => Some(task.ticket),
        None => None,
    }
}
