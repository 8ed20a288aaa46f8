//! One worker alone.

ghost use Rattle.std.specs.Prelude.{◌≡◌, ◌<◌, ◌^◌, ℕ, [], ◌∷◌, OnOk, OnErr};
ghost use Rattle.uc_book.specs.Openings.{opening_of};
ghost use Rattle.uc_book.specs.Answers.{IsSameBook};
ghost use Rattle.uc_machine.specs.Effects.{reclaims};
ghost use Rattle.uc_machine.specs.Events.{commits_by};
ghost use Rattle.uc_machine.specs.State.{Out};
ghost use Rattle.uc_search.specs.Working.{Counts, IsSamePass, IsToCompute, EndsAlone, EndsTask, TurnsTo, task_out, CommitsResult};

use crate::computing::compute_in;
use std::alloc::{AllocError, Global};
use std::sync::Wait;
use uc_bank::Bank;
use uc_book::{Book, CommitFault, Drawn, Pass, Task};
use uc_order::Order;
use uc_problem::Encoded;
use uc_shelf::Shelf;

/// Why a worker ended.
#[derive(Clone, Copy, PartialEq, Eq, Debug)]
pub enum Ended {
    /// Its last draw answered that nothing waits and no task is out.
    Drained,
    /// Its last draw answered that the book has a verdict.
    Closed,
    /// Memory is wanted.
    NoMemory,
}

/// What one turn of a worker comes to.
#[derive(Clone, Copy, PartialEq, Eq, Debug)]
enum Turn {
    /// A task was drawn and its result was committed.
    Worked,
    /// It ends.
    Ends(Ended),
}

/// More turns than a history can have commits.
const TURNS: u128 = 1 << 64;

/// Draws task after task and commits the result of each before the next draw, until nothing waits or the book has a verdict.
/// No task is out when it returns.
pub fn work_alone<R: Wait, O: Order>(
    rt: &R,
    alloc: Global,
    book: &mut Book<O>,
    shelf: &Shelf,
    problem: &Encoded,
    order: &O,
    pass: &mut Pass,
) -> Ended
    requires pass { pass.old.opening ≡ book.old.opening }
    requires problem { book.old.opening.problem ≡ problem.now }
    requires shelf { book.old.opening.shelf ≡ shelf.now }
    requires order { book.old.order ≡ order.now }
    requires none_out { book.old.state.out ≡ [] }
    ensures ended { EndsAlone (O.meaning book.old.order) (opening_of book.old.opening) pass.old.worker book.old.state result book.new.state }
    ensures none_out { book.new.state.out ≡ [] }
    ensures book { IsSameBook book.old book.new }
    ensures pass { IsSamePass pass.old pass.new }
    ensures count { Counts pass.old pass.new book.old.state book.new.state }
{
    has_few_commits(book, pass);
    let mut bank = Bank::new(alloc, shelf, order);
    for turn in 0..TURNS {
        if let Turn::Ends(why) = take_turn(rt, alloc, book, &mut bank, problem, pass) {
            return why;
        }
    }
    has_few_commits(book, pass);
    unreachable!()
}

/// Draws a task and commits its result, or says why there is none.
fn take_turn<R: Wait, O: Order>(
    rt: &R,
    alloc: Global,
    book: &mut Book<O>,
    bank: &mut Bank<O>,
    problem: &Encoded,
    pass: &mut Pass,
) -> Turn
    requires pass { pass.old.opening ≡ book.old.opening }
    requires problem { book.old.opening.problem ≡ problem.now }
    requires shelf { book.old.opening.shelf ≡ bank.old.shelf }
    requires order { book.old.order ≡ bank.old.order }
    requires none_out { book.old.state.out ≡ [] }
    ensures turned { TurnsTo (O.meaning book.old.order) (opening_of book.old.opening) pass.old.worker book.old.state result book.new.state }
    ensures none_out { book.new.state.out ≡ [] }
    ensures bank { bank.new ≡ bank.old }
    ensures book { IsSameBook book.old book.new }
    ensures pass { IsSamePass pass.old pass.new }
    ensures count { Counts pass.old pass.new book.old.state book.new.state }
{
    has_few_commits(book, pass);
    match book.draw(alloc, pass) {
        Ok(Drawn::Task(task)) => end_task(rt, alloc, book, bank, problem, pass, &task),
        Ok(Drawn::Drained) => Turn::Ends(Ended::Drained),
        Ok(Drawn::Closed(_)) => Turn::Ends(Ended::Closed),
        Ok(Drawn::Idle(_)) => unreachable!(),
        Err(_) => Turn::Ends(Ended::NoMemory),
    }
}

/// Commits the result of the task that is out, or puts the task back for want of memory.
fn end_task<R: Wait, O: Order>(
    rt: &R,
    alloc: Global,
    book: &mut Book<O>,
    bank: &mut Bank<O>,
    problem: &Encoded,
    pass: &mut Pass,
    task: &Task,
) -> Turn
    requires pass { pass.old.opening ≡ book.old.opening }
    requires problem { book.old.opening.problem ≡ problem.now }
    requires shelf { book.old.opening.shelf ≡ bank.old.shelf }
    requires order { book.old.order ≡ bank.old.order }
    requires task { IsToCompute (O.meaning book.old.order) book.old.opening task.now }
    requires front { task.now.front ≡ book.old.front }
    requires out { book.old.state.out ≡ task_out pass.old.worker task.now ∷ [] }
    ensures turned { EndsTask (O.meaning book.old.order) (opening_of book.old.opening) (task_out pass.old.worker task.now) book.old.state result book.new.state }
    ensures none_out { book.new.state.out ≡ [] }
    ensures bank { bank.new ≡ bank.old }
    ensures book { IsSameBook book.old book.new }
    ensures pass { IsSamePass pass.old pass.new }
    ensures count { Counts pass.old pass.new book.old.state book.new.state }
{
    has_few_commits(book, pass);
    match finish(rt, alloc, book, bank, problem, pass, task) {
        Ok(()) => Turn::Worked,
        Err(_) => {
            put_back(book, pass, task.ticket);
            Turn::Ends(Ended::NoMemory)
        }
    }
}

/// Computes the task that is out and commits its result. It fails for want of memory alone, since the book takes the result of
/// a task that is out.
fn finish<R: Wait, O: Order>(
    rt: &R,
    alloc: Global,
    book: &mut Book<O>,
    bank: &mut Bank<O>,
    problem: &Encoded,
    pass: &mut Pass,
    task: &Task,
) -> Result<(), AllocError>
    requires pass { pass.old.opening ≡ book.old.opening }
    requires problem { book.old.opening.problem ≡ problem.now }
    requires shelf { book.old.opening.shelf ≡ bank.old.shelf }
    requires order { book.old.order ≡ bank.old.order }
    requires task { IsToCompute (O.meaning book.old.order) book.old.opening task.now }
    requires front { task.now.front ≡ book.old.front }
    requires out { book.old.state.out ≡ task_out pass.old.worker task.now ∷ [] }
    ensures commits { OnOk result (CommitsResult (O.meaning book.old.order) (opening_of book.old.opening) (task_out pass.old.worker task.now) book.old.state book.new.state) }
    ensures none_out { OnOk result (book.new.state.out ≡ []) }
    ensures err { OnErr result ((book.new ≡ book.old) × (pass.new ≡ pass.old)) }
    ensures bank { bank.new ≡ bank.old }
    ensures book { IsSameBook book.old book.new }
    ensures pass { IsSamePass pass.old pass.new }
    ensures count { OnOk result (Counts pass.old pass.new book.old.state book.new.state) }
{
    has_front_of_state(book);
    let done = compute_in(alloc, bank, task, problem)?;
    match book.commit(rt, alloc, pass, done) {
        Ok(_) => {
            has_few_commits(book, pass);
            Ok(())
        }
        Err((_, CommitFault::NoMemory)) => Err(AllocError),
        Err((_, CommitFault::NotOut(_))) => unreachable!(),
    }
}

/// There are no more commits than a count of them can tell, since the history has a length; and the pass has such a count.
pub(crate) fn has_few_commits<O: Order>(book: &Book<O>, pass: &Pass)
    ensures history { (w : ℕ) → commits_by w book.now.state.history < 2 ^ 64 }
    ensures pass { pass.now.commits < 2 ^ 64 }
{
    let _events = book.history().len();
    let _commits = pass.commits();
}

/// The book's front has the entries of its state.
fn has_front_of_state<O: Order>(book: &Book<O>)
    ensures { book.now.front.entries ≡ book.now.state.entries }
{
    let _front = book.front();
}

/// Lets the task that is out wait again.
fn put_back<O: Order>(book: &mut Book<O>, pass: &mut Pass, ticket: u64)
    requires pass { pass.old.opening ≡ book.old.opening }
    requires out { (t : Out) × (book.old.state.out ≡ t ∷ []) × (t.ticket ≡ ticket) × (t.worker ≡ pass.old.worker) }
    ensures back { (t : Out) → book.old.state.out ≡ t ∷ [] → book.new.state ≡ reclaims t book.old.state }
    ensures book { IsSameBook book.old book.new }
    ensures pass { pass.new ≡ pass.old }
{
    match book.reclaim(pass, ticket) {
        Ok(()) => (),
        Err(_) => unreachable!(),
    }
}
