//! The comparison of a book with the machine, in all that the book tells.

ghost use Rattle.std.specs.Prelude.{◌≡◌, ◌≤◌, length};

use crate::images::{has_lines, is_way};
use crate::machine::{Machine, small};
use crate::trouble::{Trouble, check};
use std::alloc::Global;
use uc_book::Book;
use uc_order::Order;
use uc_problem::Encoded;
use uc_shelf::Shelf;

/// Whether the two stand alike.
pub fn agree<O: Order>(
    alloc: Global,
    book: &Book<O>,
    shelf: &Shelf,
    problem: &Encoded,
    machine: &Machine,
) -> Result<(), Trouble>
    requires problem { book.now.opening.problem ≡ problem.now }
    requires shelf { book.now.opening.shelf ≡ shelf.now }
{
    agree_on_history(book, machine)?;
    check(book.counted() == machine.counted(), "the units counted")?;
    check(book.verdict().copied() == machine.verdict, "the verdict")?;
    let count = machine.lines.len();
    check(
        has_lines(shelf, book.front(), machine, count),
        "the entries",
    )?;
    agree_on_stages(alloc, book, machine)?;
    agree_on_goals(book, problem, machine)
}

fn agree_on_history<O: Order>(book: &Book<O>, machine: &Machine) -> Result<(), Trouble> {
    let (history, events) = (book.history(), &machine.history);
    check(history.len() == events.len(), "the number of events")?;
    for k in 0..history.len() {
        if k < events.len() {
            check(history[k] == events[k], "an event")?;
        }
    }
    Ok(())
}

fn agree_on_stages<O: Order>(
    alloc: Global,
    book: &Book<O>,
    machine: &Machine,
) -> Result<(), Trouble> {
    let (stages, goals) = (book.stages(alloc)?, &machine.goals);
    check(stages.len() == goals.len(), "the number of goals")?;
    for k in 0..stages.len() {
        if k < goals.len() {
            check(stages[k] == goals[k].stage, "a goal's state")?;
        }
    }
    Ok(())
}

fn agree_on_goals<O: Order>(
    book: &Book<O>,
    problem: &Encoded,
    machine: &Machine,
) -> Result<(), Trouble>
    requires problem { book.now.opening.problem ≡ problem.now }
{
    let (goals, starts) = (&machine.goals, problem.goals.as_slice());
    for k in 0..starts.len() {
        let number = small(k);
        if k < goals.len() && number as usize == k {
            let (left, right) = book.chain(number);
            let (left_end, right_end) = book.ends(number);
            let start = &starts[k];
            check(
                is_way(&goals[k].left, left, left_end, &start.left),
                "a left chain",
            )?;
            check(
                is_way(&goals[k].right, right, right_end, &start.right),
                "a right chain",
            )?;
        }
    }
    Ok(())
}
