//! Runs of a book beside the machine: calls of three workers by chance, with the results of their tasks, and after each call
//! the two are compared.

ghost use Rattle.std.specs.Prelude.{◌≡◌, ◌<◌, ◌∷◌, ◌++◌, [], OnOk, IfOk};
ghost use Rattle.uc_book.specs.Openings.{HasNot};
ghost use Rattle.uc_book.specs.Answers.{IsSameBook};
ghost use Rattle.trial_book.specs.Hands.{IsHandOf};
ghost use Rattle.trial_book.specs.Teams.{IsTeamOf, IsSameOpening};

use crate::agreeing::agree;
use crate::hand::{Hand, commit, draw, put_back};
use crate::machine::{Machine, start};
use crate::problems::{Generator, marks, weights};
use crate::rest::end_round;
use crate::trouble::{Trouble, check};
use std::alloc::{AllocError, Global};
use std::sync::Wait;
use std::thread::Threads;
use uc_book::{Book, Pass, WORKERS};
use uc_order::Order;
use uc_problem::Encoded;
use uc_shelf::Shelf;

/// The workers of a run.
#[derive(Drop)]
struct Team {
    one: Hand,
    other: Hand,
    last: Hand,
}

/// A run of so many calls over a problem by chance. The answer is the machine at its end.
pub fn run<R: Threads + Wait + Sync, O: Order + Sync>(
    rt: &R,
    alloc: Global,
    order: &O,
    seed: u32,
    calls: u32,
) -> Result<Machine, Trouble> {
    let mut chance = Generator::from(seed);
    let problem = chance.problem(alloc)?;
    let shelf = Shelf::new(alloc)?;
    run_over(rt, alloc, &shelf, &problem, order, &mut chance, calls)
}

// A run over this problem.
fn run_over<R: Threads + Wait + Sync, O: Order + Sync>(
    rt: &R,
    alloc: Global,
    shelf: &Shelf,
    problem: &Encoded,
    order: &O,
    chance: &mut Generator,
    calls: u32,
) -> Result<Machine, Trouble> {
    let (budget, limit) = (chance.often_large(), chance.often_large());
    let machine = machine_of(alloc, problem, budget, limit)?;
    let book = Book::start(alloc, problem, order, shelf, budget, limit)?;
    run_beside(
        rt, alloc, book, machine, shelf, problem, order, chance, calls,
    )
}

// The machine at the start of this problem.
fn machine_of(
    alloc: Global,
    problem: &Encoded,
    budget: u32,
    limit: u32,
) -> Result<Machine, AllocError> {
    let weights = weights(alloc, problem.axioms.as_slice())?;
    let marks = marks(alloc, problem.goals.as_slice())?;
    start(alloc, &weights, &marks, budget, limit)
}

// A run of this book beside this machine.
fn run_beside<R: Threads + Wait + Sync, O: Order + Sync>(
    rt: &R,
    alloc: Global,
    mut book: Book<O>,
    mut machine: Machine,
    shelf: &Shelf,
    problem: &Encoded,
    order: &O,
    chance: &mut Generator,
    calls: u32,
) -> Result<Machine, Trouble>
    requires none { book.enrolled ≡ [] }
    requires problem { book.opening.problem ≡ problem.now }
    requires shelf { book.opening.shelf ≡ shelf.now }
    requires order { book.order ≡ order.now }
{
    run_on(
        rt,
        alloc,
        &mut book,
        shelf,
        problem,
        order,
        &mut machine,
        chance,
        calls,
    )?;
    Ok(machine)
}

// The same, of a book and a machine that are lent.
fn run_on<R: Threads + Wait + Sync, O: Order + Sync>(
    rt: &R,
    alloc: Global,
    book: &mut Book<O>,
    shelf: &Shelf,
    problem: &Encoded,
    order: &O,
    machine: &mut Machine,
    chance: &mut Generator,
    calls: u32,
) -> Result<(), Trouble>
    requires none { book.old.enrolled ≡ [] }
    requires problem { book.old.opening.problem ≡ problem.now }
    requires shelf { book.old.opening.shelf ≡ shelf.now }
    requires order { book.old.order ≡ order.now }
{
    let mut team = enrolled(alloc, book)?;
    let workers = &mut team;
    make_calls(
        rt, alloc, book, shelf, problem, order, machine, workers, chance, calls,
    )
}

// So many calls, with a comparison after each.
fn make_calls<R: Threads + Wait + Sync, O: Order + Sync>(
    rt: &R,
    alloc: Global,
    book: &mut Book<O>,
    shelf: &Shelf,
    problem: &Encoded,
    order: &O,
    machine: &mut Machine,
    team: &mut Team,
    chance: &mut Generator,
    calls: u32,
) -> Result<(), Trouble>
    requires team { IsTeamOf (O.meaning book.old.order) book.old.opening team.old }
    requires problem { book.old.opening.problem ≡ problem.now }
    requires shelf { book.old.opening.shelf ≡ shelf.now }
    requires order { book.old.order ≡ order.now }
{
    for _ in 0..calls {
        call(
            rt, alloc, book, shelf, problem, order, machine, team, chance,
        )?;
        agree_with(alloc, book, shelf, problem, machine, team)?;
    }
    Ok(())
}

// The book and the passes stand as the machine does.
fn agree_with<O: Order>(
    alloc: Global,
    book: &Book<O>,
    shelf: &Shelf,
    problem: &Encoded,
    machine: &Machine,
    team: &Team,
) -> Result<(), Trouble>
    requires problem { book.now.opening.problem ≡ problem.now }
    requires shelf { book.now.opening.shelf ≡ shelf.now }
{
    agree(alloc, book, shelf, problem, machine)?;
    agree_on_commits(team, machine)
}

// The passes count the commits.
fn agree_on_commits(team: &Team, machine: &Machine) -> Result<(), Trouble> {
    agree_on_count(&team.one.pass, machine)?;
    agree_on_count(&team.other.pass, machine)?;
    agree_on_count(&team.last.pass, machine)
}

// The pass counts the commits of its worker.
fn agree_on_count(pass: &Pass, machine: &Machine) -> Result<(), Trouble> {
    let count = machine.commits_of(pass.worker());
    check(pass.commits() == count, "the commits of a worker")
}

// Three workers, with nothing in their hands.
fn enrolled<O: Order>(alloc: Global, book: &mut Book<O>) -> Result<Team, AllocError>
    requires none { book.old.enrolled ≡ [] }
    ensures book { OnOk result (IsSameOpening book.old book.new) }
    ensures team { IfOk result (IsTeamOf (O.meaning book.old.order) book.old.opening) }
{
    let one = enrolled_as(alloc, book, 0)?;
    let other = enrolled_as(alloc, book, 1)?;
    let last = enrolled_as(alloc, book, 64)?;
    Ok(Team { one, other, last })
}

// A worker with nothing in its hand.
fn enrolled_as<O: Order>(alloc: Global, book: &mut Book<O>, worker: u32) -> Result<Hand, AllocError>
    requires few { worker < WORKERS }
    requires first { HasNot worker book.old.enrolled }
    ensures book { OnOk result (book.new ≡ record book.old { enrolled = book.old.enrolled ++ worker ∷ [] }) }
    ensures hand { IfOk result (IsHandOf (O.meaning book.old.order) book.old.opening) }
{
    let pass = book.enroll(alloc, worker)?;
    Ok(Hand { pass, task: None })
}

// A call of one of the workers.
fn call<R: Threads + Wait + Sync, O: Order + Sync>(
    rt: &R,
    alloc: Global,
    book: &mut Book<O>,
    shelf: &Shelf,
    problem: &Encoded,
    order: &O,
    machine: &mut Machine,
    team: &mut Team,
    chance: &mut Generator,
) -> Result<(), Trouble>
    requires team { IsTeamOf (O.meaning book.old.order) book.old.opening team.old }
    requires problem { book.old.opening.problem ≡ problem.now }
    requires shelf { book.old.opening.shelf ≡ shelf.now }
    requires order { book.old.order ≡ order.now }
    ensures book { OnOk result (IsSameBook book.old book.new) }
    ensures team { OnOk result (IsTeamOf (O.meaning book.old.order) book.old.opening team.new) }
{
    match chance.below(3) {
        0 => {
            let hand = &mut team.one;
            turn(
                rt, alloc, book, shelf, problem, order, machine, hand, chance,
            )
        }
        1 => {
            let hand = &mut team.other;
            turn(
                rt, alloc, book, shelf, problem, order, machine, hand, chance,
            )
        }
        _ => {
            let hand = &mut team.last;
            turn(
                rt, alloc, book, shelf, problem, order, machine, hand, chance,
            )
        }
    }
}

// A call of this worker.
fn turn<R: Threads + Wait + Sync, O: Order + Sync>(
    rt: &R,
    alloc: Global,
    book: &mut Book<O>,
    shelf: &Shelf,
    problem: &Encoded,
    order: &O,
    machine: &mut Machine,
    hand: &mut Hand,
    chance: &mut Generator,
) -> Result<(), Trouble>
    requires hand { IsHandOf (O.meaning book.old.order) book.old.opening hand.old }
    requires problem { book.old.opening.problem ≡ problem.now }
    requires shelf { book.old.opening.shelf ≡ shelf.now }
    requires order { book.old.order ≡ order.now }
    ensures book { OnOk result (IsSameBook book.old book.new) }
    ensures hand { OnOk result (IsHandOf (O.meaning book.old.order) book.old.opening hand.new) }
{
    match chance.below(16) {
        0..=6 => go_on(rt, alloc, book, shelf, order, machine, hand),
        7..=13 => commit(rt, alloc, book, shelf, problem, order, machine, hand),
        14 => put_back(book, machine, hand),
        _ => recall(book, machine),
    }
}

// A draw, and where the book is drained what ends its round.
fn go_on<R: Threads + Wait + Sync, O: Order + Sync>(
    rt: &R,
    alloc: Global,
    book: &mut Book<O>,
    shelf: &Shelf,
    order: &O,
    machine: &mut Machine,
    hand: &mut Hand,
) -> Result<(), Trouble>
    requires hand { IsHandOf (O.meaning book.old.order) book.old.opening hand.old }
    requires shelf { book.old.opening.shelf ≡ shelf.now }
    requires order { book.old.order ≡ order.now }
    ensures book { OnOk result (IsSameBook book.old book.new) }
    ensures hand { OnOk result (IsHandOf (O.meaning book.old.order) book.old.opening hand.new) }
{
    if draw(alloc, book, shelf, machine, hand)? {
        end_round(rt, alloc, book, shelf, order, machine)
    } else {
        Ok(())
    }
}

// All tasks are put back.
fn recall<O: Order>(book: &mut Book<O>, machine: &mut Machine) -> Result<(), Trouble>
    ensures book { OnOk result (IsSameBook book.old book.new) }
{
    book.recall();
    machine.recall()?;
    Ok(())
}
