//! The book: whole histories of small problems.

pub(crate) mod settings;
pub(crate) mod turns;

ghost use Rattle.std.specs.Prelude.{◌≡◌, ◌∷◌, []};
ghost use Rattle.uc_book.specs.Answers.{IsSameBook};

use crate::alphabet::Sides;
use crate::books::settings::{Setting, begin, set_up};
use crate::books::turns::{commit, gets_task, is_put_back, next_done, takes_new_alone, turns};
use std::alloc::{AllocError, Global};
use std::sync::Wait;
use std::test::Fail;
use uc_book::{Book, CommitFault, Drawn, Pass};
use uc_kbo::Kbo;
use uc_machine::{Ending, Event, GoalEnd, Happening, Job, Verdict};
use uc_order::Order;
use uc_problem::Encoded;
use uc_shelf::Shelf;

// f(a) = b
const SHORT: Sides = (b"af", b"b");

// f(f(b)) = a
const LONG: Sides = (b"bff", b"a");

// b = a
const CONSTANTS: Sides = (b"b", b"a");

// a = a
const SAME: Sides = (b"a", b"a");

// The worker of an event, and what happened.
type Row = (u32, Happening);

// Whether these are the events.
fn are_events(history: &[Event], rows: &[Row]) -> bool {
    if history.len() != rows.len() {
        return false;
    }
    for (event, (worker, what)) in history.iter().zip(rows) {
        if event.worker != *worker || event.what != *what {
            return false;
        }
    }
    true
}

// The events of a goal that is drawn twice, and whose result leaves its ends apart.
const DRAWING_AGAIN: &[Row] = &[
    (1, Happening::DrawGoal { goal: 0, front: 0 }),
    (1, Happening::ReclaimGoal { goal: 0 }),
    (1, Happening::DrawGoal { goal: 0, front: 0 }),
    (
        1,
        Happening::CommitGoal {
            goal: 0,
            steps: 0,
            end: GoalEnd::Full,
        },
    ),
];

// Whether what was found for a task is refused when the task was put back and drawn again.
fn is_old_refused<R: Wait, O: Order>(
    rt: &R,
    alloc: Global,
    problem: &Encoded,
    order: &O,
    shelf: &Shelf,
    book: &mut Book<O>,
    pass: &mut Pass,
) -> Result<bool, Fail>
    requires problem { book.old.opening.problem ≡ problem.now }
    requires order { book.old.order ≡ order.now }
    requires shelf { book.old.opening.shelf ≡ shelf.now }
    requires pass { pass.old.opening ≡ book.old.opening }
{
    let old = next_done(alloc, problem, order, shelf, book, pass)?;
    if !is_put_back(book, pass) {
        return Ok(false);
    }
    let new = next_done(alloc, problem, order, shelf, book, pass)?;
    takes_new_alone(rt, alloc, book, pass, old, new)
}

// A task is drawn, put back and drawn again: what was found under the old ticket is refused before and after what was found
// under the new one, and changes nothing.
#[test]
fn an_old_ticket_is_refused(rt: HostRuntime) -> Result<(), Fail> {
    let at = set_up(rt.alloc(), &[], &[CONSTANTS])?;
    assert!(rt; draws_again(&rt, rt.alloc(), &at)?);
    Ok(())
}

fn draws_again<R: Wait>(rt: &R, alloc: Global, at: &Setting) -> Result<bool, Fail> {
    let (mut book, mut pass) = begin(alloc, at, &at.order, 9, 9, 1)?;
    let is_refused = is_old_refused(
        rt,
        alloc,
        &at.problem,
        &at.order,
        &at.shelf,
        &mut book,
        &mut pass,
    )?;
    Ok(is_refused && pass.commits() == 1 && are_events(book.history(), DRAWING_AGAIN))
}

// The events of two tasks that are recalled, of which one is drawn again.
const RECALLING: &[Row] = &[
    (3, Happening::DrawGoal { goal: 0, front: 0 }),
    (64, Happening::DrawJoin { pair: 1, front: 0 }),
    (3, Happening::ReclaimGoal { goal: 0 }),
    (64, Happening::ReclaimJoin { pair: 1 }),
    (64, Happening::DrawGoal { goal: 0, front: 0 }),
];

// Whether the goal comes next, under the third ticket.
fn gets_goal(alloc: Global, book: &mut Book<Kbo>, pass: &mut Pass) -> Result<bool, AllocError>
    requires pass { pass.old.opening ≡ book.old.opening }
    ensures book { IsSameBook book.old book.new }
    ensures pass { pass.new ≡ pass.old }
{
    let drawn = book.draw(alloc, pass)?;
    match &drawn {
        Drawn::Task(task) => Ok(task.ticket == 2 && matches!(task.job, Job::Goal { goal: 0, .. })),
        _ => Ok(false),
    }
}

// Whether two tasks come, and no third one.
fn gets_two(
    alloc: Global,
    book: &mut Book<Kbo>,
    one: &mut Pass,
    other: &mut Pass,
) -> Result<bool, AllocError>
    requires one { one.old.opening ≡ book.old.opening }
    requires other { other.old.opening ≡ book.old.opening }
    ensures book { IsSameBook book.old book.new }
    ensures one { one.new ≡ one.old }
    ensures other { other.new ≡ other.old }
{
    let first = gets_task(alloc, book, one)?;
    let second = gets_task(alloc, book, other)?;
    let third = book.draw(alloc, one)?;
    Ok(first && second && matches!(third, Drawn::Idle(2)))
}

// Whether the goal, which was out to one worker, is drawn by another one after a recall.
fn is_recalled(alloc: Global, book: &mut Book<Kbo>, one: &mut Pass) -> Result<bool, AllocError>
    requires pass { one.old.opening ≡ book.old.opening }
    requires enrolled { book.old.enrolled ≡ 3 ∷ [] }
{
    let mut other = book.enroll(alloc, 64)?;
    let two = gets_two(alloc, book, one, &mut other)?;
    book.recall();
    let again = gets_goal(alloc, book, &mut other)?;
    Ok(two && again && matches!(book.reclaim(one, 2), Err(CommitFault::NotOut(2))))
}

// With the budget reserved nothing is drawn; what is out is recalled by ticket, and is drawn again under another one.
#[test]
fn what_is_out_is_recalled(rt: HostRuntime) -> Result<(), Fail> {
    let at = set_up(rt.alloc(), &[LONG, SHORT], &[CONSTANTS])?;
    assert!(rt; recalls(rt.alloc(), &at)?);
    Ok(())
}

fn recalls(alloc: Global, at: &Setting) -> Result<bool, AllocError> {
    let (mut book, mut pass) = begin(alloc, at, &at.order, 1, 2, 3)?;
    Ok(is_recalled(alloc, &mut book, &mut pass)? && are_events(book.history(), RECALLING))
}

// The events of two goals, of which the second is proved first.
const COMING_LATE: &[Row] = &[
    (0, Happening::DrawGoal { goal: 0, front: 0 }),
    (64, Happening::DrawGoal { goal: 1, front: 0 }),
    (
        64,
        Happening::CommitGoal {
            goal: 1,
            steps: 0,
            end: GoalEnd::Met,
        },
    ),
    (64, Happening::Close(Ending::Proved)),
    (0, Happening::CommitLate { ticket: 0 }),
];

// Whether the book is closed by the proof of the second goal.
fn is_closed_by_other<O: Order>(
    alloc: Global,
    book: &mut Book<O>,
    pass: &mut Pass,
) -> Result<bool, AllocError>
    requires pass { pass.old.opening ≡ book.old.opening }
{
    let drawn = book.draw(alloc, pass)?;
    Ok(matches!(drawn, Drawn::Closed(Verdict::Proved(1))))
}

// Whether the result of one worker is taken when another one has proved its goal.
fn is_late_taken<R: Wait, O: Order>(
    rt: &R,
    alloc: Global,
    problem: &Encoded,
    order: &O,
    shelf: &Shelf,
    book: &mut Book<O>,
    one: &mut Pass,
    other: &mut Pass,
) -> Result<bool, Fail>
    requires problem { book.old.opening.problem ≡ problem.now }
    requires order { book.old.order ≡ order.now }
    requires shelf { book.old.opening.shelf ≡ shelf.now }
    requires one { one.old.opening ≡ book.old.opening }
    requires other { other.old.opening ≡ book.old.opening }
{
    let late = next_done(alloc, problem, order, shelf, book, one)?;
    turns(rt, alloc, problem, order, shelf, book, other, 1)?;
    commit(rt, alloc, book, one, late)?;
    Ok(is_closed_by_other(alloc, book, one)?)
}

// A second worker proves its goal while the first one's result is out.
fn comes_late<R: Wait>(
    rt: &R,
    alloc: Global,
    at: &Setting,
    book: &mut Book<Kbo>,
    one: &mut Pass,
) -> Result<bool, Fail>
    requires problem { book.old.opening.problem ≡ at.now.problem }
    requires order { book.old.order ≡ at.now.order }
    requires shelf { book.old.opening.shelf ≡ at.now.shelf }
    requires pass { one.old.opening ≡ book.old.opening }
    requires enrolled { book.old.enrolled ≡ 0 ∷ [] }
{
    let mut other = book.enroll(alloc, 64)?;
    is_late_taken(
        rt,
        alloc,
        &at.problem,
        &at.order,
        &at.shelf,
        book,
        one,
        &mut other,
    )
}

// A result that comes when the other goal is proved is counted, and changes nothing else.
#[test]
fn a_result_comes_late(rt: HostRuntime) -> Result<(), Fail> {
    let at = set_up(rt.alloc(), &[], &[CONSTANTS, SAME])?;
    assert!(rt; is_counted_late(&rt, rt.alloc(), &at)?);
    Ok(())
}

fn is_counted_late<R: Wait>(rt: &R, alloc: Global, at: &Setting) -> Result<bool, Fail> {
    let (mut book, mut pass) = begin(alloc, at, &at.order, 9, 9, 0)?;
    Ok(comes_late(rt, alloc, at, &mut book, &mut pass)? && are_events(book.history(), COMING_LATE))
}

const CLOSED_BY_PAIRS: &[Row] = &[(0, Happening::Close(Ending::Pairs))];

// Whether two axioms close a book at once where one pair may wait.
fn is_closed_by_pairs(alloc: Global, at: &Setting) -> Result<bool, AllocError> {
    let book = Book::start(alloc, &at.problem, &at.order, &at.shelf, 9, 1)?;
    Ok(
        book.verdict() == Some(&Verdict::PairsOut { waiting: 0, new: 2 })
            && are_events(book.history(), CLOSED_BY_PAIRS),
    )
}

// Whether the first draw closes a book with no budget.
fn is_closed_by_budget(
    alloc: Global,
    book: &mut Book<Kbo>,
    pass: &mut Pass,
) -> Result<bool, AllocError>
    requires pass { pass.old.opening ≡ book.old.opening }
{
    let open = book.verdict().is_none();
    let drawn = book.draw(alloc, pass)?;
    Ok(open && matches!(drawn, Drawn::Closed(Verdict::BudgetOut { counted: 0 })))
}

// More axioms than may wait close a book at once; with as many as the limit it goes on, until its budget closes it.
#[test]
fn limits_close_a_book(rt: HostRuntime) -> Result<(), Fail> {
    let at = set_up(rt.alloc(), &[LONG, SHORT], &[])?;
    assert!(rt; is_closed_by_pairs(rt.alloc(), &at)?);
    assert!(rt; goes_on_to_budget(rt.alloc(), &at)?);
    Ok(())
}

const CLOSED_BY_BUDGET: &[Row] = &[(5, Happening::Close(Ending::Budget))];

fn goes_on_to_budget(alloc: Global, at: &Setting) -> Result<bool, AllocError> {
    let (mut book, mut pass) = begin(alloc, at, &at.order, 0, 2, 5)?;
    Ok(
        is_closed_by_budget(alloc, &mut book, &mut pass)?
            && are_events(book.history(), CLOSED_BY_BUDGET),
    )
}

// Whether a task comes, at the second draw where the first one is refused.
fn gets_task_of_two(
    alloc: Global,
    book: &mut Book<Kbo>,
    pass: &mut Pass,
) -> Result<bool, AllocError>
    requires pass { pass.old.opening ≡ book.old.opening }
{
    match gets_task(alloc, book, pass) {
        Ok(is_task) => Ok(is_task),
        Err(_) => gets_task_again(alloc, book, pass),
    }
}

// Whether a task comes where nothing happened yet.
fn gets_task_again(alloc: Global, book: &mut Book<Kbo>, pass: &mut Pass) -> Result<bool, AllocError>
    requires pass { pass.old.opening ≡ book.old.opening }
{
    let is_new = book.history().is_empty();
    Ok(is_new && gets_task(alloc, book, pass)?)
}

// To be made with each allocation failing in turn: a draw that finds no memory changes nothing, and is made again.
#[test]
fn a_refused_draw_changes_nothing(rt: HostRuntime) -> Result<(), Fail> {
    let at = set_up(rt.alloc(), &[SHORT], &[])?;
    assert!(rt; draws_once(rt.alloc(), &at)?);
    Ok(())
}

const DRAWN: &[Row] = &[(3, Happening::DrawJoin { pair: 0, front: 0 })];

fn draws_once(alloc: Global, at: &Setting) -> Result<bool, AllocError> {
    let (mut book, mut pass) = begin(alloc, at, &at.order, 9, 9, 3)?;
    Ok(gets_task_of_two(alloc, &mut book, &mut pass)? && are_events(book.history(), DRAWN))
}
