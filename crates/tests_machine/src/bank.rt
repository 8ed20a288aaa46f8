//! What a bank remembers.

ghost use Rattle.std.specs.Prelude.{◌≡◌, IfOk};
ghost use Rattle.uc_shelf.specs.Fronts.{IsOf};
ghost use Rattle.uc_task.specs.Jobs.{CanBeDone};
ghost use Rattle.uc_book.specs.Answers.{IsSameBook};

use crate::alphabet::{Sides, order};
use crate::books::settings::{Setting, begin, set_up};
use crate::books::turns::turns;
use std::alloc::{AllocError, Global};
use std::sync::Wait;
use std::sync::atomic::{AtomicU64, Ordering};
use std::test::Fail;
use uc_bank::Bank;
use uc_book::{Book, Done, Drawn, Pass, Task};
use uc_fact::{Chain, Step, Stop};
use uc_kbo::Kbo;
use uc_machine::{Finding, Job};
use uc_order::{Cmp, Order, VarOrder};
use uc_problem::Encoded;
use uc_search::compute_in;
use uc_term::{Node, Sym};

// An order that counts the calls of `compare`.
#[derive(Drop)]
struct Counting {
    order: Kbo,
    calls: AtomicU64,
}

impl Order for Counting {
    ghost use Rattle.uc_kbo.specs.Weights.{kbo_meaning};
    ghost use Rattle.uc_kbo.specs.Laws.{kbo_laws};

    ghost meaning = { λ w. kbo_meaning w.order.weights.w0 w.order.entries.items };

    ghost laws = { λ w. kbo_laws w.order.weights.w0 w.order.entries.items w.order.valid };

    fn compare(&self, s: &[Node], t: &[Node]) -> Cmp {
        self.calls.fetch_add(1, Ordering::SeqCst);
        self.order.compare(s, t)
    }

    fn compare_under(&self, cases: &VarOrder, s: &[Node], t: &[Node]) -> Cmp {
        self.order.compare_under(cases, s, t)
    }

    fn least(&self) -> Sym {
        self.order.least()
    }
}

fn order_that_counts(alloc: Global) -> Result<Counting, Fail> {
    Ok(Counting {
        order: order(alloc)?,
        calls: AtomicU64::new(0),
    })
}

// THE TASKS

// The task that is drawn next.
fn next_task<O: Order>(alloc: Global, book: &mut Book<O>, pass: &mut Pass) -> Result<Task, Fail>
    requires pass { pass.old.opening ≡ book.old.opening }
    ensures book { IsSameBook book.old book.new }
    ensures pass { pass.new ≡ pass.old }
    ensures opening { IfOk result (λ t. t.opening ≡ book.old.opening) }
    ensures of { IfOk result (λ t. IsOf book.old.opening.shelf t.front) }
    ensures can { IfOk result (λ t. CanBeDone (O.meaning book.old.order) book.old.opening.problem.axioms t.front.entries t.job) }
{
    match book.draw(alloc, pass)? {
        Drawn::Task(task) => Ok(task),
        _ => Err(Fail::from("no task")),
    }
}

// The task that is drawn after it.
fn second_task<O: Order>(alloc: Global, book: &mut Book<O>, pass: &mut Pass) -> Result<Task, Fail>
    requires pass { pass.old.opening ≡ book.old.opening }
    ensures opening { IfOk result (λ t. t.opening ≡ book.old.opening) }
    ensures of { IfOk result (λ t. IsOf book.old.opening.shelf t.front) }
    ensures can { IfOk result (λ t. CanBeDone (O.meaning book.old.order) book.old.opening.problem.axioms t.front.entries t.job) }
{
    next_task(alloc, book, pass)?;
    next_task(alloc, book, pass)
}

// A book and its worker, after so many turns.
fn book_after<'a, R: Wait, O: Order>(
    rt: &R,
    alloc: Global,
    at: &'a Setting,
    order: &'a O,
    count: u32,
) -> Result<(Book<'a, O>, Pass), Fail>
    ensures problem { IfOk result (λ x. x.0.opening.problem ≡ at.entry.now.problem) }
    ensures order { IfOk result (λ x. x.0.order ≡ order.entry.now) }
    ensures shelf { IfOk result (λ x. x.0.opening.shelf ≡ at.entry.now.shelf) }
    ensures pass { IfOk result (λ x. x.1.opening ≡ x.0.opening) }
{
    let (mut book, mut pass) = begin(alloc, at, order, 9, 9, 0)?;
    turns(
        rt,
        alloc,
        &at.problem,
        order,
        &at.shelf,
        &mut book,
        &mut pass,
        count,
    )?;
    Ok((book, pass))
}

// The task that comes after so many turns.
fn task_after<R: Wait, O: Order>(
    rt: &R,
    alloc: Global,
    at: &Setting,
    order: &O,
    count: u32,
) -> Result<Task, Fail>
    ensures problem { IfOk result (λ t. t.opening.problem ≡ at.now.problem) }
    ensures shelf { IfOk result (λ t. t.opening.shelf ≡ at.now.shelf) }
    ensures of { IfOk result (λ t. IsOf at.now.shelf t.front) }
    ensures can { IfOk result (λ t. CanBeDone (O.meaning order.now) at.now.problem.axioms t.front.entries t.job) }
{
    let (mut book, mut pass) = book_after(rt, alloc, at, order, count)?;
    next_task(alloc, &mut book, &mut pass)
}

// The task that is drawn next while that one is out.
fn task_behind<R: Wait, O: Order>(
    rt: &R,
    alloc: Global,
    at: &Setting,
    order: &O,
    count: u32,
) -> Result<Task, Fail>
    ensures problem { IfOk result (λ t. t.opening.problem ≡ at.now.problem) }
    ensures shelf { IfOk result (λ t. t.opening.shelf ≡ at.now.shelf) }
    ensures of { IfOk result (λ t. IsOf at.now.shelf t.front) }
    ensures can { IfOk result (λ t. CanBeDone (O.meaning order.now) at.now.problem.axioms t.front.entries t.job) }
{
    let (mut book, mut pass) = book_after(rt, alloc, at, order, count)?;
    second_task(alloc, &mut book, &mut pass)
}

// THEIR RESULTS

// What a task comes to, and how often terms were compared for it.
#[derive(Drop)]
struct Counted {
    done: Done,
    calls: u64,
}

// What a task comes to by a bank, whose order counts so.
fn count_in<O: Order>(
    alloc: Global,
    bank: &mut Bank<O>,
    task: &Task,
    problem: &Encoded,
    calls: &AtomicU64,
) -> Result<Counted, AllocError>
    requires problem { task.now.opening.problem ≡ problem.now }
    requires shelf { task.now.opening.shelf ≡ bank.old.shelf }
    requires of { IsOf bank.old.shelf task.now.front }
    requires can { CanBeDone (O.meaning bank.old.order) problem.now.axioms task.now.front.entries task.now.job }
    ensures { bank.new ≡ bank.old }
{
    let before = calls.load(Ordering::SeqCst);
    let done = compute_in(alloc, bank, task, problem)?;
    let calls = calls.load(Ordering::SeqCst).wrapping_sub(before);
    Ok(Counted { done, calls })
}

// Two results.
type Pair = (Counted, Counted);

// What two tasks come to by one bank, one after the other.
fn in_one_bank<O: Order>(
    alloc: Global,
    one: &Task,
    other: &Task,
    at: &Setting,
    order: &O,
    calls: &AtomicU64,
) -> Result<Pair, AllocError>
    requires one_problem { one.now.opening.problem ≡ at.now.problem }
    requires one_shelf { one.now.opening.shelf ≡ at.now.shelf }
    requires one_of { IsOf at.now.shelf one.now.front }
    requires one_can { CanBeDone (O.meaning order.now) at.now.problem.axioms one.now.front.entries one.now.job }
    requires other_problem { other.now.opening.problem ≡ at.now.problem }
    requires other_shelf { other.now.opening.shelf ≡ at.now.shelf }
    requires other_of { IsOf at.now.shelf other.now.front }
    requires other_can { CanBeDone (O.meaning order.now) at.now.problem.axioms other.now.front.entries other.now.job }
{
    let mut bank = Bank::new(alloc, &at.shelf, order);
    let first = count_in(alloc, &mut bank, one, &at.problem, calls)?;
    let second = count_in(alloc, &mut bank, other, &at.problem, calls)?;
    Ok((first, second))
}

// What the task that comes after so many turns comes to, twice by one bank.
fn twice<R: Wait, O: Order>(
    rt: &R,
    alloc: Global,
    at: &Setting,
    order: &O,
    calls: &AtomicU64,
    count: u32,
) -> Result<Pair, Fail> {
    let task = task_after(rt, alloc, at, order, count)?;
    Ok(in_one_bank(alloc, &task, &task, at, order, calls)?)
}

// What that task and the one behind it come to by one bank.
fn in_turn<R: Wait, O: Order>(
    rt: &R,
    alloc: Global,
    at: &Setting,
    order: &O,
    calls: &AtomicU64,
    count: u32,
) -> Result<Pair, Fail> {
    let task = task_after(rt, alloc, at, order, count)?;
    let next = task_behind(rt, alloc, at, order, count)?;
    Ok(in_one_bank(alloc, &task, &next, at, order, calls)?)
}

// Whether terms are compared the first time, and none the second time.
fn are_remembered(pair: &Pair) -> bool {
    0 < pair.0.calls && pair.1.calls == 0
}

// Whether a result is that of this goal.
fn is_of_goal(counted: &Counted, number: u32) -> bool {
    match counted.done.job {
        Job::Goal { goal, .. } => goal == number,
        _ => false,
    }
}

// Whether a result is what the meeting of this fact found.
fn is_of_meeting(counted: &Counted, number: u32) -> bool {
    is_meeting(&counted.done.job, number) && is_met(&counted.done.found)
}

fn is_meeting(job: &Job, number: u32) -> bool {
    match job {
        Job::Meet(fact) => *fact == number,
        _ => false,
    }
}

fn is_met(found: &Finding) -> bool {
    match found {
        Finding::Met { .. } => true,
        _ => false,
    }
}

// Whether two results for a goal are equal.
fn are_same(pair: &Pair) -> bool {
    let (one, other) = (&pair.0.done, &pair.1.done);
    one.ticket == other.ticket
        && one.front.len() == other.front.len()
        && same_ends(&one.found, &other.found)
}

fn same_ends(a: &Finding, b: &Finding) -> bool {
    match a {
        Finding::Ends { left, right, stop } => are_ends(b, left, right, *stop),
        _ => false,
    }
}

// Whether these are the ends that were found.
fn are_ends(found: &Finding, one: &Chain, other: &Chain, why: Stop) -> bool {
    match found {
        Finding::Ends { left, right, stop } => {
            same_chains(left, one) && same_chains(right, other) && *stop == why
        }
        _ => false,
    }
}

fn same_chains(a: &Chain, b: &Chain) -> bool {
    a.start.same(&b.start) && same_steps(a.steps.as_slice(), b.steps.as_slice())
}

fn same_steps(a: &[Step], b: &[Step]) -> bool {
    if a.len() != b.len() {
        return false;
    }
    for (step, other) in a.iter().zip(b) {
        if !same_step(step, other) {
            return false;
        }
    }
    true
}

fn same_step(a: &Step, b: &Step) -> bool {
    a.by == b.by
        && a.left_to_right == b.left_to_right
        && a.position == b.position
        && a.to.same(&b.to)
}

// THE TESTS

// f(a) = b, f(b) = a
const AXIOMS: &[Sides] = &[(b"af", b"b"), (b"bf", b"a")];

// f(f(a)) = a
const GOAL: Sides = (b"aff", b"a");

// f(f(a)) = b, f(f(b)) = a
const GOALS: &[Sides] = &[(b"aff", b"b"), (b"bff", b"a")];

// f(f(a)) = b, which doesn't follow
const APART: Sides = (b"aff", b"b");

// m(X, Y) = m(Y, X)
const COMMUTES: Sides = (b"y", b"z");

// m(g(a), f(a)) = a
const PRODUCT: Sides = (b"aq", b"a");

// A task is computed twice with one bank: the results are equal, and the second time nothing is compared.
#[test]
fn a_bank_remembers(rt: HostRuntime) -> Result<(), Fail> {
    let at = set_up(rt.alloc(), AXIOMS, &[GOAL])?;
    assert!(rt; remembers_goal(&rt, rt.alloc(), &at, 5)?);
    Ok(())
}

// The same where the sides of the fact leave open which way a step by it goes, so that its instances are compared.
#[test]
fn a_bank_remembers_normal_forms(rt: HostRuntime) -> Result<(), Fail> {
    let at = set_up(rt.alloc(), &[COMMUTES], &[PRODUCT])?;
    assert!(rt; remembers_goal(&rt, rt.alloc(), &at, 2)?);
    Ok(())
}

// Whether that is so of the goal that comes after so many turns.
fn remembers_goal<R: Wait>(rt: &R, alloc: Global, at: &Setting, count: u32) -> Result<bool, Fail> {
    let order = order_that_counts(alloc)?;
    let pair = twice(rt, alloc, at, &order, &order.calls, count)?;
    Ok(are_remembered(&pair) && is_of_goal(&pair.0, 0) && are_same(&pair))
}

// Over facts whose sides are remembered, a goal that is another one is normalised without a comparison.
#[test]
fn a_bank_remembers_sides(rt: HostRuntime) -> Result<(), Fail> {
    let at = set_up(rt.alloc(), AXIOMS, GOALS)?;
    assert!(rt; remembers_sides(&rt, rt.alloc(), &at)?);
    Ok(())
}

fn remembers_sides<R: Wait>(rt: &R, alloc: Global, at: &Setting) -> Result<bool, Fail> {
    let order = order_that_counts(alloc)?;
    let pair = in_turn(rt, alloc, at, &order, &order.calls, 7)?;
    Ok(are_remembered(&pair) && are_of_goals(&pair) && !are_same(&pair))
}

fn are_of_goals(pair: &Pair) -> bool {
    is_of_goal(&pair.0, 0) && is_of_goal(&pair.1, 1)
}

// Facts that meet are tried on one another by what is remembered of their sides: where a meeting is computed twice with one bank,
// the second time nothing is compared.
#[test]
fn a_bank_remembers_sides_that_meet(rt: HostRuntime) -> Result<(), Fail> {
    let at = set_up(rt.alloc(), AXIOMS, &[APART])?;
    assert!(rt; remembers_meeting(&rt, rt.alloc(), &at)?);
    Ok(())
}

// Whether that is so of the meeting of fact 1, which comes after six turns.
fn remembers_meeting<R: Wait>(rt: &R, alloc: Global, at: &Setting) -> Result<bool, Fail> {
    let order = order_that_counts(alloc)?;
    let pair = twice(rt, alloc, at, &order, &order.calls, 6)?;
    Ok(are_remembered(&pair) && is_of_meeting(&pair.0, 1) && is_of_meeting(&pair.1, 1))
}
