//! The rounds of a search.

ghost use Rattle.std.specs.Prelude.{◌≡◌, ◌+◌, ◌-◌, ◌<◌, ◌^◌, ℕ, [], Some, length, min, IfOk, IfErr, OnOk, OnErr};
ghost use Rattle.uc_book.specs.Openings.{opening_of};
ghost use Rattle.uc_book.specs.Answers.{IsSameBook, IsAnEnd};
ghost use Rattle.uc_machine.specs.Events.{commits_by};
ghost use Rattle.uc_shelf.specs.Fronts.{IsOf};
ghost use Rattle.uc_machine.specs.Finals.{IsFinal};
ghost use Rattle.uc_machine.specs.State.{State};
ghost use Rattle.uc_final.specs.Stages.{stages_of};
ghost use Rattle.uc_machine.specs.Runs.{IsDrained, Reaches};
ghost use Rattle.uc_machine.specs.declared.task.Outcome.TheVariants.{Missing as Lacks};
ghost use Rattle.uc_search.specs.Working.{Counts, IsSamePass};
ghost use Rattle.uc_search.specs.Searching.{AuditsMissing, AuditsSome, EndsRound, CutsRound, Searches};
ghost use Rattle.uc_search.specs.Bounds.{CountedRound, CountedSearch, counted_on};

use crate::working::{Ended, has_few_commits, work_alone};
use std::alloc::{AllocError, Global};
use std::sync::Wait;
use std::thread::Threads;
use uc_bank::Bank;
use uc_book::{Audited, Book, Pass};
use uc_fact::Equation;
use uc_final::{FinalPasses, final_pass};
use uc_machine::{Missing, Outcome, Stage, Verdict};
use uc_order::Order;
use uc_problem::Encoded;
use uc_shelf::{Front, Shelf};
use uc_term::Seq;

/// Works on a book until it has a verdict. Each time that it is drained the final pass is made: what is missing is kept and
/// the work goes on, or the book is closed. No task is out when it returns, whatever it answers.
pub fn search_alone<R: Threads + Wait + Sync, O: Order + Sync>(
    rt: &R,
    alloc: Global,
    book: &mut Book<O>,
    shelf: &Shelf,
    problem: &Encoded,
    order: &O,
    pass: &mut Pass,
) -> Result<Verdict, AllocError>
    requires pass { pass.old.opening ≡ book.old.opening }
    requires problem { book.old.opening.problem ≡ problem.now }
    requires shelf { book.old.opening.shelf ≡ shelf.now }
    requires order { book.old.order ≡ order.now }
    requires none_out { book.old.state.out ≡ [] }
    ensures searched { IfOk result (λ verdict. Searches (O.meaning book.old.order) (opening_of book.old.opening) pass.old.worker book.old.state verdict book.new.state) }
    ensures verdict { IfOk result (λ verdict. book.new.state.verdict ≡ Some verdict) }
    ensures none_out { book.new.state.out ≡ [] }
    ensures book { IsSameBook book.old book.new }
    ensures pass { IsSamePass pass.old pass.new }
    ensures count { Counts pass.old pass.new book.old.state book.new.state }
{
    let mut passes = FinalPasses::none();
    search_counting(rt, alloc, book, shelf, problem, order, pass, &mut passes)
}

/// Works on a book until it has a verdict, as `search_alone` does, and counts the final passes that are made.
pub fn search_counting<R: Threads + Wait + Sync, O: Order + Sync>(
    rt: &R,
    alloc: Global,
    book: &mut Book<O>,
    shelf: &Shelf,
    problem: &Encoded,
    order: &O,
    pass: &mut Pass,
    passes: &mut FinalPasses,
) -> Result<Verdict, AllocError>
    requires pass { pass.old.opening ≡ book.old.opening }
    requires problem { book.old.opening.problem ≡ problem.now }
    requires shelf { book.old.opening.shelf ≡ shelf.now }
    requires order { book.old.order ≡ order.now }
    requires none_out { book.old.state.out ≡ [] }
    ensures searched { IfOk result (λ verdict. CountedSearch (O.meaning book.old.order) (opening_of book.old.opening) pass.old.worker book.old.state verdict book.new.state passes.old passes.new) }
    ensures verdict { IfOk result (λ verdict. book.new.state.verdict ≡ Some verdict) }
    ensures none_out { book.new.state.out ≡ [] }
    ensures book { IsSameBook book.old book.new }
    ensures pass { IsSamePass pass.old pass.new }
    ensures count { Counts pass.old pass.new book.old.state book.new.state }
{
    has_few_commits(book, pass);
    has_few_passes(passes);
    for made in 0..u64::MAX {
        if let Some(verdict) = round(rt, alloc, book, shelf, problem, order, pass, passes)? {
            return Ok(verdict);
        }
    }
    has_few_units(book);
    unreachable!()
}

/// Works on a book until it is drained or has a verdict, and makes the final pass where it is drained. None where no verdict
/// stands then.
fn round<R: Threads + Wait + Sync, O: Order + Sync>(
    rt: &R,
    alloc: Global,
    book: &mut Book<O>,
    shelf: &Shelf,
    problem: &Encoded,
    order: &O,
    pass: &mut Pass,
    passes: &mut FinalPasses,
) -> Result<Option<Verdict>, AllocError>
    requires pass { pass.old.opening ≡ book.old.opening }
    requires problem { book.old.opening.problem ≡ problem.now }
    requires shelf { book.old.opening.shelf ≡ shelf.now }
    requires order { book.old.order ≡ order.now }
    requires none_out { book.old.state.out ≡ [] }
    ensures round { IfOk result (λ verdict. CountedRound (O.meaning book.old.order) (opening_of book.old.opening) pass.old.worker book.old.state verdict book.new.state passes.old passes.new) }
    ensures verdict { IfOk result (λ verdict. book.new.state.verdict ≡ verdict) }
    ensures none_out { book.new.state.out ≡ [] }
    ensures book { IsSameBook book.old book.new }
    ensures pass { IsSamePass pass.old pass.new }
    ensures count { Counts pass.old pass.new book.old.state book.new.state }
{
    has_few_passes(passes);
    match work_alone(rt, alloc, book, shelf, problem, order, pass) {
        Ended::Drained => end_round(rt, alloc, book, shelf, order, 1, passes),
        Ended::Closed => Ok(book.verdict().copied()),
        Ended::NoMemory => Err(AllocError),
    }
}

/// Makes the final pass over a drained book, by the threads of so many workers, and counts it. Then it audits the missing
/// equations, or closes the book. Returns None where no verdict stands then. On an error the first missing equations may have
/// been audited.
pub fn end_round<R: Threads + Wait + Sync, O: Order + Sync>(
    rt: &R,
    alloc: Global,
    book: &mut Book<O>,
    shelf: &Shelf,
    order: &O,
    workers: u32,
    passes: &mut FinalPasses,
) -> Result<Option<Verdict>, AllocError>
    requires shelf { book.old.opening.shelf ≡ shelf.now }
    requires order { book.old.order ≡ order.now }
    requires drained { IsDrained book.old.state }
    ensures passes { OnOk result (passes.new ≡ counted_on passes.old 1) }
    ensures ends { IfOk result (λ verdict. EndsRound (O.meaning book.old.order) (opening_of book.old.opening) book.old.state verdict book.new.state) }
    ensures verdict { IfOk result (λ verdict. book.new.state.verdict ≡ verdict) }
    ensures out { book.new.state.out ≡ book.old.state.out }
    ensures commits { (w : ℕ) → commits_by w book.new.state.history ≡ commits_by w book.old.state.history }
    ensures book { IsSameBook book.old book.new }
    ensures err { OnErr result (CutsRound (O.meaning book.old.order) (opening_of book.old.opening) book.old.state book.new.state) }
{
    let stages = book.stages(alloc)?;
    let front = book.front();
    let axioms = book.axioms();
    let outcome = outcome_of(
        rt,
        alloc,
        shelf,
        front,
        axioms,
        stages.as_slice(),
        order,
        workers,
        passes,
    )?;
    match missing_or_end(outcome) {
        Ok(all) => audit_all(rt, alloc, book, all),
        Err(end) => Ok(Some(book.close(&end))),
    }
}

/// Makes the final pass by a bank's order, which remembers how the two sides of each fact of the front compare.
fn outcome_of<R: Threads + Sync, O: Order + Sync>(
    rt: &R,
    alloc: Global,
    shelf: &Shelf,
    front: &Front,
    axioms: &[Equation],
    stages: &[Stage],
    order: &O,
    workers: u32,
    passes: &mut FinalPasses,
) -> Result<Outcome, AllocError>
    requires of { IsOf shelf.now front.now }
    requires few_axioms { length axioms.now < 2 ^ 31 }
    requires few_goals { length stages.now < 2 ^ 31 }
    ensures outcome { IfOk result (λ outcome. (s : State) → s.entries ≡ front.now.entries → stages_of s.goals ≡ stages.now → IsFinal (O.meaning order.now) axioms.now s outcome) }
    ensures passes { passes.new ≡ min (passes.old + 1) (2 ^ 64 - 1) }
{
    let mut bank = Bank::new(alloc, shelf, order);
    // What can't be remembered is compared anew.
    let _ = bank.learn(alloc, front);
    final_pass(
        rt,
        alloc,
        shelf,
        front,
        axioms,
        stages,
        bank.order(),
        workers,
        passes,
    )
}

/// The equations that are missing; or, where that isn't the outcome, the outcome.
fn missing_or_end(outcome: Outcome) -> Result<Seq<Missing>, Outcome>
    ensures missing { IfOk result (λ all. outcome ≡ Lacks all) }
    ensures end { IfErr result (λ end. (outcome ≡ end) × IsAnEnd end) }
{
    match outcome {
        Outcome::Convergent(facts) => Err(Outcome::Convergent(facts)),
        Outcome::Missing(all) => Ok(all),
        Outcome::Large(overlap) => Err(Outcome::Large(overlap)),
        Outcome::GoalUnsettled(goal) => Err(Outcome::GoalUnsettled(goal)),
    }
}

/// Audits each missing equation in order, until the book has a verdict.
fn audit_all<R: Wait, O: Order>(
    rt: &R,
    alloc: Global,
    book: &mut Book<O>,
    all: Seq<Missing>,
) -> Result<Option<Verdict>, AllocError>
    requires drained { IsDrained book.old.state }
    requires missing { IsFinal (O.meaning book.old.order) book.old.opening.problem.axioms book.old.state (Lacks all) }
    ensures audited { IfOk result (λ verdict. AuditsMissing (opening_of book.old.opening) all book.old.state verdict book.new.state) }
    ensures verdict { IfOk result (λ verdict. book.new.state.verdict ≡ verdict) }
    ensures out { book.new.state.out ≡ book.old.state.out }
    ensures commits { (w : ℕ) → commits_by w book.new.state.history ≡ commits_by w book.old.state.history }
    ensures book { IsSameBook book.old book.new }
    ensures err { OnErr result (AuditsSome (opening_of book.old.opening) all book.old.state book.new.state) }
{
    is_reached(book);
    for missing in all.into_vec() {
        if let Audited::Closed(verdict) = book.audit(rt, alloc, missing)? {
            return Ok(Some(verdict));
        }
    }
    Ok(None)
}

/// A run leads to the book's state.
fn is_reached<O: Order>(book: &Book<O>)
    ensures { Reaches (O.meaning book.now.order) (opening_of book.now.opening) book.now.state }
{
    let _events = book.history();
}

/// The count is a number of its type.
fn has_few_passes(passes: &FinalPasses)
    ensures { passes.now < 2 ^ 64 }
{
    let _made = passes.made();
}

/// The units are counted by a number of 32 bits.
fn has_few_units<O: Order>(book: &Book<O>)
    ensures { book.now.state.counted < 2 ^ 32 }
{
    let _counted = book.counted();
}
