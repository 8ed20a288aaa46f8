//! Instances of clauses, evaluated as far as a prefix of the cells has values.

ghost use Rattle.std.specs.Prelude.{◌≡◌, ℕ, ◌+◌, ◌<◌, ◌≤◌, ◌^◌, ◌++◌, ◌∷◌, [], length, Some, true, false, IsTrue, IfOk, OnOk, MatchResult};
ghost use Rattle.std.specs.List.{slice_get};
ghost use Rattle.uc_table.specs.Tables.{MOST_CELLS, AreValues};
ghost use Rattle.uc_table.specs.SearchSteps.{AreSteps, IsOutcome};
ghost use Rattle.uc_table.specs.SearchWaiting.{IsWell};
ghost use Rattle.uc_table.specs.SearchInstances.{ran, IsDecided, IsForm, AreForms, AreOf, IsSettled, IsAgainstNow, AreSettled, AreSettledBelow, AreFormsSettled, IsRefutedBy, Extends};

use crate::search_reads::{Reads, read_row};
use crate::search_steps::{Outcome, Step, run};
use crate::search_waiting::Waiting;
use std::alloc::AllocError;

/// A clause: the steps that evaluate its sides, the rows of its first instances, whether it is an axiom, and how many assignments it
/// has.
#[derive(Drop)]
pub(crate) struct Form {
    pub steps: Vec<Step>,
    pub reads: Reads,
    pub positive: bool,
    pub assignments: u32,
}

/// What an instance is under a prefix.
#[derive(Clone, Copy)]
pub(crate) enum Decided {
    Against,
    For,
    Waits(u32),
}

/// Evaluates both sides of an instance of a clause, by its row if that is kept.
#[inline(always)]
fn evaluate(form: &Form, size: u32, assignment: u32, prefix: &[u32], stack: &mut [u32]) -> Outcome
    requires size { 0 < size }
    requires form { IsForm size (length stack.old) form.now }
    requires prefix { AreValues size prefix.now }
    ensures { IsOutcome (ran size prefix.now form.now assignment) result }
{
    match form.reads.row(assignment) {
        Some(row) => {
            let places = &mut stack[..row.len()];
            read_row(row, &form.reads.links, prefix, places)
        }
        None => run(&form.steps, size, assignment, prefix, stack),
    }
}

/// Decides an instance of a clause.
#[inline(always)]
fn decide(form: &Form, size: u32, assignment: u32, prefix: &[u32], stack: &mut [u32]) -> Decided
    requires size { 0 < size }
    requires form { IsForm size (length stack.old) form.now }
    requires prefix { AreValues size prefix.now }
    ensures { IsDecided size prefix.now form.now assignment result }
{
    match evaluate(form, size, assignment, prefix, stack) {
        Outcome::Sides(left, right) => {
            if (left == right) == form.positive {
                Decided::For
            } else {
                Decided::Against
            }
        }
        Outcome::Waits(cell) => Decided::Waits(cell),
        Outcome::Never => Decided::For,
    }
}

/// Decides an instance, or lets it wait. True comes exactly where it is decided against.
#[inline(always)]
fn settle(
    waiting: &mut Waiting,
    forms: &[Form],
    size: u32,
    prefix: &[u32],
    stack: &mut [u32],
    number: u32,
    assignment: u32,
) -> Result<bool, AllocError>
    requires size { 0 < size }
    requires number { number < length forms.now }
    requires forms { AreForms size (length stack.old) forms.now }
    requires prefix { AreValues size prefix.now }
    requires well { IsWell waiting.old }
    requires of { AreOf forms.now waiting.old.entries.items }
    requires small { (f : Form) → slice_get forms.now number ≡ Some f → assignment < f.assignments }
    ensures well { OnOk result (IsWell waiting.new) }
    ensures of { OnOk result (AreOf forms.now waiting.new.entries.items) }
    ensures extends { OnOk result (Extends waiting.old.entries.items waiting.new.entries.items) }
    ensures against { IfOk result (λ a. a ≡ true → IsAgainstNow size prefix.now forms.now number assignment) }
    ensures settled { IfOk result (λ a. a ≡ false → IsSettled size prefix.now forms.now number assignment waiting.new.entries.items) }
{
    match decide(&forms[number as usize], size, assignment, prefix, stack) {
        Decided::Against => Ok(true),
        Decided::For => Ok(false),
        Decided::Waits(cell) => {
            waiting.wait(number, assignment, cell)?;
            Ok(false)
        }
    }
}

/// Settles the instances that wait at a cell, whose value is the last of the prefix, up to the first that is decided against.
pub(crate) fn follow(
    waiting: &mut Waiting,
    forms: &[Form],
    size: u32,
    prefix: &[u32],
    stack: &mut [u32],
    cell: usize,
) -> Result<bool, AllocError>
    requires size { 0 < size }
    requires forms { AreForms size (length stack.old) forms.now }
    requires prefix { AreValues size prefix.now }
    requires well { IsWell waiting.old }
    requires of { AreOf forms.now waiting.old.entries.items }
    requires cell { cell < MOST_CELLS }
    ensures well { OnOk result (IsWell waiting.new) }
    ensures of { OnOk result (AreOf forms.now waiting.new.entries.items) }
    ensures extends { OnOk result (Extends waiting.old.entries.items waiting.new.entries.items) }
    ensures against { IfOk result (λ a. a ≡ true → IsRefutedBy size prefix.now forms.now) }
    ensures settled { IfOk result (λ a. a ≡ false → AreSettledBelow size prefix.now forms.now cell 0 waiting.old.entries.items waiting.new.entries.items) }
{
    let mut at = waiting.heads[cell];
    while at > 0 {
        let entry = waiting.entries[at - 1];
        if settle(
            waiting,
            forms,
            size,
            prefix,
            stack,
            entry.form,
            entry.assignment,
        )? {
            return Ok(true);
        }
        at = entry.below;
    }
    Ok(false)
}

/// Settles all instances of a clause before any cell has a value.
#[inline(never)]
fn enroll(
    waiting: &mut Waiting,
    forms: &[Form],
    size: u32,
    stack: &mut [u32],
    number: u32,
) -> Result<bool, AllocError>
    requires size { 0 < size }
    requires forms { AreForms size (length stack.old) forms.now }
    requires number { number < length forms.now }
    requires well { IsWell waiting.old }
    requires of { AreOf forms.now waiting.old.entries.items }
    ensures well { OnOk result (IsWell waiting.new) }
    ensures of { OnOk result (AreOf forms.now waiting.new.entries.items) }
    ensures extends { OnOk result (Extends waiting.old.entries.items waiting.new.entries.items) }
    ensures against { IfOk result (λ a. a ≡ true → IsRefutedBy size [] forms.now) }
    ensures settled { IfOk result (λ a. a ≡ false → AreFormsSettled size [] forms.now number (number + 1) waiting.new.entries.items) }
{
    for assignment in 0..forms[number as usize].assignments {
        if settle(waiting, forms, size, &[], stack, number, assignment)? {
            return Ok(true);
        }
    }
    Ok(false)
}

/// Settles all instances of all clauses before any cell has a value, those of the last clause first: so the first clause's are
/// followed first.
pub(crate) fn enroll_all(
    waiting: &mut Waiting,
    forms: &[Form],
    size: u32,
    stack: &mut [u32],
) -> Result<bool, AllocError>
    requires size { 0 < size }
    requires few { length forms.now ≤ 2 ^ 32 }
    requires forms { AreForms size (length stack.old) forms.now }
    requires well { IsWell waiting.old }
    requires none { waiting.old.entries.items ≡ [] }
    ensures well { OnOk result (IsWell waiting.new) }
    ensures of { OnOk result (AreOf forms.now waiting.new.entries.items) }
    ensures against { IfOk result (λ a. a ≡ true → IsRefutedBy size [] forms.now) }
    ensures settled { IfOk result (λ a. a ≡ false → AreSettled size [] forms.now waiting.new.entries.items) }
{
    let mut number = forms.len();
    while number > 0 {
        number -= 1;
        if enroll(waiting, forms, size, stack, number as u32)? {
            return Ok(true);
        }
    }
    Ok(false)
}
