//! What is made of a drained book: the final pass, and then audits or a close.

ghost use Rattle.std.specs.Prelude.{◌≡◌, OnOk, IfOk, IfErr};
ghost use Rattle.uc_machine.specs.Finals.{IsFinal};
ghost use Rattle.uc_machine.specs.Runs.{IsDrained, Reaches};
ghost use Rattle.uc_machine.specs.declared.task.Outcome.TheVariants.{Missing as Lacks};
ghost use Rattle.uc_book.specs.Openings.{opening_of};
ghost use Rattle.uc_book.specs.Answers.{IsSameBook, IsAnEnd};

use crate::images::sides_of;
use crate::machine::Machine;
use crate::trouble::{Trouble, check};
use std::alloc::Global;
use std::sync::Wait;
use std::thread::Threads;
use uc_book::{Audited, Book};
use uc_final::{FinalPasses, final_pass};
use uc_machine::{Missing, Outcome};
use uc_order::Order;
use uc_shelf::Shelf;
use uc_term::Seq;

/// The final pass over a drained book: what is missing is audited, and anything else closes the book.
pub fn end_round<R: Threads + Wait + Sync, O: Order + Sync>(
    rt: &R,
    alloc: Global,
    book: &mut Book<O>,
    shelf: &Shelf,
    order: &O,
    machine: &mut Machine,
) -> Result<(), Trouble>
    requires shelf { book.old.opening.shelf ≡ shelf.now }
    requires order { book.old.order ≡ order.now }
    requires drained { IsDrained book.old.state }
    ensures book { OnOk result (IsSameBook book.old book.new) }
{
    let stages = book.stages(alloc)?;
    let front = book.front();
    let axioms = book.axioms();
    let mut passes = FinalPasses::none();
    let outcome = final_pass(
        rt,
        alloc,
        shelf,
        front,
        axioms,
        stages.as_slice(),
        order,
        1,
        &mut passes,
    )?;
    match missing_or_end(outcome) {
        Ok(all) => audit_all(rt, alloc, book, machine, all),
        Err(end) => {
            let verdict = book.close(&end);
            machine.close(verdict)?;
            Ok(())
        }
    }
}

// The equations that are missing; or, where that isn't the outcome, the outcome.
fn missing_or_end(outcome: Outcome) -> Result<Seq<Missing>, Outcome>
    ensures missing { IfOk result (λ all. outcome ≡ Lacks all) }
    ensures end { IfErr result (λ end. (outcome ≡ end) × IsAnEnd end) }
{
    match outcome {
        Outcome::Convergent(facts) => Err(Outcome::Convergent(facts)),
        Outcome::Missing(all) => Ok(all),
        Outcome::Large(overlap) => Err(Outcome::Large(overlap)),
        Outcome::GoalUnsettled(goal) => Err(Outcome::GoalUnsettled(goal)),
    }
}

// Audits what is missing, in order, also where the book has a verdict meanwhile.
fn audit_all<R: Wait, O: Order>(
    rt: &R,
    alloc: Global,
    book: &mut Book<O>,
    machine: &mut Machine,
    all: Seq<Missing>,
) -> Result<(), Trouble>
    requires drained { IsDrained book.old.state }
    requires missing { IsFinal (O.meaning book.old.order) book.old.opening.problem.axioms book.old.state (Lacks all) }
    ensures book { OnOk result (IsSameBook book.old book.new) }
{
    is_reached(book);
    for missing in all.into_vec() {
        let number = machine.audit(sides_of(&missing.fact))?;
        let audited = book.audit(rt, alloc, missing)?;
        check(is_audited(machine, audited, number), "an audit")?;
    }
    Ok(())
}

// A run leads to the book's state.
fn is_reached<O: Order>(book: &Book<O>)
    ensures { Reaches (O.meaning book.now.order) (opening_of book.now.opening) book.now.state }
{
    let _events = book.history();
}

// Whether an audit was answered alike.
fn is_audited(machine: &Machine, audited: Audited, number: Option<u32>) -> bool {
    match (audited, number) {
        (Audited::Kept(fact), Some(other)) => fact == other,
        (Audited::Closed(verdict), None) => machine.verdict == Some(verdict),
        _ => false,
    }
}
