//! The answers for what is refused before a command begins: a problem that isn't loaded, a goal that is too large.

ghost use Rattle.std.specs.Prelude.{◌≡◌, ℕ, List, IfOk};
ghost use Rattle.uc_problem.specs.declared.fault.LoadFault.TheVariants.{Clause};
ghost use Rattle.uc_answer.specs.Lines.{joined, load_line};
ghost use Rattle.uc_answer.specs.Refusals.{load_status, large_line};

use crate::answer::{Answer, READ_FAULT, REFUSED, WANT_OF_MEMORY, of_line};
use crate::lines::{limit_line, load_line};
use std::alloc::{AllocError, Global};
use uc_clause::{ClauseFault, Sourced, What};
use uc_problem::LoadFault;

fn load_status(fault: &LoadFault) -> u8
    ensures { result ≡ load_status fault.now }
{
    match fault {
        LoadFault::ReadFault { .. } => READ_FAULT,
        LoadFault::NoMemory => WANT_OF_MEMORY,
        LoadFault::Clause { fault, .. } => clause_status(fault),
        LoadFault::Absent { .. } => REFUSED,
        LoadFault::TooDeep { .. } => REFUSED,
        LoadFault::NoSuchName { .. } => REFUSED,
        LoadFault::ArityClash { .. } => REFUSED,
        LoadFault::Limit { .. } => REFUSED,
    }
}

fn clause_status(fault: &ClauseFault) -> u8
    ensures { (file : List ℕ) → result ≡ load_status (Clause file fault.now) }
{
    match fault {
        ClauseFault::NoMemory => WANT_OF_MEMORY,
        ClauseFault::Syntax(_) => REFUSED,
        ClauseFault::NotUnit(_) => REFUSED,
        ClauseFault::NotEquality(_) => REFUSED,
        ClauseFault::BadRole(..) => REFUSED,
        ClauseFault::Unsupported(..) => REFUSED,
        ClauseFault::Limit(..) => REFUSED,
    }
}

/// Returns the answer for a problem that isn't loaded: the line of the refusal, with its status. Fails also where the refusal is
/// itself for want of memory.
pub fn load_answer(alloc: Global, fault: &LoadFault) -> Result<Answer, AllocError>
    ensures answer { IfOk result (λ answer. (answer.status ≡ load_status fault.now) × (joined answer.lines ≡ load_line fault.now)) }
    ensures not_memory { IfOk result (λ answer. answer.status ≡ 7 → ⊥) }
{
    let status = load_status(fault);
    if status == WANT_OF_MEMORY {
        return Err(AllocError);
    }
    of_line(alloc, status, load_line(alloc, fault)?)
}

/// Returns the answer for a goal that is too large to be encoded, at its first node, with status 3.
pub fn large_answer(alloc: Global, goal: &Sourced) -> Result<Answer, AllocError>
    ensures { IfOk result (λ answer. (answer.status ≡ 3) × (joined answer.lines ≡ large_line goal.now)) }
{
    let clause = &goal.clause;
    let place = match clause.places.as_slice().first() {
        Some(place) => *place,
        None => clause.place,
    };
    of_line(
        alloc,
        REFUSED,
        limit_line(alloc, goal.file.as_bytes(), place, What::Nodes)?,
    )
}
