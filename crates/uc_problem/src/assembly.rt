//! A problem of its clauses.

ghost use Rattle.std.specs.Prelude.{◌≡◌, ◌≤◌, ◌∷◌, ◌++◌, [], length, None, IfOk, IfErr};
ghost use Rattle.uc_term.specs.Table.{Grows};
ghost use Rattle.uc_term.specs.Signatures.{IsSignatureOf};
ghost use Rattle.uc_problem.specs.Holds.{Agrees, terms_of, numbers_of};
ghost use Rattle.uc_problem.specs.Filling.{AddsOne};
ghost use Rattle.uc_problem.specs.Assembly.{AreSoundFew, IsUnsigned};

use crate::locating::refusal;
use crate::{LoadFault, Problem};
use std::alloc::{AllocError, Global};
use uc_clause::Sourced;
use uc_term::{Seq, Signature, Symbols, Term};

// The problem of these clauses: which of them are axioms and which are goals, and their signature. The one of this number was a
// conjecture, where there is one.
pub(crate) fn assemble(
    alloc: Global,
    clauses: Seq<Sourced>,
    conjecture: Option<u32>,
    symbols: &mut Symbols,
) -> Result<Problem, LoadFault>
    requires { AreSoundFew symbols.old clauses }
    ensures clauses { IfOk result (λ problem. problem.clauses ≡ clauses) }
    ensures agrees { IfOk result (Agrees symbols.new) }
    ensures conjecture { IfOk result (λ problem. problem.conjecture ≡ conjecture) }
    ensures refused { IfErr result (IsUnsigned symbols.old clauses) }
    ensures grows { Grows symbols.old symbols.new }
    ensures least { IfOk result (λ problem. AddsOne symbols.old symbols.new problem.signature.least) }
{
    let signature = signature_of(alloc, clauses.as_slice(), symbols)?;
    let axioms = numbers_of(alloc, clauses.as_slice(), true)?;
    let goals = numbers_of(alloc, clauses.as_slice(), false)?;
    Ok(Problem {
        clauses,
        axioms,
        goals,
        signature,
        conjecture,
    })
}

// The numbers of the clauses of a polarity.
fn numbers_of(alloc: Global, clauses: &[Sourced], positive: bool) -> Result<Seq<u32>, AllocError>
    requires { length clauses.now ≤ 10000 }
    ensures { IfOk result (λ numbers. numbers ≡ numbers_of positive 0 clauses.now) }
{
    let mut numbers = Seq::new(alloc);
    for (number, sourced) in clauses.iter().enumerate() {
        if sourced.clause.positive == positive {
            numbers.push(number as u32)?;
        }
    }
    Ok(numbers)
}

// The signature of the clauses, or its first fault with the file and the place where it stands.
fn signature_of(
    alloc: Global,
    clauses: &[Sourced],
    symbols: &mut Symbols,
) -> Result<Signature, LoadFault>
    requires { AreSoundFew symbols.old clauses.now }
    ensures signature { IfOk result (IsSignatureOf symbols.new (terms_of clauses.now)) }
    ensures refused { IfErr result (IsUnsigned symbols.old clauses.now) }
    ensures grows { Grows symbols.old symbols.new }
    ensures least { IfOk result (λ signature. AddsOne symbols.old symbols.new signature.least) }
{
    let terms = terms_of(alloc, clauses)?;
    match Signature::of(alloc, symbols, terms.as_slice()) {
        Ok(signature) => Ok(signature),
        Err(fault) => Err(refusal(alloc, clauses, symbols, fault)?),
    }
}

// Copies of the clauses' terms, in order, the left side first.
fn terms_of(alloc: Global, clauses: &[Sourced]) -> Result<Vec<Term>, AllocError>
    ensures { IfOk result (λ terms. terms.items ≡ terms_of clauses.now) }
{
    let mut terms = Vec::new(alloc);
    for sourced in clauses {
        push_sides(alloc, &mut terms, sourced)?;
    }
    Ok(terms)
}

#[inline]
fn push_sides(alloc: Global, terms: &mut Vec<Term>, sourced: &Sourced) -> Result<(), AllocError>
    ensures { IfOk result (λ _. terms.new.items ≡ terms.old.items ++ sourced.now.clause.left ∷ sourced.now.clause.right ∷ []) }
{
    terms.push(sourced.clause.left.copy(alloc)?)?;
    terms.push(sourced.clause.right.copy(alloc)?)?;
    Ok(())
}
