//! The axioms of a problem.

ghost use Rattle.std.specs.Prelude.{◌≡◌, ◌<◌, ◌≤◌, ◌^◌, length, map, IfOk, OnOk, OnErr};
ghost use Rattle.uc_check.specs.Clauses.{axioms_of, equation_of};
ghost use Rattle.uc_problem.specs.declared.problem.Source.TheVariants as source;
ghost use Rattle.uc_top.specs.DecideTold.{without_goals};

use std::alloc::{AllocError, Global};
use uc_clause::{Clause, Sourced};
use uc_problem::{Encoded, Problem, Source};
use uc_term::{Equation, Seq, Signature};

// The equation between the sides of a clause.
fn equation_of(alloc: Global, clause: &Clause) -> Result<Equation, AllocError>
    ensures { IfOk result (λ equation. equation ≡ equation_of clause.now) }
{
    Ok(Equation {
        left: clause.left.copy(alloc)?,
        right: clause.right.copy(alloc)?,
    })
}

/// The equations of the positive clauses, in order.
pub(crate) fn axioms_of(alloc: Global, clauses: &[Sourced]) -> Result<Seq<Equation>, AllocError>
    ensures { IfOk result (λ axioms. axioms ≡ axioms_of clauses.now) }
{
    let mut axioms = Seq::new(alloc);
    for sourced in clauses {
        if sourced.clause.positive {
            axioms.push(equation_of(alloc, &sourced.clause)?)?;
        }
    }
    Ok(axioms)
}

const MOST_AXIOMS: usize = 2_147_483_648;

/// Refuses axioms that can't be numbered, and no others; a problem has at most 10,000 clauses.
pub(crate) fn are_few(axioms: &[Equation]) -> Result<(), AllocError>
    ensures few { OnOk result (length axioms.now < 2 ^ 31) }
    ensures refused { OnErr result (2 ^ 31 ≤ length axioms.now) }
{
    if axioms.len() < MOST_AXIOMS {
        Ok(())
    } else {
        Err(AllocError)
    }
}

/// The problem as it is, but for its goals.
pub(crate) fn without_goals(alloc: Global, problem: &Problem) -> Result<Encoded, AllocError>
    ensures { IfOk result (λ encoded. encoded ≡ without_goals problem.now) }
{
    Ok(Encoded {
        axioms: axioms_of(alloc, problem.clauses.as_slice())?,
        sources: sources_of(alloc, problem.axioms.as_slice())?,
        goals: Seq::new(alloc),
        goal_clauses: Seq::new(alloc),
        fresh: None,
        signature: copy_of(alloc, &problem.signature)?,
    })
}

// The clauses of these numbers as what axioms come from.
fn sources_of(alloc: Global, numbers: &[u32]) -> Result<Seq<Source>, AllocError>
    ensures { IfOk result (λ sources. sources ≡ map source.Clause numbers.now) }
{
    let mut sources = Seq::new(alloc);
    for number in numbers {
        sources.push(Source::Clause(*number))?;
    }
    Ok(sources)
}

// An equal signature.
fn copy_of(alloc: Global, signature: &Signature) -> Result<Signature, AllocError>
    ensures { IfOk result (λ copied. copied ≡ signature.now) }
{
    let symbols = Vec::from_slice(alloc, signature.symbols.as_slice())?;
    Ok(Signature {
        symbols: Seq::from_vec(symbols),
        least: signature.least,
        least_is_fresh: signature.least_is_fresh,
    })
}
