//! The steps of a chain as moves.

ghost use Rattle.std.specs.Prelude.{◌≡◌, ◌<◌, ℕ, IfOk};
ghost use Rattle.uc_term.specs.Tree.{nodes};
ghost use Rattle.uc_fact.specs.declared.chain.By.TheVariants.{Fact as ByFact};
ghost use Rattle.uc_certify.specs.Making.{IsMoveOf, AreMovesOf, IsByFact, AreByFacts};

use std::alloc::{AllocError, Global};
use uc_certificate::Move;
use uc_fact::{By, Chain, Step};
use uc_term::{Seq, Term};

/// The steps of a chain, each with the path of its position in the term before it.
pub(crate) fn moves_of(alloc: Global, chain: &Chain) -> Result<Seq<Move>, AllocError>
    requires { AreByFacts chain.now.start chain.now.steps }
    ensures { IfOk result (AreMovesOf chain.now.start chain.now.steps) }
{
    let mut moves = Vec::new(alloc);
    let mut before = &chain.start;
    let steps = chain.steps.as_slice();
    for step in steps {
        moves.push(move_of(alloc, before, step)?)?;
        before = &step.to;
    }
    Ok(Seq::from_vec(moves))
}

fn move_of(alloc: Global, before: &Term, step: &Step) -> Result<Move, AllocError>
    requires by { IsByFact step.now }
    requires inside { step.now.position.0 < nodes before.now }
    ensures { IfOk result (IsMoveOf before.now step.now) }
{
    Ok(Move {
        fact: fact_of(step.by),
        left_to_right: step.left_to_right,
        path: before.path(alloc, step.position)?,
        to: step.to.copy(alloc)?,
    })
}

/// The number of the fact by which a step is made.
fn fact_of(by: By) -> u32
    requires { (number : ℕ) × (by ≡ ByFact number) }
    ensures { by ≡ ByFact result }
{
    match by {
        By::Fact(number) => number,
        By::Axiom(_) => unreachable!(),
    }
}
