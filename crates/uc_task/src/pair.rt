//! The pairs of tasks, by where they come from.

ghost use Rattle.std.specs.Prelude.{◌≡◌, ◌≤◌, List, IfOk, length};
ghost use Rattle.uc_term.specs.declared.equation.Equation.{Equation as AnyEquation};
ghost use Rattle.uc_fact.specs.declared.fact.Origin.TheVariants.{Overlap as OfOverlap};
ghost use Rattle.uc_shelf.specs.Fronts.{IsOf};
ghost use Rattle.uc_fact.specs.Chains.{one_step};
ghost use Rattle.uc_machine.specs.Results.{IsPair};
ghost use Rattle.uc_machine.specs.Origins.{IsKnownOrigin, IsListed};

use crate::chains::one_step;
use crate::live::copy_equation;
use std::alloc::{AllocError, Global};
use uc_fact::{By, Chain, Equation, Origin, Overlap};
use uc_order::Order;
use uc_pair::{Formation, pair_of};
use uc_shelf::{Front, Shelf};
use uc_term::Term;

/// A pair: its equation, and the chain from the left side to the right side.
#[derive(Drop)]
pub struct Pair {
    pub equation: Equation,
    pub chain: Chain,
}

/// The pair of an axiom, of an overlap, or of a fact that died.
pub fn pair_from<O: Order>(
    alloc: Global,
    origin: &Origin,
    shelf: &Shelf,
    front: &Front,
    axioms: &[Equation],
    order: &O,
) -> Result<Pair, AllocError>
    requires of { IsOf shelf.now front.now }
    requires can { IsKnownOrigin (O.meaning order.now) axioms.now front.now.entries origin.now }
    ensures pair { IfOk result (λ pair. IsPair axioms.now front.now.entries origin.now pair.equation pair.chain) }
    ensures short { IfOk result (λ pair. length pair.chain.steps ≤ 2) }
{
    match *origin {
        Origin::Axiom(k) => {
            let axiom = &axioms[k as usize];
            by_equation(alloc, By::Axiom(k), &axiom.left, &axiom.right)
        }
        Origin::Overlap(overlap) => by_overlap(alloc, &overlap, shelf, front, order),
        Origin::Revived(k) => {
            let fact = shelf.fact(front, k);
            by_equation(alloc, By::Fact(k), &fact.left, &fact.right)
        }
    }
}

/// The pair of an equation, with the one step by it.
fn by_equation(alloc: Global, by: By, left: &Term, right: &Term) -> Result<Pair, AllocError>
    ensures { IfOk result (λ pair. (pair.equation ≡ record { left = left.now; right = right.now }) × (pair.chain ≡ one_step by (record { left = left.now; right = right.now }))) }
{
    Ok(Pair {
        equation: copy_equation(alloc, left, right)?,
        chain: one_step(alloc, by, left, right)?,
    })
}

/// The pair of an overlap.
fn by_overlap<O: Order>(
    alloc: Global,
    overlap: &Overlap,
    shelf: &Shelf,
    front: &Front,
    order: &O,
) -> Result<Pair, AllocError>
    requires of { IsOf shelf.now front.now }
    requires listed { IsListed (O.meaning order.now) front.now.entries overlap.now }
    ensures pair { IfOk result (λ pair. (axioms : List AnyEquation) → IsPair axioms front.now.entries (OfOverlap overlap.now) pair.equation pair.chain) }
    ensures short { IfOk result (λ pair. length pair.chain.steps ≤ 2) }
{
    let a = shelf.fact(front, overlap.outer);
    let b = shelf.fact(front, overlap.inner);
    let outer = copy_equation(alloc, &a.left, &a.right)?;
    let inner = copy_equation(alloc, &b.left, &b.right)?;
    match pair_of(alloc, overlap, &outer, &inner)? {
        Formation::Pair { left, right, chain } => Ok(Pair {
            equation: Equation { left, right },
            chain,
        }),
        Formation::TooLarge => unreachable!(),
    }
}
