//! Trials of pairs.

ghost use Rattle.std.specs.Prelude.{◌≤◌, IfOk, length};
ghost use Rattle.uc_term.specs.declared.equation.Equation.{Equation as AnyEquation};
ghost use Rattle.uc_fact.specs.declared.joinable.Joinable.{Joinable as AnyJoinable};
ghost use Rattle.uc_shelf.specs.Fronts.{IsOf};
ghost use Rattle.uc_machine.specs.Origins.{IsKnownOrigin};
ghost use Rattle.uc_machine.specs.Results.{GivesFact};
ghost use Rattle.uc_task.specs.Trying.{IsTried};

use crate::chains::{followed_by, reversed};
use crate::fact::{End, Source, fact_of};
use crate::pair::pair_from;
use std::alloc::{AllocError, Global};
use uc_ac::join_ends;
use uc_fact::{Chain, Equation, Fact, Joinable, Origin, Reason};
use uc_order::Order;
use uc_rewrite::{Normal, normalise};
use uc_shelf::{Front, Shelf};

/// The most steps from each side of a pair.
const MOST_STEPS: u32 = 4096;

/// What the trial of a pair comes to.
#[derive(Drop)]
pub enum Tried {
    /// Its two sides are joinable.
    Joined(Reason),
    /// Its two sides are not shown to be joinable, by this answer of the test, and give this fact.
    Open { fact: Fact, answer: Joinable },
}

/// The two sides of a pair are normalised by the facts that live in a front, with 4,096 steps each. The ends are tested for
/// equality up to brackets and order at associative and commutative symbols, and then, where they aren't equal so, for ground
/// joinability. Where they aren't joined, they give a fact.
pub fn try_pair<O: Order>(
    alloc: Global,
    origin: &Origin,
    shelf: &Shelf,
    front: &Front,
    axioms: &[Equation],
    order: &O,
) -> Result<Tried, AllocError>
    requires of { IsOf shelf.now front.now }
    requires can { IsKnownOrigin (O.meaning order.now) axioms.now front.now.entries origin.now }
    ensures { IfOk result (IsTried (O.meaning order.now) axioms.now front.now.entries origin.now) }
{
    let pair = pair_from(alloc, origin, shelf, front, axioms, order)?;
    let view = shelf.view(front);
    let left = normalise(alloc, &pair.equation.left, &view, order, MOST_STEPS)?;
    let right = normalise(alloc, &pair.equation.right, &view, order, MOST_STEPS)?;
    let tested = join_ends(alloc, &left.term, &right.term, &view, order)?;
    match tested {
        Joinable::Joined(why) => Ok(Tried::Joined(why)),
        answer => {
            let source = Source {
                origin: *origin,
                front: front.len(),
            };
            let fact = kept(alloc, source, left, pair.chain, right, order)?;
            Ok(Tried::Open { fact, answer })
        }
    }
}

/// The fact that the two ends of a pair give. Its chain goes back from the left end to the pair's left side, by the pair's
/// chain to its right side, and on to the right end.
fn kept<O: Order>(
    alloc: Global,
    source: Source,
    left: Normal,
    chain: Chain,
    right: Normal,
    order: &O,
) -> Result<Fact, AllocError>
    requires left_short { length left.chain.steps ≤ MOST_STEPS }
    requires short { length chain.steps ≤ 2 }
    requires right_short { length right.chain.steps ≤ MOST_STEPS }
    ensures { IfOk result (λ fact. (equation : AnyEquation) (answer : AnyJoinable) → GivesFact (O.meaning order.now) source.origin source.front (record { equation = equation; chain = chain; left = left; right = right; answer = answer }) fact) }
{
    let back = reversed(alloc, left.chain)?;
    let way = followed_by(back, followed_by(chain, right.chain)?)?;
    let left = End {
        term: left.term,
        stop: left.stop,
    };
    let right = End {
        term: right.term,
        stop: right.stop,
    };
    fact_of(alloc, source, &left, &right, way, order)
}
