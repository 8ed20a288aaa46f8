//! The joins of what is expected.

ghost use Rattle.std.specs.Prelude.{◌≡◌, ◌↔◌, List, IsTrue, IfOk};
ghost use Rattle.uc_term.specs.declared.equation.Equation.{Equation as AnyEquation};
ghost use Rattle.uc_certify.specs.declared.expected.Member.TheVariants as member;
ghost use Rattle.uc_certificate.specs.Arities.{JoinKeepsArities};
ghost use Rattle.uc_certify.specs.Gathering.{IsOfFacts, IsKnownMember};
ghost use Rattle.uc_certify.specs.Joining.{Names, Joins, IsRightJoin};
ghost use Rattle.uc_certify.specs.Knowing.{IsSetOf};
ghost use Rattle.uc_certify.specs.Testing.{HasPath, JoinsMember};

use crate::Member;
use crate::comparison::ByOrder;
use crate::ends::is_right_end;
use crate::moving::{Rules, end_of_moves};
use crate::sides::side_of;
use std::alloc::{AllocError, Global};
use uc_certificate::{Join, What};
use uc_fact::{Equation, Overlap};
use uc_order::Order;
use uc_pair::{Formation, Formed, pair_of};
use uc_term::Term;

/// Whether the join names the member, and joins its two terms.
pub(crate) fn is_right_join<O: Order>(
    alloc: Global,
    rules: &Rules,
    axioms: &[Equation],
    order: &O,
    member: Member,
    join: &Join,
) -> Result<bool, AllocError>
    requires symbols { IsSetOf rules.now.symbols.now.numbers.keys (O.meaning order.now).symbols }
    requires known { IsKnownMember rules.now.facts.now axioms.now member }
    requires arities { JoinKeepsArities (O.meaning order.now) join.now }
    ensures { IfOk result (λ right. IsTrue right ↔ IsRightJoin (O.meaning order.now) rules.now.facts.now axioms.now member join.now) }
{
    if !names(rules.facts, member, &join.what) {
        return Ok(false);
    }
    match member {
        Member::Axiom(k) => joins_axiom(alloc, rules, axioms, order, k, join),
        Member::Overlap(formed) => joins_overlap(alloc, rules, order, formed, join),
    }
}

/// Whether the join joins the two sides of the axiom of a number.
fn joins_axiom<O: Order>(
    alloc: Global,
    rules: &Rules,
    axioms: &[Equation],
    order: &O,
    k: u32,
    join: &Join,
) -> Result<bool, AllocError>
    requires symbols { IsSetOf rules.now.symbols.now.numbers.keys (O.meaning order.now).symbols }
    requires known { IsKnownMember rules.now.facts.now axioms.now (member.Axiom k) }
    requires arities { JoinKeepsArities (O.meaning order.now) join.now }
    ensures { IfOk result (λ right. IsTrue right ↔ JoinsMember (O.meaning order.now) rules.now.facts.now axioms.now (member.Axiom k) join.now) }
{
    let axiom = &axioms[k as usize];
    joins(alloc, rules, order, &axiom.left, &axiom.right, join)
}

/// Whether the join joins the two sides of an overlap's pair.
fn joins_overlap<O: Order>(
    alloc: Global,
    rules: &Rules,
    order: &O,
    formed: Formed,
    join: &Join,
) -> Result<bool, AllocError>
    requires symbols { IsSetOf rules.now.symbols.now.numbers.keys (O.meaning order.now).symbols }
    requires known { IsOfFacts rules.now.facts.now formed }
    requires arities { JoinKeepsArities (O.meaning order.now) join.now }
    ensures { IfOk result (λ right. (axioms : List AnyEquation) → IsTrue right ↔ JoinsMember (O.meaning order.now) rules.now.facts.now axioms (member.Overlap formed) join.now) }
{
    let outer = &rules.facts[formed.overlap.outer as usize];
    let inner = &rules.facts[formed.overlap.inner as usize];
    match pair_of(alloc, &formed.overlap, outer, inner)? {
        Formation::Pair { left, right, .. } => joins(alloc, rules, order, &left, &right, join),
        Formation::TooLarge => Ok(false),
    }
}

/// Whether moves lead from two terms to ends that are joined as the join says.
fn joins<O: Order>(
    alloc: Global,
    rules: &Rules,
    order: &O,
    left: &Term,
    right: &Term,
    join: &Join,
) -> Result<bool, AllocError>
    requires symbols { IsSetOf rules.now.symbols.now.numbers.keys (O.meaning order.now).symbols }
    requires arities { JoinKeepsArities (O.meaning order.now) join.now }
    ensures { IfOk result (λ right_join. IsTrue right_join ↔ Joins (O.meaning order.now) rules.now.facts.now left.now right.now join.now) }
{
    let comparison = ByOrder { order };
    let from_left = end_of_moves(alloc, rules, &comparison, left, join.left.as_slice())?;
    let Some(left_end) = from_left else {
        return Ok(false);
    };
    let from_right = end_of_moves(alloc, rules, &comparison, right, join.right.as_slice())?;
    let Some(right_end) = from_right else {
        return Ok(false);
    };
    is_right_end(alloc, rules, order, left_end, right_end, &join.end)
}

/// Whether this names the member.
fn names(facts: &[Equation], member: Member, what: &What) -> bool
    ensures { IsTrue result ↔ Names facts.now member what.now }
{
    match member {
        Member::Axiom(k) => match what {
            What::Axiom(number) => *number == k,
            What::Overlap { .. } => false,
        },
        Member::Overlap(formed) => match what {
            What::Axiom(_) => false,
            What::Overlap {
                outer,
                outer_side,
                inner,
                inner_side,
                path,
            } => {
                let overlap = Overlap {
                    outer: *outer,
                    outer_side: *outer_side,
                    inner: *inner,
                    inner_side: *inner_side,
                    position: formed.overlap.position,
                };
                overlap == formed.overlap && has_path(facts, formed.overlap, path.as_slice())
            }
        },
    }
}

/// Whether the path leads to the overlap's position in the side of the outer fact.
fn has_path(facts: &[Equation], overlap: Overlap, path: &[u32]) -> bool
    ensures { IsTrue result ↔ HasPath facts.now overlap path.now }
{
    let Some(fact) = facts.get(overlap.outer as usize) else {
        return false;
    };
    match side_of(fact, overlap.outer_side).pos_of(path) {
        Some(pos) => pos.0 == overlap.position.0,
        None => false,
    }
}
