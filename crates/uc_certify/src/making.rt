//! The certificate of a system that converges.

ghost use Rattle.std.specs.Prelude.{◌≡◌, ◌<◌, ◌^◌, List, length, IfOk};
ghost use Rattle.uc_clause.specs.declared.clause.Sourced.{Sourced};
ghost use Rattle.uc_check.specs.Checks.{AreRightBefore};
ghost use Rattle.uc_order.specs.Laws.{HasSym};
ghost use Rattle.uc_fact.specs.Ground.{AreOfSignature};
ghost use Rattle.uc_problem.specs.declared.problem.Encoded.{Encoded};
ghost use Rattle.uc_system.specs.Reading.{precedence_of};
ghost use Rattle.uc_certify.specs.declared.certified.Certified.TheVariants.{Yes};
ghost use Rattle.uc_certify.specs.Certifying.{AreSameSymbols, AreDerivedBefore, IsCertified};
ghost use Rattle.uc_term.specs.Tree.{nodes};
ghost use Rattle.uc_term.specs.Equations.{side_of};
ghost use Rattle.uc_term.specs.declared.equation.Equation.{Equation as AnyEquation};
ghost use Rattle.uc_fact.specs.Live.{numbered};
ghost use Rattle.uc_certify.specs.declared.expected.Member.TheVariants as member;
ghost use Rattle.uc_certify.specs.Gathering.{IsOfFacts, IsKnownMember};
ghost use Rattle.uc_certify.specs.Making.{AreFoundJoined, IsMade, IsFoundJoined, AllAreFoundJoined, NamesIt, IsMadeFor, AreAllMade};

use crate::Member;
use crate::ending::end_of;
use crate::expected::expected_members;
use crate::moves::moves_of;
use crate::sides::side_of;
use std::alloc::{AllocError, Global};
use uc_certificate::{Certificate, Join, What};
use uc_check::Proof;
use uc_fact::{Equation, Index, Overlap, System};
use uc_order::{Order, OrderSpec};
use uc_pair::{Formation, Formed, pair_of};
use uc_rewrite::{Scan, normalise};
use uc_system::SystemText;
use uc_term::{Seq, Term};

/// The most steps by which a term is normalised.
const MOST_STEPS: u32 = 4096;

/// The certificate of a system by which every axiom and every overlap of two facts is found to be joined, with a derivation of
/// its facts, and for each of them the number of its line.
///
/// It has a join for every axiom in order, and then for every overlap, by outer fact, inner fact and the order of their overlaps.
/// Each is made as the final pass tries it: the moves from both terms are the steps by which they are normalised, with 4,096 steps
/// each, and the end is what the tests of the two ends answer. Where these are equal up to brackets and order at associative and
/// commutative symbols, it has the facts that make the symbols so; where the orders of their variables are tried, each case has the
/// steps by which the ends are normalised under that order.
///
/// It passes all tests for each encoded problem with these axioms whose symbols are the description's, where the lines are right
/// for its clauses, and each fact's line is a chain line of the fact's equation. The facts and the axioms are over the order's
/// signature.
pub fn make_certificate<O: Order>(
    alloc: Global,
    spec: &OrderSpec,
    system: &System,
    axioms: &[Equation],
    lines: Proof,
    facts: Seq<u32>,
    order: &O,
) -> Result<Certificate, AllocError>
    requires few_facts { length system.now.facts < 2 ^ 31 }
    requires few_axioms { length axioms.now < 2 ^ 32 }
    requires facts_over { AreOfSignature (HasSym (O.meaning order.now)) (O.meaning order.now).arity system.now.facts }
    requires axioms_over { AreOfSignature (HasSym (O.meaning order.now)) (O.meaning order.now).arity axioms.now }
    requires joined { AllAreFoundJoined (O.meaning order.now) system.now.facts axioms.now }
    ensures text { IfOk result (λ made. made.text ≡ record { spec = spec.now; system = system.now }) }
    ensures derivation { IfOk result (λ made. (made.lines ≡ lines) × (made.facts ≡ facts)) }
    ensures joins { IfOk result (λ made. AreAllMade (O.meaning order.now) system.now.facts axioms.now made.joins) }
    // what follows: it passes all tests
    ensures certified { IfOk result (λ made. (clauses : List Sourced) (encoded : Encoded) → encoded.axioms ≡ axioms.now → AreSameSymbols (precedence_of spec.now) encoded.signature.symbols → AreRightBefore clauses encoded.fresh lines.lines (length lines.lines) → AreDerivedBefore facts lines.lines system.now.facts (length system.now.facts) → IsCertified (O.meaning order.now) clauses encoded made Yes) }
{
    let joins = joins_of(alloc, system.facts.as_slice(), axioms, order)?;
    Ok(Certificate {
        text: SystemText {
            spec: copy_spec(alloc, spec)?,
            system: copy_system(alloc, system)?,
        },
        lines,
        facts,
        joins,
    })
}

/// A join for every axiom and every overlap.
fn joins_of<O: Order>(
    alloc: Global,
    facts: &[Equation],
    axioms: &[Equation],
    order: &O,
) -> Result<Seq<Join>, AllocError>
    requires few_facts { length facts.now < 2 ^ 31 }
    requires few_axioms { length axioms.now < 2 ^ 32 }
    requires joined { AllAreFoundJoined (O.meaning order.now) facts.now axioms.now }
    ensures { IfOk result (AreAllMade (O.meaning order.now) facts.now axioms.now) }
{
    let index = Scan::new(facts);
    let members = expected_members(alloc, axioms, facts, order)?;
    let mut joins = Vec::new(alloc);
    let list = members.as_slice();
    for member in list {
        joins.push(join_for(alloc, *member, facts, axioms, &index, order)?)?;
    }
    Ok(Seq::from_vec(joins))
}

/// The join of a member.
fn join_for<O: Order, I: Index>(
    alloc: Global,
    member: Member,
    facts: &[Equation],
    axioms: &[Equation],
    index: &I,
    order: &O,
) -> Result<Join, AllocError>
    requires index { I.live index.now ≡ numbered facts.now }
    requires known { IsKnownMember facts.now axioms.now member }
    requires joined { IsFoundJoined (O.meaning order.now) facts.now axioms.now member }
    ensures { IfOk result (IsMadeFor (O.meaning order.now) facts.now axioms.now member) }
{
    match member {
        Member::Axiom(k) => {
            let axiom = &axioms[k as usize];
            join_of(
                alloc,
                What::Axiom(k),
                &axiom.left,
                &axiom.right,
                index,
                order,
            )
        }
        Member::Overlap(formed) => overlap_join(alloc, formed, facts, index, order),
    }
}

/// The join of an overlap.
fn overlap_join<O: Order, I: Index>(
    alloc: Global,
    formed: Formed,
    facts: &[Equation],
    index: &I,
    order: &O,
) -> Result<Join, AllocError>
    requires index { I.live index.now ≡ numbered facts.now }
    requires known { IsOfFacts facts.now formed }
    requires joined { (axioms : List AnyEquation) × IsFoundJoined (O.meaning order.now) facts.now axioms (member.Overlap formed) }
    ensures { IfOk result (λ join. (axioms : List AnyEquation) → IsMadeFor (O.meaning order.now) facts.now axioms (member.Overlap formed) join) }
{
    let outer = &facts[formed.overlap.outer as usize];
    let inner = &facts[formed.overlap.inner as usize];
    let what = what_of(alloc, formed.overlap, outer)?;
    match pair_of(alloc, &formed.overlap, outer, inner)? {
        Formation::Pair { left, right, .. } => join_of(alloc, what, &left, &right, index, order),
        Formation::TooLarge => unreachable!(),
    }
}

/// What names an overlap whose outer fact is this.
fn what_of(alloc: Global, overlap: Overlap, outer: &Equation) -> Result<What, AllocError>
    requires { overlap.position.0 < nodes (side_of overlap.outer_side outer.now) }
    ensures { IfOk result (NamesIt overlap outer.now) }
{
    Ok(What::Overlap {
        outer: overlap.outer,
        outer_side: overlap.outer_side,
        inner: overlap.inner,
        inner_side: overlap.inner_side,
        path: side_of(outer, overlap.outer_side).path(alloc, overlap.position)?,
    })
}

/// The join of two terms that are found to be joined.
fn join_of<O: Order, I: Index>(
    alloc: Global,
    what: What,
    l: &Term,
    r: &Term,
    index: &I,
    order: &O,
) -> Result<Join, AllocError>
    requires { AreFoundJoined (O.meaning order.now) (I.live index.now) l.now r.now }
    ensures what { IfOk result (λ join. join.what ≡ what) }
    ensures made { IfOk result (IsMade (O.meaning order.now) (I.live index.now) l.now r.now) }
{
    let from_left = normalise(alloc, l, index, order, MOST_STEPS)?;
    let from_right = normalise(alloc, r, index, order, MOST_STEPS)?;
    Ok(Join {
        what,
        left: moves_of(alloc, &from_left.chain)?,
        right: moves_of(alloc, &from_right.chain)?,
        end: end_of(alloc, &from_left.term, &from_right.term, index, order)?,
    })
}

/// An equal description.
fn copy_spec(alloc: Global, spec: &OrderSpec) -> Result<OrderSpec, AllocError>
    ensures { IfOk result (λ copy. copy ≡ spec.now) }
{
    match spec {
        OrderSpec::Kbo {
            w0,
            weights,
            precedence,
        } => Ok(OrderSpec::Kbo {
            w0: *w0,
            weights: Seq::from_vec(Vec::from_slice(alloc, weights.as_slice())?),
            precedence: Seq::from_vec(Vec::from_slice(alloc, precedence.as_slice())?),
        }),
        OrderSpec::Lpo { precedence } => Ok(OrderSpec::Lpo {
            precedence: Seq::from_vec(Vec::from_slice(alloc, precedence.as_slice())?),
        }),
    }
}

/// An equal system.
fn copy_system(alloc: Global, system: &System) -> Result<System, AllocError>
    ensures { IfOk result (λ copy. copy ≡ system.now) }
{
    let mut facts = Vec::new(alloc);
    let equations = system.facts.as_slice();
    for equation in equations {
        facts.push(copy_equation(alloc, equation)?)?;
    }
    Ok(System {
        facts: Seq::from_vec(facts),
    })
}

fn copy_equation(alloc: Global, equation: &Equation) -> Result<Equation, AllocError>
    ensures { IfOk result (λ copy. copy ≡ equation.now) }
{
    Ok(Equation {
        left: equation.left.copy(alloc)?,
        right: equation.right.copy(alloc)?,
    })
}
