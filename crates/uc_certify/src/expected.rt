//! What a certificate is to join.

ghost use Rattle.std.specs.Prelude.{◌≡◌, ◌<◌, ◌++◌, ◌^◌, List, length, IfOk, OnOk};
ghost use Rattle.uc_term.specs.declared.equation.Equation.{Equation as AnyEquation};
ghost use Rattle.uc_order.specs.Members.{Each};
ghost use Rattle.uc_certify.specs.Expecting.{axioms_from, members_of, AreExpected};
ghost use Rattle.uc_certify.specs.Gathering.{AddsOverlaps, IsKnownMember};

use std::alloc::{AllocError, Global};
use uc_fact::Equation;
use uc_order::Order;
use uc_pair::{Formed, overlaps};

/// A member of the list of what a certificate is to join: the axiom of a number, or an overlap of two facts, with the size of its
/// pair.
#[derive(Clone, Copy, PartialEq, Eq, Debug)]
pub enum Member {
    Axiom(u32),
    Overlap(Formed),
}

/// What a certificate is to join: every axiom, in order, and then every overlap of two facts, also of a fact with itself, by outer
/// fact, inner fact and the order of their overlaps. The facts are numbered by their places.
pub fn expected_members<O: Order>(
    alloc: Global,
    axioms: &[Equation],
    facts: &[Equation],
    order: &O,
) -> Result<Vec<Member>, AllocError>
    requires few_axioms { length axioms.now < 2 ^ 32 }
    requires few_facts { length facts.now < 2 ^ 32 }
    ensures expected { IfOk result (λ members. AreExpected (O.meaning order.now).greater facts.now axioms.now members.items) }
    // what follows for each of them: there is the axiom, or it is an overlap of two of the facts
    ensures known { IfOk result (λ members. Each (IsKnownMember facts.now axioms.now) members.items) }
{
    let mut members = axiom_members(alloc, axioms)?;
    for k in 0..facts.len() {
        add_overlaps(alloc, &mut members, k, facts, order)?;
    }
    Ok(members)
}

/// Every axiom, in order.
fn axiom_members(alloc: Global, axioms: &[Equation]) -> Result<Vec<Member>, AllocError>
    requires { length axioms.now < 2 ^ 32 }
    ensures { IfOk result (λ members. members.items ≡ axioms_from 0 axioms.now) }
{
    let mut members = Vec::new(alloc);
    for k in 0..axioms.len() {
        members.push(Member::Axiom(k as u32))?;
    }
    Ok(members)
}

/// Puts the overlaps of an outer fact with each of the facts at the end of the list, by inner fact.
fn add_overlaps<O: Order>(
    alloc: Global,
    members: &mut Vec<Member>,
    k: usize,
    facts: &[Equation],
    order: &O,
) -> Result<(), AllocError>
    requires few { length facts.now < 2 ^ 32 }
    requires inside { k < length facts.now }
    ensures added { OnOk result (AddsOverlaps (O.meaning order.now).greater k facts.now members.old.items members.new.items) }
    ensures known { OnOk result ((axioms : List AnyEquation) → Each (IsKnownMember facts.now axioms) members.old.items → Each (IsKnownMember facts.now axioms) members.new.items) }
{
    let outer = &facts[k];
    for i in 0..facts.len() {
        let list = overlaps(alloc, k as u32, outer, i as u32, &facts[i], order)?;
        add_members(members, list.as_slice())?;
    }
    Ok(())
}

/// Puts overlaps at the end of the list.
fn add_members(members: &mut Vec<Member>, list: &[Formed]) -> Result<(), AllocError>
    ensures { OnOk result (members.new.items ≡ members.old.items ++ members_of list.now) }
{
    for formed in list {
        members.push(Member::Overlap(*formed))?;
    }
    Ok(())
}
