//! Facts with their chains.

use crate::replaying::{Row, chain};
use crate::terms::equation;
use std::alloc::Global;
use std::test::Fail;
use uc_fact::{By, Chain, Equation, Fact, Origin, Stop};
use uc_term::TermFault;

// From f(f(a)) by an axiom to f(a), and by a fact to a.
const STEPS: &[Row] = &[
    (By::Axiom(3), true, 1, b"af"),
    (By::Fact(5), false, 0, b"a"),
];

fn fact(g: Global) -> Result<Fact, TermFault> {
    let Equation { left, right } = equation(g, (b"aff", b"a"))?;
    let chain = chain(g, b"aff", STEPS)?;
    Ok(Fact {
        left,
        right,
        oriented: true,
        origin: Origin::Revived(5),
        chain,
        front: 7,
        stops: (Stop::Steps, Stop::Full),
    })
}

fn are_same(a: &Chain, b: &Chain) -> bool {
    if !a.start.same(&b.start) || a.steps.len() != b.steps.len() {
        return false;
    }
    for (s, t) in a.steps.as_slice().iter().zip(b.steps.as_slice()) {
        if s.by != t.by || s.left_to_right != t.left_to_right {
            return false;
        }
        if s.position != t.position || !s.to.same(&t.to) {
            return false;
        }
    }
    true
}

#[test]
fn copies_a_fact_with_its_chain(rt: HostRuntime) -> Result<(), Fail> {
    let fact = fact(rt.alloc())?;
    let copy = fact.copy(rt.alloc())?;
    assert!(rt; has_sides(&copy, &fact));
    assert!(rt; copy.chain.steps.len() == 2 && are_same(&copy.chain, &fact.chain));
    assert!(rt; has_marks(&copy));
    Ok(())
}

fn has_sides(copy: &Fact, fact: &Fact) -> bool {
    copy.left.same(&fact.left) && copy.right.same(&fact.right)
}

fn has_marks(copy: &Fact) -> bool {
    copy.oriented
        && copy.origin == Origin::Revived(5)
        && copy.front == 7
        && copy.stops == (Stop::Steps, Stop::Full)
}
