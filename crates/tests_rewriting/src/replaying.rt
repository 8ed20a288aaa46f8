//! Replaying chains of steps.

use crate::terms::{Pair, equation, equations, is_term, term};
use std::alloc::Global;
use std::test::Fail;
use uc_fact::{By, Chain, Equation, Fact, Origin, Step, Stop};
use uc_rewrite::replay;
use uc_term::{Pos, Seq, Term, TermFault};

// f(a) = b, and b = b
const AXIOMS: &[Pair] = &[(b"af", b"b"), (b"b", b"b")];

// f(b) = a, and f(X) = X
const FACTS: &[Pair] = &[(b"bf", b"a"), (b"5f", b"5")];

fn facts(g: Global) -> Result<Vec<Fact>, Fail> {
    let mut facts = Vec::new(g);
    for sides in FACTS {
        facts.push(fact(g, *sides)?)?;
    }
    Ok(facts)
}

fn fact(g: Global, sides: Pair) -> Result<Fact, TermFault> {
    let Equation { left, right } = equation(g, sides)?;
    let chain = chain(g, b"0", &[])?;
    Ok(Fact {
        left,
        right,
        oriented: true,
        origin: Origin::Axiom(0),
        chain,
        front: 0,
        stops: (Stop::Full, Stop::Full),
    })
}

/// A step: by which equation, whether from left to right, at which place, and to which term.
pub type Row = (By, bool, u32, &'static [u8]);

fn step(g: Global, row: &Row) -> Result<Step, TermFault> {
    let to = term(g, row.3)?;
    Ok(Step {
        by: row.0,
        left_to_right: row.1,
        position: Pos(row.2),
        to,
    })
}

/// The chain of these steps.
pub fn chain(g: Global, start: &[u8], rows: &[Row]) -> Result<Chain, TermFault> {
    let start = term(g, start)?;
    let mut steps = Seq::new(g);
    for row in rows {
        steps.push(step(g, row)?)?;
    }
    Ok(Chain { start, steps })
}

const START: &[u8] = b"afff";

const FIRST: Row = (By::Axiom(0), true, 2, b"bff");

const SECOND: Row = (By::Fact(0), true, 1, b"af");

const THIRD: Row = (By::Axiom(0), true, 0, b"b");

// A chain by its start and its steps, and the term to which they lead where they replay.
type Case = (&'static [u8], &'static [Row], Option<&'static [u8]>);

const CHAINS: &[Case] = &[
    (START, &[], Some(START)),
    (START, &[FIRST, SECOND], Some(b"af")),
    (START, &[FIRST, SECOND, THIRD], Some(b"b")),
    (
        START,
        &[FIRST, SECOND, (By::Fact(0), false, 1, b"bff")],
        Some(b"bff"),
    ),
    (START, &[(By::Fact(1), true, 2, b"aff")], Some(b"aff")),
    // the number of no axiom, and of no fact
    (START, &[(By::Axiom(7), true, 2, b"bff")], None),
    (START, &[(By::Fact(2), true, 2, b"bff")], None),
    // another fact, the other way, another place, and one past the term
    (START, &[(By::Fact(0), true, 2, b"bff")], None),
    (START, &[(By::Axiom(0), false, 2, b"bff")], None),
    (START, &[(By::Axiom(0), true, 1, b"bff")], None),
    (START, &[(By::Axiom(0), true, 4, b"bff")], None),
    // another term behind the step, a shorter one, and two terms for one variable
    (START, &[(By::Axiom(0), true, 2, b"aff")], None),
    (START, &[(By::Axiom(0), true, 2, b"bf")], None),
    (START, &[(By::Fact(1), true, 2, b"bff")], None),
    // a wrong last step, and one that doesn't go on from the step before it
    (START, &[FIRST, (By::Fact(0), true, 1, b"a")], None),
    (START, &[FIRST, THIRD], None),
    // beside the step nothing changes, before it and after it
    (b"afam", &[(By::Axiom(0), true, 1, b"bam")], Some(b"bam")),
    (b"afam", &[(By::Axiom(0), true, 1, b"bbm")], None),
    (b"aafm", &[(By::Axiom(0), true, 2, b"abm")], Some(b"abm")),
    (b"aafm", &[(By::Axiom(0), true, 2, b"bbm")], None),
];

#[test]
fn each_step_replaces_equals(rt: HostRuntime) -> Result<(), Fail> {
    let axioms = equations(rt.alloc(), AXIOMS)?;
    let facts = facts(rt.alloc())?;
    for case in CHAINS {
        assert!(rt; replays_so(rt.alloc(), case, axioms.as_slice(), facts.as_slice())?);
    }
    Ok(())
}

// Whether the chain replays to the case's end, or doesn't where there is none.
fn replays_so(
    g: Global,
    case: &Case,
    axioms: &[Equation],
    facts: &[Fact],
) -> Result<bool, TermFault> {
    let chain = chain(g, case.0, case.1)?;
    match replay(g, &chain, axioms, facts)? {
        None => Ok(case.2.is_none()),
        Some((from, to)) => leads_so(g, &from, &to, case),
    }
}

fn leads_so(g: Global, from: &Term, to: &Term, case: &Case) -> Result<bool, TermFault> {
    match case.2 {
        None => Ok(false),
        Some(end) => Ok(is_term(g, from, case.0)? && is_term(g, to, end)?),
    }
}
