//! Normalising by a scan of facts, also under an order of variables, and what a scan finds.

use crate::cases::{has_only, read_classes};
use crate::orders::lpo_of;
use crate::terms::{A, B, F, G, M, P, Pair, equations, is_term, term};
use std::alloc::Global;
use std::test::Fail;
use uc_fact::{By, Equation, Found, Index, Side, Stop};
use uc_lpo::Lpo;
use uc_rewrite::{Normal, Scan, normalise, normalise_under};
use uc_term::{Seq, Sym, TermFault};

// Two constants, a binary symbol and two unary ones, the least first.
const PRECEDENCE: &[Sym] = &[A, B, M, F, G];

fn order(g: Global) -> Result<Lpo, Fail> {
    Ok(lpo_of(g, PRECEDENCE, PRECEDENCE)?)
}

fn scan(facts: &Vec<Equation>) -> Result<Scan, Fail> {
    if facts.len() > 9 {
        return Err(Fail::from("too many facts"));
    }
    Ok(Scan::new(facts.as_slice()))
}

// A step: its fact, whether it goes from left to right, its place, and the term after it.
type Row = (u32, bool, u32, &'static [u8]);

// Whether these are the steps.
fn are_steps(g: Global, normal: &Normal, rows: &[Row]) -> Result<bool, TermFault> {
    let steps = normal.chain.steps.as_slice();
    if steps.len() != rows.len() {
        return Ok(false);
    }
    for (step, (fact, left_to_right, place, to)) in steps.iter().zip(rows) {
        if step.by != By::Fact(*fact) || step.left_to_right != *left_to_right {
            return Ok(false);
        }
        if step.position.0 != *place || !is_term(g, &step.to, to)? {
            return Ok(false);
        }
    }
    Ok(true)
}

// Whether these are the steps from this term, and the last term is the one that was come to.
fn ends_so(g: Global, normal: &Normal, start: &[u8], rows: &[Row]) -> Result<bool, TermFault> {
    let last = match rows.last() {
        Some(row) => row.3,
        None => start,
    };
    if !is_term(g, &normal.chain.start, start)? || !is_term(g, &normal.term, last)? {
        return Ok(false);
    }
    are_steps(g, normal, rows)
}

// Facts, a term, the steps allowed, those that are made, and why there are no more.
type Normalised = (&'static [Pair], &'static [u8], u32, &'static [Row], Stop);

// f(a) = b and f(b) = a
const TURNS: &[Pair] = &[(b"af", b"b"), (b"bf", b"a")];

const OUTWARDS: &[Row] = &[
    (0, true, 2, b"bff"),
    (1, true, 1, b"af"),
    (0, true, 0, b"b"),
];

// m(X,Y) = m(Y,X), of which no side is greater, and f(X) = g(Y), whose sides have different variables
const TURNED: &[Pair] = &[(b"XYm", b"YXm"), (b"Xf", b"Yg")];

// two facts by which a step is possible
const TWO: &[Pair] = &[(b"a", b"XXm"), (b"Xf", b"b"), (b"Xf", b"a")];

const NORMALISED: &[Normalised] = &[
    // steps go from the inside out
    (TURNS, b"afff", 3, OUTWARDS, Stop::Full),
    (
        TURNS,
        b"afff",
        2,
        &[(0, true, 2, b"bff"), (1, true, 1, b"af")],
        Stop::Steps,
    ),
    // variables of one side alone are the least constant
    (
        TURNED,
        b"bgam",
        9,
        &[(1, false, 1, b"afam"), (0, true, 0, b"aafm")],
        Stop::Full,
    ),
    // the least fact is used
    (TWO, b"gf", 1, &[(1, true, 0, b"b")], Stop::Full),
    // without an order of variables there is no step
    (COMMUTES, b"YXm", 1, &[], Stop::Full),
];

#[test]
fn normalises_by_the_first_step(rt: HostRuntime) -> Result<(), Fail> {
    for case in NORMALISED {
        assert!(rt; normalises_so(rt.alloc(), case)?);
    }
    Ok(())
}

fn normalises_so(g: Global, case: &Normalised) -> Result<bool, Fail> {
    let facts = equations(g, case.0)?;
    let normal = normalised(g, &facts, case.1, case.2)?;
    Ok(normal.stop == case.4 && ends_so(g, &normal, case.1, case.3)?)
}

// What a term comes to by these facts, by so many steps at most.
fn normalised(g: Global, facts: &Vec<Equation>, start: &[u8], limit: u32) -> Result<Normal, Fail> {
    let scan = scan(facts)?;
    let order = order(g)?;
    let start = term(g, start)?;
    Ok(normalise(g, &start, &scan, &order, limit)?)
}

// f(X) = m(X,X)
const DOUBLES: &[Pair] = &[(b"Xf", b"XXm")];

#[test]
fn a_term_of_4096_nodes_is_the_last(rt: HostRuntime) -> Result<(), Fail> {
    let facts = equations(rt.alloc(), DOUBLES)?;
    let grown = normalised(rt.alloc(), &facts, b"affffffffffff", 4096)?;
    assert!(rt; grown.chain.steps.len() == 11 && grown.term.nodes() == 4096);
    assert!(rt; grown.stop == Stop::Size);
    Ok(())
}

// m(X,Y) = m(Y,X)
const COMMUTES: &[Pair] = &[(b"XYm", b"YXm")];

// An order of variables, a term, the steps allowed, the chain's start, the steps that are made, and why there are no more.
type NormalisedUnder = (
    &'static [u8],
    &'static [u8],
    u32,
    &'static [u8],
    &'static [Row],
    Stop,
);

const NORMALISED_UNDER: &[NormalisedUnder] = &[
    // the greater variable goes behind, where the order of variables says which it is
    (
        b"X|Y|",
        b"YXm",
        1,
        b"YXm",
        &[(0, true, 0, b"XYm")],
        Stop::Full,
    ),
    (b"X|Y|", b"YXm", 0, b"YXm", &[], Stop::Steps),
    (b"Y|X|", b"YXm", 1, b"YXm", &[], Stop::Full),
    // variables of a class are its first, and the chain begins with the representative
    (b"YX|", b"XYm", 1, b"YYm", &[], Stop::Full),
];

#[test]
fn normalises_under_an_order_of_variables(rt: HostRuntime) -> Result<(), Fail> {
    let facts = equations(rt.alloc(), COMMUTES)?;
    for case in NORMALISED_UNDER {
        assert!(rt; normalises_so_under(rt.alloc(), &facts, case)?);
    }
    Ok(())
}

fn normalises_so_under(
    g: Global,
    facts: &Vec<Equation>,
    case: &NormalisedUnder,
) -> Result<bool, Fail> {
    let normal = normalised_under(g, facts, case)?;
    Ok(normal.stop == case.5 && ends_so(g, &normal, case.3, case.4)?)
}

fn normalised_under(
    g: Global,
    facts: &Vec<Equation>,
    case: &NormalisedUnder,
) -> Result<Normal, Fail> {
    let scan = scan(facts)?;
    let order = order(g)?;
    let cases = read_classes(g, case.0)?;
    let start = term(g, case.1)?;
    if !has_only(&cases, &start) {
        return Err(Fail::from("another variable"));
    }
    Ok(normalise_under(g, &cases, &start, &scan, &order, case.2)?)
}

#[test]
fn a_scan_finds_both_sides(rt: HostRuntime) -> Result<(), Fail> {
    let facts = equations(rt.alloc(), TURNED)?;
    let scan = scan(&facts)?;
    assert!(rt; scan.pair(1).is_some() && scan.pair(2).is_none());
    let found = found_for(rt.alloc(), &scan, b"bam")?;
    assert!(rt; found.len() == 2);
    for one in found.as_slice() {
        assert!(rt; one.fact == 0 && has_b(rt.alloc(), one)?);
    }
    Ok(())
}

// What the scan finds for a term.
fn found_for(g: Global, scan: &Scan, letters: &[u8]) -> Result<Seq<Found>, TermFault> {
    let term = term(g, letters)?;
    Ok(scan.generalisations(g, term.as_nodes())?)
}

// Whether the variable of the side that was found is b.
fn has_b(g: Global, found: &Found) -> Result<bool, TermFault> {
    let bound = match found.side {
        Side::Left => found.subst.get(0),
        Side::Right => found.subst.get(1),
    };
    match bound {
        Some(bound) => Ok(term(g, b"b")?.as_nodes() == bound),
        None => Ok(false),
    }
}

// m(m(X,Y),X) = Y, with a repeated variable on the left, and m(Y,m(X,Y)) = X, whose variables don't come by their numbers
const REPEATS: &[Pair] = &[(b"XYmXm", b"Y"), (b"YXYmm", b"X")];

// The facts and sides that have a term as an instance.
const SIDES: &[(&[u8], &[(u32, Side)])] = &[
    (
        b"abmam",
        &[(0, Side::Left), (0, Side::Right), (1, Side::Right)],
    ),
    (
        b"babmm",
        &[(0, Side::Right), (1, Side::Left), (1, Side::Right)],
    ),
    (b"abmbm", &[(0, Side::Right), (1, Side::Right)]),
];

#[test]
fn a_repeated_variable_is_one_term(rt: HostRuntime) -> Result<(), Fail> {
    let facts = equations(rt.alloc(), REPEATS)?;
    let scan = scan(&facts)?;
    for (start, want) in SIDES {
        let found = found_for(rt.alloc(), &scan, start)?;
        assert!(rt; are_sides(found.as_slice(), want));
    }
    Ok(())
}

fn are_sides(found: &[Found], want: &[(u32, Side)]) -> bool {
    if found.len() != want.len() {
        return false;
    }
    for (one, (fact, side)) in found.iter().zip(want) {
        if one.fact != *fact || one.side != *side {
            return false;
        }
    }
    true
}

// plus(zero,Y) = Y, plus(s(X),Y) = s(plus(X,Y)), times(zero,Y) = zero and times(s(X),Y) = plus(Y,times(X,Y)), where the
// letters are a for zero, f for the successor, m for plus and p for times
const NUMERALS: &[Pair] = &[
    (b"aYm", b"Y"),
    (b"XfYm", b"XYmf"),
    (b"aYp", b"a"),
    (b"XfYp", b"YXYpm"),
];

const BY_NUMERALS: &[Sym] = &[A, F, M, P];

// Maude 3.2 makes 19 rewrites of three times four.
#[test]
fn three_times_four(rt: HostRuntime) -> Result<(), Fail> {
    let last = product(rt.alloc(), b"afffaffffp")?;
    assert!(rt; last.chain.steps.len() == 19 && last.stop == Stop::Full);
    assert!(rt; is_term(rt.alloc(), &last.term, b"affffffffffff")?);
    Ok(())
}

fn product(g: Global, letters: &[u8]) -> Result<Normal, Fail> {
    let facts = equations(g, NUMERALS)?;
    let scan = scan(&facts)?;
    let order = lpo_of(g, BY_NUMERALS, BY_NUMERALS)?;
    let start = term(g, letters)?;
    Ok(normalise(g, &start, &scan, &order, 1_000_000)?)
}
