//! Overlaps and critical pairs.

ghost use Rattle.std.specs.Prelude.{All};
ghost use Rattle.uc_pair.specs.Overlapping.{IsFormedOf};

use crate::orders::lpo_of;
use crate::terms::{A, B, F, G, M, Pair, WIDE, equation, is_term, term};
use crate::unifying::double;
use std::alloc::Global;
use std::test::Fail;
use uc_fact::{Chain, Side};
use uc_lpo::Lpo;
use uc_pair::{Formation, Formed, Size, overlaps, pair_of};
use uc_term::{Equation, Sym, Term, TermFault};

// Two constants, a binary symbol, two unary ones and one with 24 arguments, the least first.
const PRECEDENCE: &[Sym] = &[A, B, M, F, G, WIDE];

fn order(g: Global) -> Result<Lpo, Fail> {
    Ok(lpo_of(g, PRECEDENCE, PRECEDENCE)?)
}

// An overlap, by its outer and inner sides and its place, with the two sides of its pair.
type Row = (Side, Side, u32, &'static [u8], &'static [u8]);

// Whether this is the overlap, and its pair has the row's two sides, its size, and a chain that leads from the one to the
// other.
fn is_row(g: Global, a: &Equation, b: &Equation, formed: &Formed, row: &Row) -> Result<bool, Fail>
    requires { IsFormedOf a.now b.now formed.now }
{
    let overlap = &formed.overlap;
    if overlap.outer_side != row.0 || overlap.inner_side != row.1 || overlap.position.0 != row.2 {
        return Ok(false);
    }
    match pair_of(g, overlap, a, b)? {
        Formation::Pair { left, right, chain } => is_pair(g, formed, &left, &right, &chain, row),
        Formation::TooLarge => Ok(false),
    }
}

fn is_pair(
    g: Global,
    formed: &Formed,
    left: &Term,
    right: &Term,
    chain: &Chain,
    row: &Row,
) -> Result<bool, Fail> {
    let steps = chain.steps.as_slice();
    if steps.len() != 2 || formed.size != Size::Weight(left.nodes() + right.nodes()) {
        return Ok(false);
    }
    let sides_are = is_term(g, left, row.3)? && is_term(g, right, row.4)?;
    Ok(sides_are && chain.start.same(left) && steps[1].to.same(right))
}

fn are_rows(
    g: Global,
    a: &Equation,
    b: &Equation,
    list: &[Formed],
    rows: &[Row],
) -> Result<bool, Fail>
    requires { All (IsFormedOf a.now b.now) list.now }
{
    if list.len() != rows.len() {
        return Ok(false);
    }
    for i in 0..list.len() {
        if !is_row(g, a, b, &list[i], &rows[i])? {
            return Ok(false);
        }
    }
    Ok(true)
}

// f(X) = g(Y), whose sides have different variables
const DIFFERENT: Pair = (b"0f", b"1g");

const ASSOCIATIVE: Pair = (b"01m2m", b"012mm");

// the left inverse
const INVERSE: Pair = (b"0f0m", b"a");

// Two equations and all their overlaps; equal ones are one fact with its own copy.
const OVERLAPS: &[(Pair, Pair, &[Row])] = &[
    // each side meets its own copy at the root
    (
        DIFFERENT,
        DIFFERENT,
        &[
            (Side::Left, Side::Left, 0, b"0g", b"1g"),
            (Side::Right, Side::Right, 0, b"0f", b"1f"),
        ],
    ),
    // the group theory of Knuth and Bendix
    (
        ASSOCIATIVE,
        ASSOCIATIVE,
        &[(Side::Left, Side::Left, 1, b"01m23mm", b"012mm3m")],
    ),
    (INVERSE, INVERSE, &[]),
    (
        ASSOCIATIVE,
        INVERSE,
        &[(Side::Left, Side::Left, 1, b"0f01mm", b"a1m")],
    ),
    (INVERSE, ASSOCIATIVE, &[]),
];

fn has_overlaps(g: Global, outer: Pair, inner: Pair, rows: &[Row]) -> Result<bool, Fail> {
    let a = equation(g, outer)?;
    let b = equation(g, inner)?;
    if a.left.same(&b.left) && a.right.same(&b.right) {
        return has_own_overlaps(g, &a, rows);
    }
    let order = order(g)?;
    let list = overlaps(g, 1, &a, 2, &b, &order)?;
    are_rows(g, &a, &b, list.as_slice(), rows)
}

// Whether these are the overlaps of an equation with its own copy.
fn has_own_overlaps(g: Global, a: &Equation, rows: &[Row]) -> Result<bool, Fail> {
    let order = order(g)?;
    let list = overlaps(g, 0, a, 0, a, &order)?;
    are_rows(g, a, a, list.as_slice(), rows)
}

#[test]
fn lists_critical_pairs(rt: HostRuntime) -> Result<(), Fail> {
    for (outer, inner, rows) in OVERLAPS {
        assert!(rt; has_overlaps(rt.alloc(), *outer, *inner, rows)?);
    }
    Ok(())
}

// 24 arguments: for i from 1 to 12 the variable i, and m of i and i, or of i, i and i + 1 one after another.
fn wide(g: Global, with_pairs: bool) -> Result<Term, Fail> {
    let mut args: Vec<Term> = Vec::new(g);
    for i in 1..13u32 {
        args.push(Term::var(g, i)?)?;
        args.push(if with_pairs {
            double(g, i)?
        } else {
            Term::var(g, i + 1)?
        })?;
    }
    if args.len() > 255 {
        return Err(Fail::from("too many arguments"));
    }
    Ok(Term::app(g, WIDE, args.as_slice())?)
}

fn with_right(g: Global, left: Term, letters: &[u8]) -> Result<Equation, TermFault> {
    let right = term(g, letters)?;
    Ok(Equation { left, right })
}

// Whether all the overlaps are too large.
fn are_large(g: Global, a: &Equation, b: &Equation, list: &[Formed]) -> Result<bool, Fail>
    requires { All (IsFormedOf a.now b.now) list.now }
{
    for i in 0..list.len() {
        if list[i].size != Size::Large || !is_large(g, a, b, &list[i])? {
            return Ok(false);
        }
    }
    Ok(true)
}

fn is_large(g: Global, a: &Equation, b: &Equation, formed: &Formed) -> Result<bool, Fail>
    requires { IsFormedOf a.now b.now formed.now }
{
    match pair_of(g, &formed.overlap, a, b)? {
        Formation::Pair { .. } => Ok(false),
        Formation::TooLarge => Ok(true),
    }
}

// How many overlaps an equation has with another one before it, where all are too large.
fn large_overlaps(g: Global, a: &Equation, b: &Equation) -> Result<usize, Fail> {
    let order = order(g)?;
    let list = overlaps(g, 1, a, 0, b, &order)?;
    if !are_large(g, a, b, list.as_slice())? {
        return Err(Fail::from("a pair is small"));
    }
    Ok(list.len())
}

// Of two equations with left sides X1, m(X1,X1), .., X12, m(X12,X12) and X1, X2, X2, .., X12, X12, X13 the unifier has a
// term of 8,191 nodes.
#[test]
fn a_unifier_may_be_too_large(rt: HostRuntime) -> Result<(), Fail> {
    let a = with_right(rt.alloc(), wide(rt.alloc(), true)?, b"a")?;
    let b = with_right(rt.alloc(), wide(rt.alloc(), false)?, b"b")?;
    assert!(rt; has_none(rt.alloc(), &a, &b)?);
    assert!(rt; large_overlaps(rt.alloc(), &b, &a)? == 1);
    Ok(())
}

// Whether an equation has no overlap with another one behind it.
fn has_none(g: Global, a: &Equation, b: &Equation) -> Result<bool, Fail> {
    let order = order(g)?;
    Ok(overlaps(g, 1, a, 2, b, &order)?.is_empty())
}

// f(X) = a with f(Y) = a, and X has the largest number.
#[test]
fn equal_sides_are_told(rt: HostRuntime) -> Result<(), Fail> {
    let args = [Term::var(rt.alloc(), u32::MAX)?];
    let a = with_right(rt.alloc(), Term::app(rt.alloc(), F, &args)?, b"a")?;
    let b = equation(rt.alloc(), (b"0f", b"a"))?;
    assert!(rt; only_size(rt.alloc(), &a, &b)? == Some(Size::Same));
    Ok(())
}

// The size of the overlap of an equation with another one before it, where it is the only one.
fn only_size(g: Global, a: &Equation, b: &Equation) -> Result<Option<Size>, Fail> {
    let order = order(g)?;
    let list = overlaps(g, 1, a, 0, b, &order)?;
    match list.as_slice() {
        [formed] => Ok(Some(formed.size)),
        _ => Ok(None),
    }
}
