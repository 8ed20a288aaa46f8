//! The Knuth-Bendix order: its refusals, and comparisons by weights, heads and many variables.

use crate::cases::single_classes;
use crate::comparing::{compare_so, compared_under, holds, holds_under, verdict};
use crate::orders::kbo_of;
use crate::terms::{A, B, E, I, M, pop, push};
use std::alloc::{AllocError, Global};
use std::test::Fail;
use uc_kbo::Kbo;
use uc_order::{Cmp, Order, OrderFault, VarOrder};
use uc_term::{Pos, Sym, Term, TermFault};

const BY_ARITY: &[Sym] = &[E, A, B, I, M];

const INVERSE_LAST: &[Sym] = &[E, A, B, M, I];

const NONE: Sym = Sym(77);

// The precedence first, then the weights, each at the first symbol that is so: w0, weights, precedence and refusal.
const REFUSALS: &[(u32, &[u32], &[Sym], OrderFault)] = &[
    (
        1,
        &[0, 0, 0],
        &[E, NONE, E],
        OrderFault::UnknownSymbol(NONE),
    ),
    (1, &[0, 0, 0], &[I, E, I], OrderFault::NotTotal(I)),
    (1, &[0, 0], &[E, B], OrderFault::NotTotal(A)),
    (
        1,
        &[1, 1, 1, 1000001, 0],
        BY_ARITY,
        OrderFault::BadWeight(I, 1000001),
    ),
    (3, &[3, 3, 2, 1, 0], BY_ARITY, OrderFault::BadWeight(B, 2)),
    (1, &[1, 1, 1, 1, 0], BY_ARITY, OrderFault::BadWeight(M, 0)),
    (1, &[1, 1, 1, 0, 1], BY_ARITY, OrderFault::BadWeight(I, 0)),
];

#[test]
fn refuses(rt: HostRuntime) -> Result<(), Fail> {
    for (w0, weights, precedence, want) in REFUSALS {
        let w0 = (*w0).clamp(1, 9);
        match kbo_of(rt.alloc(), BY_ARITY, w0, weights, precedence) {
            Err(fault) => assert!(rt; fault == *want),
            Ok(_) => assert!(rt; false, "no refusal"),
        }
    }
    Ok(())
}

fn equal_weights(alloc: Global) -> Result<Kbo, OrderFault> {
    kbo_of(alloc, BY_ARITY, 1, &[1; 5], BY_ARITY)
}

// Every symbol weighs 1. The first rows are four axioms of which the second and third have a greater side.
const EQUAL_WEIGHTS: &[&[u8]] = &[
    b"XYmYXm?XYmiX>aai<aa=XYmiYiXim<",
    b"XiiY?YXii?XiiiXXm?XXmXiii?XYmXii>XiiXYm<XXmYii?",
    b"bamabm>abmbam<XYimXiYm<XYZmmXYmZm<XYmemXYYmm?ab<XXi<",
];

const EQUAL_WEIGHTS_UNDER: &[(&[u8], &[u8])] = &[
    (b"X|Y|", b"XY<XYmYXm<XiY?YiX>XXmXYm<YYmXYm>XXmYi?"),
    (b"XY|", b"XY=XYmYXm=XiY>"),
    (b"Z|Y|X|", b"XYZmmZYXmm>"),
];

#[test]
fn compares_by_equal_weights(rt: HostRuntime) -> Result<(), Fail> {
    let g = rt.alloc();
    let order = equal_weights(g)?;
    assert!(rt; order.least() == E);
    for rows in EQUAL_WEIGHTS {
        assert!(rt; holds(g, &order, rows)?);
    }
    for (cases, rows) in EQUAL_WEIGHTS_UNDER {
        assert!(rt; holds_under(g, &order, cases, rows)?);
    }
    Ok(())
}

// The inverse weighs 0 and is the greatest symbol.
#[test]
fn compares_by_an_inverse_of_no_weight(rt: HostRuntime) -> Result<(), Fail> {
    let g = rt.alloc();
    let by_inverse = kbo_of(g, INVERSE_LAST, 1, &[1, 1, 1, 1, 0], INVERSE_LAST)?;
    assert!(rt;
        holds(
            g,
            &by_inverse,
            b"XYmiYiXim>XiX>XiiX>XXi<XiY?XiiXi>XiYi?Xiia>"
        )?
    );
    assert!(rt; holds_under(g, &by_inverse, b"X|Y|", b"YiX>XiY?XiX>YiXii?")?);
    assert!(rt; holds_under(g, &by_inverse, b"XY|", b"XiY>XiYi=XiiYi>")?);
    Ok(())
}

// Variables weigh 2 and two constants are the lightest.
#[test]
fn compares_by_two_light_constants(rt: HostRuntime) -> Result<(), Fail> {
    let g = rt.alloc();
    let by_constants = kbo_of(g, BY_ARITY, 2, &[3, 2, 2, 1, 5], &[E, B, A, I, M])?;
    assert!(rt; by_constants.least() == B && holds(g, &by_constants, b"ab>ea>Xa?eX?aie>")?);
    Ok(())
}

// The product of two variables.
fn product(alloc: Global, x: u32, y: u32) -> Result<Term, TermFault> {
    let args = [Term::var(alloc, x)?, Term::var(alloc, y)?];
    Term::app(alloc, M, &args)
}

fn inverse(alloc: Global, x: u32) -> Result<Term, TermFault> {
    let args = [Term::var(alloc, x)?];
    Term::app(alloc, I, &args)
}

// The inverse of the variable, or the product of the two.
fn small(alloc: Global, variables: &[u32]) -> Result<Term, TermFault> {
    match variables {
        [x, y] => product(alloc, *x, *y),
        [x] => inverse(alloc, *x),
        _ => Term::app(alloc, E, &[]),
    }
}

// The variables of two small terms, and how these compare.
type Row = (&'static [u32], &'static [u32], Cmp);

fn is_so(alloc: Global, order: &Kbo, row: &Row) -> Result<bool, TermFault> {
    let s = small(alloc, row.0)?;
    let t = small(alloc, row.1)?;
    Ok(compare_so(order, &s, &t, row.2))
}

fn is_so_under(alloc: Global, order: &Kbo, cases: &VarOrder, row: &Row) -> Result<bool, TermFault> {
    let s = small(alloc, row.0)?;
    let t = small(alloc, row.1)?;
    Ok(compared_under(order, cases, &s, &t) == Some(row.2))
}

// Variables of numbers and classes for which there is no counter.
const MANY: &[Row] = &[
    (&[100, u32::MAX], &[u32::MAX], Cmp::Greater),
    (&[100, u32::MAX], &[64], Cmp::Unknown),
];

#[test]
fn compares_many_variables(rt: HostRuntime) -> Result<(), Fail> {
    let order = equal_weights(rt.alloc())?;
    for row in MANY {
        assert!(rt; is_so(rt.alloc(), &order, row)?);
    }
    Ok(())
}

const MANY_UNDER: &[Row] = &[
    (&[0, 69], &[0, 68], Cmp::Greater),
    (&[0, 69], &[68], Cmp::Greater),
    (&[0, 68], &[69], Cmp::Unknown),
];

#[test]
fn compares_many_variables_under_an_order_of_them(rt: HostRuntime) -> Result<(), Fail> {
    let order = equal_weights(rt.alloc())?;
    let cases = single_classes(rt.alloc(), 70)?;
    for row in MANY_UNDER {
        assert!(rt; is_so_under(rt.alloc(), &order, &cases, row)?);
    }
    Ok(())
}

// A comb around the variable 0, that goes on by its first or by its last argument: beside what it goes on by, each level
// has the next of the variables.
fn comb(alloc: Global, variables: &[u32], last: bool) -> Result<Term, TermFault> {
    let mut term = Term::var(alloc, 0)?;
    for x in variables {
        let beside = Term::var(alloc, *x)?;
        let args = if last { [beside, term] } else { [term, beside] };
        term = Term::app(alloc, M, &args)?;
    }
    Ok(term)
}

// Whether two terms compare so in place of a term's subterm, time and again.
fn compare_at(
    alloc: Global,
    order: &Kbo,
    around: &Term,
    at: Pos,
    sides: (&Term, &Term),
    want: Cmp,
) -> Result<bool, TermFault> {
    let s = around.put(alloc, at, sides.0)?;
    let t = around.put(alloc, at, sides.1)?;
    for _ in 0..5 {
        if order.compare(s.as_nodes(), t.as_nodes()) != want {
            return Ok(false);
        }
    }
    Ok(true)
}

// The same of the two terms on the stack.
fn holds_at_once(
    alloc: Global,
    order: &Kbo,
    around: &Term,
    at: Pos,
    stack: &mut Vec<Term>,
    want: Cmp,
) -> Result<bool, TermFault> {
    let t = pop(alloc, stack)?;
    let s = pop(alloc, stack)?;
    compare_at(alloc, order, around, at, (&s, &t), want)
}

// The same of the two terms before each verdict.
fn holds_at(
    alloc: Global,
    order: &Kbo,
    around: &Term,
    at: Pos,
    rows: &[u8],
) -> Result<bool, TermFault> {
    let mut stack: Vec<Term> = Vec::new(alloc);
    for letter in rows {
        if let Some(want) = verdict(*letter) {
            if !holds_at_once(alloc, order, around, at, &mut stack, want)? {
                return Ok(false);
            }
        } else {
            push(alloc, *letter, &mut stack)?;
        }
    }
    Ok(true)
}

// The same in the deep ends of both combs.
fn holds_within(
    alloc: Global,
    order: &Kbo,
    variables: &[u32],
    rows: &[u8],
) -> Result<bool, TermFault> {
    let levels = u32::try_from(variables.len()).unwrap_or(0);
    let left = comb(alloc, variables, false)?;
    if !holds_at(alloc, order, &left, Pos(levels), rows)? {
        return Ok(false);
    }
    let right = comb(alloc, variables, true)?;
    holds_at(alloc, order, &right, Pos(levels.saturating_mul(2)), rows)
}

// So many numbers, from 0 on and after each `period` of them from 0 again.
fn numbers(alloc: Global, count: u32, period: u32) -> Result<Vec<u32>, AllocError> {
    let mut numbers = Vec::new(alloc);
    for k in 0..count {
        numbers.push(k.checked_rem(period).unwrap_or(0))?;
    }
    Ok(numbers)
}

// The heads decide, then the weights; variables that differ, or that one side lacks, below or in the whole; and the last
// rows weigh the same in the whole, where a lighter part has a variable that the heavier one lacks, or has too.
const WITHIN: &[u8] = b"aiei>eiai<aa=aamei>eiaam<XY?aamYi?YXmYYm?aamYmYieim?aYmemYieim>YieimaYmem<";

// Each level has a variable of its own, or one of 700; counting them anew at each level would take minutes.
#[test]
fn compares_combs_of_many_variables(rt: HostRuntime) -> Result<(), Fail> {
    let order = equal_weights(rt.alloc())?;
    for (count, period) in [(2000, 2000), (1500, 700)] {
        assert!(rt; holds_within_so_many(rt.alloc(), &order, count, period)?);
    }
    Ok(())
}

fn holds_within_so_many(
    alloc: Global,
    order: &Kbo,
    count: u32,
    period: u32,
) -> Result<bool, TermFault> {
    let variables = numbers(alloc, count, period)?;
    holds_within(alloc, order, &variables, WITHIN)
}

// Variables on both sides of where the counters end.
const FAR: [u32; 8] = [63, 64, 4095, 4096, 8191, 8192, 16384, u32::MAX];

const ABSENT: [u32; 8] = [62, 65, 4094, 4097, 8190, 8193, 16383, u32::MAX - 1];

// A term with each of the variables once has them all, but none twice, and no others.
#[test]
fn compares_far_variables(rt: HostRuntime) -> Result<(), Fail> {
    let order = equal_weights(rt.alloc())?;
    assert!(rt; holds_within(rt.alloc(), &order, &FAR, WITHIN)?);
    let all = comb(rt.alloc(), &FAR, false)?;
    for x in &FAR {
        assert!(rt; has_once(rt.alloc(), &order, &all, *x)?);
    }
    for x in &ABSENT {
        assert!(rt; is_beside(rt.alloc(), &order, &all, &[*x], Cmp::Unknown)?);
    }
    Ok(())
}

// Whether the term compares so with a small one.
fn is_beside(
    alloc: Global,
    order: &Kbo,
    term: &Term,
    variables: &[u32],
    want: Cmp,
) -> Result<bool, TermFault> {
    let other = small(alloc, variables)?;
    Ok(compare_so(order, term, &other, want))
}

// Whether the term has the variable, but not twice.
fn has_once(alloc: Global, order: &Kbo, term: &Term, x: u32) -> Result<bool, TermFault> {
    Ok(
        is_beside(alloc, order, term, &[x], Cmp::Greater)?
            && is_beside(alloc, order, term, &[x, x], Cmp::Unknown)?,
    )
}
