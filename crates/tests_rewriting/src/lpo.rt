//! The lexicographic path order: its refusals, and comparisons.

use crate::comparing::{holds, holds_under};
use crate::orders::lpo_of;
use crate::terms::{A, B, E, I, M};
use std::test::Fail;
use uc_order::{Order, OrderFault};
use uc_term::Sym;

const SIGNATURE: &[Sym] = &[E, A, B, I, M];

// The inverse is the greatest symbol.
const PRECEDENCE: &[Sym] = &[E, A, B, M, I];

const NONE: Sym = Sym(77);

// Each refusal, with the first symbol that is so.
const REFUSALS: &[(&[Sym], OrderFault)] = &[
    (&[E, E, NONE, A, Sym(79)], OrderFault::UnknownSymbol(NONE)),
    (&[I, M, M, I], OrderFault::NotTotal(I)),
    (&[E, M, I], OrderFault::NotTotal(A)),
];

#[test]
fn refuses(rt: HostRuntime) -> Result<(), Fail> {
    for (precedence, want) in REFUSALS {
        match lpo_of(rt.alloc(), SIGNATURE, precedence) {
            Err(fault) => assert!(rt; fault == *want),
            Ok(_) => assert!(rt; false, "no refusal"),
        }
    }
    Ok(())
}

// The axioms of groups, and what decides them.
const ROWS: &[&[u8]] = &[
    b"eXmX>XiXme>XYmZmXYZmm>XYmiYiXim>abmibiaim>",
    b"YiXimXYmi<XYmYXm?bamabm>XY?Xa?XiY?XXi<XYimXYim=ab<",
];

const ROWS_UNDER: &[(&[u8], &[u8])] = &[
    (b"X|Y|", b"XY<XYmYXm<XiY?XYi<"),
    (b"XY|", b"XY=XYmYXm=XiY>"),
    (b"Y|X|", b"XY>XiY>XYi?"),
    (b"Z|Y|X|", b"XYZmmYXZmm>"),
];

#[test]
fn compares(rt: HostRuntime) -> Result<(), Fail> {
    let g = rt.alloc();
    let order = lpo_of(g, PRECEDENCE, PRECEDENCE)?;
    assert!(rt; order.least() == E);
    for rows in ROWS {
        assert!(rt; holds(g, &order, rows)?);
    }
    for (cases, rows) in ROWS_UNDER {
        assert!(rt; holds_under(g, &order, cases, rows)?);
    }
    Ok(())
}
