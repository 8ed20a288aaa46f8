//! The table of symbols and orders over it; and tests of orders of variables and of precedences.

ghost use Rattle.std.specs.Prelude.{◌≡◌, ◌≤◌, length, IsTrue};
ghost use Rattle.uc_term.specs.Table.{Has, arity_of};
ghost use Rattle.uc_order.specs.Members.{Each};
ghost use Rattle.uc_kbo.specs.Faults.{HasConstant as HasKboConstant};
ghost use Rattle.uc_lpo.specs.Constants.{HasConstant as HasLpoConstant};

use crate::cases::{add_classes, read_classes};
use crate::terms::{A, B, F, is_term, term};
use std::alloc::{AllocError, Global};
use std::test::Fail;
use uc_kbo::Kbo;
use uc_lpo::Lpo;
use uc_order::{
    OrderFault, VarOrder, check_precedence, class_number, class_of, first_of_class, represent,
    representative, var_orders,
};
use uc_term::{Sym, Symbols, TermFault};

// Four constants, three unary symbols, two binary ones, and one each with four arguments and with 24.
const NAMES: &[(&[u8], u32)] = &[
    (b"a", 0),
    (b"b", 0),
    (b"c", 0),
    (b"e", 0),
    (b"f", 1),
    (b"g", 1),
    (b"i", 1),
    (b"m", 2),
    (b"p", 2),
    (b"h", 4),
    (b"wide", 24),
];

fn symbols(alloc: Global) -> Result<Symbols, AllocError> {
    let mut symbols = Symbols::new(alloc);
    for (name, arity) in NAMES {
        symbols.intern(alloc, name, *arity)?;
    }
    Ok(symbols)
}

// Whether the table has all symbols of the list.
fn are_known(symbols: &Symbols, list: &[Sym]) -> bool
    ensures { IsTrue result → Each (Has symbols.now) list.now }
{
    for f in list {
        if f.0 as usize >= symbols.len() {
            return false;
        }
    }
    true
}

// Whether one of the symbols is a constant.
fn has_constant(symbols: &Symbols, list: &[Sym]) -> bool
    requires { Each (Has symbols.now) list.now }
    ensures kbo { IsTrue result → HasKboConstant symbols.now list.now }
    ensures lpo { IsTrue result → HasLpoConstant (arity_of symbols.now) list.now }
{
    for f in list {
        if symbols.arity(*f) == 0 {
            return true;
        }
    }
    false
}

/// The Knuth-Bendix order of these symbols.
pub fn kbo_of(
    alloc: Global,
    signature: &[Sym],
    w0: u32,
    weights: &[u32],
    precedence: &[Sym],
) -> Result<Kbo, OrderFault>
    requires some { 1 ≤ w0 }
    requires most { w0 ≤ 1000000 }
{
    let symbols = symbols(alloc)?;
    if weights.len() != precedence.len()
        || !are_known(&symbols, signature)
        || !has_constant(&symbols, signature)
    {
        return Err(OrderFault::NoMemory);
    }
    Kbo::new(alloc, signature, &symbols, w0, weights, precedence)
}

/// The lexicographic path order of these symbols.
pub fn lpo_of(alloc: Global, signature: &[Sym], precedence: &[Sym]) -> Result<Lpo, OrderFault> {
    let symbols = symbols(alloc)?;
    if !are_known(&symbols, signature) || !has_constant(&symbols, signature) {
        return Err(OrderFault::NoMemory);
    }
    Lpo::new(alloc, signature, &symbols, precedence)
}

// The orders of these variables: a digit for a variable, a bar behind each class, a blank behind each order.
fn listed(alloc: Global, vars: &[u32]) -> Result<Vec<u8>, AllocError> {
    let mut text = Vec::new(alloc);
    for order in &var_orders(alloc, vars)? {
        add_classes(&mut text, order)?;
        text.push(b' ')?;
    }
    Ok(text)
}

// A further variable stands alone before the first class, at its end, and so on up to alone after the last.
const LISTS: &[(&[u32], &[u8])] = &[
    (&[], b" "),
    (&[4], b"4| "),
    (&[0, 1], b"1|0| 01| 0|1| "),
    (
        &[0, 1, 2],
        b"2|1|0| 12|0| 1|2|0| 1|02| 1|0|2| 2|01| 012| 01|2| 2|0|1| 02|1| 0|2|1| 0|12| 0|1|2| ",
    ),
];

#[test]
fn lists_orders_of_variables(rt: HostRuntime) -> Result<(), Fail> {
    for (vars, want) in LISTS {
        let text = listed(rt.alloc(), vars)?;
        assert!(rt; text.as_slice() == *want);
    }
    Ok(())
}

#[test]
fn counts_orders_of_variables(rt: HostRuntime) -> Result<(), Fail> {
    for (vars, count) in [([0, 1, 2, 3].as_slice(), 75), (&[0, 1, 2, 3, 4], 541)] {
        assert!(rt; var_orders(rt.alloc(), vars)?.len() == count);
    }
    Ok(())
}

// Below all the variable 1, and 2 and 0 in one class, whose first is 2.
#[test]
fn replaces_variables_of_a_class(rt: HostRuntime) -> Result<(), Fail> {
    let cases = read_classes(rt.alloc(), b"Y|ZX|")?;
    assert!(rt; are_represented(rt.alloc(), &cases, b"XY7ah", b"ZY7ah")?);
    assert!(rt; has_classes(&cases));
    Ok(())
}

fn are_represented(
    g: Global,
    cases: &VarOrder,
    letters: &[u8],
    want: &[u8],
) -> Result<bool, TermFault> {
    let term = term(g, letters)?;
    let found = represent(g, cases, &term)?;
    is_term(g, &found, want)
}

fn has_classes(cases: &VarOrder) -> bool {
    representative(cases, 0) == 2
        && first_of_class(cases.classes(), 1) == 1
        && class_of(cases, 1) == 0
        && class_of(cases, 0) == 1
        && class_number(cases.classes(), 7) == 2
}

const SIGNATURE: &[Sym] = &[A, F, B];

// The three tests in their order, each at the first symbol that fails it.
const PRECEDENCES: &[(&[Sym], Result<(), OrderFault>)] = &[
    (&[B, A, F], Ok(())),
    (
        &[B, B, Sym(2), Sym(9)],
        Err(OrderFault::UnknownSymbol(Sym(2))),
    ),
    (&[F, B, B, F], Err(OrderFault::NotTotal(F))),
    (&[B], Err(OrderFault::NotTotal(A))),
];

#[test]
fn tests_precedences(rt: HostRuntime) {
    for (precedence, want) in PRECEDENCES {
        assert_eq!(rt; check_precedence(rt.alloc(), SIGNATURE, precedence), *want);
    }
}
