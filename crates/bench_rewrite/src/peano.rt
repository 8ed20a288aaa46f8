//! The axioms of addition and multiplication of numerals, and the lexicographic path order by which they go from left to
//! right.

ghost use Rattle.std.specs.Prelude.{IsTrue};
ghost use Rattle.uc_term.specs.Table.{Has, arity_of};
ghost use Rattle.uc_order.specs.Members.{Each};
ghost use Rattle.uc_lpo.specs.Constants.{HasConstant};

use std::alloc::{AllocError, Global};
use uc_fact::Equation;
use uc_lpo::Lpo;
use uc_term::{Sym, Symbols, Term, TermFault};

const ZERO: Sym = Sym(0);

const S: Sym = Sym(1);

const PLUS: Sym = Sym(2);

const TIMES: Sym = Sym(3);

const PRECEDENCE: &[Sym] = &[ZERO, S, PLUS, TIMES];

// Their names, in the order of their numbers, with the numbers of their arguments.
const NAMES: &[(&[u8], u32)] = &[(b"zero", 0), (b"s", 1), (b"plus", 2), (b"times", 2)];

fn symbols(alloc: Global) -> Result<Symbols, AllocError> {
    let mut symbols = Symbols::new(alloc);
    for (name, arity) in NAMES {
        symbols.intern(alloc, name, *arity)?;
    }
    Ok(symbols)
}

// Whether the table has all symbols of the list.
fn are_known(symbols: &Symbols, list: &[Sym]) -> bool
    ensures { IsTrue result → Each (Has symbols.now) list.now }
{
    for f in list {
        if f.0 as usize >= symbols.len() {
            return false;
        }
    }
    true
}

// Whether one of the symbols is a constant.
fn has_constant(symbols: &Symbols, list: &[Sym]) -> bool
    requires { Each (Has symbols.now) list.now }
    ensures { IsTrue result → HasConstant (arity_of symbols.now) list.now }
{
    for f in list {
        if symbols.arity(*f) == 0 {
            return true;
        }
    }
    false
}

/// The order, if there is memory.
pub fn order(alloc: Global) -> Option<Lpo> {
    let symbols = symbols(alloc).ok()?;
    if !are_known(&symbols, PRECEDENCE) || !has_constant(&symbols, PRECEDENCE) {
        return None;
    }
    Lpo::new(alloc, PRECEDENCE, &symbols, PRECEDENCE).ok()
}

// The symbol over the last terms of the list, so many, takes their place.
fn apply(alloc: Global, symbol: Sym, arity: u8, terms: &mut Vec<Term>) -> Result<(), TermFault> {
    let before = terms.len().saturating_sub(arity as usize);
    let term = Term::app(alloc, symbol, &terms[before..])?;
    terms.truncate(before);
    terms.push(term)?;
    Ok(())
}

// A letter's symbol takes the place of its arguments; a variable comes behind the others.
fn read(alloc: Global, letter: u8, terms: &mut Vec<Term>) -> Result<(), TermFault> {
    match letter {
        b'0' => apply(alloc, ZERO, 0, terms),
        b's' => apply(alloc, S, 1, terms),
        b'+' => apply(alloc, PLUS, 2, terms),
        b'*' => apply(alloc, TIMES, 2, terms),
        _ => {
            terms.push(Term::var(alloc, letter.saturating_sub(b'X') as u32)?)?;
            Ok(())
        }
    }
}

// The term that the letters spell in postfix order.
fn spelled(alloc: Global, letters: &[u8]) -> Result<Term, TermFault> {
    let mut terms = Vec::new(alloc);
    for letter in letters {
        read(alloc, *letter, &mut terms)?;
    }
    last(alloc, terms)
}

fn last(alloc: Global, mut terms: Vec<Term>) -> Result<Term, TermFault> {
    match terms.pop() {
        Some(term) => Ok(term),
        None => Ok(Term::var(alloc, 0)?),
    }
}

fn push_numeral(alloc: Global, number: u64, terms: &mut Vec<Term>) -> Result<(), TermFault> {
    apply(alloc, ZERO, 0, terms)?;
    for _ in 0..number {
        apply(alloc, S, 1, terms)?;
    }
    Ok(())
}

/// The product of the numerals of two numbers.
pub fn product(alloc: Global, m: u64, n: u64) -> Result<Term, TermFault> {
    let mut terms = Vec::new(alloc);
    push_numeral(alloc, m, &mut terms)?;
    push_numeral(alloc, n, &mut terms)?;
    apply(alloc, TIMES, 2, &mut terms)?;
    last(alloc, terms)
}

// The sides in postfix order: plus(zero,Y) = Y, plus(s(X),Y) = s(plus(X,Y)), times(zero,Y) = zero and
// times(s(X),Y) = plus(Y,times(X,Y)).
const AXIOMS: &[(&[u8], &[u8])] = &[
    (b"0Y+", b"Y"),
    (b"XsY+", b"XY+s"),
    (b"0Y*", b"0"),
    (b"XsY*", b"YXY*+"),
];

/// The axioms of addition and multiplication.
pub fn axioms(alloc: Global) -> Result<Vec<Equation>, TermFault> {
    let mut list = Vec::new(alloc);
    for (left, right) in AXIOMS {
        list.push(Equation {
            left: spelled(alloc, left)?,
            right: spelled(alloc, right)?,
        })?;
    }
    Ok(list)
}
