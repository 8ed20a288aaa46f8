//! Two constants, two unary symbols and a binary one, in the order in which all weighs 1, and terms that letters spell.

ghost use Rattle.std.specs.Prelude.{IsTrue};
ghost use Rattle.uc_term.specs.Table.{Has};
ghost use Rattle.uc_order.specs.Members.{Each};
ghost use Rattle.uc_kbo.specs.Faults.{HasConstant};

use std::alloc::{AllocError, Global};
use std::test::Fail;
use uc_fact::{Chain, Equation, Fact, Origin, Stop};
use uc_kbo::Kbo;
use uc_term::{Seq, Sym, Symbols, Term, TermFault};

pub const A: Sym = Sym(0);

const B: Sym = Sym(1);

const F: Sym = Sym(2);

const G: Sym = Sym(3);

const M: Sym = Sym(4);

// The least first.
const PRECEDENCE: &[Sym] = &[A, B, F, G, M];

// Their names, in the order of their numbers, with the numbers of their arguments.
const NAMES: &[(&[u8], u32)] = &[(b"a", 0), (b"b", 0), (b"f", 1), (b"g", 1), (b"m", 2)];

fn symbols(alloc: Global) -> Result<Symbols, AllocError> {
    let mut symbols = Symbols::new(alloc);
    for (name, arity) in NAMES {
        symbols.intern(alloc, name, *arity)?;
    }
    Ok(symbols)
}

// Whether the table has all symbols of the list.
fn are_known(symbols: &Symbols, list: &[Sym]) -> bool
    ensures { IsTrue result → Each (Has symbols.now) list.now }
{
    for f in list {
        if f.0 as usize >= symbols.len() {
            return false;
        }
    }
    true
}

// Whether one of the symbols is a constant.
fn has_constant(symbols: &Symbols, list: &[Sym]) -> bool
    requires { Each (Has symbols.now) list.now }
    ensures { IsTrue result → HasConstant symbols.now list.now }
{
    for f in list {
        if symbols.arity(*f) == 0 {
            return true;
        }
    }
    false
}

fn order_over(alloc: Global, symbols: &Symbols) -> Result<Kbo, Fail> {
    if !are_known(symbols, PRECEDENCE) || !has_constant(symbols, PRECEDENCE) {
        return Err(Fail::from("no constant"));
    }
    Ok(Kbo::new(alloc, PRECEDENCE, symbols, 1, &[1, 1, 1, 1, 1], PRECEDENCE)?)
}

/// Returns the Knuth-Bendix order in which each symbol and each variable weighs 1.
pub fn order(alloc: Global) -> Result<Kbo, Fail> {
    let symbols = symbols(alloc)?;
    order_over(alloc, &symbols)
}

fn binary(alloc: Global, left: Term, right: Term) -> Result<Term, TermFault> {
    Term::app(alloc, M, &[left, right])
}

// A letter before and another one behind, each around a copy of a term of its own.
fn both(alloc: Global, f: Sym, g: Sym, inner: Term) -> Result<Term, TermFault> {
    let left = Term::app(alloc, f, &[inner.copy(alloc)?])?;
    let right = Term::app(alloc, g, &[inner])?;
    binary(alloc, left, right)
}

// The term of a letter around another one. X and Y are the variables 0 and 1; x and z put them before it, and y puts Y behind
// it; d doubles it; p makes m(f(t),g(t)) of it, and q m(g(t),f(t)).
fn around(alloc: Global, letter: u8, inner: Term) -> Result<Term, TermFault> {
    match letter {
        b'a' => Term::app(alloc, A, &[]),
        b'b' => Term::app(alloc, B, &[]),
        b'f' => Term::app(alloc, F, &[inner]),
        b'g' => Term::app(alloc, G, &[inner]),
        b'd' => binary(alloc, inner.copy(alloc)?, inner),
        b'x' => binary(alloc, Term::var(alloc, 0)?, inner),
        b'y' => binary(alloc, inner, Term::var(alloc, 1)?),
        b'z' => binary(alloc, Term::var(alloc, 1)?, inner),
        b'p' => both(alloc, F, G, inner),
        b'q' => both(alloc, G, F, inner),
        b'Y' => Ok(Term::var(alloc, 1)?),
        _ => Ok(Term::var(alloc, 0)?),
    }
}

/// Returns the term that the letters spell, the innermost first.
pub fn term(alloc: Global, letters: &[u8]) -> Result<Term, TermFault> {
    let mut t = Term::var(alloc, 0)?;
    for letter in letters {
        t = around(alloc, *letter, t)?;
    }
    Ok(t)
}

/// Whether the term is the one that the letters spell.
pub fn is(alloc: Global, t: &Term, letters: &[u8]) -> Result<bool, Fail> {
    let wanted = term(alloc, letters)?;
    Ok(t.same(&wanted))
}

/// The letters of two terms.
pub type Sides = (&'static [u8], &'static [u8]);

/// Whether the two terms are those that the letters spell.
pub fn are(alloc: Global, left: &Term, right: &Term, sides: &Sides) -> Result<bool, Fail> {
    if !is(alloc, left, sides.0)? {
        return Ok(false);
    }
    is(alloc, right, sides.1)
}

/// Returns the equations with these sides.
pub fn equations(alloc: Global, list: &[Sides]) -> Result<Vec<Equation>, TermFault> {
    let mut equations = Vec::new(alloc);
    for sides in list {
        equations.push(Equation {
            left: term(alloc, sides.0)?,
            right: term(alloc, sides.1)?,
        })?;
    }
    Ok(equations)
}

/// Returns a fact of these sides, made by no step.
pub fn fact_of(alloc: Global, left: Term, right: Term) -> Result<Fact, AllocError> {
    let start = left.copy(alloc)?;
    Ok(Fact {
        left,
        right,
        oriented: false,
        origin: Origin::Axiom(0),
        chain: Chain {
            start,
            steps: Seq::new(alloc),
        },
        front: 0,
        stops: (Stop::Full, Stop::Full),
    })
}

/// Returns a fact with these sides, made by no step.
pub fn fact(alloc: Global, sides: &Sides) -> Result<Fact, TermFault> {
    let left = term(alloc, sides.0)?;
    let right = term(alloc, sides.1)?;
    Ok(fact_of(alloc, left, right)?)
}
