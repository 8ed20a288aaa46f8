//! Symbols, and terms that letters spell in postfix order.

use std::alloc::{AllocError, Global};
use uc_term::{Equation, Sym, Term, TermFault};

pub const A: Sym = Sym(0);

pub const B: Sym = Sym(1);

pub const C: Sym = Sym(2);

pub const E: Sym = Sym(3);

pub const F: Sym = Sym(4);

pub const G: Sym = Sym(5);

pub const I: Sym = Sym(6);

pub const M: Sym = Sym(7);

pub const P: Sym = Sym(8);

pub const H: Sym = Sym(9);

/// It has 24 arguments, and no letter.
pub const WIDE: Sym = Sym(10);

/// Two terms, or an equation by its sides.
pub type Pair = (&'static [u8], &'static [u8]);

pub fn pop(alloc: Global, stack: &mut Vec<Term>) -> Result<Term, AllocError> {
    match stack.pop() {
        Some(t) => Ok(t),
        None => Term::var(alloc, 0),
    }
}

fn unary(alloc: Global, f: Sym, stack: &mut Vec<Term>) -> Result<Term, TermFault> {
    let args = [pop(alloc, stack)?];
    Term::app(alloc, f, &args)
}

fn binary(alloc: Global, f: Sym, stack: &mut Vec<Term>) -> Result<Term, TermFault> {
    let second = pop(alloc, stack)?;
    let args = [pop(alloc, stack)?, second];
    Term::app(alloc, f, &args)
}

fn four(alloc: Global, f: Sym, stack: &mut Vec<Term>) -> Result<Term, TermFault> {
    let fourth = pop(alloc, stack)?;
    let third = pop(alloc, stack)?;
    let second = pop(alloc, stack)?;
    let args = [pop(alloc, stack)?, second, third, fourth];
    Term::app(alloc, f, &args)
}

// X, Y, Z, U, V and W are the variables 0 to 5, and digits are themselves.
fn variable(letter: u8) -> u32 {
    match letter {
        b'X' => 0,
        b'Y' => 1,
        b'Z' => 2,
        b'U' => 3,
        b'V' => 4,
        b'W' => 5,
        digit => digit as u32 & 15,
    }
}

/// Puts the term of a letter and of what stands on the stack onto the stack.
pub fn push(alloc: Global, letter: u8, stack: &mut Vec<Term>) -> Result<(), TermFault> {
    let t = match letter {
        b'a' => Term::app(alloc, A, &[])?,
        b'b' => Term::app(alloc, B, &[])?,
        b'c' => Term::app(alloc, C, &[])?,
        b'e' => Term::app(alloc, E, &[])?,
        b'f' => unary(alloc, F, stack)?,
        b'g' => unary(alloc, G, stack)?,
        b'i' => unary(alloc, I, stack)?,
        b'm' => binary(alloc, M, stack)?,
        b'p' => binary(alloc, P, stack)?,
        b'h' => four(alloc, H, stack)?,
        _ => Term::var(alloc, variable(letter))?,
    };
    stack.push(t)?;
    Ok(())
}

/// The term that the letters spell in postfix order.
pub fn term(alloc: Global, letters: &[u8]) -> Result<Term, TermFault> {
    let mut stack: Vec<Term> = Vec::new(alloc);
    for letter in letters {
        push(alloc, *letter, &mut stack)?;
    }
    Ok(pop(alloc, &mut stack)?)
}

/// Whether the letters spell the term.
pub fn is_term(alloc: Global, t: &Term, letters: &[u8]) -> Result<bool, TermFault> {
    Ok(t.same(&term(alloc, letters)?))
}

pub fn equation(alloc: Global, pair: Pair) -> Result<Equation, TermFault> {
    Ok(Equation {
        left: term(alloc, pair.0)?,
        right: term(alloc, pair.1)?,
    })
}

pub fn equations(alloc: Global, facts: &[Pair]) -> Result<Vec<Equation>, TermFault> {
    let mut list = Vec::new(alloc);
    for pair in facts {
        list.push(equation(alloc, *pair)?)?;
    }
    Ok(list)
}
