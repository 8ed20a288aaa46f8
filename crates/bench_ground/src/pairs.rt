//! Pairs of terms with the same five variables, and facts that sort them, in postfix order.

use crate::order::F;
use std::alloc::Global;
use uc_fact::Equation;
use uc_term::{Term, TermFault};

// The symbol over the last two terms of the list takes their place.
fn apply(alloc: Global, terms: &mut Vec<Term>) -> Result<(), TermFault> {
    let before = terms.len().saturating_sub(2);
    let term = Term::app(alloc, F, &terms[before..])?;
    terms.truncate(before);
    terms.push(term)?;
    Ok(())
}

// A capital letter's variable comes behind the others; any other letter is the symbol.
fn read(alloc: Global, letter: u8, terms: &mut Vec<Term>) -> Result<(), TermFault> {
    if letter < b'A' || b'Z' < letter {
        return apply(alloc, terms);
    }
    terms.push(Term::var(alloc, (letter - b'A') as u32)?)?;
    Ok(())
}

fn last(alloc: Global, mut terms: Vec<Term>) -> Result<Term, TermFault> {
    match terms.pop() {
        Some(term) => Ok(term),
        None => Ok(Term::var(alloc, 0)?),
    }
}

/// The term that the letters spell.
pub fn spelled(alloc: Global, letters: &[u8]) -> Result<Term, TermFault> {
    let mut terms = Vec::new(alloc);
    for letter in letters {
        read(alloc, *letter, &mut terms)?;
    }
    last(alloc, terms)
}

/// The variables in order, in brackets to the left.
pub const IN_ORDER: &[u8] = b"ABfCfDfEf";

/// The arrangement of the variables with this number, in brackets to the right.
pub fn arrangement(number: usize) -> [u8; 9] {
    let mut letters = *b"ABCDEffff";
    let mut code = number;
    for k in 0..5 {
        let left = 5 - k;
        letters[code % left..left].rotate_left(1);
        code /= left;
    }
    letters
}

// The sides: `f(X,Y) = f(Y,X)`, `f(f(X,Y),Z) = f(X,f(Y,Z))` and `f(X,f(Y,Z)) = f(Y,f(X,Z))`.
const FACTS: &[(&[u8], &[u8])] = &[(b"ABf", b"BAf"), (b"ABfCf", b"ABCff"), (b"ABCff", b"BACff")];

/// The facts of an associative and commutative symbol, with the one that sorts what stands in brackets to the right.
pub fn sorting_facts(alloc: Global) -> Result<Vec<Equation>, TermFault> {
    let mut facts = Vec::new(alloc);
    for (left, right) in FACTS {
        facts.push(Equation {
            left: spelled(alloc, left)?,
            right: spelled(alloc, right)?,
        })?;
    }
    Ok(facts)
}
