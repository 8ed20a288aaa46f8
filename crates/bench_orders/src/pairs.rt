//! Pairs of terms in postfix order: `e`, `m` and `i` are the symbols of groups, and a capital letter is a variable.

use crate::orders::{E, I, M};
use std::alloc::Global;
use uc_term::{Sym, Term, TermFault};

// The symbol over the last terms of the list, so many, takes their place.
fn apply(alloc: Global, symbol: Sym, arity: u8, terms: &mut Vec<Term>) -> Result<(), TermFault> {
    let before = terms.len().saturating_sub(arity as usize);
    let term = Term::app(alloc, symbol, &terms[before..])?;
    terms.truncate(before);
    terms.push(term)?;
    Ok(())
}

// A letter's symbol takes the place of its arguments; a variable comes behind the others.
fn read(alloc: Global, letter: u8, terms: &mut Vec<Term>) -> Result<(), TermFault> {
    match letter {
        b'e' => apply(alloc, E, 0, terms),
        b'i' => apply(alloc, I, 1, terms),
        b'm' => apply(alloc, M, 2, terms),
        _ => {
            terms.push(Term::var(alloc, letter.saturating_sub(b'A') as u32)?)?;
            Ok(())
        }
    }
}

/// The two terms of each line, which have a blank between them, one behind the other.
pub fn read_terms(alloc: Global, text: &[u8]) -> Result<Vec<Term>, TermFault> {
    let mut terms = Vec::new(alloc);
    for letter in text {
        if *letter != b' ' && *letter != b'\n' {
            read(alloc, *letter, &mut terms)?;
        }
    }
    Ok(terms)
}
