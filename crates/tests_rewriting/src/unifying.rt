//! Matching and unification.

use crate::terms::{G, M, Pair, WIDE, equation, term};
use std::alloc::Global;
use std::test::Fail;
use uc_term::{Equation, Subst, Term, TermFault};
use uc_unify::{Unified, matches, matches_both, unify};

// Whether the variable has the term that the letters spell.
fn has_image(g: Global, subst: &Subst, x: u32, letters: &[u8]) -> Result<bool, TermFault> {
    match subst.get(x) {
        Some(image) => Ok(term(g, letters)?.as_nodes() == image),
        None => Ok(false),
    }
}

// A pattern and a term, and of a match the term of the variable 7.
type Match = (Pair, Option<&'static [u8]>);

const MATCHES: &[Match] = &[
    // a repeated variable, each time against the same term
    ((b"77m", b"abm"), None),
    ((b"77m", b"aam"), Some(b"a")),
    // another constant than the pattern's
    ((b"abm", b"aam"), None),
];

#[test]
fn a_variable_has_one_term(rt: HostRuntime) -> Result<(), Fail> {
    for case in MATCHES {
        assert!(rt; matches_so(rt.alloc(), case)?);
    }
    Ok(())
}

fn matches_so(g: Global, case: &Match) -> Result<bool, TermFault> {
    let pattern = term(g, case.0.0)?;
    let matched = term(g, case.0.1)?;
    match matches(g, pattern.as_nodes(), matched.as_nodes())? {
        None => Ok(case.1.is_none()),
        Some(subst) => is_match(g, &subst, case.1),
    }
}

fn is_match(g: Global, subst: &Subst, want: Option<&[u8]>) -> Result<bool, TermFault> {
    match want {
        None => Ok(false),
        Some(letters) => Ok(has_image(g, subst, 7, letters)? && subst.get(8).is_none()),
    }
}

// One variable in two patterns.
#[test]
fn both_have_one_substitution(rt: HostRuntime) -> Result<(), Fail> {
    let left = equation(rt.alloc(), (b"7bm", b"abm"))?;
    for (letters, is_match) in [(b"a", true), (b"b", false)] {
        assert!(rt; matches_beside(rt.alloc(), &left, letters)? == Some(is_match));
    }
    Ok(())
}

// Whether the variable 7 matches the term too beside the sides of the equation; nothing where it has another term then.
fn matches_beside(
    g: Global,
    left: &Equation,
    letters: &'static [u8],
) -> Result<Option<bool>, TermFault> {
    match matched_beside(g, left, letters)? {
        None => Ok(Some(false)),
        Some(subst) => Ok(has_image(g, &subst, 7, letters)?.then_some(true)),
    }
}

fn matched_beside(
    g: Global,
    left: &Equation,
    letters: &'static [u8],
) -> Result<Option<Subst>, TermFault> {
    let right = equation(g, (b"7", letters))?;
    Ok(matches_both(
        g,
        left.left.as_nodes(),
        left.right.as_nodes(),
        right.left.as_nodes(),
        right.right.as_nodes(),
    )?)
}

fn unifier(g: Global, s: &Term, t: &Term) -> Result<Option<Subst>, Fail> {
    match unify(g, s.as_nodes(), t.as_nodes())? {
        Unified::Unifier(subst) => Ok(Some(subst)),
        Unified::Apart => Ok(None),
        Unified::TooLarge => Err(Fail::from("too large")),
    }
}

// Two terms, and of their unifier the terms of variables.
type Image = (u32, &'static [u8]);

type Case = (Pair, Option<&'static [Image]>);

const UNIFIERS: &[Case] = &[
    ((b"77m", b"8am"), Some(&[(7, b"a"), (8, b"a")])),
    ((b"7", b"7"), Some(&[])),
    ((b"7", b"7g"), None),
    ((b"a", b"b"), None),
];

#[test]
fn unifiers_are_most_general(rt: HostRuntime) -> Result<(), Fail> {
    for case in UNIFIERS {
        assert!(rt; unify_so(rt.alloc(), case)?);
    }
    Ok(())
}

fn unify_so(g: Global, case: &Case) -> Result<bool, Fail> {
    let s = term(g, case.0.0)?;
    let t = term(g, case.0.1)?;
    match unifier(g, &s, &t)? {
        None => Ok(case.1.is_none()),
        Some(subst) => has_images(g, &subst, case.1),
    }
}

fn has_images(g: Global, subst: &Subst, want: Option<&[Image]>) -> Result<bool, Fail> {
    let Some(images) = want else {
        return Ok(false);
    };
    for (x, letters) in images {
        if !has_image(g, subst, *x, letters)? {
            return Ok(false);
        }
    }
    Ok(true)
}

// The first argument of each pair is a variable, and the second one two of the variable before it: `x1 = m(x0, x0)`,
// `x2 = m(x1, x1)` and so on, as two terms with so many arguments.
fn doubling(g: Global, count: u32) -> Result<(Term, Term), Fail> {
    let left = wide(g, count, false)?;
    let right = wide(g, count, true)?;
    Ok((left, right))
}

// One of these two terms.
fn wide(g: Global, count: u32, is_doubled: bool) -> Result<Term, Fail> {
    let mut args = Vec::new(g);
    for i in 0..count {
        args.push(if is_doubled {
            double(g, i)?
        } else {
            Term::var(g, i.saturating_add(1))?
        })?;
    }
    if args.len() > 255 {
        return Err(Fail::from("too many arguments"));
    }
    Ok(Term::app(g, WIDE, args.as_slice())?)
}

/// The term `m` of a variable twice.
pub fn double(g: Global, x: u32) -> Result<Term, TermFault> {
    let pair = [Term::var(g, x)?, Term::var(g, x)?];
    Term::app(g, M, &pair)
}

// The common instance of 10 doubling variables has 4,083 nodes, and that of 24 has more than 33,000,000.
#[test]
fn nothing_is_built_that_is_too_large(rt: HostRuntime) -> Result<(), Fail> {
    assert!(rt; has_unifier(rt.alloc(), 10)? == Some(true));
    assert!(rt; has_unifier(rt.alloc(), 24)?.is_none());
    Ok(())
}

// Whether so many doubling variables have a unifier; nothing where it is too large.
fn has_unifier(g: Global, count: u32) -> Result<Option<bool>, Fail> {
    let (left, right) = doubling(g, count)?;
    match unify(g, left.as_nodes(), right.as_nodes())? {
        Unified::Unifier(_) => Ok(Some(true)),
        Unified::Apart => Ok(Some(false)),
        Unified::TooLarge => Ok(None),
    }
}

// So many unary symbols round a term.
fn deep(g: Global, levels: u32, inside: &[u8]) -> Result<Term, Fail> {
    let mut term = term(g, inside)?;
    for _ in 0..levels {
        let args = [term];
        term = Term::app(g, G, &args)?;
    }
    Ok(term)
}

#[test]
fn deep_terms_need_no_stack(rt: HostRuntime) -> Result<(), Fail> {
    let left = deep(rt.alloc(), 4095, b"7")?;
    let right = deep(rt.alloc(), 4095, b"a")?;
    assert!(rt; unifier(rt.alloc(), &left, &right)?.is_some());
    Ok(())
}
