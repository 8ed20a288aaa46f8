//! Questions that a system decides.

use crate::orders::{kbo_of, lpo_of};
use crate::terms::{A, B, C, E, F, G, I, M, P, Pair, equation, equations, is_term};
use std::alloc::Global;
use std::test::Fail;
use uc_decide::{Reply, ask};
use uc_fact::System;
use uc_order::Order;
use uc_term::{Seq, Sym, TermFault};

/// Of each precedence the least symbol stands first.
pub const BY_WEIGHT: &[Sym] = &[A, B, C, F, G, M, P];

const BY_PATH: &[Sym] = &[E, A, B, P, M, I];

/// What is replied: equal, with the normal form; different, with both; spent, with the steps; or grown.
pub enum Answer {
    Equal(&'static [u8]),
    Different(&'static [u8], &'static [u8]),
    Spent(u32),
    Grown,
}

/// Whether this is replied.
pub fn is_answer(g: Global, found: &Reply, want: &Answer) -> Result<bool, Fail> {
    match (found, want) {
        (Reply::Equal(normal), Answer::Equal(letters)) => Ok(is_term(g, normal, letters)?),
        (Reply::Different(left, right), Answer::Different(s, t)) => {
            Ok(is_term(g, left, s)? && is_term(g, right, t)?)
        }
        (Reply::Spent(made), Answer::Spent(steps)) => Ok(*made == *steps),
        (Reply::Grown, Answer::Grown) => Ok(true),
        _ => Ok(false),
    }
}

// Facts, a question, the steps allowed, and the reply.
type Row = (&'static [Pair], Pair, u32, Answer);

// Whether each question has its reply by its facts.
fn are_replies<O: Order>(g: Global, order: &O, rows: &[Row]) -> Result<bool, Fail> {
    for row in rows {
        let found = reply(g, order, row)?;
        if !is_answer(g, &found, &row.3)? {
            return Ok(false);
        }
    }
    Ok(true)
}

// What is replied to the question by the facts.
fn reply<O: Order>(g: Global, order: &O, row: &Row) -> Result<Reply, Fail> {
    let system = system(g, row.0)?;
    if system.facts.len() > 99 {
        return Err(Fail::from("too many facts"));
    }
    let question = equation(g, row.1)?;
    Ok(ask(g, &system, order, &question.left, &question.right, row.2)?)
}

/// The system of these facts.
pub fn system(g: Global, facts: &[Pair]) -> Result<System, TermFault> {
    Ok(System {
        facts: Seq::from_vec(equations(g, facts)?),
    })
}

const MANY: u32 = 100_000;

// p(X,Y) = p(Y,X), of which no side is greater
const TURNED: &[Pair] = &[(b"XYp", b"YXp")];

// f(X) = g(Y), and from its right side and a copy of it f(X) = f(Y)
const CONSTANT: &[Pair] = &[(b"Xf", b"Yg"), (b"Xf", b"Yf")];

/// m(m(X,Y),Z) = m(X,m(Y,Z))
pub const ASSOCIATIVE: &[Pair] = &[(b"XYmZm", b"XYZmm")];

const BY_WEIGHT_ROWS: &[Row] = &[
    // commutativity is decided
    (TURNED, (b"bap", b"abp"), MANY, Answer::Equal(b"abp")),
    (TURNED, (b"a", b"b"), MANY, Answer::Different(b"a", b"b")),
    // sides with different variables are decided
    (CONSTANT, (b"ag", b"bg"), MANY, Answer::Equal(b"af")),
    // steps are those of both sides
    (
        ASSOCIATIVE,
        (b"abmcm", b"abcmm"),
        MANY,
        Answer::Equal(b"abcmm"),
    ),
    (ASSOCIATIVE, (b"abmcm", b"abcmm"), 0, Answer::Spent(0)),
    (ASSOCIATIVE, (b"a", b"a"), 0, Answer::Equal(b"a")),
    (ASSOCIATIVE, (b"abmcm", b"abmcm"), 1, Answer::Spent(1)),
    (
        ASSOCIATIVE,
        (b"abmcm", b"abmcm"),
        2,
        Answer::Equal(b"abcmm"),
    ),
];

// a left identity and a left inverse of an associative m, completed
const GROUP: &[Pair] = &[
    (b"eXm", b"X"),
    (b"XiXm", b"e"),
    (b"XYmZm", b"XYZmm"),
    (b"XiXYmm", b"Y"),
    (b"Xem", b"X"),
    (b"ei", b"e"),
    (b"Xii", b"X"),
    (b"XXim", b"e"),
    (b"XXiYmm", b"Y"),
    (b"XYmi", b"YiXim"),
];

// i(X) = m(X,X)
const DOUBLED: &[Pair] = &[(b"Xi", b"XXm")];

const BY_PATH_ROWS: &[Row] = &[
    // commutativity is decided
    (TURNED, (b"bap", b"abp"), MANY, Answer::Equal(b"abp")),
    (TURNED, (b"a", b"b"), MANY, Answer::Different(b"a", b"b")),
    // a group is decided
    (GROUP, (b"abmi", b"biaim"), MANY, Answer::Equal(b"biaim")),
    (
        GROUP,
        (b"abmi", b"aibim"),
        MANY,
        Answer::Different(b"biaim", b"aibim"),
    ),
    // a term may grow too large
    (DOUBLED, (b"aiiiiiiiiiiii", b"a"), MANY, Answer::Grown),
    (DOUBLED, (b"a", b"aiiiiiiiiiiii"), MANY, Answer::Grown),
];

#[test]
fn decides_by_weight(rt: HostRuntime) -> Result<(), Fail> {
    let g = rt.alloc();
    let order = kbo_of(g, BY_WEIGHT, 1, &[1, 1, 1, 1, 1, 1, 1], BY_WEIGHT)?;
    assert!(rt; are_replies(g, &order, BY_WEIGHT_ROWS)?);
    Ok(())
}

#[test]
fn decides_by_path(rt: HostRuntime) -> Result<(), Fail> {
    let g = rt.alloc();
    let order = lpo_of(g, BY_PATH, BY_PATH)?;
    assert!(rt; are_replies(g, &order, BY_PATH_ROWS)?);
    Ok(())
}
