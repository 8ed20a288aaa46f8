//! Ground joinability by a scan of facts.

use crate::cases::add_classes;
use crate::orders::kbo_of;
use crate::terms::{A, G, H, I, P, Pair, equation, equations, is_term};
use std::alloc::Global;
use std::test::Fail;
use uc_fact::{Joinable, Reason};
use uc_ground::ground_join;
use uc_kbo::Kbo;
use uc_rewrite::Scan;
use uc_term::Sym;

// A constant, two unary symbols, a binary one and one with four arguments, the least first. Each weighs 1.
const PRECEDENCE: &[Sym] = &[A, G, I, P, H];

// What the test answers: joined, since the terms are equal, or an instance of a fact, or under all orders; apart, with the classes
// of variables, each with a bar behind it, and the two ends; or how many variables are too many.
enum Answer {
    Same,
    Instance(u32),
    Orders,
    Apart(&'static [u8], Pair),
    TooMany(u32),
}

fn is_answer(g: Global, found: &Joinable, want: &Answer) -> Result<bool, Fail> {
    match (found, want) {
        (Joinable::Joined(Reason::Same), Answer::Same) => Ok(true),
        (Joinable::Joined(Reason::Instance(fact)), Answer::Instance(number)) => {
            Ok(*fact == *number)
        }
        (Joinable::Joined(Reason::Orders), Answer::Orders) => Ok(true),
        (Joinable::TooManyVariables(count), Answer::TooMany(many)) => Ok(*count == *many),
        (Joinable::Apart { cases, left, right }, Answer::Apart(classes, ends)) => {
            let mut text = Vec::new(g);
            add_classes(&mut text, cases)?;
            let ends_are = is_term(g, left, ends.0)? && is_term(g, right, ends.1)?;
            Ok(text.as_slice() == *classes && ends_are)
        }
        _ => Ok(false),
    }
}

// p(X,Y) = p(Y,X)
const TURNED: &[Pair] = &[(b"XYp", b"YXp")];

// g(X) = i(X) twice, behind another fact
const TWICE: &[Pair] = &[(b"Xg", b"a"), (b"Xg", b"Xi"), (b"Xi", b"Xg")];

// p is associative and commutative, with the fact that sorts what stands in brackets to the right
const SORTED: &[Pair] = &[(b"XYp", b"YXp"), (b"XYpZp", b"XYZpp"), (b"XYZpp", b"YXZpp")];

// h(X,Y,i(X),Z) = h(Y,X,Z,i(X)): under each strict order of X and Y a side is greater; but where they are equal and Z is
// greater, none is
const EQUAL: &[Pair] = &[(b"XYXiZh", b"YXZXih")];

const ENDS: &[Pair] = &[(b"ag", b"a")];

// Facts, a pair, and what is answered for it.
type Case = (&'static [Pair], Pair, Answer);

const JOINS: &[Case] = &[
    // equal terms are joined
    (TURNED, (b"XYp", b"XYp"), Answer::Same),
    // an instance is joined either way round
    (TURNED, (b"XYp", b"YXp"), Answer::Instance(0)),
    (TWICE, (b"YZpg", b"YZpi"), Answer::Instance(1)),
    (TWICE, (b"YZpi", b"YZpg"), Answer::Instance(1)),
    // the first order with two ends is shown
    (
        TURNED,
        (b"XYpZp", b"ZYXpp"),
        Answer::Apart(b"1|0|2|", (b"YXpZp", b"ZYXpp")),
    ),
    // six variables are too many, but a pair that is an instance has as many
    (TURNED, (b"WXYpppg", b"VUZppg"), Answer::TooMany(6)),
    (SORTED, (b"XYZUVWppppp", b"WVUZYXppppp"), Answer::TooMany(6)),
    (
        TURNED,
        (b"WXYppVUZppp", b"VUZppWXYppp"),
        Answer::Instance(0),
    ),
    // three and five variables are sorted under each order
    (SORTED, (b"XYpZp", b"ZYXpp"), Answer::Orders),
    (SORTED, (b"XYpZUpVpp", b"VYZXUpppp"), Answer::Orders),
    // equal variables are tried
    (
        EQUAL,
        (b"XYXiZhg", b"YXZXihg"),
        Answer::Apart(b"01|2|", (b"XXXiZhg", b"XXZXihg")),
    ),
    // terms without variables have one order
    (ENDS, (b"agg", b"a"), Answer::Orders),
    (ENDS, (b"agi", b"ag"), Answer::Apart(b"", (b"ai", b"a"))),
];

#[test]
fn joins_under_all_orders(rt: HostRuntime) -> Result<(), Fail> {
    let order = kbo_of(rt.alloc(), PRECEDENCE, 1, &[1, 1, 1, 1, 1], PRECEDENCE)?;
    for case in JOINS {
        assert!(rt; joins_so(rt.alloc(), &order, case)?);
    }
    Ok(())
}

fn joins_so(g: Global, order: &Kbo, case: &Case) -> Result<bool, Fail> {
    let found = joined(g, order, case.0, case.1)?;
    is_answer(g, &found, &case.2)
}

// What is answered for a pair of terms.
fn joined(g: Global, order: &Kbo, facts: &[Pair], pair: Pair) -> Result<Joinable, Fail> {
    let list = equations(g, facts)?;
    if list.len() > 9 {
        return Err(Fail::from("too many facts"));
    }
    let scan = Scan::new(list.as_slice());
    let pair = equation(g, pair)?;
    Ok(ground_join(g, &pair.left, &pair.right, &scan, order)?)
}
