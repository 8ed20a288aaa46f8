//! Joinability by associativity and commutativity, and of the ends of pairs, by a scan of facts.

use crate::orders::kbo_of;
use crate::terms::{A, B, F, G, H, I, M, P, Pair, equation, equations};
use std::alloc::Global;
use std::test::Fail;
use uc_ac::{ac_join, join_ends};
use uc_fact::{AcFacts, Joinable, Reason};
use uc_kbo::Kbo;
use uc_rewrite::Scan;
use uc_term::Sym;

// Two constants, three unary symbols, two binary ones and one with four arguments, the least first. Each weighs 1.
const PRECEDENCE: &[Sym] = &[A, B, F, G, I, M, P, H];

// p(p(X,Y),Z) = p(X,p(Y,Z)), p(X,Y) = p(Y,X) and p(X,p(Y,Z)) = p(Y,p(X,Z))
const P_LAWS: &[Pair] = &[(b"XYpZp", b"XYZpp"), (b"XYp", b"YXp"), (b"XYZpp", b"YXZpp")];

// the same with other variables, each the other way round, the last one first
const P_TURNED: &[Pair] = &[(b"ZYXpp", b"YZXpp"), (b"VUp", b"UVp"), (b"YWZpp", b"YWpZp")];

// commutativity, a fact of another symbol, and each law twice
const P_TWICE: &[Pair] = &[
    (b"XYp", b"YXp"),
    (b"XYm", b"YXm"),
    (b"YXp", b"XYp"),
    (b"XYZpp", b"XYpZp"),
    (b"XYZpp", b"YXZpp"),
    (b"XYpZp", b"XYZpp"),
    (b"YXZpp", b"XYZpp"),
];

// the laws of p, and those of m behind them
const BOTH: &[Pair] = &[
    (b"XYpZp", b"XYZpp"),
    (b"XYp", b"YXp"),
    (b"XYZpp", b"YXZpp"),
    (b"XYmZm", b"XYZmm"),
    (b"XYm", b"YXm"),
    (b"XYZmm", b"YXZmm"),
];

// the laws of p, and two of m
const P_AND_TWO: &[Pair] = &[
    (b"XYpZp", b"XYZpp"),
    (b"XYp", b"YXp"),
    (b"XYZpp", b"YXZpp"),
    (b"XYm", b"YXm"),
    (b"XYmZm", b"XYZmm"),
];

// two of the three laws
const NO_ASSOC: &[Pair] = &[(b"XYp", b"YXp"), (b"XYZpp", b"YXZpp")];

const NO_COMM: &[Pair] = &[(b"XYpZp", b"XYZpp"), (b"XYZpp", b"YXZpp")];

const NO_EXTENDED: &[Pair] = &[(b"XYpZp", b"XYZpp"), (b"XYp", b"YXp")];

// two of the three laws, and a third fact that is none: an instance of the law, what is more general, or a law of two symbols
const INSTANCE: &[Pair] = &[(b"XYpZp", b"XYZpp"), (b"XYp", b"YXp"), (b"XYXpp", b"YXXpp")];

const GENERAL: &[Pair] = &[(b"XYpZp", b"XYZpp"), (b"XYp", b"ZXp"), (b"XYZpp", b"YXZpp")];

const MIXED: &[Pair] = &[(b"XYmZp", b"XYZmp"), (b"XYp", b"YXp"), (b"XYZpp", b"YXZpp")];

const UNTURNED: &[Pair] = &[(b"XYpZp", b"XYZpp"), (b"XYp", b"XYp"), (b"XYZpp", b"YXZpp")];

const P_FIRST: AcFacts = AcFacts {
    symbol: P,
    assoc: 0,
    comm: 1,
    extended: 2,
};

const P_LAST: AcFacts = AcFacts {
    symbol: P,
    assoc: 2,
    comm: 1,
    extended: 0,
};

const P_LEAST: AcFacts = AcFacts {
    symbol: P,
    assoc: 3,
    comm: 0,
    extended: 4,
};

const M_BEHIND: AcFacts = AcFacts {
    symbol: M,
    assoc: 3,
    comm: 4,
    extended: 5,
};

// Facts, a pair, and the facts by which it is joined, a symbol each; none where it isn't joined so.
type Case = (&'static [Pair], Pair, &'static [AcFacts]);

const JOINS: &[Case] = &[
    // six variables, the other way round
    (P_LAWS, (b"XYZUVWppppp", b"WVUZYXppppp"), &[P_FIRST]),
    // equal variables aren't others, and each counts as often as it stands there
    (P_LAWS, (b"XXp", b"XYp"), &[]),
    (P_LAWS, (b"XXYpp", b"XYYpp"), &[]),
    (P_LAWS, (b"XXpYp", b"XYXpp"), &[P_FIRST]),
    // the facts stand either way round, with any variables, in any order, and the least of each counts
    (P_TURNED, (b"XYpZp", b"ZYXpp"), &[P_LAST]),
    (P_TWICE, (b"XYpZp", b"ZYXpp"), &[P_LEAST]),
    // two symbols, by their numbers; but those alone that occur
    (BOTH, (b"XYpZm", b"ZYXpm"), &[M_BEHIND, P_FIRST]),
    (BOTH, (b"XYmZp", b"ZYXmp"), &[M_BEHIND, P_FIRST]),
    (BOTH, (b"XYmZm", b"ZYXmm"), &[M_BEHIND]),
    (BOTH, (b"XYpZp", b"ZYXpp"), &[P_FIRST]),
    (BOTH, (b"XYpZp", b"XYmZp"), &[]),
    (BOTH, (b"XYpZm", b"XYZmp"), &[]),
    // a symbol with two of the laws is as any other one
    (P_AND_TWO, (b"XYmZp", b"ZXYmp"), &[P_FIRST]),
    (P_AND_TWO, (b"XYmZp", b"ZYXmp"), &[]),
    (P_AND_TWO, (b"XYmZm", b"ZYXmm"), &[]),
    (P_AND_TWO, (b"XYpZm", b"YXpZm"), &[P_FIRST]),
    (P_AND_TWO, (b"XYpZm", b"ZXYpm"), &[]),
    (NO_ASSOC, (b"XYp", b"YXp"), &[]),
    (NO_COMM, (b"XYpZp", b"XYZpp"), &[]),
    (NO_EXTENDED, (b"XYp", b"YXp"), &[]),
    (INSTANCE, (b"XYp", b"YXp"), &[]),
    (GENERAL, (b"XYp", b"YXp"), &[]),
    (MIXED, (b"XYp", b"YXp"), &[]),
    (UNTURNED, (b"XYp", b"YXp"), &[]),
    // equal terms are joined so where such a symbol occurs in them
    (P_LAWS, (b"XYp", b"XYp"), &[P_FIRST]),
    (P_LAWS, (b"XYpg", b"XYpg"), &[P_FIRST]),
    (P_LAWS, (b"Xg", b"Xg"), &[]),
    (P_LAWS, (b"XYm", b"XYm"), &[]),
    (P_LAWS, (b"X", b"X"), &[]),
    (P_LAWS, (b"a", b"a"), &[]),
    (&[], (b"XYp", b"XYp"), &[]),
    // below another head, and below one below the symbol
    (P_LAWS, (b"XYpabXh", b"YXpabXh"), &[P_FIRST]),
    (P_LAWS, (b"XYpabXh", b"YXpbaXh"), &[]),
    (P_LAWS, (b"XYZpgpg", b"ZYpgXpg"), &[P_FIRST]),
    (P_LAWS, (b"XYZpgpg", b"XZpgYpg"), &[]),
    (P_LAWS, (b"XfXXffpp", b"XffXfpXp"), &[P_FIRST]),
    // other heads, and lists of different lengths
    (P_LAWS, (b"XYpg", b"XYpi"), &[]),
    (P_LAWS, (b"XYp", b"XYm"), &[]),
    (P_LAWS, (b"XYp", b"X"), &[]),
    (P_LAWS, (b"Xg", b"XYp"), &[]),
    (P_LAWS, (b"XYp", b"XYXpp"), &[]),
    (P_LAWS, (b"XYggp", b"XYZpp"), &[]),
    (P_LAWS, (b"XYZppi", b"XYggpi"), &[]),
];

#[test]
fn joins_up_to_brackets_and_order(rt: HostRuntime) -> Result<(), Fail> {
    let order = kbo_of(
        rt.alloc(),
        PRECEDENCE,
        1,
        &[1, 1, 1, 1, 1, 1, 1, 1],
        PRECEDENCE,
    )?;
    for case in JOINS {
        assert!(rt; joins_so(rt.alloc(), &order, case)?);
    }
    Ok(())
}

// Whether a pair of terms is joined so by the facts.
fn joins_so(g: Global, order: &Kbo, case: &Case) -> Result<bool, Fail> {
    let list = equations(g, case.0)?;
    if list.len() > 9 {
        return Err(Fail::from("too many facts"));
    }
    let scan = Scan::new(list.as_slice());
    let pair = equation(g, case.1)?;
    match ac_join(g, &pair.left, &pair.right, &scan, order)? {
        Some(found) => Ok(!case.2.is_empty() && found.as_slice() == case.2),
        None => Ok(case.2.is_empty()),
    }
}

// Why two ends are joined, or that they aren't.
enum Answer {
    Same,
    Instance(u32),
    Orders,
    Ac(&'static [AcFacts]),
    Apart,
    TooMany(u32),
}

const TURNED: &[Pair] = &[(b"XYp", b"YXp")];

const ENDS: &[(&[Pair], Pair, Answer)] = &[
    // equal ends in which the symbol stands are joined by its laws, and others since they are equal
    (P_LAWS, (b"XYp", b"XYp"), Answer::Ac(&[P_FIRST])),
    (P_LAWS, (b"Xg", b"Xg"), Answer::Same),
    (NO_EXTENDED, (b"XYp", b"XYp"), Answer::Same),
    // so are an instance of a fact and ends of more than five variables
    (P_LAWS, (b"XYp", b"YXp"), Answer::Ac(&[P_FIRST])),
    (NO_EXTENDED, (b"XYp", b"YXp"), Answer::Instance(1)),
    (
        P_LAWS,
        (b"XYZUVWppppp", b"WVUZYXppppp"),
        Answer::Ac(&[P_FIRST]),
    ),
    (
        NO_EXTENDED,
        (b"XYZUVWppppp", b"WVUZYXppppp"),
        Answer::TooMany(6),
    ),
    // and what all orders of the variables join
    (P_LAWS, (b"XYZpp", b"ZYXpp"), Answer::Ac(&[P_FIRST])),
    (NO_ASSOC, (b"XYZpp", b"ZYXpp"), Answer::Orders),
    (BOTH, (b"XYpZm", b"ZYXpm"), Answer::Ac(&[M_BEHIND, P_FIRST])),
    // what isn't equal so is tried further
    (P_LAWS, (b"XXp", b"XYp"), Answer::Apart),
    (TURNED, (b"XYpZp", b"ZYXpp"), Answer::Apart),
];

#[test]
fn joins_ends(rt: HostRuntime) -> Result<(), Fail> {
    let order = kbo_of(
        rt.alloc(),
        PRECEDENCE,
        1,
        &[1, 1, 1, 1, 1, 1, 1, 1],
        PRECEDENCE,
    )?;
    for case in ENDS {
        assert!(rt; is_answer(&ends(rt.alloc(), &order, case.0, case.1)?, &case.2));
    }
    Ok(())
}

// What is answered for the ends of a pair.
fn ends(g: Global, order: &Kbo, facts: &[Pair], pair: Pair) -> Result<Joinable, Fail> {
    let list = equations(g, facts)?;
    if list.len() > 9 {
        return Err(Fail::from("too many facts"));
    }
    let scan = Scan::new(list.as_slice());
    let pair = equation(g, pair)?;
    Ok(join_ends(g, &pair.left, &pair.right, &scan, order)?)
}

fn is_answer(found: &Joinable, want: &Answer) -> bool {
    match (found, want) {
        (Joinable::Joined(Reason::Same), Answer::Same) => true,
        (Joinable::Joined(Reason::Instance(fact)), Answer::Instance(number)) => *fact == *number,
        (Joinable::Joined(Reason::Orders), Answer::Orders) => true,
        (Joinable::Joined(Reason::Ac(list)), Answer::Ac(facts)) => list.as_slice() == *facts,
        (Joinable::Apart { .. }, Answer::Apart) => true,
        (Joinable::TooManyVariables(count), Answer::TooMany(many)) => *count == *many,
        _ => false,
    }
}
