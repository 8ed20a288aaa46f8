use crate::formulas_told::tell_fault;
use std::alloc::{AllocError, Global};
use std::test::Fail;
use uc_fof::read_formulas;
use uc_term::{Symbols, Text};

// One row a text that is refused: where and why, and what the refusal shows.
type Rows = &'static [(&'static str, &'static str)];

// Variables and quantifiers.
const VARIABLES: Rows = &[
    ("fof(a,axiom,f(X) = a).", "1:15 Unsupported X"),
    ("fof(a,axiom,X = a).", "1:13 Unsupported X"),
    ("fof(a,axiom,a = X).", "1:17 Unsupported X"),
    ("fof(a,axiom,! [X] : X = Y).", "1:25 Unsupported Y"),
    ("fof(a,axiom,! [X] : f(X1) = X).", "1:23 Unsupported X1"),
    ("fof(a,axiom,~ X = a).", "1:15 Unsupported X"),
    ("fof(a,axiom,~ (a = f(X))).", "1:22 Unsupported X"),
    ("fof(a,axiom,p(a)).", "1:13 NotEquality"),
    ("fof(a,axiom,p(X)).", "1:15 Unsupported X"),
    ("fof(a,axiom,! [X] : p(X)).", "1:21 NotEquality"),
    ("fof(a,axiom,! [X] : X).", "1:21 NotEquality"),
    ("fof(a,axiom,! [X] : Y).", "1:21 Unsupported Y"),
    ("fof(a,axiom,X(a) = b).", "1:13 Unsupported X"),
    ("fof(a,axiom,! [X] : X(a) = b).", "1:22 Syntax"),
    ("fof(a,axiom,a = b X).", "1:19 Syntax"),
    ("fof(X,axiom,a = b).", "1:5 Syntax"),
    (
        "fof(a,axiom,! [X] : X = a).\nfof(b,axiom,X = a).",
        "2:13 Unsupported X",
    ),
    (
        "cnf(a,axiom,X = a).\nfof(b,axiom,! [Y] : f(X) = Y).",
        "2:23 Unsupported X",
    ),
    ("fof(a,axiom,? [X] : f(X) = a).", "1:13 Unsupported ?"),
    ("fof(a,axiom,! [X] : ? [Y] : X = Y).", "1:21 Unsupported ?"),
    ("fof(a,axiom,(? [X] : X = a)).", "1:14 Unsupported ?"),
    ("fof(a,axiom,~ ! [X] : X = a).", "1:15 Unsupported !"),
    ("fof(a,axiom,~ ? [X] : X = a).", "1:15 Syntax"),
    ("fof(a,axiom,~ (! [X] : X = a)).", "1:16 Syntax"),
    ("fof(a,axiom,~ (? [X] : X = a)).", "1:16 Syntax"),
    (
        "fof(a,axiom,! [X] : ~ ! [Y] : X = Y).",
        "1:23 Unsupported !",
    ),
    ("fof(a,axiom,a = ? b).", "1:17 Syntax"),
    ("fof(a,axiom,a = ! b).", "1:17 Syntax"),
    ("fof(a,axiom,f(! [X] : a) = b).", "1:15 Syntax"),
    ("fof(a,axiom,! [] : a = b).", "1:16 Syntax"),
    ("fof(a,axiom,! [X] a = b).", "1:19 Syntax"),
    ("fof(a,axiom,! X : X = a).", "1:15 Syntax"),
    ("fof(a,axiom,! [X) : X = a).", "1:17 Syntax"),
    ("fof(a,axiom,! [X,] : X = a).", "1:18 Syntax"),
    ("fof(a,axiom,! [,X] : X = a).", "1:16 Syntax"),
    ("fof(a,axiom,! [x] : a = b).", "1:16 Syntax"),
    ("fof(a,axiom,! [X Y] : X = Y).", "1:18 Syntax"),
    ("fof(a,axiom,! [X: $i] : X = a).", "1:17 Syntax"),
    ("fof(a,axiom,! [1] : a = b).", "1:16 Syntax"),
    ("fof(a,axiom,! ['X'] : a = b).", "1:16 Syntax"),
    ("fof(a,axiom,! [X] : ).", "1:21 Syntax"),
    ("fof(a,axiom,! = a).", "1:15 Syntax"),
    ("fof(a,axiom,! [X]: ).", "1:20 Syntax"),
];

// Denials, terms and notes.
const PARTS: Rows = &[
    ("fof(a,axiom,~ ~ (a = b)).", "1:15 Syntax"),
    ("fof(a,axiom,~~ a = b).", "1:14 Syntax"),
    ("fof(a,axiom,~ (~ a = b)).", "1:16 Syntax"),
    ("fof(a,axiom,~ ((a = b))).", "1:16 Syntax"),
    ("fof(a,axiom,~ (a != b)).", "1:18 Syntax"),
    ("fof(a,axiom,~ a != b).", "1:17 Syntax"),
    ("fof(a,axiom,!= a).", "1:13 Syntax"),
    ("fof(a,axiom,~ != a).", "1:15 Syntax"),
    ("fof(a,axiom,~ p(a)).", "1:15 NotEquality"),
    ("fof(a,axiom,~ (p(a))).", "1:16 NotEquality"),
    ("fof(a,axiom,~ (p(a), b)).", "1:16 NotEquality"),
    ("fof(a,axiom,~ p(a),n).", "1:15 NotEquality"),
    ("fof(a,axiom,$true).", "1:13 Unsupported $true"),
    ("fof(a,axiom,$less(a,b)).", "1:13 Unsupported $less"),
    ("fof(a,axiom,1 = a).", "1:13 Unsupported 1"),
    ("fof(a,axiom,\"a\" = a).", "1:13 Unsupported \"a\""),
    ("fof(a,axiom,a = $f(a)).", "1:17 Unsupported $f"),
    ("fof(a,axiom,f(-1) = a).", "1:15 Unsupported -1"),
    ("fof(a,axiom,~ $false).", "1:15 Unsupported $false"),
    ("fof(a,axiom,~ ($false)).", "1:16 Unsupported $false"),
    ("fof(a,axiom,(1 = a)).", "1:14 Unsupported 1"),
    ("fof(a,axiom,! [X] : $p(X)).", "1:21 Unsupported $p"),
    ("fof(a,axiom,f() = a).", "1:15 Syntax"),
    ("fof(a,axiom,f(a,) = a).", "1:17 Syntax"),
    ("fof(a,axiom,f(a.).", "1:16 Syntax"),
    ("fof(a,axiom,a = b,n,n,n).", "1:22 Syntax"),
    ("fof(a,axiom,a = b,[(]).", "1:21 Syntax"),
    ("fof(a,axiom,a = b,([)).", "1:21 Syntax"),
    ("fof(a,axiom,a = b,n]).", "1:20 Syntax"),
    ("fof(a,axiom,a = b,(n", "1:21 Syntax"),
    ("fof(a,axiom,a = b,,n).", "1:19 Syntax"),
    ("fof(a,axiom,a = b,n,).", "1:21 Syntax"),
    ("fof(a,axiom,a = b,[a).", "1:21 Syntax"),
    ("fof(a,axiom,? b). '", "1:19 Syntax"),
    ("fof(a,axiom,X = b). /* x", "1:21 Syntax"),
    ("tff(a). \x01", "1:9 Syntax"),
];

// Connectives.
const CONNECTIVES: Rows = &[
    ("fof(a,axiom,a | b).", "1:15 NotUnit"),
    ("fof(a,axiom,a & b).", "1:15 NotUnit"),
    ("fof(a,axiom,a <=> b).", "1:15 NotUnit"),
    ("fof(a,axiom,a <= b).", "1:15 NotUnit"),
    ("fof(a,axiom,a <~> b).", "1:15 NotUnit"),
    ("fof(a,axiom,a ~| b).", "1:15 NotUnit"),
    ("fof(a,axiom,a ~& b).", "1:15 NotUnit"),
    ("fof(a,axiom,a => b).", "1:16 NotUnit"),
    ("fof(a,axiom,a = > b).", "1:17 NotUnit"),
    ("fof(a,axiom,a =\n% c\n> b).", "3:1 NotUnit"),
    ("fof(a,axiom,p(a) => q(b)).", "1:19 NotUnit"),
    ("fof(a,axiom,a !=> b).", "1:17 Syntax"),
    ("fof(a,axiom,a > b).", "1:15 Syntax"),
    ("fof(a,axiom,a = b = c).", "1:19 NotUnit"),
    ("fof(a,axiom,a = b => c = d).", "1:19 NotUnit"),
    ("fof(a,axiom,a != b => c = d).", "1:20 NotUnit"),
    ("fof(a,axiom,a != b = c).", "1:20 NotUnit"),
    ("fof(a,axiom,a = b | c = d).", "1:19 NotUnit"),
    ("fof(a,axiom,a = b & c = d).", "1:19 NotUnit"),
    ("fof(a,axiom,a = b <=> c = d).", "1:19 NotUnit"),
    ("fof(a,axiom,a = b ~| c = d).", "1:19 NotUnit"),
    ("fof(a,axiom,a = b > c).", "1:19 Syntax"),
    ("fof(a,axiom,a = b != c).", "1:19 Syntax"),
    ("fof(a,axiom,a = = b).", "1:17 Syntax"),
    ("fof(a,axiom,(a = b) & c = d).", "1:21 NotUnit"),
    ("fof(a,axiom,(a = b) | c = d).", "1:21 NotUnit"),
    ("fof(a,axiom,(a = b) = c).", "1:21 NotUnit"),
    ("fof(a,axiom,(a = b) => c = d).", "1:21 NotUnit"),
    ("fof(a,axiom,((a = b) = c)).", "1:22 NotUnit"),
    ("fof(a,axiom,((a = b) ~ c)).", "1:22 NotUnit"),
    ("fof(a,axiom,(a = b & c)).", "1:20 NotUnit"),
    ("fof(a,axiom,! [X] : (X = a) & b = c).", "1:29 NotUnit"),
    ("fof(a,axiom,! [X] : X = a & b = c).", "1:27 NotUnit"),
    ("fof(a,axiom,~ (a = b) & c = d).", "1:23 NotUnit"),
    ("fof(a,axiom,~ (a = b) = c).", "1:23 NotUnit"),
    ("fof(a,axiom,~ a = b | c = d).", "1:21 NotUnit"),
    ("fof(a,axiom,~ (a = b & c = d)).", "1:22 Syntax"),
    ("fof(a,axiom,~ (a = b | c = d)).", "1:22 Syntax"),
    ("fof(a,axiom,~ (a = b = c)).", "1:22 Syntax"),
    ("fof(a,axiom,~ (a = b ~ c)).", "1:22 Syntax"),
    ("fof(a,axiom,~ (a & b)).", "1:18 NotUnit"),
    ("fof(a,axiom,~ (a | b)).", "1:18 NotUnit"),
    ("fof(a,axiom,~ (a ~ b)).", "1:18 NotUnit"),
    ("fof(a,axiom,~ a & b).", "1:17 NotUnit"),
    ("fof(a,axiom,~ a ~ b).", "1:17 NotUnit"),
    ("fof(a,axiom,~ a => b).", "1:18 NotUnit"),
    ("fof(a,axiom,~ (a = > b)).", "1:20 NotUnit"),
    ("fof(a,axiom,f(a & b) = c).", "1:17 Syntax"),
    ("fof(a,axiom,f(a | b) = c).", "1:17 Syntax"),
    ("fof(a,axiom,f(a = b) = c).", "1:17 Syntax"),
    ("fof(a,axiom,f(a ~ b) = c).", "1:17 Syntax"),
    ("fof(a,axiom,f(a <=> b) = c).", "1:17 Syntax"),
    ("fof(a,axiom,f(~ a) = b).", "1:15 Syntax"),
    ("fof(a,axiom,a = ~ b).", "1:17 Syntax"),
    ("fof(a,axiom,(a) = b).", "1:14 NotEquality"),
    ("fof(a,axiom,[a] --> [b]).", "1:13 Syntax"),
    ("fof(a,axiom,a --> b).", "1:15 Syntax"),
    ("fof(a,axiom,a : b).", "1:15 Syntax"),
];

// Conjectures.
const CONJECTURES: Rows = &[
    ("fof(c,conjecture,~ a = b).", "1:18 Unsupported ~"),
    ("fof(c,conjecture,~ (a = b)).", "1:18 Unsupported ~"),
    ("fof(c,conjecture,a != b).", "1:20 Unsupported !="),
    ("fof(c,conjecture,!= a).", "1:18 Unsupported !="),
    ("fof(c,conjecture,(~ a = b)).", "1:19 Unsupported ~"),
    ("fof(c,conjecture,! [X] : ~ X = a).", "1:26 Unsupported ~"),
    ("fof(c,conjecture,~ ! [X] : X = a).", "1:18 Unsupported ~"),
    ("fof(c,conjecture,~ ? [X] : X = a).", "1:18 Unsupported ~"),
    ("fof(c,conjecture,? [X] : X = a).", "1:18 Unsupported ?"),
    ("fof(c,conjecture,a ~ b).", "1:20 NotUnit"),
    ("fof(c,conjecture,a ~| b).", "1:20 NotUnit"),
    ("fof(c,conjecture,a <~> b).", "1:20 NotUnit"),
    ("fof(c,conjecture,a = b ~ c).", "1:24 NotUnit"),
    ("fof(c,conjecture,(a = b) ~ c).", "1:26 NotUnit"),
    ("fof(c,conjecture,a = b != c).", "1:24 Unsupported !="),
    ("fof(c,conjecture,(a = b) != c).", "1:26 Unsupported !="),
    ("fof(c,conjecture,(a = b != c)).", "1:25 Unsupported !="),
    ("fof(c,conjecture,f(~ a) = b).", "1:20 Unsupported ~"),
    ("fof(c,conjecture,f(a ~ b) = c).", "1:22 Unsupported ~"),
    ("fof(c,conjecture,f(a != b) = c).", "1:22 Unsupported !="),
    ("fof(c,conjecture,f(a, != b) = c).", "1:23 Unsupported !="),
    ("fof(c,conjecture,a = ~ b).", "1:22 Unsupported ~"),
    ("fof(c,conjecture,a = != b).", "1:22 Unsupported !="),
    ("fof(c,conjecture,f(a & b) = c).", "1:22 Syntax"),
    ("fof(c,conjecture,! ~ [X] : X = a).", "1:20 Unsupported ~"),
    ("fof(c,conjecture,! [~X] : X = a).", "1:21 Unsupported ~"),
    ("fof(c,conjecture,! [X!=Y] : X = Y).", "1:22 Unsupported !="),
    ("fof(c,conjecture,! [X] ~ : X = a).", "1:24 Unsupported ~"),
    ("fof(a,axiom,! [X] ~ : X = a).", "1:19 Syntax"),
    ("fof(c,conjecture,a => b).", "1:21 NotUnit"),
    ("fof(c,conjecture,a = b => c = d).", "1:24 NotUnit"),
    ("fof(c,conjecture,f(a) != X).", "1:23 Unsupported !="),
    ("fof(c,conjecture,f(X) != a).", "1:20 Unsupported X"),
    ("fof(c,conjecture,p(a)).", "1:18 NotEquality"),
    ("fof(c,conjecture,$true).", "1:18 Unsupported $true"),
    ("fof(c,conjecture ~ a = b).", "1:18 Syntax"),
    ("fof(c,~ conjecture,a = b).", "1:7 Syntax"),
    ("fof(c ~,conjecture,a = b).", "1:7 Syntax"),
    ("fof(c,conjecture,a = b) ~ .", "1:25 Syntax"),
    ("fof(c,conjecture,a = b) != .", "1:25 Syntax"),
    ("fof(c,conjecture,a = b,n) ~ .", "1:27 Syntax"),
    ("fof(c,conjecture,a = b,).", "1:24 Syntax"),
    ("fof(c,conjecture,a = b,~] ).", "1:25 Syntax"),
    ("fof(c,conjecture,(a = b,n)).", "1:24 Syntax"),
];

// Items, roles and brackets; the clauses of the same file keep their own refusals.
const ITEMS: Rows = &[
    ("tff(a,axiom,a = b).", "1:1 Unsupported tff"),
    ("thf(a,axiom,a = b).", "1:1 Unsupported thf"),
    ("tcf(a,axiom,a = b).", "1:1 Unsupported tcf"),
    ("tpi(a,axiom,a = b).", "1:1 Unsupported tpi"),
    ("'fof'(a,axiom,a = b).", "1:1 Syntax"),
    ("Fof(a,axiom,a = b).", "1:1 Syntax"),
    ("foff(a,axiom,a = b).", "1:1 Syntax"),
    ("(fof(a,axiom,a = b)).", "1:1 Syntax"),
    ("fof[a,axiom,a = b].", "1:4 Syntax"),
    ("fof", "1:4 Syntax"),
    ("fof(\"a\",axiom,a = b).", "1:5 Syntax"),
    ("fof($a,axiom,a = b).", "1:5 Syntax"),
    ("fof(a.", "1:6 Syntax"),
    ("fof(a,conjectur,a = b).", "1:7 BadRole conjectur"),
    ("fof(a,conjectures,a = b).", "1:7 BadRole conjectures"),
    ("fof(a,type,a = b).", "1:7 BadRole type"),
    ("fof(a,unknown,a = b).", "1:7 BadRole unknown"),
    ("fof(a,'axiom',a = b).", "1:7 Syntax"),
    ("fof(a,'conjecture',a = b).", "1:7 Syntax"),
    ("fof(a,Conjecture,a = b).", "1:7 Syntax"),
    ("fof(a,1,a = b).", "1:7 Syntax"),
    ("cnf(c,conjecture,a = b).", "1:7 BadRole conjecture"),
    ("fof(a,axiom).", "1:12 Syntax"),
    ("fof(a,axiom-x,a = b).", "1:12 Syntax"),
    ("fof(a,axiom,).", "1:13 Syntax"),
    ("fof(a,axiom,,n).", "1:13 Syntax"),
    ("fof(a,axiom,a = b)", "1:19 Syntax"),
    ("fof(a,axiom,a = b.", "1:18 Syntax"),
    ("fof(a,axiom,a = b", "1:18 Syntax"),
    ("fof(a,axiom,a.", "1:14 Syntax"),
    ("fof(a,axiom,(a = b.", "1:19 Syntax"),
    ("fof(a,axiom,(a = b).", "1:20 Syntax"),
    ("fof(a,axiom,a = b)).", "1:19 Syntax"),
    ("fof(a,axiom,a = b). .", "1:21 Syntax"),
    ("cnf(a,axiom,a & b).", "1:15 Syntax"),
    ("cnf(a,axiom,a ~ b).", "1:15 Syntax"),
    ("cnf(a,axiom,a <=> b).", "1:15 Syntax"),
    ("cnf(a,axiom,a = > b).", "1:17 Syntax"),
    ("cnf(a,axiom,a = b = c).", "1:19 Syntax"),
    ("cnf(a,axiom,a = b & c).", "1:19 Syntax"),
    ("cnf(a,axiom,a = b | c = d).", "1:19 NotUnit"),
    ("cnf(a,axiom,? [X] : a = b).", "1:13 Syntax"),
    ("cnf(a,axiom,! [X] : a = b).", "1:13 Syntax"),
    ("cnf(a,axiom,~ ! [X] : a = b).", "1:15 Syntax"),
    ("include('x',*).", "1:13 Unsupported *"),
    (
        "fof(a,axiom,(((((((((((((((((a = b)))))))))))))))))).",
        "1:29 Limit parentheses",
    ),
    (
        "fof(a,axiom,(! [X] : (! [X] : (! [X] : (! [X] : (! [X] : (! [X] : (! [X] : (! [X] : (! [X] : (! [X] : (! [X] : (! [X] : (! [X] : (! [X] : (! [X] : (! [X] : (X = a)))))))))))))))))).",
        "1:157 Limit parentheses",
    ),
    (
        "fof(c,conjecture,((((((((((((((((! [X] : (X = a)))))))))))))))))).",
        "1:42 Limit parentheses",
    ),
    (
        "fof(a,axiom,(((((((((((((((((? b)))))))))))))))))).",
        "1:29 Limit parentheses",
    ),
    (
        "fof(a,axiom,((((((((((((((((~ (a = b)))))))))))))))).).",
        "1:53 Syntax",
    ),
];

// Whether a file is refused so.
fn is_refused(alloc: Global, text: &[u8], wanted: &str) -> Result<bool, AllocError> {
    let mut symbols = Symbols::new(alloc);
    let mut told = Text::new(alloc);
    if let Err(fault) = read_formulas(alloc, text, &mut symbols) {
        tell_fault(alloc, &mut told, &fault)?;
    }
    Ok(told.as_bytes() == wanted.as_bytes())
}

#[test]
fn variables_and_quantifiers(rt: HostRuntime) -> Result<(), Fail> {
    for (text, wanted) in VARIABLES {
        assert!(rt; is_refused(rt.alloc(), text.as_bytes(), wanted)?, "{text}");
    }
    Ok(())
}

#[test]
fn denials_terms_and_notes(rt: HostRuntime) -> Result<(), Fail> {
    for (text, wanted) in PARTS {
        assert!(rt; is_refused(rt.alloc(), text.as_bytes(), wanted)?, "{text}");
    }
    Ok(())
}

#[test]
fn connectives(rt: HostRuntime) -> Result<(), Fail> {
    for (text, wanted) in CONNECTIVES {
        assert!(rt; is_refused(rt.alloc(), text.as_bytes(), wanted)?, "{text}");
    }
    Ok(())
}

#[test]
fn conjectures(rt: HostRuntime) -> Result<(), Fail> {
    for (text, wanted) in CONJECTURES {
        assert!(rt; is_refused(rt.alloc(), text.as_bytes(), wanted)?, "{text}");
    }
    Ok(())
}

#[test]
fn items_and_roles(rt: HostRuntime) -> Result<(), Fail> {
    for (text, wanted) in ITEMS {
        assert!(rt; is_refused(rt.alloc(), text.as_bytes(), wanted)?, "{text}");
    }
    Ok(())
}

// One row a text in pieces, each so many times, and how it is refused, with nothing for one that is read.
type Pieces = &'static [(&'static str, usize)];

const LIMITS: &[(Pieces, &str)] = &[
    (
        &[("                ", 1_048_576), (" ", 1)],
        "1:1 Limit bytes",
    ),
    (
        &[
            ("fof(a,axiom,! [X] : ", 1),
            ("f(", 4095),
            ("X", 1),
            (")", 4095),
            (" = a).", 1),
        ],
        "",
    ),
    (
        &[
            ("fof(a,axiom,! [X] : ", 1),
            ("f(", 4096),
            ("X", 1),
            (")", 4096),
            (" = a).", 1),
        ],
        "1:8213 Limit nodes",
    ),
    (
        &[("fof(a,axiom,! [X] : a = ", 1), ("f(", 4096), ("X", 1)],
        "1:8217 Limit nodes",
    ),
    (
        &[("fof(a,axiom,! [X] : ", 1), ("f(", 4095), ("Y", 1)],
        "1:8211 Unsupported Y",
    ),
    (
        &[("fof(a,axiom,! [X] : ", 1), ("f(", 4096), ("Y", 1)],
        "1:8213 Limit nodes",
    ),
    (
        &[("fof(a,axiom,! [X] : ", 1), ("f(", 4096), ("1", 1)],
        "1:8213 Unsupported 1",
    ),
    (
        &[("fof(a,axiom,! [X] : g(", 1), ("X,", 254), ("X) = a).", 1)],
        "",
    ),
    (
        &[("fof(a,axiom,! [X] : g(", 1), ("X,", 255), ("X) = a).", 1)],
        "1:21 Limit arity",
    ),
    (
        &[
            ("fof(a,axiom,! [X] : g(", 1),
            ("X,", 253),
            ("Y,X,X) = a).", 1),
        ],
        "1:529 Unsupported Y",
    ),
    (
        &[
            ("fof(a,axiom,! [X] : g(", 1),
            ("X,", 254),
            ("Y,X) = a).", 1),
        ],
        "1:531 Unsupported Y",
    ),
    (
        &[("fof(a,axiom,! [X] : g(", 1), ("X,", 255), ("Y) = a).", 1)],
        "1:21 Limit arity",
    ),
    (
        &[("fof(a,axiom,! [X] : h(Y,g(", 1), ("X,", 255)],
        "1:23 Unsupported Y",
    ),
    (
        &[("fof(a,axiom,", 1), ("! [X] : ", 1000), ("X = a).", 1)],
        "",
    ),
    (
        &[("fof(a,axiom,", 1), ("! [X] : ", 1000), ("Y = a).", 1)],
        "1:8013 Unsupported Y",
    ),
    (
        &[("fof(a,axiom,", 1), ("! [X] : (", 17)],
        "1:165 Limit parentheses",
    ),
    (
        &[("fof(a,axiom,! [", 1), ("X,", 1000), ("X] : X = a).", 1)],
        "",
    ),
];

fn joined(alloc: Global, pieces: Pieces) -> Result<Text, AllocError> {
    let mut text = Text::new(alloc);
    for (piece, count) in pieces {
        for _ in 0..*count {
            text.extend(piece.as_bytes())?;
        }
    }
    Ok(text)
}

fn is_joined_refused(alloc: Global, pieces: Pieces, wanted: &str) -> Result<bool, AllocError> {
    let text = joined(alloc, pieces)?;
    is_refused(alloc, text.as_bytes(), wanted)
}

#[test]
fn limits(rt: HostRuntime) -> Result<(), Fail> {
    for (pieces, wanted) in LIMITS {
        assert!(rt; is_joined_refused(rt.alloc(), pieces, wanted)?, "{wanted}");
    }
    Ok(())
}
