use std::alloc::{AllocError, Global};
use std::test::Fail;
use uc_clause::Place;
use uc_order::OrderSpec;
use uc_system::{SystemFault, print_system, read_system};
use uc_term::{Symbols, Text};

const ROW: &[u8] = b"% system 1
% order kbo 1
% symbol least 0 1
% symbol f 1 1
cnf(s1, plain, f(X1) = X1).
% end
";

const NO_FACTS: &[u8] = b"% system 1
% order kbo 1
% symbol least 0 1
% end
";

const LIGHT: &[u8] = b"% system 2
% order kbo 1
% symbol least 0 1
% symbol i 1 0
cnf(s1, plain, i(i(X1)) = X1).
% end
";

const PATHS: &[u8] = b"% system 1
% order lpo
% symbol e 0
% symbol 'Big one' 0
% symbol '\\'\\\\' 1
% symbol m 2
% symbol m 3
cnf(s1, plain, m(X1,m(X2,X1)) = m(X2,X1,'Big one')).
cnf(s2, plain, '\\'\\\\'(X1) = e).
% end
";

const ENCODED: &[u8] = b"% system 1
% order kbo 1
% symbol b 0 1
% symbol c 0 1
% symbol a 0 1
% symbol f 1 1
% symbol true 0 1
% symbol false 0 1
% symbol eq 2 1
cnf(s1, plain, f(b) = c).
cnf(s2, plain, eq(X1,X1) = true).
cnf(s3, plain, eq(f(X1),a) = false).
cnf(s4, plain, eq(c,a) = false).
% end
";

// A text is so long at most.
const MOST_BYTES: usize = 1 << 20;

// The text of what the text says.
fn again(alloc: Global, bytes: &[u8]) -> Result<Text, SystemFault> {
    if bytes.len() > MOST_BYTES {
        return Err(SystemFault::NoMemory);
    }
    let mut symbols = Symbols::new(alloc);
    let text = read_system(alloc, bytes, &mut symbols)?;
    Ok(print_system(alloc, &text.spec, &text.system, &symbols)?)
}

// Why the text isn't read.
fn fault_of(alloc: Global, bytes: &[u8]) -> Result<Option<SystemFault>, AllocError> {
    if bytes.len() > MOST_BYTES {
        return Err(AllocError);
    }
    let mut symbols = Symbols::new(alloc);
    match read_system(alloc, bytes, &mut symbols) {
        Ok(_) => Ok(None),
        Err(SystemFault::NoMemory) => Err(AllocError),
        Err(fault) => Ok(Some(fault)),
    }
}

// The same of a text with this piece in place of another that stands in it once.
fn fault_with(
    alloc: Global,
    bytes: &[u8],
    old: &[u8],
    new: &[u8],
) -> Result<Option<SystemFault>, AllocError> {
    let mut text = Text::new(alloc);
    for at in 0..bytes.len() {
        if let Some(rest) = bytes[at..].strip_prefix(old) {
            text.extend(&bytes[..at])?;
            text.extend(new)?;
            text.extend(rest)?;
            return fault_of(alloc, text.as_bytes());
        }
    }
    Ok(None)
}

// Syntax at the first byte of a line, by its number.
const FIRST: Option<SystemFault> = Some(SystemFault::Syntax(Place { line: 1, column: 1 }));

const SECOND: Option<SystemFault> = Some(SystemFault::Syntax(Place { line: 2, column: 1 }));

const THIRD: Option<SystemFault> = Some(SystemFault::Syntax(Place { line: 3, column: 1 }));

const FOURTH: Option<SystemFault> = Some(SystemFault::Syntax(Place { line: 4, column: 1 }));

const FIFTH: Option<SystemFault> = Some(SystemFault::Syntax(Place { line: 5, column: 1 }));

const SIXTH: Option<SystemFault> = Some(SystemFault::Syntax(Place { line: 6, column: 1 }));

const SEVENTH: Option<SystemFault> = Some(SystemFault::Syntax(Place { line: 7, column: 1 }));

// The number of the version.
const VERSION: Option<SystemFault> = Some(SystemFault::Version(Place {
    line: 1,
    column: 10,
}));

// The arity of a symbol, whose name has one byte or five.
const ARITY: Option<SystemFault> = Some(SystemFault::Limit(Place {
    line: 4,
    column: 12,
}));

const LONG_ARITY: Option<SystemFault> = Some(SystemFault::Limit(Place {
    line: 4,
    column: 16,
}));

// The sides of a fact.
const LEFT: Option<SystemFault> = Some(SystemFault::Limit(Place {
    line: 5,
    column: 16,
}));

const RIGHT: Option<SystemFault> = Some(SystemFault::Limit(Place {
    line: 5,
    column: 24,
}));

// A text, a piece that stands in it once, what comes of each piece in its place, and these.
type Rows = (
    &'static [u8],
    &'static [u8],
    Option<SystemFault>,
    &'static [&'static [u8]],
);

// Each of the texts is printed as it was read.
#[test]
fn read_and_printed(rt: HostRuntime) -> Result<(), Fail> {
    for text in [ROW, NO_FACTS, LIGHT, PATHS, ENCODED] {
        assert!(rt; is_again(rt.alloc(), text)?);
    }
    Ok(())
}

fn is_again(alloc: Global, bytes: &[u8]) -> Result<bool, SystemFault> {
    let text = again(alloc, bytes)?;
    Ok(text.as_bytes() == bytes)
}

// The weight of a variable, 0 where the order has none.
fn variable_weight(spec: &OrderSpec) -> u32 {
    match spec {
        OrderSpec::Kbo { w0, .. } => *w0,
        OrderSpec::Lpo { .. } => 0,
    }
}

// What the row says.
#[test]
fn said(rt: HostRuntime) -> Result<(), Fail> {
    let alloc = rt.alloc();
    let mut symbols = Symbols::new(alloc);
    let text = read_system(alloc, ROW, &mut symbols)?;
    assert!(rt; text.system.facts.len() == 1 && variable_weight(&text.spec) == 1);
    Ok(())
}

// First lines.
const FIRST_LINES: &[Rows] = &[
    (
        ROW,
        b"% system 1",
        VERSION,
        &[
            b"% system 9",
            b"% system 0",
            b"% system 007",
            b"% system 4294967298",
        ],
    ),
    (
        ROW,
        b"% system 1",
        FIRST,
        &[
            b"% system 01",
            b"% system 02",
            b"% system 2",
            b"% system ",
            b"% system 1 ",
            b"% system +3",
            b"",
        ],
    ),
    (LIGHT, b"% system 2", FIRST, &[b"% system 1"]),
    (PATHS, b"% system 1", FIRST, &[b"% system 2"]),
];

// Lines of the order.
const ORDERS: &[Rows] = &[
    (
        ROW,
        b"% order kbo 1",
        SECOND,
        &[
            b"% order kbo 0",
            b"% order kbo 01",
            b"% order kbo 1000001",
            b"% order kbo 4294967297",
            b"% order kbo",
            b"% order lpo 1",
            b"% order rpo",
        ],
    ),
    (
        ROW,
        b"% order kbo 1",
        THIRD,
        &[b"% order kbo 2", b"% order lpo"],
    ),
    (PATHS, b"% order lpo", THIRD, &[b"% order kbo 1"]),
];

// Lines of symbols.
const SYMBOL_LINES: &[Rows] = &[
    (
        ROW,
        b"% symbol f 1 1",
        FOURTH,
        &[
            b"% symbol f 1",
            b"% symbol f 1 1 1",
            b"% symbol f  1 1",
            b"% symbol f 01 1",
            b"% symbol f 1 1000001",
            b"% symbol f 1 4294967297",
            b"% symbol 'f' 1 1",
            b"% symbol F 1 1",
            b"% symbol 'F 1 1",
            b"% symbol least 0 1",
            b"% symbol f 256 x",
            b"% symbol f 2 0",
            b"% symbol ",
        ],
    ),
    (
        ROW,
        b"% symbol f 1 1",
        ARITY,
        &[b"% symbol f 256 1", b"% symbol f 99999999999 9999999"],
    ),
    (
        ROW,
        b"% symbol f 1 1",
        LONG_ARITY,
        &[b"% symbol 'F F' 256 1"],
    ),
    (
        ROW,
        b"% symbol f 1 1",
        None,
        &[b"% symbol f 0 1\n% symbol f 1 1"],
    ),
    (ROW, b"% symbol f 1 1", FIFTH, &[b"% symbol g 1 1"]),
];

// Symbols of weight 0, and what is wrong with all symbols.
const WEIGHTS: &[Rows] = &[
    (
        LIGHT,
        b"% symbol i 1 0",
        FOURTH,
        &[
            b"% symbol i 1 0\n% symbol g 1 1",
            b"% symbol i 1 0\n% symbol g 256 1",
            b"% symbol i 1 0\n% symbol i 1 0",
            b"% symbol i 2 0",
        ],
    ),
    (
        LIGHT,
        b"% symbol i 1 0",
        FIFTH,
        &[
            b"% symbol i 1 0\n% symbol ",
            b"% symbol i 1 0\n% symbol g 1 01",
            b"% symbol i 1 0\n% symbol g 1",
            b"% symbol i 1 0\n",
            b"% symbol i 1 1\n% symbol ",
        ],
    ),
    (ROW, b"% symbol f 1 1", FIRST, &[b"% symbol f 1 0"]),
    (LIGHT, b"% symbol i 1 0", FIRST, &[b"% symbol i 1 1"]),
    (
        LIGHT,
        b"% symbol least 0 1",
        THIRD,
        &[b"% symbol least 0 0"],
    ),
    (LIGHT, b"% symbol least 0 1\n", FOURTH, &[b""]),
    (NO_FACTS, b"% symbol least 0 1\n", THIRD, &[b""]),
];

// Lines of facts.
const FACTS: &[Rows] = &[
    (
        ROW,
        b"cnf(s1, plain, f(X1) = X1).",
        FIFTH,
        &[
            b"cnf(s1, plain, f(X2) = X1).",
            b"cnf(s1, plain, f(X) = X).",
            b"cnf(s1, plain, f( X1) = X1).",
            b"cnf(s1, plain, f(X1) != X1).",
            b"cnf(s1, plain, f(X1)).",
            b"cnf(s1, plain, f(X1) = g).",
            b"cnf(s1, plain, f(X1,X1) = X1).",
            b"cnf(s1, plain, f(X1) = X1). ",
            b"cnf(s2, plain, f(X1) = X1).",
            b"cnf(s1, axiom, f(X1) = X1).",
            b"",
            b"% end ",
        ],
    ),
    (
        ROW,
        b"cnf(s1, plain, f(X1) = X1).",
        None,
        &[
            b"cnf(s1, plain, f(X1) = X2).",
            b"cnf(s1, plain, X1 = f(X1)).",
            b"cnf(s1, plain, f(X1) = X1).\ncnf(s2, plain, least = f(least)).",
        ],
    ),
];

// The last line, and what stands behind it.
const ENDS: &[Rows] = &[
    (
        ROW,
        b"% end\n",
        SIXTH,
        &[b"% end", b"", b"cnf(s3, plain, least = least).\n"],
    ),
    (
        ROW,
        b"% end\n",
        SEVENTH,
        &[b"% end\n\n", b"% end\nx", b"% end\n% end\n"],
    ),
];

// One row a text with a piece in the place of another.
#[test]
fn changed(rt: HostRuntime) -> Result<(), Fail> {
    for tables in [FIRST_LINES, ORDERS, SYMBOL_LINES, WEIGHTS, FACTS, ENDS] {
        for (text, old, wanted, pieces) in tables {
            let other = first_other(rt.alloc(), text, old, *wanted, pieces)?;
            assert!(rt; other.is_none(), "{other:?}");
        }
    }
    Ok(())
}

// The first of the pieces with which something else comes.
fn first_other(
    alloc: Global,
    text: &[u8],
    old: &[u8],
    wanted: Option<SystemFault>,
    pieces: &[&'static [u8]],
) -> Result<Option<usize>, AllocError> {
    for (number, new) in pieces.iter().enumerate() {
        if fault_with(alloc, text, old, new)? != wanted {
            return Ok(Some(number));
        }
    }
    Ok(None)
}

// Texts that end too early.
const CUT: &[(&[u8], Option<SystemFault>)] = &[
    (b"", FIRST),
    (b"% system 9", FIRST),
    (b"% system 1\n", SECOND),
];

#[test]
fn cut_off(rt: HostRuntime) -> Result<(), Fail> {
    for (text, wanted) in CUT {
        assert!(rt; fault_of(rt.alloc(), text)? == *wanted);
    }
    Ok(())
}

// `f` so often round a term, in brackets.
fn tower(alloc: Global, height: usize, base: &[u8]) -> Result<Text, AllocError> {
    let mut text = Text::new(alloc);
    for _ in 0..height {
        text.extend(b"f(")?;
    }
    text.extend(base)?;
    for _ in 0..height {
        text.push(b')')?;
    }
    Ok(text)
}

// The row with a fact of these sides.
fn fault_between(
    alloc: Global,
    left: &[u8],
    right: &[u8],
) -> Result<Option<SystemFault>, AllocError> {
    let mut line = Text::from_bytes(alloc, b"cnf(s1, plain, ")?;
    line.extend(left)?;
    line.extend(b" = ")?;
    line.extend(right)?;
    line.extend(b").")?;
    fault_with(alloc, ROW, b"cnf(s1, plain, f(X1) = X1).", line.as_bytes())
}

// Terms of 4,096 and of 4,097 nodes.
#[test]
fn large_terms(rt: HostRuntime) -> Result<(), Fail> {
    for (left, right, wanted) in HEIGHTS {
        assert!(rt; fault_of_towers(rt.alloc(), *left, *right)? == *wanted);
    }
    Ok(())
}

// How high the towers are of two sides, and what comes.
const HEIGHTS: &[(usize, usize, Option<SystemFault>)] = &[
    (4095, 4095, None),
    (4096, 0, LEFT),
    (0, 4096, RIGHT),
    (4096, 4096, LEFT),
];

fn fault_of_towers(
    alloc: Global,
    left: usize,
    right: usize,
) -> Result<Option<SystemFault>, AllocError> {
    let left = tower(alloc, left, b"least")?;
    let right = tower(alloc, right, b"least")?;
    fault_between(alloc, left.as_bytes(), right.as_bytes())
}

// What stands before and behind a term that is too large, the equation's right side, and the fault: the line's, where it departs in
// anything else, in front of the 4,097th node, behind it or in the other term.
type Around = (
    &'static [u8],
    &'static [u8],
    &'static [u8],
    Option<SystemFault>,
);

const LARGE: &[Around] = &[
    (b"f( ", b")", b"least", FIFTH),
    (b"f(/**/", b")", b"least", FIFTH),
    (b"'f'(", b")", b"least", FIFTH),
    (b"g(", b")", b"least", FIFTH),
    (b" ", b"", b"least", FIFTH),
    (b"f(X01) = ", b"", b"least", FIFTH),
    (b"g = ", b"", b"least", FIFTH),
    (b"7 = ", b"", b"least", FIFTH),
    (b"", b" ", b"least", FIFTH),
    (b"", b" )", b"least", FIFTH),
    (b"", b"", b"g", FIFTH),
    (b"", b"", b"f(g)", FIFTH),
    (b"", b"", b" least", FIFTH),
    (b"", b"", b"'least'", FIFTH),
    (b"", b"", b"f(X01)", FIFTH),
    (b"", b"", b"f(X0)", FIFTH),
    (b"", b"", b"X", FIFTH),
    (b"f(", b",least)", b"least", FIFTH),
    (b"least(", b")", b"least", FIFTH),
    (b"f(", b"", b"least", FIFTH),
    (b"", b")", b"least", FIFTH),
    (b"f = ", b"", b"least", FIFTH),
    (b"", b"", b"f", FIFTH),
    (b"", b"", b"f()", FIFTH),
    (b"", b"", b"f(X1", FIFTH),
    (b"", b"", b"f(X1))", FIFTH),
    (b"", b"", b"f(X2)", FIFTH),
    (b"", b"", b"f(least,X10)", FIFTH),
    (b"", b"", b"", FIFTH),
    (b"", b"", b"X1", LEFT),
    (b"", b"", b"f(X1)", LEFT),
    (b"f(", b")", b"f(f(X1))", LEFT),
];

#[test]
fn large_and_spelled_otherwise(rt: HostRuntime) -> Result<(), Fail> {
    let large = tower(rt.alloc(), 4096, b"least")?;
    for row in LARGE {
        assert!(rt; fault_around(rt.alloc(), large.as_bytes(), row)? == row.3);
    }
    Ok(())
}

fn fault_around(
    alloc: Global,
    large: &[u8],
    row: &Around,
) -> Result<Option<SystemFault>, AllocError> {
    let mut left = Text::from_bytes(alloc, row.0)?;
    left.extend(large)?;
    left.extend(row.1)?;
    fault_between(alloc, left.as_bytes(), row.2)
}

// The left side before one that is too large, what stands within that, and the fault.
type Behind = (&'static [u8], &'static [u8], Option<SystemFault>);

const BEHIND: &[Behind] = &[
    (b"f(X1)", b"least", RIGHT),
    (b"f(X1)", b"X1", RIGHT),
    (b"f(X1)", b"X2", RIGHT),
    (b"least", b"X1", RIGHT),
    (b"f(X1)", b"X3", FIFTH),
    (b"least", b"X2", FIFTH),
    (b"f(X2)", b"X1", FIFTH),
    (b"f(X1,X1)", b"least", FIFTH),
    (b"f(least,least)", b"least", FIFTH),
    (b"least(X1)", b"least", FIFTH),
    (b"f", b"least", FIFTH),
    (b"f()", b"least", FIFTH),
    (b"f(X1", b"least", FIFTH),
    (b"f(X1))", b"least", FIFTH),
    (b"f(X1) = X1", b"least", FIFTH),
    (b"", b"least", FIFTH),
    (b"f(X1)", b"f", FIFTH),
    (b"f(X1)", b"f()", FIFTH),
    (b"f(X1)", b"f(X1,X1)", FIFTH),
    (b"f(X1)", b"least(X1)", FIFTH),
    (b"f(X1)", b"f(X1", FIFTH),
    (b"f(X1)", b"X1)", FIFTH),
    (b"f(X1)", b"X1,X1", FIFTH),
    (b"f(X1)", b"X1 = X1", FIFTH),
    (b"f(X1)", b"", FIFTH),
];

#[test]
fn large_behind_another(rt: HostRuntime) -> Result<(), Fail> {
    for row in BEHIND {
        assert!(rt; fault_behind(rt.alloc(), row)? == row.2);
    }
    Ok(())
}

fn fault_behind(alloc: Global, row: &Behind) -> Result<Option<SystemFault>, AllocError> {
    let large = tower(alloc, 4096, row.1)?;
    fault_between(alloc, row.0, large.as_bytes())
}
