use crate::formulas_told::tell_item;
use std::alloc::{AllocError, Global};
use std::test::Fail;
use uc_clause::Place;
use uc_fof::{FofItem, read_formulas};
use uc_term::{Sym, Symbols, Text};

// One row a text that is read: what its items say.
const READ: &[(&str, &str)] = &[
    (
        "fof(a,axiom,! [X,X] : f(X) = X).",
        "formula a axiom at 1:7 f X0 = X0 . ",
    ),
    (
        "fof(a,axiom,! [X] : ! [X] : f(X) = X).",
        "formula a axiom at 1:7 f X0 = X0 . ",
    ),
    (
        "fof(a,axiom,! [X] : ! [Y,X] : g(Y,X) = Y).",
        "formula a axiom at 1:7 g X0 X1 = X0 . ",
    ),
    (
        "fof(a,axiom,! [X] : ( ! [Y] : g(Y,X) = Y )).",
        "formula a axiom at 1:7 g X0 X1 = X0 . ",
    ),
    (
        "fof(a,axiom,! [Y,X] : f(X) = Y).",
        "formula a axiom at 1:7 f X0 = X1 . ",
    ),
    (
        "fof(a,axiom,! [X,Y,Z] : a = b).",
        "formula a axiom at 1:7 a = b . ",
    ),
    (
        "fof(a,axiom,(! [X] : (X = a))).",
        "formula a axiom at 1:7 X0 = a . ",
    ),
    (
        "fof(a,axiom,! [X_1aB] : f(X_1aB) = a).",
        "formula a axiom at 1:7 f X0 = a . ",
    ),
    (
        "fof(a,axiom,![X]:X!=a).",
        "formula a axiom at 1:7 X0 != a . ",
    ),
    (
        "fof(a,axiom,![X]:X=X).",
        "formula a axiom at 1:7 X0 = X0 . ",
    ),
    ("fof(a,axiom,a != b).", "formula a axiom at 1:7 a != b . "),
    ("fof(a,axiom,~ a = b).", "formula a axiom at 1:7 a != b . "),
    (
        "fof(a,axiom,~ ( a = b )).",
        "formula a axiom at 1:7 a != b . ",
    ),
    (
        "fof(a,axiom,(~ ( a = b ))).",
        "formula a axiom at 1:7 a != b . ",
    ),
    (
        "fof(a,axiom,! [X] : ~ f(X) = X).",
        "formula a axiom at 1:7 f X0 != X0 . ",
    ),
    (
        "fof(a,axiom,! [X] : (~ (f(X) = X))).",
        "formula a axiom at 1:7 f X0 != X0 . ",
    ),
    (
        "fof(a,axiom,((((((((((((((((a = b))))))))))))))))).",
        "formula a axiom at 1:7 a = b . ",
    ),
    (
        "fof(a,axiom,((((((((((((((((~ (a = b)))))))))))))))))).",
        "formula a axiom at 1:7 a != b . ",
    ),
    (
        "fof(a,axiom,(! [X] : (! [X] : (! [X] : (! [X] : (! [X] : (! [X] : (! [X] : (! [X] : (! [X] : (! [X] : (! [X] : (! [X] : (! [X] : (! [X] : (! [X] : (! [X] : X = a))))))))))))))))).",
        "formula a axiom at 1:7 X0 = a . ",
    ),
    (
        "fof(c,conjecture,a = b).",
        "conjecture c negated_conjecture at 1:7 a != b . ",
    ),
    (
        "fof(c,conjecture,(a = b)).",
        "conjecture c negated_conjecture at 1:7 a != b . ",
    ),
    (
        "fof(c,conjecture,! [Y] : f(f(Y)) = Y).",
        "conjecture c negated_conjecture at 1:7 f f X0 != X0 . ",
    ),
    (
        "fof(c,conjecture,! [Y,X] : (g(X,Y) = X)).",
        "conjecture c negated_conjecture at 1:7 g X0 X1 != X0 . ",
    ),
    (
        "fof(c,negated_conjecture,a = b).",
        "formula c negated_conjecture at 1:7 a = b . ",
    ),
    (
        "fof(c,negated_conjecture,~ a = b).",
        "formula c negated_conjecture at 1:7 a != b . ",
    ),
    (
        "fof('a b',axiom,a = b).",
        "formula a b axiom at 1:11 a = b . ",
    ),
    (
        "fof('\\'\\\\',axiom,a = b).",
        "formula '\\ axiom at 1:12 a = b . ",
    ),
    ("fof(-1,axiom,a = b).", "formula #-1 axiom at 1:8 a = b . "),
    (
        "fof(007,axiom,a = b).",
        "formula #007 axiom at 1:9 a = b . ",
    ),
    (
        "fof(a,axiom,a = b,file('x',[1,2]),[a,(b)]).",
        "formula a axiom at 1:7 a = b . ",
    ),
    (
        "fof(a,axiom,a = b,[a,b],c).",
        "formula a axiom at 1:7 a = b . ",
    ),
    (
        "fof(a,axiom,a = b,! [Y] : p(X) | q).",
        "formula a axiom at 1:7 a = b . ",
    ),
    (
        "fof(c,conjecture,a = b,~ != ? ! X & |).",
        "conjecture c negated_conjecture at 1:7 a != b . ",
    ),
    (
        "fof(c,conjecture,a = b,n,~ [!=]).",
        "conjecture c negated_conjecture at 1:7 a != b . ",
    ),
    (
        "fof(a,/* x */axiom,% y\n! [X]/**/:f(X)=X).",
        "formula a axiom at 1:14 f X0 = X0 . ",
    ),
    (
        "\n\tfof ( a , \n axiom , a = b ) .",
        "formula a axiom at 3:2 a = b . ",
    ),
    (
        "fof(a,axiom,'f'(a) = f('a')).",
        "formula a axiom at 1:7 f a = f a . ",
    ),
    (
        "fof(a,axiom,'X' = 'fof').",
        "formula a axiom at 1:7 X = fof . ",
    ),
    (
        "fof(a,axiom,fof(a) = cnf).",
        "formula a axiom at 1:7 fof a = cnf . ",
    ),
    ("fof(a,axiom,'|' = '~').", "formula a axiom at 1:7 | = ~ . "),
    (
        "fof(a,axiom,f(a) = f(a,b)).",
        "formula a axiom at 1:7 f a = f a b . ",
    ),
    ("fof(a,axiom,a = b).", "formula a axiom at 1:7 a = b . "),
    (
        "fof(a,hypothesis,a = b).",
        "formula a hypothesis at 1:7 a = b . ",
    ),
    (
        "fof(a,definition,a = b).",
        "formula a definition at 1:7 a = b . ",
    ),
    (
        "fof(a,assumption,a = b).",
        "formula a assumption at 1:7 a = b . ",
    ),
    ("fof(a,lemma,a = b).", "formula a lemma at 1:7 a = b . "),
    ("fof(a,theorem,a = b).", "formula a theorem at 1:7 a = b . "),
    (
        "fof(a,corollary,a = b).",
        "formula a corollary at 1:7 a = b . ",
    ),
    ("fof(a,plain,a = b).", "formula a plain at 1:7 a = b . "),
    (
        "fof(a,negated_conjecture,a = b).",
        "formula a negated_conjecture at 1:7 a = b . ",
    ),
    (
        "cnf(a,axiom,X = a). fof(b,axiom,! [X] : X = a).\ninclude('x').",
        "clause formula b axiom at 1:27 X0 = a . include ",
    ),
    (
        "fof(c,conjecture,a = b).\nfof(d,conjecture,b = a).",
        "conjecture c negated_conjecture at 1:7 a != b . conjecture d negated_conjecture at 2:7 b != a . ",
    ),
    ("", ""),
    (" % fof\n/* tff */ ", ""),
];

// Whether a file is read, and its items say this.
fn is_read(alloc: Global, text: &[u8], wanted: &str) -> Result<bool, AllocError> {
    let mut symbols = Symbols::new(alloc);
    let mut told = Text::new(alloc);
    let Ok(items) = read_formulas(alloc, text, &mut symbols) else {
        return Ok(false);
    };
    for item in items.as_slice() {
        tell_item(alloc, &mut told, item, &symbols)?;
    }
    Ok(told.as_bytes() == wanted.as_bytes())
}

#[test]
fn files_that_are_read(rt: HostRuntime) -> Result<(), Fail> {
    for (text, wanted) in READ {
        assert!(rt; is_read(rt.alloc(), text.as_bytes(), wanted)?, "{text}");
    }
    Ok(())
}

// A formula that binds so many variables, the last of which are read before the first one.
fn bound_by_one(alloc: Global, count: u32) -> Result<Text, AllocError> {
    let mut text = Text::from_bytes(alloc, b"fof(a,axiom,! [")?;
    for number in 0..count {
        text.extend(format!(in alloc; "V{number},")?.as_bytes())?;
    }
    text.extend(format!(in alloc; "W] : g(W,V{}) = V0).", count.saturating_sub(1))?.as_bytes())?;
    Ok(text)
}

fn binds_many(alloc: Global, count: u32) -> Result<bool, AllocError> {
    let text = bound_by_one(alloc, count)?;
    is_read(
        alloc,
        text.as_bytes(),
        "formula a axiom at 1:7 g X0 X1 = X2 . ",
    )
}

#[test]
fn many_variables(rt: HostRuntime) -> Result<(), Fail> {
    for count in [2, 1000, 100_000] {
        assert!(rt; binds_many(rt.alloc(), count)?, "{count}");
    }
    Ok(())
}

const PLACED: &[u8] = b"\n fof(a,axiom,\n! [X] : ~ (f(g(X),b) =\n h(b))).";

// Where the item and the nodes of its literal stand.
const PLACES: &[(u32, u32)] = &[(3, 12), (3, 14), (3, 16), (3, 19), (4, 2), (4, 4)];

fn is_place(place: Place, wanted: (u32, u32)) -> bool {
    (place.line, place.column) == wanted
}

fn are_places(items: &[FofItem]) -> bool {
    match items {
        [
            FofItem::Formula {
                clause,
                role_place,
                ..
            },
        ] => {
            is_place(clause.place, (2, 2))
                && is_place(*role_place, (2, 8))
                && clause.places.len() == PLACES.len()
                && clause
                    .places
                    .as_slice()
                    .iter()
                    .zip(PLACES)
                    .all(|(place, wanted)| is_place(*place, *wanted))
        }
        _ => false,
    }
}

// The symbols in the order in which their arguments are closed.
fn are_interned(symbols: &Symbols) -> bool {
    symbols.len() == 4
        && symbols.find(b"g", 1) == Some(Sym(0))
        && symbols.find(b"b", 0) == Some(Sym(1))
        && symbols.find(b"f", 2) == Some(Sym(2))
        && symbols.find(b"h", 1) == Some(Sym(3))
}

#[test]
fn places_and_symbols(rt: HostRuntime) -> Result<(), Fail> {
    let mut symbols = Symbols::new(rt.alloc());
    let items = read_formulas(rt.alloc(), PLACED, &mut symbols)?;
    assert!(rt; are_places(items.as_slice()));
    assert!(rt; are_interned(&symbols));
    Ok(())
}
