ghost use Rattle.uc_term.specs.Table.{IsOf};

use std::alloc::{AllocError, Global};
use std::test::Fail;
use uc_clause::{
    Clause, Kind, Name, Place, Role, Token, TokenFault, print_clause, print_word, tokens,
};
use uc_term::{Seq, Symbols, Term, TermFault, Text};

// The last token of a text, by the letter of its kind, where it begins and its length; `!` for a text that isn't tokens.
fn last_of(alloc: Global, text: &str) -> Result<(char, u32, u32, u32), AllocError> {
    if text.len() > 100 {
        return Ok(('?', 0, 0, 0));
    }
    match tokens(alloc, text.as_bytes()) {
        Ok(found) => Ok(letter(found.as_slice().last().copied())),
        Err(TokenFault::Syntax(place)) => Ok(('!', place.line, place.column, 0)),
        Err(TokenFault::NoMemory) => Err(AllocError),
    }
}

fn letter(token: Option<Token>) -> (char, u32, u32, u32) {
    let Some(token) = token else {
        return ('-', 0, 0, 0);
    };
    let letter = match token.kind {
        Kind::Lower => 'l',
        Kind::Upper => 'u',
        Kind::Quoted => 'q',
        Kind::Distinct => 'd',
        Kind::Integer => 'i',
        Kind::Dollar => '$',
        Kind::Unequal => 'n',
        Kind::Mark => 'm',
    };
    (
        letter,
        token.place.line,
        token.place.column,
        token.to.saturating_sub(token.from),
    )
}

const ROWS: &[(&str, (char, u32, u32, u32))] = &[
    (" \t", ('-', 0, 0, 0)),
    ("Xa_B1", ('u', 1, 1, 5)),
    ("1a_B1 ", ('l', 1, 2, 4)),
    ("a'b \\'\\\\'", ('q', 1, 2, 8)),
    ("\"\"", ('d', 1, 1, 2)),
    ("+12+", ('m', 1, 4, 1)),
    ("+12", ('i', 1, 1, 3)),
    ("$$$t", ('$', 1, 2, 3)),
    ("!!=", ('n', 1, 2, 2)),
    ("a\r%'\n\r/*'\n*//", ('m', 3, 3, 1)),
    ("a ''", ('!', 1, 3, 0)),
    ("a\n'b", ('!', 2, 1, 0)),
    ("'a\nb'", ('!', 1, 1, 0)),
    ("'a\\b'", ('!', 1, 1, 0)),
    ("a /*/", ('!', 1, 3, 0)),
    ("\"a", ('!', 1, 1, 0)),
    ("a\x7f", ('!', 1, 2, 0)),
];

#[test]
fn texts_as_tokens(rt: HostRuntime) -> Result<(), Fail> {
    for (text, wanted) in ROWS {
        assert!(rt; last_of(rt.alloc(), text)? == *wanted, "{text}");
    }
    Ok(())
}

fn inner_word(alloc: Global, text: &[u8]) -> Result<Text, TokenFault> {
    if text.len() > 100 {
        return Ok(Text::new(alloc));
    }
    let found = tokens(alloc, text)?;
    match found.as_slice().first().copied() {
        Some(token) if token.from < token.to && token.to as usize <= text.len() => {
            Ok(token.word(alloc, text)?)
        }
        _ => Ok(Text::new(alloc)),
    }
}

// Names, and the words that are printed of them.
const PRINTED: &[(&[u8], &str)] = &[
    (b"a 'b\\", "'a \\'b\\\\'"),
    (b"aX_1", "aX_1"),
    (b"1", "'1'"),
];

fn is_printed(alloc: Global, name: &[u8], wanted: &str) -> Result<bool, AllocError> {
    let word = print_word(alloc, name)?;
    Ok(word.as_bytes() == wanted.as_bytes())
}

#[test]
fn words(rt: HostRuntime) -> Result<(), Fail> {
    assert!(rt; inner_word(rt.alloc(), b"'a \\'b\\\\'")?.as_bytes() == "a 'b\\".as_bytes());
    for (name, wanted) in PRINTED {
        assert!(rt; is_printed(rt.alloc(), name, wanted)?);
    }
    Ok(())
}

fn printed(alloc: Global, symbols: &Symbols, left: Term, right: Term) -> Result<Text, AllocError>
    requires left { IsOf symbols.now left }
    requires right { IsOf symbols.now right }
{
    let clause = Clause {
        name: Name {
            text: Text::from_bytes(alloc, b"+12")?,
            integer: true,
        },
        role: Role::NegatedConjecture,
        positive: false,
        left,
        right,
        places: Seq::new(alloc),
        place: Place { line: 1, column: 1 },
    };
    print_clause(alloc, &clause, symbols)
}

// `f(X10,X1)` on the left, and its first variable on the right.
fn printed_f(alloc: Global) -> Result<Text, TermFault> {
    let mut symbols = Symbols::new(alloc);
    let f = symbols.intern(alloc, b"f", 2)?;
    let args = [Term::var(alloc, 9)?, Term::var(alloc, 0)?];
    let left = Term::app(alloc, f, &args)?;
    Ok(printed(alloc, &symbols, left, Term::var(alloc, 9)?)?)
}

#[test]
fn a_printed_clause(rt: HostRuntime) -> Result<(), Fail> {
    let text = printed_f(rt.alloc())?;
    assert!(rt; text.as_bytes() == "cnf(+12, negated_conjecture, f(X10,X1) != X10).".as_bytes());
    Ok(())
}
