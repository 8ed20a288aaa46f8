//! What is told of files with formulas.

use std::alloc::{AllocError, Global};
use uc_clause::{Clause, ClauseFault, Item, Place, Role, What};
use uc_fof::FofItem;
use uc_term::{Node, Sym, Symbols, Term, Text};

fn name_of(symbols: &Symbols, sym: Sym) -> &[u8] {
    if (sym.0 as usize) < symbols.len() {
        symbols.name(sym)
    } else {
        b"?"
    }
}

// Tells the nodes of a term, in prefix order.
fn tell_term(
    alloc: Global,
    told: &mut Text,
    term: &Term,
    symbols: &Symbols,
) -> Result<(), AllocError> {
    for node in term.as_nodes() {
        match *node {
            Node::Var(number) => told.extend(format!(in alloc; "X{number}")?.as_bytes())?,
            Node::App(sym, _) => told.extend(name_of(symbols, sym))?,
        }
        told.extend(b" ")?;
    }
    Ok(())
}

fn role_text(role: Role) -> &'static str {
    match role {
        Role::Axiom => "axiom",
        Role::Hypothesis => "hypothesis",
        Role::Definition => "definition",
        Role::Assumption => "assumption",
        Role::Lemma => "lemma",
        Role::Theorem => "theorem",
        Role::Corollary => "corollary",
        Role::Plain => "plain",
        Role::NegatedConjecture => "negated_conjecture",
    }
}

fn tell_place(alloc: Global, told: &mut Text, place: Place) -> Result<(), AllocError> {
    let Place { line, column } = place;
    told.extend(format!(in alloc; "{line}:{column} ")?.as_bytes())
}

// Tells a clause: its name, an integer behind `#`, its role and where that stands, and its literal.
fn tell_clause(
    alloc: Global,
    told: &mut Text,
    clause: &Clause,
    role_place: Place,
    symbols: &Symbols,
) -> Result<(), AllocError> {
    told.extend(if clause.name.integer { b"#" } else { b"" })?;
    told.extend(clause.name.text.as_bytes())?;
    told.extend(b" ")?;
    told.extend(role_text(clause.role).as_bytes())?;
    told.extend(b" at ")?;
    tell_place(alloc, told, role_place)?;
    tell_term(alloc, told, &clause.left, symbols)?;
    told.extend(if clause.positive { b"= " } else { b"!= " })?;
    tell_term(alloc, told, &clause.right, symbols)?;
    told.extend(b". ")
}

/// Tells an item.
pub fn tell_item(
    alloc: Global,
    told: &mut Text,
    item: &FofItem,
    symbols: &Symbols,
) -> Result<(), AllocError> {
    match item {
        FofItem::Item(Item::Clause(_)) => told.extend(b"clause "),
        FofItem::Item(Item::Include(_)) => told.extend(b"include "),
        FofItem::Formula {
            clause,
            conjecture,
            role_place,
        } => {
            told.extend(if *conjecture {
                b"conjecture "
            } else {
                b"formula "
            })?;
            tell_clause(alloc, told, clause, *role_place, symbols)
        }
    }
}

fn limit_text(what: What) -> &'static str {
    match what {
        What::Bytes => "bytes",
        What::Nodes => "nodes",
        What::Parentheses => "parentheses",
        What::Arity => "arity",
        What::Clauses => "clauses",
        What::Files => "files",
        What::Symbols => "symbols",
    }
}

/// Tells a refusal: where it stands, its kind, and what it shows besides.
pub fn tell_fault(alloc: Global, told: &mut Text, fault: &ClauseFault) -> Result<(), AllocError> {
    let (place, kind, shown): (Place, &[u8], &[u8]) = match fault {
        ClauseFault::Syntax(place) => (*place, b"Syntax", b""),
        ClauseFault::NotUnit(place) => (*place, b"NotUnit", b""),
        ClauseFault::NotEquality(place) => (*place, b"NotEquality", b""),
        ClauseFault::BadRole(place, word) => (*place, b"BadRole ", word.as_bytes()),
        ClauseFault::Unsupported(place, word) => (*place, b"Unsupported ", word.as_bytes()),
        ClauseFault::Limit(place, what) => (*place, b"Limit ", limit_text(*what).as_bytes()),
        ClauseFault::NoMemory => return Err(AllocError),
    };
    tell_place(alloc, told, place)?;
    told.extend(kind)?;
    told.extend(shown)
}
