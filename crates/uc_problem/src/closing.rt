//! A conjecture's variables, in whose place stand fresh constants.

ghost use Rattle.std.specs.Prelude.{◌≡◌, ◌≤◌, ◌<◌, ◌-◌, ◌^◌, List, length, IfOk, IfErr};
ghost use Rattle.uc_term.specs.Tree.{Tree, apply};
ghost use Rattle.uc_term.specs.Table.{Grows, IsOf};
ghost use Rattle.uc_term.specs.Gathering.{AreOf};
ghost use Rattle.uc_fof.specs.Constants.{constant_for};
ghost use Rattle.uc_problem.specs.Conjecture.{conjectures, conjecture_from, constants_needed, flat_terms, variable_count, variables_below, constant_name, has_named, AreNamed, AreConstants, closed, closed_one, closed_all};
ghost use Rattle.uc_problem.specs.Closing.{AreTaken, TakesName, IsNextFree, closed_node};
ghost use Rattle.uc_problem.specs.Filling.{AddsAll};
ghost use Rattle.uc_problem.specs.Assembly.{AreSoundFew, AreSoundFewFlats, Closes, IsUnclosed};
ghost use Rattle.uc_problem.specs.Sound.{AreSoundFlats};

use crate::{FlatClause, LoadFault};
use indexmap::IndexSet;
use itoa::Buffer;
use std::alloc::{AllocError, Global};
use uc_clause::{Clause, ClauseFault, Sourced};
use uc_term::{Node, Seq, Sym, Symbols, Term, Text};

/// A problem's clauses in flat order, and the number of the one that was a conjecture.
#[derive(Drop)]
pub(crate) struct Closed {
    pub clauses: Seq<Sourced>,
    pub conjecture: Option<u32>,
}

// The clauses with fresh constants in the place of the variables of their conjecture, or the refusal of a second one.
pub(crate) fn close(
    alloc: Global,
    flats: Seq<FlatClause>,
    symbols: &mut Symbols,
) -> Result<Closed, LoadFault>
    requires { AreSoundFewFlats symbols.old flats }
    ensures closed { IfOk result (λ c. Closes symbols.old symbols.new flats c.clauses c.conjecture) }
    ensures sound { IfOk result (λ c. AreSoundFew symbols.new c.clauses) }
    ensures refused { IfErr result (IsUnclosed flats) }
    ensures grows { Grows symbols.old symbols.new }
{
    let conjecture = only_conjecture(alloc, flats.as_slice())?;
    let constants = constants_of(alloc, flats.as_slice(), symbols)?;
    let clauses = close_all(alloc, flats, constants.as_slice())?;
    Ok(Closed {
        clauses,
        conjecture,
    })
}

// The number of the clause that was a conjecture, or the refusal of the second one.
fn only_conjecture(alloc: Global, flats: &[FlatClause]) -> Result<Option<u32>, LoadFault>
    requires { length flats.now ≤ 10000 }
    ensures is { IfOk result (λ number. number ≡ conjecture_from 0 flats.now) }
    ensures one { IfOk result (λ _. length (conjectures flats.now) ≤ 1) }
    ensures refused { IfErr result (IsUnclosed flats.now) }
{
    let mut first = None;
    for (number, flat) in flats.iter().enumerate() {
        if let Some(place) = flat.conjecture {
            if first.is_some() {
                return Err(LoadFault::Clause {
                    file: flat.file.copy(alloc)?,
                    fault: ClauseFault::Unsupported(place, Text::from_bytes(alloc, b"conjecture")?),
                });
            }
            first = Some(number as u32);
        }
    }
    Ok(first)
}

// The constants of the conjecture, one for each of its variables.
fn constants_of(
    alloc: Global,
    flats: &[FlatClause],
    symbols: &mut Symbols,
) -> Result<Vec<Sym>, AllocError>
    requires { AreSoundFlats symbols.old flats.now }
    ensures are { IfOk result (λ constants. AreConstants symbols.new flats.now constants.items) }
    ensures adds { IfOk result (λ constants. AddsAll symbols.old symbols.new constants.items) }
    ensures grows { Grows symbols.old symbols.new }
{
    let count = constants_needed(flats);
    if count == 0 {
        return Ok(Vec::new(alloc));
    }
    let names = taken_names(alloc, flats, symbols)?;
    add_constants(alloc, &names, count, symbols)
}

// How many variables the first conjecture has.
fn constants_needed(flats: &[FlatClause]) -> usize
    ensures { result ≡ constants_needed flats.now }
{
    for flat in flats {
        if flat.conjecture.is_some() {
            return variable_count(&flat.clause);
        }
    }
    0
}

// How many variables a clause has.
fn variable_count(clause: &Clause) -> usize
    ensures { result ≡ variable_count clause.now }
{
    let left = variables_below(clause.left.as_nodes());
    let right = variables_below(clause.right.as_nodes());
    left.max(right)
}

// One more than the greatest number of a variable among the nodes.
fn variables_below(nodes: &[Node]) -> usize
    ensures { result ≡ variables_below nodes.now }
{
    let mut below = 0;
    for node in nodes {
        if let Node::Var(x) = *node {
            below = below.max(x as usize + 1);
        }
    }
    below
}

// The names of the symbols of the clauses.
fn taken_names(
    alloc: Global,
    flats: &[FlatClause],
    symbols: &Symbols,
) -> Result<IndexSet<Vec<u8>>, AllocError>
    requires { AreSoundFlats symbols.now flats.now }
    ensures { IfOk result (λ names. AreTaken symbols.now (flat_terms flats.now) names.keys) }
{
    let mut names = IndexSet::new(alloc);
    for flat in flats {
        take_names(alloc, &flat.clause.left, symbols, &mut names)?;
        take_names(alloc, &flat.clause.right, symbols, &mut names)?;
    }
    Ok(names)
}

// Puts the names of a term's symbols to the others.
fn take_names(
    alloc: Global,
    term: &Term,
    symbols: &Symbols,
    names: &mut IndexSet<Vec<u8>>,
) -> Result<(), AllocError>
    requires { IsOf symbols.now term.now }
    ensures { IfOk result (λ _. TakesName (has_named symbols.now) term.now names.old.keys names.new.keys) }
{
    for node in term.as_nodes() {
        if let Node::App(f, _) = *node {
            names.insert(Vec::from_slice(alloc, symbols.name(f))?)?;
        }
    }
    Ok(())
}

// So many constants of the first names that aren't taken.
fn add_constants(
    alloc: Global,
    names: &IndexSet<Vec<u8>>,
    count: usize,
    symbols: &mut Symbols,
) -> Result<Vec<Sym>, AllocError>
    ensures count { IfOk result (λ constants. length constants.items ≡ count) }
    ensures named { (ts : List Tree) → AreOf symbols.old ts → AreTaken symbols.old ts names.now.keys → IfOk result (λ constants. AreNamed symbols.new ts 1 constants.items) }
    ensures adds { IfOk result (λ constants. AddsAll symbols.old symbols.new constants.items) }
    ensures grows { Grows symbols.old symbols.new }
{
    let mut constants = Vec::new(alloc);
    let mut from = 1;
    for _ in 0..count {
        let (number, name) = next_free(alloc, names, from)?;
        constants.push(symbols.intern(alloc, name.as_slice(), 0)?)?;
        from = number + 1;
    }
    Ok(constants)
}

// The first number from here on whose name isn't taken, with the name. More names than a number can count are more than memory
// holds.
fn next_free(
    alloc: Global,
    names: &IndexSet<Vec<u8>>,
    from: usize,
) -> Result<(usize, Vec<u8>), AllocError>
    ensures next { IfOk result (λ free. IsNextFree names.now.keys from free.0 free.1.items) }
    ensures small { IfOk result (λ free. free.0 < 2 ^ 64 - 1) }
{
    for number in from..usize::MAX {
        let name = constant_name(alloc, number)?;
        if !names.contains(name.as_slice()) {
            return Ok((number, name));
        }
    }
    Err(AllocError)
}

// The name of the constant of this number.
fn constant_name(alloc: Global, number: usize) -> Result<Vec<u8>, AllocError>
    ensures { IfOk result (λ name. name.items ≡ constant_name number) }
{
    let mut name = Vec::from_slice(alloc, b"sk_")?;
    let mut buffer = Buffer::new();
    name.extend_from_slice(buffer.format(number).as_bytes())?;
    Ok(name)
}

// The clauses with these constants in the place of a conjecture's variables.
fn close_all(
    alloc: Global,
    flats: Seq<FlatClause>,
    constants: &[Sym],
) -> Result<Seq<Sourced>, AllocError>
    ensures { IfOk result (λ clauses. clauses ≡ closed_all constants.now flats) }
{
    let mut clauses = Seq::new(alloc);
    for flat in flats.into_vec() {
        clauses.push(close_one(alloc, flat, constants)?)?;
    }
    Ok(clauses)
}

fn close_one(alloc: Global, flat: FlatClause, constants: &[Sym]) -> Result<Sourced, AllocError>
    ensures { IfOk result (λ sourced. sourced ≡ closed_one constants.now flat) }
{
    let FlatClause {
        file,
        clause,
        conjecture,
    } = flat;
    let clause = match conjecture {
        None => clause,
        Some(_) => close_clause(alloc, clause, constants)?,
    };
    Ok(Sourced { file, clause })
}

fn close_clause(alloc: Global, clause: Clause, constants: &[Sym]) -> Result<Clause, AllocError>
    ensures { IfOk result (λ c. c ≡ closed constants.now clause) }
{
    let left = close_term(alloc, &clause.left, constants)?;
    let right = close_term(alloc, &clause.right, constants)?;
    Ok(Clause {
        left,
        right,
        ..clause
    })
}

fn close_term(alloc: Global, term: &Term, constants: &[Sym]) -> Result<Term, AllocError>
    ensures { IfOk result (λ t. t ≡ apply (constant_for constants.now) term.now) }
{
    let mut nodes = Vec::new(alloc);
    for node in term.as_nodes() {
        nodes.push(close_node(*node, constants))?;
    }
    Ok(Term::from_nodes(nodes))
}

// A constant for a variable that has one; any other node stays.
#[inline]
fn close_node(node: Node, constants: &[Sym]) -> Node
    ensures { result ≡ closed_node constants.now node }
{
    match node {
        Node::Var(x) => match constants.get(x as usize) {
            Some(constant) => Node::App(*constant, 0),
            None => node,
        },
        Node::App(_, _) => node,
    }
}
