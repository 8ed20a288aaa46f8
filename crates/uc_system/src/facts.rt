//! The lines of the facts, and the last line.

ghost use Rattle.std.specs.Prelude.{◌≡◌, ◌<◌, ◌^◌, ◌++◌, ℕ, List, false, None, length, IfOk, IfSome, MatchOption};
ghost use Rattle.std.specs.List.{list_all};
ghost use Rattle.uc_term.specs.Table.{Table, Grows};
ghost use Rattle.uc_clause.specs.Printable.{IsPrintableSymbol, IsNumberedNode};
ghost use Rattle.uc_clause.specs.Reading.{ReadsEquation};
ghost use Rattle.uc_order.specs.Members.{Each};
ghost use Rattle.uc_system.specs.declared.facts.Unread.TheVariants.{NoMemory};
ghost use Rattle.uc_system.specs.Places.{IsAt};
ghost use Rattle.uc_system.specs.Facts.{fact_front, fact_end, fact_lines};
ghost use Rattle.uc_system.specs.Reads.{GivesIn};
ghost use Rattle.uc_system.specs.Unread.{wants_memory, ReadsFact, ReadsFactLine, IsFactIn, IsLargeOr, is_known, line_fault, further, IsShort, IsBounded};

use crate::SystemFault;
use crate::lines::{Cursor, departs, line_at, place_in};
use crate::pieces::{before, behind};
use crate::sides::large_term;
use indexmap::IndexSet;
use itoa::Buffer;
use std::alloc::{AllocError, AllocFailed, Global};
use uc_clause::{ClauseFault, print_equation, read_equation};
use uc_term::{Equation, Node, Seq, Sym, Symbols, Term, Text};

/// Why a text isn't the equation of a fact: it isn't so spelled; a term of more than 4,096 nodes begins at this byte of it; or
/// memory is wanted.
#[derive(Clone, Copy, PartialEq, Eq, Debug, Drop)]
pub(crate) enum Unread {
    Departs,
    Large(usize),
    NoMemory,
}

impl From<AllocError> for Unread {
    ghost from_gives = { λ _ e. e ≡ NoMemory };

    fn from(_: AllocError) -> Self {
        Unread::NoMemory
    }
}

impl<T: Drop> From<AllocFailed<T>> for Unread {
    ghost from_gives = { λ _ e. e ≡ NoMemory };

    fn from(_: AllocFailed<T>) -> Self {
        Unread::NoMemory
    }
}

const FRONT: &[u8] = b"cnf(s";

const ROLE: &[u8] = b", plain, ";

const END: &[u8] = b").";

const END_LINE: &[u8] = b"% end";

// What stands before the equation of the fact of this number.
fn fact_front(alloc: Global, number: u64) -> Result<Text, AllocError>
    ensures { IfOk result (λ front. front ≡ fact_front number) }
{
    let mut front = Text::from_bytes(alloc, FRONT)?;
    let mut buffer = Buffer::new();
    front.extend(buffer.format(number).as_bytes())?;
    front.extend(ROLE)?;
    Ok(front)
}

// What stands in a line between this front and the end of a fact.
fn equation_in<'a>(front: &[u8], line: &'a [u8]) -> Option<&'a [u8]>
    ensures { MatchOption result ((text : List ℕ) → line.now ≡ front.now ++ text ++ fact_end → ⊥) (λ text. line.now ≡ front.now ++ text.now ++ fact_end) }
{
    before(END, behind(front, line)?)
}

// Whether all symbols among the nodes are known.
fn are_known(nodes: &[Node], known: &IndexSet<Sym>) -> bool
    ensures { result ≡ list_all (is_known known.now.keys) nodes.now }
{
    nodes.iter().all(|node| is_known(*node, known))
}

fn is_known(node: Node, known: &IndexSet<Sym>) -> bool
    ensures { result ≡ is_known known.now.keys node }
{
    match node {
        Node::Var(_) => true,
        Node::App(f, _) => known.contains(&f),
    }
}

// The equation of a fact that a text is.
fn fact_of(
    alloc: Global,
    text: &[u8],
    known: &IndexSet<Sym>,
    symbols: &mut Symbols,
) -> Result<Equation, Unread>
    requires small { length text.now < 2 ^ 31 }
    requires known { Each (IsPrintableSymbol symbols.old) known.now.keys }
    ensures reads { ReadsFact symbols.new known.now.keys text.now result }
    ensures grows { Grows symbols.old symbols.new }
    ensures keeps { IfOk result (λ _. symbols.new ≡ symbols.old) }
{
    match fact_at(alloc, text, known, symbols)? {
        Some(fact) => Ok(fact),
        None => Err(large_or_departs(alloc, text, known, symbols)),
    }
}

// The fact that a text is, if it is one.
fn fact_at(
    alloc: Global,
    text: &[u8],
    known: &IndexSet<Sym>,
    symbols: &mut Symbols,
) -> Result<Option<Equation>, AllocError>
    requires small { length text.now < 2 ^ 31 }
    requires known { Each (IsPrintableSymbol symbols.old) known.now.keys }
    ensures reads { IfOk result (IsFactIn symbols.new known.now.keys text.now) }
    ensures grows { Grows symbols.old symbols.new }
    ensures keeps { IfOk result (λ found. IfSome found (λ _. symbols.new ≡ symbols.old)) }
{
    match read_equation(alloc, text, symbols) {
        Ok((left, right)) => checked(alloc, text, left, right, known, symbols),
        Err(fault) => none_for(&fault),
    }
}

// None, or want of memory, for a text that isn't read as an equation.
fn none_for(fault: &ClauseFault) -> Result<Option<Equation>, AllocError>
    ensures { IfOk result (λ found. (found ≡ None) × (wants_memory fault.now ≡ false)) }
{
    match fault {
        ClauseFault::NoMemory => Err(AllocError),
        _ => Ok(None),
    }
}

// Tells of a term what its type keeps.
fn see_term(term: &Term)
    ensures { IsBounded term.now }
{
    let nodes = term.as_nodes();
    for node in nodes {
        see_node(*node);
    }
}

fn see_node(node: Node)
    ensures { IsNumberedNode node }
{
    match node {
        Node::Var(_) => {}
        Node::App(..) => {}
    }
}

// The equation, where it is over these symbols and printed so.
fn checked(
    alloc: Global,
    text: &[u8],
    left: Term,
    right: Term,
    known: &IndexSet<Sym>,
    symbols: &Symbols,
) -> Result<Option<Equation>, AllocError>
    requires known { Each (IsPrintableSymbol symbols.now) known.now.keys }
    requires read { ReadsEquation text.now symbols.now (left, right) }
    ensures { IfOk result (IsFactIn symbols.now known.now.keys text.now) }
{
    see_term(&left);
    see_term(&right);
    // The entries of the table are all different, so what was read is the only reading.
    let _ = symbols.len();
    if !are_known(left.as_nodes(), known) {
        return Ok(None);
    }
    if !are_known(right.as_nodes(), known) {
        return Ok(None);
    }
    let again = print_equation(alloc, true, &left, &right, symbols)?;
    if again.as_bytes() == text {
        Ok(Some(Equation { left, right }))
    } else {
        Ok(None)
    }
}

// Why a text isn't a fact's: a term of it is too large, or it departs.
fn large_or_departs(alloc: Global, text: &[u8], known: &IndexSet<Sym>, symbols: &Symbols) -> Unread
    requires small { length text.now < 2 ^ 31 }
    requires known { Each (IsPrintableSymbol symbols.now) known.now.keys }
    ensures { IsLargeOr symbols.now known.now.keys text.now result }
{
    match large_term(alloc, text, known, symbols) {
        Ok(Some(from)) => Unread::Large(from),
        Ok(None) => Unread::Departs,
        Err(AllocError) => Unread::NoMemory,
    }
}

// The same of a text with so many bytes in front.
fn further(front: usize, unread: Unread) -> Unread
    requires front { front < 2 ^ 31 }
    requires short { IsShort unread }
    ensures { result ≡ further front unread }
{
    match unread {
        Unread::Departs => Unread::Departs,
        Unread::Large(from) => Unread::Large(front + from),
        Unread::NoMemory => Unread::NoMemory,
    }
}

// The fact of this number in a line.
fn fact_in(
    alloc: Global,
    line: &[u8],
    number: u64,
    known: &IndexSet<Sym>,
    symbols: &mut Symbols,
) -> Result<Equation, Unread>
    requires small { length line.now < 2 ^ 31 }
    requires known { Each (IsPrintableSymbol symbols.old) known.now.keys }
    ensures reads { ReadsFactLine symbols.new known.now.keys number line.now result }
    ensures grows { Grows symbols.old symbols.new }
    ensures keeps { IfOk result (λ _. symbols.new ≡ symbols.old) }
{
    let front = fact_front(alloc, number)?;
    let Some(text) = equation_in(front.as_bytes(), line) else {
        return Err(Unread::Departs);
    };
    match fact_of(alloc, text, known, symbols) {
        Ok(fact) => Ok(fact),
        Err(unread) => Err(further(front.len(), unread)),
    }
}

// The fault of the line of this number.
fn line_fault(number: u32, unread: Unread) -> SystemFault
    requires { IsShort unread }
    ensures { result ≡ line_fault number unread }
{
    match unread {
        Unread::Departs => departs(number),
        Unread::Large(from) => SystemFault::Limit(place_in(number, from)),
        Unread::NoMemory => SystemFault::NoMemory,
    }
}

// Reads the facts and the last line.
pub(crate) fn facts_at(
    alloc: Global,
    bytes: &[u8],
    known: &IndexSet<Sym>,
    at: Cursor,
    symbols: &mut Symbols,
) -> Result<(Seq<Equation>, Cursor), SystemFault>
    requires small { length bytes.now < 2 ^ 31 }
    requires at { IsAt bytes.now at }
    requires known { Each (IsPrintableSymbol symbols.old) known.now.keys }
    ensures reads { GivesIn (λ (table : Table). fact_lines table known.now.keys) symbols.new bytes.now at result }
    ensures grows { Grows symbols.old symbols.new }
    ensures keeps { IfOk result (λ _. symbols.new ≡ symbols.old) }
{
    let mut facts = Vec::new(alloc);
    let mut here = at;
    'lines: loop {
        let Some((line, next)) = line_at(bytes, here) else {
            return Err(departs(here.number));
        };
        if line == END_LINE {
            return Ok((Seq::from_vec(facts), next));
        }
        let number = facts.len() as u64 + 1;
        match fact_in(alloc, line, number, known, symbols) {
            Ok(fact) => facts.push(fact)?,
            Err(unread) => return Err(line_fault(here.number, unread)),
        }
        here = next;
    }
}
