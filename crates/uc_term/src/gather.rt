//! The symbols of terms, by first occurrence.

ghost use Rattle.std.specs.Prelude.{◌≡◌, ℕ, ◌<◌, ◌^◌, [], ◌∷◌, length, Ok, IfOk, IfErr, OnOk};
ghost use Rattle.uc_term.specs.Table.{Has};
ghost use Rattle.uc_term.specs.Signatures.{Gathers, Occurrence, occurrences_in, occurrences_of, IsSignatureFault};
ghost use Rattle.uc_term.specs.Gathering.{GoesOn, StopsAt, HasNodes, AreOf, IsNamed, IsClash, HasAll, occurrence};

use crate::{Node, Pos, Sym, Symbols, Term, TermFault};
use std::alloc::{AllocError, Global};

/// The most symbols that a signature has without its fresh constant.
const MAX_SYMBOLS: usize = 60000;

/// All symbols of the terms, by first occurrence; or the first occurrence whose name was seen with another arity, or that
/// is of the 60,001st symbol.
pub fn gather(alloc: Global, symbols: &Symbols, terms: &[Term]) -> Result<Vec<Sym>, TermFault>
    requires of { AreOf symbols.now terms.now }
    requires few { length terms.now < 2 ^ 32 }
    ensures ok { IfOk result (λ found. Gathers symbols.now [] (occurrences_of terms.now) (Ok found.items)) }
    ensures has { IfOk result (λ found. HasAll symbols.now found.items) }
    ensures err { IfErr result (IsSignatureFault symbols.now terms.now) }
{
    let mut names = Symbols::new(alloc);
    let mut seen = Vec::new(alloc);
    for (number, term) in terms.iter().enumerate() {
        gather_term(
            alloc,
            symbols,
            &mut names,
            &mut seen,
            number as u32,
            term.as_nodes(),
        )?;
    }
    Ok(seen)
}

/// The symbols of one term, behind those that are seen.
fn gather_term(
    alloc: Global,
    symbols: &Symbols,
    names: &mut Symbols,
    seen: &mut Vec<Sym>,
    term: u32,
    nodes: &[Node],
) -> Result<(), TermFault>
    requires has { HasNodes symbols.now nodes.now }
    requires named { IsNamed symbols.now names.old seen.old.items }
    requires few { length nodes.now < 2 ^ 32 }
    ensures ok { OnOk result (GoesOn symbols.now seen.old.items seen.new.items (occurrences_in term 0 nodes.now)) }
    ensures names { OnOk result (IsNamed symbols.now names.new seen.new.items) }
    ensures err { IfErr result (StopsAt symbols.now seen.old.items (occurrences_in term 0 nodes.now)) }
{
    for (place, node) in nodes.iter().enumerate() {
        match *node {
            Node::Var(_) => {}
            Node::App(f, _) => see(alloc, symbols, names, seen, term, Pos(place as u32), f)?,
        }
    }
    Ok(())
}

/// One occurrence, behind the symbols that are seen.
fn see(
    alloc: Global,
    symbols: &Symbols,
    names: &mut Symbols,
    seen: &mut Vec<Sym>,
    term: u32,
    pos: Pos,
    f: Sym,
) -> Result<(), TermFault>
    requires has { Has symbols.now f }
    requires named { IsNamed symbols.now names.old seen.old.items }
    ensures ok { OnOk result (GoesOn symbols.now seen.old.items seen.new.items (occurrence term pos.0 f ∷ [])) }
    ensures names { OnOk result (IsNamed symbols.now names.new seen.new.items) }
    ensures err { IfErr result (StopsAt symbols.now seen.old.items (occurrence term pos.0 f ∷ [])) }
{
    let count = names.len();
    let number = names.intern(alloc, symbols.name(f), 0)?.0 as usize;
    if number < count {
        let first = seen[number];
        return same_name(symbols, first, f, term, pos);
    }
    if count >= MAX_SYMBOLS {
        return Err(TermFault::TooMany { term, pos });
    }
    seen.push(f)?;
    Ok(())
}

/// Two symbols of one name are the same one, or clash.
fn same_name(
    symbols: &Symbols,
    first: Sym,
    second: Sym,
    term: u32,
    pos: Pos,
) -> Result<(), TermFault>
    requires has_first { Has symbols.now first }
    requires has_second { Has symbols.now second }
    ensures ok { OnOk result (first ≡ second) }
    ensures err { IfErr result (IsClash symbols.now first second term pos) }
{
    if first == second {
        return Ok(());
    }
    Err(TermFault::ArityClash {
        term,
        pos,
        first: symbols.arity(first),
        second: symbols.arity(second),
    })
}
