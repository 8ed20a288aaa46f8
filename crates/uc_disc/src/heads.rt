//! The root's branches by their symbols, by which a walk passes over those under other symbols than the term's first one.

ghost use Rattle.std.specs.Prelude.{◌≡◌, ◌<◌, ◌≤◌, ◌+◌, ℕ, List, length, slice_get, [], Some, IfSome, IfOk};
ghost use Rattle.uc_term.specs.Flat.{IsWhole};
ghost use Rattle.uc_disc.specs.declared.heads.Head.{Head as AnyHead};
ghost use Rattle.uc_disc.specs.Trail.{AreSupported, AreMarks};
ghost use Rattle.uc_disc.specs.Heads.{IsRoot, AreRisingHeads, AreHeads, IsNext, IsSought, IsUnder, AreParts, start_at as start_of_part};

use crate::place::{Label, Place};
use std::alloc::{AllocError, Global};
use uc_term::Node;

/// The most branches of the root that a walk goes over one by one.
const FEW: usize = 4;

/// A symbol, and where the places of the root's branches under it begin. They end where those of the next head begin.
#[derive(Clone, Copy)]
pub struct Head {
    pub symbol: u32,
    pub start: usize,
}

/// The places from one on and before another.
#[derive(Clone, Copy)]
pub struct Part {
    pub start: usize,
    pub stop: usize,
}

/// The places that a search goes over: those before one, and a part behind it.
#[derive(Clone, Copy)]
pub struct Parts {
    pub first: usize,
    pub second: Part,
}

/// Counts the branches of the root.
fn count_branches(places: &[Place]) -> usize
    requires marks { AreMarks places.now }
    ensures { result ≤ length places.now }
{
    let mut count = 0;
    let mut i = 0;
    while i < places.len() {
        i = places[i].skip;
        count += 1;
    }
    count
}

/// Finds the first branch of the root that isn't under a variable.
fn first_head(places: &[Place]) -> usize
    requires supported { AreSupported [] places.now }
    requires marks { AreMarks places.now }
    ensures within { result ≤ length places.now }
    ensures root { IsRoot places.now result }
{
    let mut i = 0;
    while i < places.len() {
        match places[i].label {
            Label::Variable(_) => i = places[i].skip,
            Label::Head(_, _) => return i,
            Label::Leaf(_) => return i,
        }
    }
    i
}

/// Returns the symbol of a label, if it is above those of all heads so far, whose symbols rise.
fn next_symbol(heads: &[Head], label: Label) -> Option<u32>
    requires rising { AreRisingHeads heads.now }
    ensures { IfSome result (IsNext heads.now label) }
{
    match label {
        Label::Head(symbol, _) => match heads.last() {
            Some(head) => {
                if head.symbol < symbol {
                    Some(symbol)
                } else {
                    None
                }
            }
            None => Some(symbol),
        },
        Label::Variable(_) => None,
        Label::Leaf(_) => None,
    }
}

/// Lists the heads of a tree. There are none where the root has few branches, or those under symbols aren't in the order of
/// the symbols.
pub fn heads_of(alloc: Global, places: &[Place]) -> Result<Vec<Head>, AllocError>
    requires supported { AreSupported [] places.now }
    requires marks { AreMarks places.now }
    ensures { IfOk result (λ heads. AreHeads places.now heads.items (length places.now)) }
{
    let count = count_branches(places);
    if count <= FEW {
        return Ok(Vec::new(alloc));
    }
    let mut heads = Vec::with_capacity(alloc, count)?;
    let mut i = first_head(places);
    while i < places.len() {
        match next_symbol(heads.as_slice(), places[i].label) {
            Some(symbol) => heads.push(Head { symbol, start: i })?,
            None => return Ok(Vec::new(alloc)),
        }
        i = places[i].skip;
    }
    Ok(heads)
}

/// Returns where the part of a head begins; behind the last head, where the parts end.
#[inline]
pub fn start_at(heads: &[Head], k: usize, end: usize) -> usize
    ensures { result ≡ start_of_part heads.now k end }
{
    match heads.get(k) {
        Some(head) => head.start,
        None => end,
    }
}

/// Finds the first head with this symbol or a greater one, by halving.
#[inline]
fn first_not_below(heads: &[Head], symbol: u32) -> usize
    requires rising { AreRisingHeads heads.now }
    ensures within { result ≤ length heads.now }
    ensures below { (j : ℕ) (h : AnyHead) → j < result → slice_get heads.now j ≡ Some h → h.symbol < symbol }
    ensures not_below { (j : ℕ) (h : AnyHead) → result ≤ j → slice_get heads.now j ≡ Some h → symbol ≤ h.symbol }
{
    let mut low = 0;
    let mut high = heads.len();
    while low < high {
        let middle = low + (high - low) / 2;
        if heads[middle].symbol < symbol {
            low = middle + 1;
        } else {
            high = middle;
        }
    }
    low
}

/// Finds the head of a symbol.
#[inline]
fn find_head(heads: &[Head], symbol: u32) -> Option<usize>
    requires rising { AreRisingHeads heads.now }
    ensures { IsSought heads.now symbol result }
{
    let k = first_not_below(heads, symbol);
    if k >= heads.len() {
        return None;
    }
    if heads[k].symbol != symbol {
        return None;
    }
    Some(k)
}

/// Finds the part under a symbol. Where there is none, the part is empty.
#[inline]
fn part_under(heads: &[Head], symbol: u32, end: usize) -> Part
    requires rising { AreRisingHeads heads.now }
    ensures { IsUnder heads.now symbol end result }
{
    match find_head(heads, symbol) {
        Some(k) => Part {
            start: start_at(heads, k, end),
            stop: start_at(heads, k + 1, end),
        },
        None => Part {
            start: end,
            stop: end,
        },
    }
}

/// Finds the places to go over for a term: those under variables, and those under its first symbol.
#[inline]
pub fn parts_of(heads: &[Head], places: &[Place], term: &[Node]) -> Parts
    requires whole { IsWhole term.now }
    requires heads { AreHeads places.now heads.now (length places.now) }
    ensures { AreParts term.now places.now result }
{
    let end = places.len();
    let first = start_at(heads, 0, end);
    match term[0] {
        Node::App(f, _) => Parts {
            first,
            second: part_under(heads, f.0, end),
        },
        Node::Var(_) => Parts {
            first,
            second: Part {
                start: end,
                stop: end,
            },
        },
    }
}
