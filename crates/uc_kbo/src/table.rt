//! The table of an order, made of a precedence with weights.

ghost use Rattle.std.specs.Prelude.{◌≡◌, ◌==◌, ◌⊎◌, ◌<◌, ◌≤◌, length, IfOk, IsTrue, false, MatchOption, if◌then◌else◌};
ghost use Rattle.uc_term.specs.Table.{Has};
ghost use Rattle.uc_order.specs.Members.{Each, AreDistinct};
ghost use Rattle.uc_kbo.specs.declared.weights.Weighed.{Weighed as AnyWeighed};
ghost use Rattle.uc_kbo.specs.Faults.{weighed, IsBad, FirstBad, NoneBad};
ghost use Rattle.uc_kbo.specs.Weights.{symbols_of, symbol_or, lighter_of, least_constant};
ghost use Rattle.uc_kbo.specs.Valid.{IsTied};

use crate::{Slot, Weighed};
use std::alloc::{AllocError, Global};
use uc_term::{Sym, Symbols};

// The greatest weight of a symbol.
const MAX_WEIGHT: u32 = 1_000_000;

// The symbols of the precedence with their arities and the weights beside them.
pub fn weigh(
    alloc: Global,
    symbols: &Symbols,
    weights: &[u32],
    precedence: &[Sym],
) -> Result<Vec<Weighed>, AllocError>
    requires as_many { length weights.now ≡ length precedence.now }
    requires of_table { Each (Has symbols.now) precedence.now }
    ensures { IfOk result (λ v. v.items ≡ weighed symbols.now precedence.now weights.now) }
{
    let mut entries = Vec::new(alloc);
    for i in 0..precedence.len() {
        let symbol = precedence[i];
        entries.push(Weighed {
            symbol,
            arity: symbols.arity(symbol),
            weight: weights[i],
        })?;
    }
    Ok(entries)
}

// The first entry whose weight is bad.
pub fn first_bad(w0: u32, entries: &[Weighed]) -> Option<Weighed>
    ensures { MatchOption result (NoneBad w0 entries.now) (FirstBad w0 entries.now) }
{
    for i in 0..entries.len() {
        let e = entries[i];
        if is_bad(w0, e, i + 1 == entries.len()) {
            return Some(e);
        }
    }
    None
}

fn is_bad(w0: u32, e: Weighed, last: bool) -> bool
    ensures bad { IsTrue result → ((1000000 < e.weight) ⊎ (((e.arity ≡ 0) × (e.weight < w0)) ⊎ ((e.weight ≡ 0) × (((e.arity ≡ 1) × IsTrue last) → ⊥)))) }
    ensures good { result ≡ false → ((e.weight ≤ 1000000) × (e.arity ≡ 0 → w0 ≤ e.weight) × (e.weight ≡ 0 → (e.arity ≡ 1) × IsTrue last)) }
{
    if e.weight > MAX_WEIGHT {
        true
    } else if e.arity == 0 && e.weight < w0 {
        true
    } else {
        e.weight == 0 && !(e.arity == 1 && last)
    }
}

// The number after those of all symbols of the entries.
fn bound_of(entries: &[Weighed]) -> usize
    ensures { Each (λ (e : AnyWeighed). e.symbol.0 < result) entries.now }
{
    let mut bound = 0;
    for e in entries {
        let next = e.symbol.0 as usize + 1;
        if bound < next {
            bound = next;
        }
    }
    bound
}

// The slots of the symbols by their numbers.
pub fn slots_of(alloc: Global, w0: u32, entries: &[Weighed]) -> Result<Vec<Slot>, AllocError>
    requires { AreDistinct (symbols_of entries.now) }
    ensures { IfOk result (λ v. IsTied w0 entries.now v.items) }
{
    let absent = Slot {
        arity: 0,
        weight: w0,
        rank: 0,
    };
    let mut table = vec![in alloc; absent; bound_of(entries)]?;
    for i in 0..entries.len() {
        let e = entries[i];
        table[e.symbol.0 as usize] = Slot {
            arity: e.arity,
            weight: e.weight,
            rank: i + 1,
        };
    }
    Ok(table)
}

// The lighter of two constants, of which the first is earlier.
fn lighter(e: Weighed, other: Option<Weighed>) -> Option<Weighed>
    ensures { result ≡ lighter_of e other }
{
    match other {
        None => Some(e),
        Some(d) => {
            if d.weight < e.weight {
                Some(d)
            } else {
                Some(e)
            }
        }
    }
}

fn with_entry(e: Weighed, best: Option<Weighed>) -> Option<Weighed>
    ensures { result ≡ (if e.arity == 0 then lighter_of e best else best) }
{
    if e.arity == 0 { lighter(e, best) } else { best }
}

// The symbol of the lightest constant, and of several the first.
pub fn least_of(entries: &[Weighed]) -> Sym
    ensures { result ≡ symbol_or (least_constant entries.now) }
{
    let mut best = None;
    let mut i = entries.len();
    while i > 0 {
        i -= 1;
        best = with_entry(entries[i], best);
    }
    match best {
        Some(e) => e.symbol,
        None => Sym(0),
    }
}
