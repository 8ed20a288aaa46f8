//! Whether a list of symbols is a precedence of a signature.

ghost use Rattle.std.specs.Prelude.{◌≡◌, ℕ, ◌≤◌, ◌<◌, length, slice_index, IfOk, IfErr, OnOk, MatchOption};
ghost use Rattle.uc_term.specs.declared.node.Sym.{Sym as AnySym};
ghost use Rattle.uc_order.specs.Members.{Each, IsFirst, times};
ghost use Rattle.uc_order.specs.Precedence.{IsTotalOn, IsPrecedenceFault};

use crate::OrderFault;
use std::alloc::{AllocError, Global};
use uc_term::Sym;

/// Tests that the precedence has each symbol of the signature once, and no other. `UnknownSymbol` comes first, then
/// `NotTotal` of a symbol that stands twice, then `NotTotal` of one that is missing. It takes time linear in the lists
/// and in the greatest number of a symbol.
pub fn check_precedence(
    alloc: Global,
    signature: &[Sym],
    precedence: &[Sym],
) -> Result<(), OrderFault>
    ensures ok { OnOk result (IsTotalOn signature.now precedence.now) }
    ensures err { IfErr result (IsPrecedenceFault signature.now precedence.now) }
{
    let here = count_symbols(alloc, signature)?;
    if let Some(f) = first_absent(&here, precedence) {
        return Err(OrderFault::UnknownSymbol(f));
    }
    let there = count_symbols(alloc, precedence)?;
    if let Some(f) = first_twice(&there, precedence) {
        return Err(OrderFault::NotTotal(f));
    }
    if let Some(f) = first_absent(&there, signature) {
        return Err(OrderFault::NotTotal(f));
    }
    Ok(())
}

// The number after those of all symbols of the list.
fn bound_of(list: &[Sym]) -> usize
    ensures { Each (λ (f : AnySym). f.0 < result) list.now }
{
    let mut bound = 0;
    for f in list {
        let next = f.0 as usize + 1;
        if bound < next {
            bound = next;
        }
    }
    bound
}

// How often each symbol stands in the list, by its number.
fn count_symbols(alloc: Global, list: &[Sym]) -> Result<Vec<usize>, AllocError>
    ensures { IfOk result (λ v. (f : AnySym) → slice_index v.items f.0 ≡ times f list.now) }
{
    let mut counts = vec![in alloc; 0; bound_of(list)]?;
    for i in 0..list.len() {
        counts[list[i].0 as usize] += 1;
    }
    Ok(counts)
}

#[inline]
fn count_of(counts: &[usize], f: Sym) -> usize
    ensures { result ≡ slice_index counts.now f.0 }
{
    let at = f.0 as usize;
    if at < counts.len() { counts[at] } else { 0 }
}

// The first symbol of the list that isn't counted.
fn first_absent(counts: &[usize], list: &[Sym]) -> Option<Sym>
    ensures { MatchOption result (Each (λ (f : AnySym). 0 < slice_index counts.now f.0) list.now) (IsFirst (λ (f : AnySym). slice_index counts.now f.0 ≡ 0) list.now) }
{
    for f in list {
        if count_of(counts, *f) == 0 {
            return Some(*f);
        }
    }
    None
}

// The first symbol of the list that is counted twice or more.
fn first_twice(counts: &[usize], list: &[Sym]) -> Option<Sym>
    ensures { MatchOption result (Each (λ (f : AnySym). slice_index counts.now f.0 ≤ 1) list.now) (IsFirst (λ (f : AnySym). 1 < slice_index counts.now f.0) list.now) }
{
    for f in list {
        if count_of(counts, *f) > 1 {
            return Some(*f);
        }
    }
    None
}
