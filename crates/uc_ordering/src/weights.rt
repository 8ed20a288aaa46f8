//! The weights of symbols.

ghost use Rattle.std.specs.Prelude.{◌≡◌, ◌==◌, map, fold, max, unwrap_or, IfOk, if◌then◌else◌};
ghost use Rattle.uc_term.specs.declared.node.Sym.{Sym as AnySym};
ghost use Rattle.uc_term.specs.Table.{Has, name_of, arity_of};
ghost use Rattle.uc_order.specs.Members.{Each};
ghost use Rattle.uc_ordering.specs.Numbers.{number_in};
ghost use Rattle.uc_ordering.specs.Weights.{is_bad, is_last};

use crate::numbers::Numbers;
use crate::precedence::greater;
use std::alloc::{AllocError, Global};
use uc_term::{Sym, Symbols};

// The greatest weight of a symbol.
const MAX_WEIGHT: u32 = 1_000_000;

/// The weight of a symbol: the one that its name is given, or else `w0`.
pub(crate) fn weight_of(symbols: &Symbols, given: &Numbers, w0: u32, f: Sym) -> u32
    requires { Has symbols.now f }
    ensures { result ≡ unwrap_or (number_in given.now.map.entries (name_of symbols.now f)) w0 }
{
    given.get(symbols.name(f)).unwrap_or(w0)
}

/// The weights of the symbols, in their order.
pub(crate) fn weights_of(
    alloc: Global,
    symbols: &Symbols,
    given: &Numbers,
    w0: u32,
    list: &[Sym],
) -> Result<Vec<u32>, AllocError>
    requires { Each (Has symbols.now) list.now }
    ensures { IfOk result (λ weights. weights.items ≡ map (λ (f : AnySym). unwrap_or (number_in given.now.map.entries (name_of symbols.now f)) w0) list.now) }
{
    let mut weights = Vec::new(alloc);
    for f in list {
        weights.push(weight_of(symbols, given, w0, *f))?;
    }
    Ok(weights)
}

/// The weight of the heaviest constant among the symbols.
pub(crate) fn heaviest(symbols: &Symbols, given: &Numbers, w0: u32, list: &[Sym]) -> u32
    requires { Each (Has symbols.now) list.now }
    ensures { result ≡ fold (λ n (f : AnySym). if arity_of symbols.now f == 0 then max n (unwrap_or (number_in given.now.map.entries (name_of symbols.now f)) w0) else n) 0 list.now }
{
    let mut most = 0;
    for f in list {
        if symbols.arity(*f) == 0 {
            most = greater(most, weight_of(symbols, given, w0, *f));
        }
    }
    most
}

/// Whether the symbol may not have this weight.
pub(crate) fn is_bad(symbols: &Symbols, w0: u32, precedence: &[Sym], f: Sym, weight: u32) -> bool
    requires { Has symbols.now f }
    ensures { result ≡ is_bad symbols.now w0 precedence.now f weight }
{
    let arity = symbols.arity(f);
    let too_great = weight > MAX_WEIGHT;
    let too_small = arity == 0 && weight < w0;
    let vanishes = weight == 0 && !(arity == 1 && is_last(precedence, f));
    too_great || too_small || vanishes
}

fn is_last(precedence: &[Sym], f: Sym) -> bool
    ensures { result ≡ is_last precedence.now f }
{
    match precedence.last() {
        Some(g) => g.0 == f.0,
        None => false,
    }
}
