//! Both orders on the terms of groups: the inverse is the greatest symbol, and weighs 0.

ghost use Rattle.std.specs.Prelude.{IsTrue};
ghost use Rattle.uc_term.specs.Table.{Has, arity_of};
ghost use Rattle.uc_order.specs.Members.{Each};
ghost use Rattle.uc_kbo.specs.Faults.{HasConstant as HasOne};
ghost use Rattle.uc_lpo.specs.Constants.{HasConstant};

use std::alloc::{AllocError, Global};
use uc_kbo::Kbo;
use uc_lpo::Lpo;
use uc_term::{Sym, Symbols};

/// The constant.
pub const E: Sym = Sym(0);

/// The product.
pub const M: Sym = Sym(1);

/// The inverse.
pub const I: Sym = Sym(2);

const PRECEDENCE: [Sym; 3] = [E, M, I];

// Their names, in the order of their numbers, with the numbers of their arguments.
const NAMES: &[(&[u8], u32)] = &[(b"e", 0), (b"m", 2), (b"i", 1)];

/// The table of the three symbols.
pub fn symbols(alloc: Global) -> Result<Symbols, AllocError> {
    let mut symbols = Symbols::new(alloc);
    for (name, arity) in NAMES {
        symbols.intern(alloc, name, *arity)?;
    }
    Ok(symbols)
}

// Whether the table has all symbols of the list.
fn are_known(symbols: &Symbols, list: &[Sym]) -> bool
    ensures { IsTrue result → Each (Has symbols.now) list.now }
{
    for f in list {
        if f.0 as usize >= symbols.len() {
            return false;
        }
    }
    true
}

// Whether one of the symbols is a constant.
fn has_constant(symbols: &Symbols, list: &[Sym]) -> bool
    requires { Each (Has symbols.now) list.now }
    ensures weights { IsTrue result → HasOne symbols.now list.now }
    ensures paths { IsTrue result → HasConstant (arity_of symbols.now) list.now }
{
    for f in list {
        if symbols.arity(*f) == 0 {
            return true;
        }
    }
    false
}

/// The Knuth-Bendix order, if there is memory.
pub fn kbo(alloc: Global, symbols: &Symbols) -> Option<Kbo> {
    let signature = PRECEDENCE;
    if !are_known(symbols, &signature) || !has_constant(symbols, &signature) {
        return None;
    }
    Kbo::new(alloc, &signature, symbols, 1, &[1, 1, 0], &signature).ok()
}

/// The lexicographic path order, if there is memory.
pub fn lpo(alloc: Global, symbols: &Symbols) -> Option<Lpo> {
    let signature = PRECEDENCE;
    if !are_known(symbols, &signature) || !has_constant(symbols, &signature) {
        return None;
    }
    Lpo::new(alloc, &signature, symbols, &signature).ok()
}
