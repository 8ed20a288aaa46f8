//! The Knuth-Bendix order of a constant and a binary symbol, in which all weighs 1.

ghost use Rattle.std.specs.Prelude.{IsTrue};
ghost use Rattle.uc_term.specs.Table.{Has};
ghost use Rattle.uc_order.specs.Members.{Each};
ghost use Rattle.uc_kbo.specs.Faults.{HasConstant};

use std::alloc::{AllocError, Global};
use uc_kbo::Kbo;
use uc_term::{Sym, Symbols};

/// The binary symbol.
pub const F: Sym = Sym(1);

const PRECEDENCE: &[Sym] = &[Sym(0), F];

// Their names, in the order of their numbers, with the numbers of their arguments.
const NAMES: &[(&[u8], u32)] = &[(b"a", 0), (b"f", 2)];

// Whether the table has all symbols of the list.
fn are_known(symbols: &Symbols, list: &[Sym]) -> bool
    ensures { IsTrue result → Each (Has symbols.now) list.now }
{
    for f in list {
        if f.0 as usize >= symbols.len() {
            return false;
        }
    }
    true
}

// Whether one of the symbols is a constant.
fn has_constant(symbols: &Symbols, list: &[Sym]) -> bool
    requires { Each (Has symbols.now) list.now }
    ensures { IsTrue result → HasConstant symbols.now list.now }
{
    for f in list {
        if symbols.arity(*f) == 0 {
            return true;
        }
    }
    false
}

fn symbols(alloc: Global) -> Result<Symbols, AllocError> {
    let mut symbols = Symbols::new(alloc);
    for (name, arity) in NAMES {
        symbols.intern(alloc, name, *arity)?;
    }
    Ok(symbols)
}

/// The order, if there is memory.
pub fn default_order(alloc: Global) -> Option<Kbo> {
    let symbols = symbols(alloc).ok()?;
    if !are_known(&symbols, PRECEDENCE) || !has_constant(&symbols, PRECEDENCE) {
        return None;
    }
    Kbo::new(alloc, PRECEDENCE, &symbols, 1, &[1, 1], PRECEDENCE).ok()
}
