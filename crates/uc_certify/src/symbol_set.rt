//! Sets of symbols, and the symbols of descriptions of orders.

ghost use Rattle.std.specs.Prelude.{◌≡◌, ◌↔◌, IsTrue, IfOk};
ghost use Rattle.uc_term.specs.declared.node.Sym.{Sym as AnySym};
ghost use Rattle.uc_order.specs.Members.{In};
ghost use Rattle.uc_system.specs.Reading.{precedence_of};
ghost use Rattle.uc_certify.specs.Certifying.{AreSameSymbols};
ghost use Rattle.uc_certify.specs.Knowing.{HasNumber, IsSetOf};

use indexmap::IndexSet;
use std::alloc::{AllocError, Global};
use uc_order::OrderSpec;
use uc_term::Sym;

/// A set of symbols, looked up by hash.
#[derive(Drop)]
pub(crate) struct SymbolSet {
    numbers: IndexSet<u32>,
}

impl SymbolSet {
    /// The set of the symbols of a list.
    pub(crate) fn of(alloc: Global, symbols: &[Sym]) -> Result<SymbolSet, AllocError>
        ensures { IfOk result (λ set. IsSetOf set.numbers.keys symbols.now) }
    {
        let mut numbers: IndexSet<u32> = IndexSet::new(alloc);
        for f in symbols {
            numbers.insert(f.0)?;
        }
        Ok(SymbolSet { numbers })
    }

    /// Whether the symbol is one of the set. It takes no memory.
    pub(crate) fn has(&self, f: Sym) -> bool
        ensures { IsTrue result ↔ HasNumber self.now.numbers.keys f }
    {
        self.numbers.contains(&f.0)
    }

    /// Whether each symbol of a list is one of the set.
    pub(crate) fn has_all(&self, symbols: &[Sym]) -> bool
        ensures { IsTrue result ↔ ((f : AnySym) → In symbols.now f → HasNumber self.now.numbers.keys f) }
    {
        for f in symbols {
            if !self.has(*f) {
                return false;
            }
        }
        true
    }
}

/// Whether two lists have the same symbols. The first one's are in this set.
pub(crate) fn are_same_symbols(
    alloc: Global,
    set: &SymbolSet,
    symbols: &[Sym],
    others: &[Sym],
) -> Result<bool, AllocError>
    requires { IsSetOf set.now.numbers.keys symbols.now }
    ensures { IfOk result (λ same. IsTrue same ↔ AreSameSymbols symbols.now others.now) }
{
    if !set.has_all(others) {
        return Ok(false);
    }
    let other_set = SymbolSet::of(alloc, others)?;
    Ok(other_set.has_all(symbols))
}

/// The symbols of a description of an order, the least first.
pub(crate) fn precedence(spec: &OrderSpec) -> &[Sym]
    ensures { result.now ≡ precedence_of spec.now }
{
    match spec {
        OrderSpec::Kbo { precedence, .. } => precedence.as_slice(),
        OrderSpec::Lpo { precedence } => precedence.as_slice(),
    }
}
