//! How an order is given, and why it is refused.

ghost use Rattle.std.specs.Prelude.{◌≡◌};
ghost use Rattle.uc_order.specs.declared.spec.OrderFault.TheVariants.{NoMemory};

use std::alloc::{AllocError, AllocFailed};
use thiserror::Error;
use uc_term::{Seq, Sym};

/// An order by its words: the precedence has the symbols of the signature, the least first, and the weights stand beside
/// it.
#[derive(Drop, Debug)]
pub enum OrderSpec {
    /// The Knuth-Bendix order, in which every variable weighs `w0`.
    Kbo {
        w0: u32,
        weights: Seq<u32>,
        precedence: Seq<Sym>,
    },
    /// The lexicographic path order.
    Lpo {
        precedence: Seq<Sym>,
    },
}

/// Why an order is refused.
#[derive(Clone, Copy, PartialEq, Eq, Debug, Drop, Error)]
pub enum OrderFault {
    /// The symbol's weight is over 1,000,000, or is a constant's and below `w0`, or is 0 where the symbol isn't both
    /// unary and last in the precedence.
    #[error("a bad weight")]
    BadWeight(Sym, u32),
    /// The symbol stands twice in the precedence, or is missing from it.
    #[error("the precedence isn't total")]
    NotTotal(Sym),
    /// The precedence has a symbol that the signature lacks.
    #[error("an unknown symbol")]
    UnknownSymbol(Sym),
    /// Memory is wanted.
    #[error("out of memory")]
    NoMemory,
}

impl From<AllocError> for OrderFault {
    ghost from_gives = { λ _ e. e ≡ NoMemory };

    fn from(_: AllocError) -> Self {
        OrderFault::NoMemory
    }
}

impl<T: Drop> From<AllocFailed<T>> for OrderFault {
    ghost from_gives = { λ _ e. e ≡ NoMemory };

    fn from(_: AllocFailed<T>) -> Self {
        OrderFault::NoMemory
    }
}
