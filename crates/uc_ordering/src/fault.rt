//! Why the options on an order are refused.

ghost use Rattle.std.specs.Prelude.{◌≡◌};
ghost use Rattle.uc_ordering.specs.declared.fault.ChoiceFault.TheVariants.{NoMemory};

use std::alloc::{AllocError, AllocFailed};
use thiserror::Error;
use uc_term::Text;

/// Why the options on an order are refused. A name has its bytes as the option gives them, without quotes.
#[derive(Debug, Drop, Error)]
pub enum ChoiceFault {
    /// No symbol of the problem has this name.
    #[error("an unknown symbol")]
    UnknownSymbol(Text),
    /// The name stands twice in one option.
    #[error("the precedence isn't total")]
    NotTotal(Text),
    /// The weight that the name is given is over 1,000,000, or is a constant's and below `w0`, or is 0 where the symbol
    /// isn't both unary and last in the precedence.
    #[error("a bad weight")]
    BadWeight(Text, u32),
    /// Memory is wanted.
    #[error("out of memory")]
    NoMemory,
}

impl From<AllocError> for ChoiceFault {
    ghost from_gives = { λ _ e. e ≡ NoMemory };

    fn from(_: AllocError) -> Self {
        ChoiceFault::NoMemory
    }
}

impl<T: Drop> From<AllocFailed<T>> for ChoiceFault {
    ghost from_gives = { λ _ e. e ≡ NoMemory };

    fn from(_: AllocFailed<T>) -> Self {
        ChoiceFault::NoMemory
    }
}
