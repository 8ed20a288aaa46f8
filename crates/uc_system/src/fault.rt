//! Why a text isn't read as a system.

ghost use Rattle.std.specs.Prelude.{◌≡◌};
ghost use Rattle.uc_system.specs.declared.fault.SystemFault.TheVariants.{NoMemory};

use std::alloc::{AllocError, AllocFailed};
use thiserror::Error;
use uc_clause::Place;

/// Why a text isn't read as a system.
#[derive(Clone, Copy, PartialEq, Eq, Debug, Drop, Error)]
pub enum SystemFault {
    /// The line that begins here isn't one that belongs here, or the text ends here.
    #[error("{}:{}: syntax", .0.line, .0.column)]
    Syntax(Place),
    /// The text is in another version of the format, whose number stands here.
    #[error("{}:{}: version", .0.line, .0.column)]
    Version(Place),
    /// A term of more than 4,096 nodes begins here, or an arity over 255.
    #[error("{}:{}: limit", .0.line, .0.column)]
    Limit(Place),
    /// Memory is wanted.
    #[error("out of memory")]
    NoMemory,
}

impl From<AllocError> for SystemFault {
    ghost from_gives = { λ _ e. e ≡ NoMemory };

    fn from(_: AllocError) -> Self {
        SystemFault::NoMemory
    }
}

impl<T: Drop> From<AllocFailed<T>> for SystemFault {
    ghost from_gives = { λ _ e. e ≡ NoMemory };

    fn from(_: AllocFailed<T>) -> Self {
        SystemFault::NoMemory
    }
}
