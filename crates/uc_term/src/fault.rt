//! What a call on terms refuses.

ghost use Rattle.std.specs.Prelude.{◌≡◌};
ghost use Rattle.uc_term.specs.declared.fault.TermFault.TheVariants.{NoMemory};

use crate::Pos;
use std::alloc::{AllocError, AllocFailed};
use thiserror::Error;

/// Why a term or a signature isn't made.
#[derive(Clone, Copy, PartialEq, Eq, Debug, Drop, Error)]
pub enum TermFault {
    /// The result would have more than 4,096 nodes.
    #[error("the term has more than 4,096 nodes")]
    TooLarge,
    /// The term has no node at this place.
    #[error("no such position")]
    NoSuchPosition,
    /// A name occurs with two arities; the second one at this place of the term of this number.
    #[error("term {term}: arities {first} and {second}")]
    ArityClash {
        term: u32,
        pos: Pos,
        first: u32,
        second: u32,
    },
    /// The 60,001st symbol, at this place of the term of this number.
    #[error("term {term}: too many symbols")]
    TooMany {
        term: u32,
        pos: Pos,
    },
    /// Memory is wanted.
    #[error("out of memory")]
    NoMemory,
}

impl From<AllocError> for TermFault {
    ghost from_gives = { λ _ e. e ≡ NoMemory };

    fn from(_: AllocError) -> Self {
        TermFault::NoMemory
    }
}

impl<T: Drop> From<AllocFailed<T>> for TermFault {
    ghost from_gives = { λ _ e. e ≡ NoMemory };

    fn from(_: AllocFailed<T>) -> Self {
        TermFault::NoMemory
    }
}
