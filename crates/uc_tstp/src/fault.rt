//! Why a text isn't read as a proof.

ghost use Rattle.std.specs.Prelude.{◌≡◌};
ghost use Rattle.uc_tstp.specs.declared.fault.ProofFault.TheVariants.{NoMemory};

use std::alloc::{AllocError, AllocFailed};
use thiserror::Error;
use uc_clause::{Place, What};

/// Why a text isn't read as a proof.
#[derive(Clone, Copy, PartialEq, Eq, Debug, Drop, Error)]
pub enum ProofFault {
    /// The token here isn't called for, or no token begins here; or no start line stands before the end of the text here; or
    /// the end line here has another name than the start line.
    #[error("{}:{}: syntax", .0.line, .0.column)]
    Syntax(Place),
    /// The word here is no inference rule.
    #[error("{}:{}: unknown rule", .0.line, .0.column)]
    UnknownRule(Place),
    /// No line has the name here.
    #[error("{}:{}: unknown name", .0.line, .0.column)]
    UnknownName(Place),
    /// No end line stands behind the start line.
    #[error("truncated")]
    Truncated,
    /// An earlier line has the name here.
    #[error("{}:{}: repeated name", .0.line, .0.column)]
    RepeatedName(Place),
    /// A limit is passed here.
    #[error("{}:{}: limit", .1.line, .1.column)]
    Limit(What, Place),
    /// Memory is wanted.
    #[error("out of memory")]
    NoMemory,
}

impl From<AllocError> for ProofFault {
    ghost from_gives = { λ _ e. e ≡ NoMemory };

    fn from(_: AllocError) -> Self {
        ProofFault::NoMemory
    }
}

impl<T: Drop> From<AllocFailed<T>> for ProofFault {
    ghost from_gives = { λ _ e. e ≡ NoMemory };

    fn from(_: AllocFailed<T>) -> Self {
        ProofFault::NoMemory
    }
}
