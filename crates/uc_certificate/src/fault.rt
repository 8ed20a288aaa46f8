//! Why a text isn't read as a certificate.

ghost use Rattle.std.specs.Prelude.{◌≡◌};
ghost use Rattle.uc_certificate.specs.declared.fault.CertFault.TheVariants.{NoMemory};

use std::alloc::{AllocError, AllocFailed};
use thiserror::Error;
use uc_clause::{Place, What};

/// Why a text isn't read as a certificate.
#[derive(Clone, Copy, PartialEq, Eq, Debug, Drop, Error)]
pub enum CertFault {
    /// The line that begins here isn't one that belongs here; or the token here isn't called for, or no token begins here; or the
    /// text ends here.
    #[error("{}:{}: syntax", .0.line, .0.column)]
    Syntax(Place),
    /// The text is in another version of the format, whose number stands here.
    #[error("{}:{}: version", .0.line, .0.column)]
    Version(Place),
    /// A limit is passed here.
    #[error("{}:{}: limit", .1.line, .1.column)]
    Limit(What, Place),
    /// The word here is no inference rule.
    #[error("{}:{}: unknown rule", .0.line, .0.column)]
    UnknownRule(Place),
    /// No line has the name here.
    #[error("{}:{}: unknown name", .0.line, .0.column)]
    UnknownName(Place),
    /// An earlier line has the name here.
    #[error("{}:{}: repeated name", .0.line, .0.column)]
    RepeatedName(Place),
    /// Memory is wanted.
    #[error("out of memory")]
    NoMemory,
}

impl From<AllocError> for CertFault {
    ghost from_gives = { λ _ e. e ≡ NoMemory };

    fn from(_: AllocError) -> Self {
        CertFault::NoMemory
    }
}

impl<T: Drop> From<AllocFailed<T>> for CertFault {
    ghost from_gives = { λ _ e. e ≡ NoMemory };

    fn from(_: AllocFailed<T>) -> Self {
        CertFault::NoMemory
    }
}
