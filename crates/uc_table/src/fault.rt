//! Why a text isn't read as a table.

ghost use Rattle.std.specs.Prelude.{◌≡◌};
ghost use Rattle.uc_table.specs.declared.fault.TableFault.TheVariants.{NoMemory};

use std::alloc::{AllocError, AllocFailed};
use thiserror::Error;
use uc_clause::Place;

/// Why a text isn't read as a table.
#[derive(Clone, Copy, PartialEq, Eq, Debug, Drop, Error)]
pub enum TableFault {
    /// The line that begins here isn't one that belongs here, or the text ends here.
    #[error("{}:{}: syntax", .0.line, .0.column)]
    Syntax(Place),
    /// The text is in another version of the format, whose number stands here.
    #[error("{}:{}: version", .0.line, .0.column)]
    Version(Place),
    /// The line of a symbol begins here with which there are more than 65,536 cells.
    #[error("{}:{}: too many cells", .0.line, .0.column)]
    TooManyCells(Place),
    /// The text, which begins here, has more than 16,777,216 bytes.
    #[error("{}:{}: too many bytes", .0.line, .0.column)]
    TooManyBytes(Place),
    /// Memory is wanted.
    #[error("out of memory")]
    NoMemory,
}

impl From<AllocError> for TableFault {
    ghost from_gives = { λ _ e. e ≡ NoMemory };

    fn from(_: AllocError) -> Self {
        TableFault::NoMemory
    }
}

impl<T: Drop> From<AllocFailed<T>> for TableFault {
    ghost from_gives = { λ _ e. e ≡ NoMemory };

    fn from(_: AllocFailed<T>) -> Self {
        TableFault::NoMemory
    }
}
