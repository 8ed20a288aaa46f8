//! Why a problem isn't loaded.

ghost use Rattle.std.specs.Prelude.{◌≡◌};
ghost use Rattle.uc_problem.specs.declared.fault.LoadFault.TheVariants.{NoMemory};

use std::alloc::{AllocError, AllocFailed};
use thiserror::Error;
use uc_clause::{ClauseFault, Name, Place, What};
use uc_term::Text;

/// Why a problem isn't loaded. `file` is the name under which the file in question was fetched, but of an include whose
/// file is absent it is the name that the include gives.
#[derive(Debug, Drop, Error)]
pub enum LoadFault {
    /// The library has none of the files that a name may stand for: the problem's, or that of the include in this file at
    /// this place.
    #[error("absent")]
    Absent {
        file: Text,
        from: Option<(Text, Place)>,
    },
    /// The library failed at this file.
    #[error("read fault")]
    ReadFault {
        file: Text,
    },
    /// The include here would be nested 17 deep.
    #[error("includes are nested too deep")]
    TooDeep {
        file: Text,
        place: Place,
    },
    /// The name that is listed here isn't a name of a clause of the included file.
    #[error("no such name")]
    NoSuchName {
        file: Text,
        place: Place,
        name: Name,
    },
    /// The name here has another arity than at its first occurrence.
    #[error("arities {first} and {second}")]
    ArityClash {
        file: Text,
        place: Place,
        name: Text,
        first: u32,
        second: u32,
    },
    /// A limit is passed here.
    #[error("limit")]
    Limit {
        file: Text,
        place: Place,
        what: What,
    },
    /// The file isn't read, or a second conjecture stands in it.
    #[error("{fault}")]
    Clause {
        file: Text,
        fault: ClauseFault,
    },
    /// Memory is wanted.
    #[error("out of memory")]
    NoMemory,
}

impl From<AllocError> for LoadFault {
    ghost from_gives = { λ _ e. e ≡ NoMemory };

    fn from(_: AllocError) -> Self {
        LoadFault::NoMemory
    }
}

impl<T: Drop> From<AllocFailed<T>> for LoadFault {
    ghost from_gives = { λ _ e. e ≡ NoMemory };

    fn from(_: AllocFailed<T>) -> Self {
        LoadFault::NoMemory
    }
}

/// Why a problem isn't encoded.
#[derive(Clone, Copy, PartialEq, Eq, Debug, Drop, Error)]
pub enum EncodeFault {
    /// The goal clause of this number has a variable, and its two sides have more than 4,095 nodes together.
    #[error("the goal is too large")]
    GoalTooLarge(u32),
    /// Memory is wanted.
    #[error("out of memory")]
    NoMemory,
}

impl From<AllocError> for EncodeFault {
    ghost use Rattle.uc_problem.specs.declared.fault.EncodeFault.TheVariants as encode;

    ghost from_gives = { λ _ e. e ≡ encode.NoMemory };

    fn from(_: AllocError) -> Self {
        EncodeFault::NoMemory
    }
}
