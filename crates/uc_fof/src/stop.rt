//! Why reading stops, before it is said which fault that is.

ghost use Rattle.std.specs.Prelude.{◌≡◌};
ghost use Rattle.uc_fof.specs.declared.stop.Halt.{Halt};

use std::alloc::{AllocError, AllocFailed};
use uc_clause::Why;

/// Why reading stops at a token.
#[derive(Clone, Copy, PartialEq, Eq, Debug)]
pub enum Reason {
    /// Something is called for there, or a limit is passed, outside a formula.
    Outside(Why),
    /// The same inside a formula, which is a conjecture or isn't.
    Inside(bool, Why),
    /// A form of the language begins that isn't read: another quantifier, a denied formula, or a variable that isn't bound.
    Unread,
    /// The rest of a connective stands behind `=`.
    Connective,
}

/// Reading stops, for this reason, at the token of this number; or memory is wanted.
#[derive(Clone, Copy, PartialEq, Eq, Debug)]
pub enum Halt {
    At(Reason, usize),
    NoMemory,
}

impl From<AllocError> for Halt {
    ghost from_gives = { λ _ e. e ≡ Halt.NoMemory };

    fn from(_: AllocError) -> Self {
        Halt::NoMemory
    }
}

impl<T: Drop> From<AllocFailed<T>> for Halt {
    ghost from_gives = { λ _ e. e ≡ Halt.NoMemory };

    fn from(_: AllocFailed<T>) -> Self {
        Halt::NoMemory
    }
}
