//! Why a text isn't read.

ghost use Rattle.std.specs.Prelude.{◌≡◌};
ghost use Rattle.uc_clause.specs.Faults.{clause_fault};
ghost use Rattle.uc_clause.specs.declared.fault.TokenFault.{TokenFault};
ghost use Rattle.uc_clause.specs.declared.fault.ClauseFault.{ClauseFault};

use crate::Place;
use std::alloc::{AllocError, AllocFailed};
use thiserror::Error;
use uc_term::Text;

/// What a limit is on.
#[derive(Clone, Copy, PartialEq, Eq, Debug)]
pub enum What {
    /// The bytes of a file.
    Bytes,
    /// The nodes of a term.
    Nodes,
    /// The parentheses round a clause.
    Parentheses,
    /// The arguments of a functor.
    Arity,
    /// The clauses of a problem.
    Clauses,
    /// The files of a problem.
    Files,
    /// The symbols of a problem.
    Symbols,
}

/// Why a text has no tokens.
#[derive(Clone, Copy, PartialEq, Eq, Debug, Drop, Error)]
pub enum TokenFault {
    /// The byte here begins no token, or a quote or comment begins here that isn't closed.
    #[error("{}:{}: no token", .0.line, .0.column)]
    Syntax(Place),
    /// Memory is wanted.
    #[error("out of memory")]
    NoMemory,
}

/// Why a text isn't read, each with the place of the token that it is about.
#[derive(Debug, Drop, Error)]
pub enum ClauseFault {
    /// The token isn't called for.
    #[error("{}:{}: syntax", .0.line, .0.column)]
    Syntax(Place),
    /// A second literal follows.
    #[error("{}:{}: not a unit clause", .0.line, .0.column)]
    NotUnit(Place),
    /// The literal is no equation.
    #[error("{}:{}: not an equation", .0.line, .0.column)]
    NotEquality(Place),
    /// The word isn't one of the nine roles.
    #[error("{}:{}: bad role", .0.line, .0.column)]
    BadRole(Place, Text),
    /// The language has this form, and it isn't read here.
    #[error("{}:{}: unsupported", .0.line, .0.column)]
    Unsupported(Place, Text),
    /// A limit is passed.
    #[error("{}:{}: limit", .0.line, .0.column)]
    Limit(Place, What),
    /// Memory is wanted.
    #[error("out of memory")]
    NoMemory,
}

impl From<AllocError> for TokenFault {
    ghost from_gives = { λ _ e. e ≡ TokenFault.NoMemory };

    fn from(_: AllocError) -> Self {
        TokenFault::NoMemory
    }
}

impl<T: Drop> From<AllocFailed<T>> for TokenFault {
    ghost from_gives = { λ _ e. e ≡ TokenFault.NoMemory };

    fn from(_: AllocFailed<T>) -> Self {
        TokenFault::NoMemory
    }
}

impl From<AllocError> for ClauseFault {
    ghost from_gives = { λ _ e. e ≡ ClauseFault.NoMemory };

    fn from(_: AllocError) -> Self {
        ClauseFault::NoMemory
    }
}

impl<T: Drop> From<AllocFailed<T>> for ClauseFault {
    ghost from_gives = { λ _ e. e ≡ ClauseFault.NoMemory };

    fn from(_: AllocFailed<T>) -> Self {
        ClauseFault::NoMemory
    }
}

impl From<TokenFault> for ClauseFault {
    ghost from_gives = { λ f e. e ≡ clause_fault f };

    fn from(fault: TokenFault) -> Self {
        match fault {
            TokenFault::Syntax(place) => ClauseFault::Syntax(place),
            TokenFault::NoMemory => ClauseFault::NoMemory,
        }
    }
}
