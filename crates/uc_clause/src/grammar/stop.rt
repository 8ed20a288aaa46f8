//! Why reading stops, before it is said which fault that is.

ghost use Rattle.std.specs.Prelude.{◌≡◌};
ghost use Rattle.uc_clause.specs.declared.grammar.stop.Stop.{Stop};

use std::alloc::{AllocError, AllocFailed};

/// Why reading stops at a token: what is called for there, or the limit that it passes.
#[derive(Clone, Copy, PartialEq, Eq, Debug)]
pub enum Why {
    /// An item is called for, or the end of the text.
    NoItem,
    /// A role is called for.
    NoRole,
    /// The list of names of an include is called for.
    NoSelection,
    /// A term is called for, or a clause.
    NoTerm,
    /// The sign of an equation is called for, behind the term that begins at this token.
    NoSign(usize),
    /// The end of a clause is called for, behind a whole literal.
    NoEnd,
    /// Some other token is called for.
    NoToken,
    /// A term's 4,097th node.
    Nodes,
    /// The 17th round bracket of a clause.
    Parentheses,
    /// A functor whose 256th argument is announced by a comma.
    Arity,
    /// An inference rule is called for, in a proof.
    NoRule,
    /// The name of a line is called for that no earlier line has, in a proof.
    Repeated,
}

/// Reading stops, for this reason, at the token of this number; or memory is wanted.
#[derive(Clone, Copy, PartialEq, Eq, Debug)]
pub enum Stop {
    At(Why, usize),
    NoMemory,
}

impl From<AllocError> for Stop {
    ghost from_gives = { λ _ e. e ≡ Stop.NoMemory };

    fn from(_: AllocError) -> Self {
        Stop::NoMemory
    }
}

impl<T: Drop> From<AllocFailed<T>> for Stop {
    ghost from_gives = { λ _ e. e ≡ Stop.NoMemory };

    fn from(_: AllocFailed<T>) -> Self {
        Stop::NoMemory
    }
}
