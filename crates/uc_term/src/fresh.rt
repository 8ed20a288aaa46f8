//! The symbols of the encoding of goals.

use crate::Sym;

/// The three symbols by which goals with variables are written as equations: `eq` of arity 2, and the constants `true` and
/// `false`. None of them occurs in the problem.
#[derive(Clone, Copy, PartialEq, Eq, Debug)]
pub struct Fresh {
    pub eq: Sym,
    pub yes: Sym,
    pub no: Sym,
}
