//! What the tests of joinability answer.

use crate::ac_facts::AcFacts;
use uc_term::{Seq, Term, VarOrder};

/// Why two terms are joinable.
#[derive(Debug, Drop)]
pub enum Reason {
    /// They are equal.
    Same,
    /// They are, either way round, the two sides of one instance of the fact of this number.
    Instance(u32),
    /// Under each order of their variables they are normalised to the same end.
    Orders,
    /// They are equal up to brackets and order at the symbols that these facts make associative and commutative.
    Ac(Seq<AcFacts>),
}

/// Whether each ground instance of two terms is joined by ground steps. `Joined` is sure; the other two say that the test
/// doesn't show it.
#[derive(Debug, Drop)]
pub enum Joinable {
    /// It is so, for this reason.
    Joined(Reason),
    /// Under the order `cases` of their variables normalising leads them to two different terms.
    Apart {
        cases: VarOrder,
        left: Term,
        right: Term,
    },
    /// They have so many variables, which is more than are tried.
    TooManyVariables(u32),
}
