//! What the check of a certificate answers.

use uc_check::Cause;
use uc_fact::Overlap;

/// What the check of a certificate answers: that it passes all tests, or the first of them that fails, in this order.
#[derive(Clone, Copy, PartialEq, Eq, Debug)]
pub enum Certified {
    Yes,
    /// The symbol lines don't name exactly the symbols of the encoded problem.
    Symbols,
    /// The line of the derivation of this number is the first that isn't right, by this cause.
    Line(u32, Cause),
    /// The fact of this number is the first whose line isn't a chain line of the fact's equation.
    Fact(u32),
    /// The join of this number is missing, is another member's or isn't right; or it stands behind the last that is expected.
    Join(u32),
    /// This overlap is too large to be joined.
    Large(Overlap),
}
