//! The sides of equations.

ghost use Rattle.std.specs.Prelude.{◌≡◌};
ghost use Rattle.uc_term.specs.Equations.{side_of};

use uc_fact::{Equation, Side};
use uc_term::Term;

/// A side of an equation.
pub(crate) fn side_of(equation: &Equation, side: Side) -> &Term
    ensures { result.now ≡ side_of side equation.now }
{
    match side {
        Side::Left => &equation.left,
        Side::Right => &equation.right,
    }
}
