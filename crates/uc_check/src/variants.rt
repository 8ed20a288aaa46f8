//! Equality up to a renaming of variables.

ghost use Rattle.std.specs.Prelude.{◌≡◌, ◌≤◌, ◌↔◌, IsTrue, IfOk, length};
ghost use Rattle.uc_term.specs.Flat.{IsWhole, tree_of};
ghost use Rattle.uc_check.specs.Variants.{AreVariants};

use std::alloc::{AllocError, Global};
use uc_term::{MAX_NODES, Node};
use uc_unify::matches_both;

/// Whether a one to one renaming of variables makes the first pair of terms the second one: each pair matches the other.
pub(crate) fn are_variants(
    alloc: Global,
    left: &[Node],
    right: &[Node],
    other_left: &[Node],
    other_right: &[Node],
) -> Result<bool, AllocError>
    requires whole_left { IsWhole left.now }
    requires whole_right { IsWhole right.now }
    requires whole_other_left { IsWhole other_left.now }
    requires whole_other_right { IsWhole other_right.now }
    requires small_left { length left.now ≤ MAX_NODES }
    requires small_right { length right.now ≤ MAX_NODES }
    requires small_other_left { length other_left.now ≤ MAX_NODES }
    requires small_other_right { length other_right.now ≤ MAX_NODES }
    ensures { IfOk result (λ same. IsTrue same ↔ AreVariants (tree_of left.now) (tree_of right.now) (tree_of other_left.now) (tree_of other_right.now)) }
{
    match matches_both(alloc, left, other_left, right, other_right)? {
        None => Ok(false),
        Some(_) => match matches_both(alloc, other_left, left, other_right, right)? {
            None => Ok(false),
            Some(_) => Ok(true),
        },
    }
}
