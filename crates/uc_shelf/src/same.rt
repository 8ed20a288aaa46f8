//! When two facts are equal.

ghost use Rattle.std.specs.Prelude.{◌≡◌, ◌↔◌, IsTrue};

use uc_fact::{Chain, Fact, Step};

/// Whether the two facts are equal.
pub(crate) fn same_fact(a: &Fact, b: &Fact) -> bool
    ensures { IsTrue result ↔ (a.now ≡ b.now) }
{
    a.left.same(&b.left)
        && a.right.same(&b.right)
        && a.oriented == b.oriented
        && a.origin == b.origin
        && a.front == b.front
        && a.stops.0 == b.stops.0
        && a.stops.1 == b.stops.1
        && same_chain(&a.chain, &b.chain)
}

/// Whether the two chains are equal.
fn same_chain(a: &Chain, b: &Chain) -> bool
    ensures { IsTrue result ↔ (a.now ≡ b.now) }
{
    a.start.same(&b.start) && same_steps(a.steps.as_slice(), b.steps.as_slice())
}

/// Whether the two lists of steps are equal.
fn same_steps(a: &[Step], b: &[Step]) -> bool
    ensures { IsTrue result ↔ (a.now ≡ b.now) }
{
    if a.len() != b.len() {
        return false;
    }
    for k in 0..a.len() {
        if !same_step(&a[k], &b[k]) {
            return false;
        }
    }
    true
}

/// Whether the two steps are equal.
fn same_step(a: &Step, b: &Step) -> bool
    ensures { IsTrue result ↔ (a.now ≡ b.now) }
{
    a.by == b.by
        && a.left_to_right == b.left_to_right
        && a.position == b.position
        && a.to.same(&b.to)
}
