//! Variables under an order of them: those of a class look alike, and two classes compare by their places.

ghost use Rattle.std.specs.Prelude.{◌≡◌, ◌↔◌, ℕ, ◌<◌, IsTrue, length, map};
ghost use Rattle.uc_order.specs.VarOrders.{representative, IsHigher};
ghost use Rattle.uc_order.specs.Renamed.{renamed_node};

use uc_order::{class_number, first_of_class};
use uc_term::{Node, Seq};

// Whether the class of x is above that of y.
#[inline]
pub fn is_above(classes: &[Seq<u32>], x: u32, y: u32) -> bool
    ensures { IsTrue result ↔ IsHigher classes.now (representative classes.now x) (representative classes.now y) }
{
    class_number(classes, first_of_class(classes, y))
        < class_number(classes, first_of_class(classes, x))
}

// Whether two nodes look alike.
#[inline]
pub fn is_alike(classes: &[Seq<u32>], a: Node, b: Node) -> bool
    ensures { IsTrue result ↔ (renamed_node (representative classes.now) a ≡ renamed_node (representative classes.now) b) }
{
    match a {
        Node::Var(x) => match b {
            Node::Var(y) => first_of_class(classes, x) == first_of_class(classes, y),
            Node::App(_, _) => false,
        },
        Node::App(_, _) => match b {
            Node::Var(_) => false,
            Node::App(_, _) => a == b,
        },
    }
}

// Whether two lists of nodes look alike.
pub fn are_alike(classes: &[Seq<u32>], s: &[Node], t: &[Node]) -> bool
    ensures { IsTrue result ↔ (map (renamed_node (representative classes.now)) s.now ≡ map (renamed_node (representative classes.now)) t.now) }
{
    if s.len() != t.len() {
        return false;
    }
    for i in 0..s.len() {
        if !is_alike(classes, s[i], t[i]) {
            return false;
        }
    }
    true
}
