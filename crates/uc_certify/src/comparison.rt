//! How terms are compared in moves: by an order, or by it under an order of variables.

ghost use Rattle.std.specs.Prelude.{◌↔◌, IsTrue};
ghost use Rattle.uc_order.specs.VarOrders.{Among};

use uc_order::{Cmp, Order, class_of};
use uc_term::{MAX_INSTANCE, Node, VarOrder};

/// A comparison of terms by which facts are used, and which variables may stand in these.
pub trait Comparison {
    ghost use Rattle.std.specs.Prelude.{ℕ, ◌≡◌, ◌≤◌, ◌↔◌, length, IsTrue};
    ghost use Rattle.uc_term.specs.Tree.{Tree};
    ghost use Rattle.uc_term.specs.Flat.{tree_of, IsWhole};
    ghost use Rattle.uc_order.specs.Laws.{Meaning};
    ghost use Rattle.uc_certify.specs.Knowing.{HasKnown};

    /// What the order says.
    ghost meaning: { Self → Meaning };

    /// What is greater.
    ghost greater: { Self → Tree → Tree → Type 0 };

    /// The variables that may stand in terms.
    ghost knows: { Self → ℕ → Type 0 };

    /// Whether the first term is greater. It takes no memory.
    fn is_greater(&self, s: &[Node], t: &[Node]) -> bool
        requires s_whole { IsWhole s.now }
        requires t_whole { IsWhole t.now }
        requires s_small { length s.now ≤ MAX_INSTANCE }
        requires t_small { length t.now ≤ MAX_INSTANCE }
        requires s_known { HasKnown (knows self.now) (tree_of s.now) }
        requires t_known { HasKnown (knows self.now) (tree_of t.now) }
        ensures { IsTrue result ↔ greater self.now (tree_of s.now) (tree_of t.now) };

    /// Whether the variable may stand in terms. It takes no memory.
    fn allows(&self, x: u32) -> bool
        ensures { IsTrue result ↔ knows self.now x };
}

/// The comparison by an order. Each variable may stand in terms.
#[derive(Drop)]
pub struct ByOrder<'a, O> {
    pub order: &'a O,
}

impl<'a, O: Order> Comparison for ByOrder<'a, O> {
    ghost meaning = { λ s. O.meaning s.order.now };

    ghost greater = { λ s. (O.meaning s.order.now).greater };

    ghost knows = { λ s x. Unit {0} };

    fn is_greater(&self, s: &[Node], t: &[Node]) -> bool {
        self.order.compare(s, t) == Cmp::Greater
    }

    fn allows(&self, _x: u32) -> bool {
        true
    }
}

/// The comparison by an order, under an order of the variables. Only these may stand in terms.
#[derive(Drop)]
pub struct UnderCases<'a, O> {
    pub order: &'a O,
    pub cases: &'a VarOrder,
}

impl<'a, O: Order> Comparison for UnderCases<'a, O> {
    ghost use Rattle.uc_order.specs.VarOrders.{Among};

    ghost meaning = { λ s. O.meaning s.order.now };

    ghost greater = { λ s. (O.meaning s.order.now).under s.cases.now };

    ghost knows = { λ s. Among s.cases.now };

    fn is_greater(&self, s: &[Node], t: &[Node]) -> bool {
        self.order.compare_under(self.cases, s, t) == Cmp::Greater
    }

    fn allows(&self, x: u32) -> bool {
        is_among(self.cases, x)
    }
}

/// Whether the variable is in one of the classes.
fn is_among(cases: &VarOrder, x: u32) -> bool
    ensures { IsTrue result ↔ Among cases.now x }
{
    class_of(cases, x) < cases.len()
}
