//! An order that is asked about one fact.

ghost use Rattle.std.specs.Prelude.{◌≡◌};

use uc_order::{Cmp, Order};
use uc_term::{Node, Sym, VarOrder};

/// An order that is asked about the sides of one fact alone: whatever number a pair has where it is asked for, it is looked up
/// by the fact's, by which an order may remember how the sides compare.
#[derive(Drop)]
pub struct OfFact<'a, O> {
    pub order: &'a O,
    pub number: u32,
}

impl<'a, O: Order> Order for OfFact<'a, O> {
    ghost meaning = { λ s. O.meaning s.order.now };

    ghost laws = { λ s. O.laws s.order.now };

    fn compare(&self, s: &[Node], t: &[Node]) -> Cmp {
        self.order.compare(s, t)
    }

    fn compare_pair(&self, number: u32, s: &[Node], t: &[Node]) -> Cmp {
        self.order.compare_pair(self.number, s, t)
    }

    fn compare_under(&self, cases: &VarOrder, s: &[Node], t: &[Node]) -> Cmp {
        self.order.compare_under(cases, s, t)
    }

    fn least(&self) -> Sym {
        self.order.least()
    }
}
