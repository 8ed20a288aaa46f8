//! How terms are compared where facts are used: by an order, or by it under an order of variables.

ghost use Rattle.std.specs.Prelude.{◌≡◌, ◌↔◌};
ghost use Rattle.uc_rewrite.specs.Comparing.{TellsAll};

use uc_fact::Side;
use uc_order::{Cmp, Order};
use uc_term::{MAX_INSTANCE, Node, Sym, Term, VarOrder};

/// What the two sides of a fact tell of their instances: that of the one is always greater, that it never is, or neither is
/// told.
#[derive(Clone, Copy, PartialEq, Eq)]
pub enum Falling {
    Always,
    Never,
    Unclear,
}

/// A comparison of terms by which facts are used.
pub trait Comparison {
    ghost use Rattle.std.specs.Prelude.{ℕ, ◌≡◌, ◌≤◌, ◌↔◌, length, IsTrue};
    ghost use Rattle.uc_term.specs.Tree.{Tree};
    ghost use Rattle.uc_term.specs.Flat.{tree_of, IsWhole};
    ghost use Rattle.uc_term.specs.declared.node.Sym.{Sym as AnySym};
    ghost use Rattle.uc_fact.specs.Embedding.{Embedded};
    ghost use Rattle.uc_rewrite.specs.declared.comparison.Falling.TheVariants.{Never};
    ghost use Rattle.uc_rewrite.specs.Comparing.{VariablesAre, Tells};

    /// What is greater.
    ghost greater: { Self → Tree → Tree → Type 0 };

    /// What stands for the variables that only one side of a fact has.
    ghost constant: { Self → AnySym };

    /// The variables that may occur in terms that are compared.
    ghost knows: { Self → ℕ → Type 0 };

    /// Whether the first term is greater. It takes no memory.
    fn is_greater(&self, s: &[Node], t: &[Node]) -> bool
        requires s_whole { IsWhole s.now }
        requires t_whole { IsWhole t.now }
        requires s_small { length s.now ≤ MAX_INSTANCE }
        requires t_small { length t.now ≤ MAX_INSTANCE }
        requires s_known { VariablesAre (knows self.now) (tree_of s.now) }
        requires t_known { VariablesAre (knows self.now) (tree_of t.now) }
        ensures { IsTrue result ↔ greater self.now (tree_of s.now) (tree_of t.now) };

    /// What the two sides of a fact tell of their instances, read from one side to the other. The answer is theirs, whatever the
    /// fact's number and that side are. It takes no memory.
    fn of_sides(&self, fact: u32, side: Side, from: &Term, to: &Term) -> Falling
        ensures { Tells (greater self.now) from.now to.now result };

    /// The constant that stands for the variables that only one side of a fact has.
    fn least(&self) -> Sym
        ensures { result ≡ constant self.now };

    /// No instance of a term is greater than that of one in which it is embedded.
    ghost no_embedded: { (s : Self) → (from to : Tree) → Embedded from to → Tells (greater s) from to Never };
}

/// The comparison by an order.
#[derive(Drop)]
pub struct ByOrder<'a, O> {
    pub order: &'a O,
}

impl<'a, O: Order> Comparison for ByOrder<'a, O> {
    ghost use Rattle.uc_rewrite.specs.Instances.{never_by};

    ghost greater = { λ s. (O.meaning s.order.now).greater };

    ghost constant = { λ s. (O.meaning s.order.now).least };

    ghost knows = { λ s x. Unit {0} };

    ghost no_embedded = { λ s. never_by (O.meaning s.order.now) (O.laws s.order.now) };

    fn is_greater(&self, s: &[Node], t: &[Node]) -> bool {
        self.order.compare(s, t) == Cmp::Greater
    }

    fn of_sides(&self, fact: u32, side: Side, from: &Term, to: &Term) -> Falling {
        told_by_sides(self.order, fact, side, from, to)
    }

    fn least(&self) -> Sym {
        self.order.least()
    }
}

/// The comparison by an order, under an order of the variables.
#[derive(Drop)]
pub struct UnderCases<'a, O> {
    pub order: &'a O,
    pub cases: &'a VarOrder,
}

impl<'a, O: Order> Comparison for UnderCases<'a, O> {
    ghost use Rattle.uc_order.specs.VarOrders.{Among};
    ghost use Rattle.uc_rewrite.specs.Instances.{never_under};

    ghost greater = { λ s. (O.meaning s.order.now).under s.cases.now };

    ghost constant = { λ s. (O.meaning s.order.now).least };

    ghost knows = { λ s. Among s.cases.now };

    ghost no_embedded = { λ s. never_under (O.meaning s.order.now) (O.laws s.order.now) s.cases.now };

    fn is_greater(&self, s: &[Node], t: &[Node]) -> bool {
        self.order.compare_under(self.cases, s, t) == Cmp::Greater
    }

    // The order of the variables says nothing of those of a fact, but what is greater without it is greater under it.
    fn of_sides(&self, fact: u32, side: Side, from: &Term, to: &Term) -> Falling {
        told_by_sides(self.order, fact, side, from, to)
    }

    fn least(&self) -> Sym {
        self.order.least()
    }
}

/// What the two sides of a fact tell of their instances, by an order and by it under each order of variables: an order keeps
/// to instances, and what is greater is so under every order of variables.
fn told_by_sides<O: Order>(order: &O, fact: u32, side: Side, from: &Term, to: &Term) -> Falling
    ensures { TellsAll (O.meaning order.now) from.now to.now result }
{
    match compared(order, fact, side, from, to) {
        Cmp::Greater => Falling::Always,
        Cmp::Less => Falling::Never,
        Cmp::Equal => Falling::Never,
        Cmp::Unknown => Falling::Unclear,
    }
}

/// How two sides of a fact compare. The order is asked about the fact's left side and its right one, since it remembers those.
#[inline]
fn compared<O: Order>(order: &O, fact: u32, side: Side, from: &Term, to: &Term) -> Cmp
    ensures greater { (result ≡ Cmp.Greater) ↔ (O.meaning order.now).greater from.now to.now }
    ensures less { (result ≡ Cmp.Less) ↔ (O.meaning order.now).greater to.now from.now }
    ensures equal { (result ≡ Cmp.Equal) ↔ (from.now ≡ to.now) }
{
    match side {
        Side::Left => order.compare_pair(fact, from.as_nodes(), to.as_nodes()),
        Side::Right => turned(order.compare_pair(fact, to.as_nodes(), from.as_nodes())),
    }
}

/// How two terms compare the other way round.
#[inline]
fn turned(cmp: Cmp) -> Cmp
    ensures greater { (result ≡ Cmp.Greater) ↔ (cmp ≡ Cmp.Less) }
    ensures less { (result ≡ Cmp.Less) ↔ (cmp ≡ Cmp.Greater) }
    ensures equal { (result ≡ Cmp.Equal) ↔ (cmp ≡ Cmp.Equal) }
{
    match cmp {
        Cmp::Greater => Cmp::Less,
        Cmp::Less => Cmp::Greater,
        Cmp::Equal => Cmp::Equal,
        Cmp::Unknown => Cmp::Unknown,
    }
}
