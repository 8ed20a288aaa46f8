//! What an order on terms answers, and the laws that it keeps.

use uc_term::{MAX_INSTANCE, Node, Sym, VarOrder};

/// How two terms compare.
#[derive(Clone, Copy, PartialEq, Eq, Debug)]
pub enum Cmp {
    Greater,
    Less,
    Equal,
    Unknown,
}

/// A reduction order on terms that is total on ground terms, as values: a value has a signature and says which of two
/// terms is greater. `meaning` is what it says, and `laws` are the laws that every value keeps.
pub trait Order {
    ghost use Rattle.std.specs.Prelude.{◌≡◌, ◌≤◌, ◌↔◌, length};
    ghost use Rattle.uc_term.specs.Flat.{tree_of, IsWhole};
    ghost use Rattle.uc_order.specs.VarOrders.{HasOnly, represented};
    ghost use Rattle.uc_order.specs.Laws.{Meaning, Laws};

    ghost meaning: { Self → Meaning };

    /// How the two terms compare: `Greater`, `Less` and `Equal` exactly where it is so, and else `Unknown`. It takes no
    /// memory.
    fn compare(&self, s: &[Node], t: &[Node]) -> Cmp
        requires s_whole { IsWhole s.now }
        requires t_whole { IsWhole t.now }
        requires s_small { length s.now ≤ MAX_INSTANCE }
        requires t_small { length t.now ≤ MAX_INSTANCE }
        ensures greater { (result ≡ Cmp.Greater) ↔ (meaning self.now).greater (tree_of s.now) (tree_of t.now) }
        ensures less { (result ≡ Cmp.Less) ↔ (meaning self.now).greater (tree_of t.now) (tree_of s.now) }
        ensures equal { (result ≡ Cmp.Equal) ↔ (tree_of s.now ≡ tree_of t.now) };

    /// How the two terms of a numbered pair compare, as `compare` says. The answer is that of the terms, whatever the number
    /// is: an order that remembers how pairs compare looks its answer up by it. It takes no memory.
    fn compare_pair(&self, number: u32, s: &[Node], t: &[Node]) -> Cmp
        requires s_whole { IsWhole s.now }
        requires t_whole { IsWhole t.now }
        requires s_small { length s.now ≤ MAX_INSTANCE }
        requires t_small { length t.now ≤ MAX_INSTANCE }
        ensures greater { (result ≡ Cmp.Greater) ↔ (meaning self.now).greater (tree_of s.now) (tree_of t.now) }
        ensures less { (result ≡ Cmp.Less) ↔ (meaning self.now).greater (tree_of t.now) (tree_of s.now) }
        ensures equal { (result ≡ Cmp.Equal) ↔ (tree_of s.now ≡ tree_of t.now) }
    {
        self.compare(s, t)
    }

    /// How the two terms compare under an order of their variables, in which the variables of a class are equal. It
    /// takes no memory.
    fn compare_under(&self, cases: &VarOrder, s: &[Node], t: &[Node]) -> Cmp
        requires s_whole { IsWhole s.now }
        requires t_whole { IsWhole t.now }
        requires s_small { length s.now ≤ MAX_INSTANCE }
        requires t_small { length t.now ≤ MAX_INSTANCE }
        requires s_known { HasOnly cases.now (tree_of s.now) }
        requires t_known { HasOnly cases.now (tree_of t.now) }
        ensures greater { (result ≡ Cmp.Greater) ↔ (meaning self.now).under cases.now (tree_of s.now) (tree_of t.now) }
        ensures less { (result ≡ Cmp.Less) ↔ (meaning self.now).under cases.now (tree_of t.now) (tree_of s.now) }
        ensures equal { (result ≡ Cmp.Equal) ↔ (represented cases.now (tree_of s.now) ≡ represented cases.now (tree_of t.now)) };

    /// The least constant of the signature, which is the least ground term.
    fn least(&self) -> Sym
        ensures { result ≡ (meaning self.now).least };

    ghost laws: { (o : Self) → Laws (meaning o) };
}
