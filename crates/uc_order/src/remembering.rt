//! An order that remembers how pairs of terms compare.

ghost use Rattle.std.specs.Prelude.{◌≡◌, IfOk, IfSome};
ghost use Rattle.uc_term.specs.Flat.{tree_of, IsWhole};
ghost use Rattle.uc_order.specs.Remembered.{Compares};

use crate::{Cmp, Order};
use std::alloc::{AllocError, Global};
use std::marker::Model;
use uc_term::{Node, Sym, Term, VarOrder, same_nodes};

/// Two terms, and how they compare.
#[derive(Drop)]
struct Compared {
    left: Term,
    right: Term,
    cmp: Cmp,
}

/// An order that remembers how pairs of terms compare, by their numbers from 0 on. It is the order that it was made of: what
/// it remembers is looked at only where the terms are those that were remembered. A contract sees that order.
#[derive(Drop)]
pub struct Remembering<'a, O: Order> {
    order: &'a O,
    pairs: Vec<Compared>,
}

impl<'a, O: Order> Model for Remembering<'a, O> {
    ghost use Rattle.std.specs.Prelude.{All};
    ghost use Rattle.uc_order.specs.Remembered.{Compares};
    ghost use Rattle.uc_order.specs.declared.remembering.Compared.{Compared as AnyCompared};

    ghost Value = { O };

    ghost coded = { O.code };

    ghost view = { λ r. r.order.now };

    ghost invariant = { λ r. All (λ (p : AnyCompared). Compares (O.meaning r.order.now) p.left p.right p.cmp) r.pairs.items };
}

impl<'a, O: Order> Remembering<'a, O> {
    /// The order, with no pair remembered. It takes no memory.
    pub fn new(alloc: Global, order: &'a O) -> Remembering<'a, O>
        ensures { result ≡ order.entry.now }
    {
        Remembering {
            order,
            pairs: Vec::new(alloc),
        }
    }

    /// How many pairs are remembered. They have the numbers below that.
    pub fn len(&self) -> usize {
        self.pairs.len()
    }

    /// Compares the terms of the next pair, and remembers how they compare. For want of memory nothing more is remembered.
    pub fn remember(&mut self, alloc: Global, left: &Term, right: &Term) -> Result<(), AllocError>
        ensures { self.new ≡ self.old }
    {
        self.pairs
            .push(comparison_of(alloc, self.order, left, right)?)?;
        Ok(())
    }

    /// What is remembered of a pair, where these are its terms in this order.
    #[inline]
    fn remembered(&self, number: u32, s: &[Node], t: &[Node]) -> Option<Cmp>
        requires s_whole { IsWhole s.now }
        requires t_whole { IsWhole t.now }
        ensures { IfSome result (Compares (O.meaning self.now) (tree_of s.now) (tree_of t.now)) }
    {
        let pair = self.pairs.get(number as usize)?;
        if same_nodes(s, pair.left.as_nodes()) && same_nodes(t, pair.right.as_nodes()) {
            return Some(pair.cmp);
        }
        None
    }
}

/// Copies of two terms, with how they compare.
fn comparison_of<O: Order>(
    alloc: Global,
    order: &O,
    left: &Term,
    right: &Term,
) -> Result<Compared, AllocError>
    ensures { IfOk result (λ p. Compares (O.meaning order.now) p.left p.right p.cmp) }
{
    let cmp = order.compare(left.as_nodes(), right.as_nodes());
    Ok(Compared {
        left: left.copy(alloc)?,
        right: right.copy(alloc)?,
        cmp,
    })
}

impl<'a, O: Order> Order for Remembering<'a, O> {
    ghost meaning = { O.meaning };

    ghost laws = { O.laws };

    fn compare(&self, s: &[Node], t: &[Node]) -> Cmp {
        self.order.compare(s, t)
    }

    fn compare_pair(&self, number: u32, s: &[Node], t: &[Node]) -> Cmp {
        match self.remembered(number, s, t) {
            Some(cmp) => cmp,
            None => self.order.compare(s, t),
        }
    }

    fn compare_under(&self, cases: &VarOrder, s: &[Node], t: &[Node]) -> Cmp {
        self.order.compare_under(cases, s, t)
    }

    fn least(&self) -> Sym {
        self.order.least()
    }
}
