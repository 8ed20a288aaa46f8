//! Facts read from one of their sides to the other.

ghost use Rattle.std.specs.Prelude.{◌≡◌, ◌↔◌, ◌≤◌, ℕ, IsTrue, false, length};
ghost use Rattle.uc_term.specs.Flat.{tree_of, IsWhole};
ghost use Rattle.uc_term.specs.Variables.{Occurs, IsApp};
ghost use Rattle.uc_pair.specs.Overlapping.{read_from};
ghost use Rattle.uc_pair.specs.Listing.{AtMost, IsWayOf, ComesBefore, IsCopy, IsRepeated};
ghost use Rattle.uc_pair.specs.Reading.{rule_read, IsTold};

use uc_fact::Side;
use uc_order::{Cmp, Order};
use uc_term::{Equation, MAX_NODES, Node, Term};

/// A fact read from one of its sides to the other. Where an order was asked, it is noted whether it leads down nowhere, since
/// that side is the other one, or less; and whether it leads down everywhere, since that side is greater.
#[derive(Clone, Copy)]
pub(crate) struct Read<'a> {
    pub(crate) number: u32,
    pub(crate) side: Side,
    pub(crate) from: &'a Term,
    pub(crate) to: &'a Term,
    pub(crate) never_down: bool,
    pub(crate) always_down: bool,
}

impl<'a> Read<'a> {
    /// The equation of this number, read from this side.
    pub(crate) fn new(number: u32, side: Side, equation: &'a Equation) -> Self
        ensures { rule_read result ≡ read_from number side equation.now }
    {
        match side {
            Side::Left => Read {
                number,
                side,
                from: &equation.left,
                to: &equation.right,
                never_down: false,
                always_down: false,
            },
            Side::Right => Read {
                number,
                side,
                from: &equation.right,
                to: &equation.left,
                never_down: false,
                always_down: false,
            },
        }
    }

    /// The equation of this number, read from this side, where it is known how the order compares its left side to its right
    /// one. So each fact's sides are compared once, in however many ways it is read.
    pub(crate) fn told<O: Order>(
        number: u32,
        side: Side,
        equation: &'a Equation,
        way: Cmp,
        _order: &O,
    ) -> Self
        requires { IsWayOf (O.meaning _order.now).greater equation.now way }
        ensures rule { rule_read result ≡ read_from number side equation.now }
        ensures told { IsTold (O.meaning _order.now).greater result }
    {
        match side {
            Side::Left => Read {
                number,
                side,
                from: &equation.left,
                to: &equation.right,
                never_down: way == Cmp::Less || way == Cmp::Equal,
                always_down: way == Cmp::Greater,
            },
            Side::Right => Read {
                number,
                side,
                from: &equation.right,
                to: &equation.left,
                never_down: way == Cmp::Greater || way == Cmp::Equal,
                always_down: way == Cmp::Less,
            },
        }
    }
}

/// How the order compares the left side of a fact to the right one. The answer is theirs, whatever the fact's number is.
pub fn way_of<O: Order>(fact: u32, equation: &Equation, order: &O) -> Cmp
    ensures { IsWayOf (O.meaning order.now).greater equation.now result }
{
    order.compare_pair(fact, equation.left.as_nodes(), equation.right.as_nodes())
}

/// Whether a term is another one, or less.
pub(crate) fn is_at_most<O: Order>(s: &[Node], t: &[Node], order: &O) -> bool
    requires s_whole { IsWhole s.now }
    requires t_whole { IsWhole t.now }
    requires s_small { length s.now ≤ MAX_NODES }
    requires t_small { length t.now ≤ MAX_NODES }
    ensures { IsTrue result ↔ AtMost (O.meaning order.now).greater (tree_of s.now) (tree_of t.now) }
{
    match order.compare(s, t) {
        Cmp::Less => true,
        Cmp::Equal => true,
        Cmp::Greater => false,
        Cmp::Unknown => false,
    }
}

/// Whether the overlap at this place is left out, since it is repeated: at the root, where the inner side is no variable, the
/// rules come the other way round too; or a side meets its own copy, and the other side has no further variable.
pub(crate) fn is_repeated(outer: &Read, inner: &Read, place: u32) -> bool
    ensures { IsTrue result ↔ IsRepeated (rule_read outer.now) (rule_read inner.now) place }
{
    place == 0 && !is_variable(inner.from) && (comes_before(outer, inner) || is_copy(outer, inner))
}

fn is_variable(term: &Term) -> bool
    ensures { (result ≡ false) ↔ IsApp term.now }
{
    match term.as_nodes()[0] {
        Node::Var(_) => true,
        Node::App(_, _) => false,
    }
}

/// Whether the first rule comes before the second: facts are compared first, and left comes before right.
fn comes_before(first: &Read, second: &Read) -> bool
    ensures { IsTrue result ↔ ComesBefore (rule_read first.now) (rule_read second.now) }
{
    first.number < second.number
        || first.number == second.number && first.side == Side::Left && second.side == Side::Right
}

/// Whether they are one rule whose other side has no further variable.
fn is_copy(outer: &Read, inner: &Read) -> bool
    ensures { IsTrue result ↔ IsCopy (rule_read outer.now) (rule_read inner.now) }
{
    inner.number == outer.number
        && inner.side == outer.side
        && has_variables_of(outer.to, outer.from)
}

/// Whether each variable of the first term occurs in the second.
fn has_variables_of(term: &Term, other: &Term) -> bool
    ensures { IsTrue result ↔ ((x : ℕ) → Occurs x term.now → Occurs x other.now) }
{
    let nodes = term.as_nodes();
    for node in nodes {
        if is_further(*node, other) {
            return false;
        }
    }
    true
}

/// Whether the node is a variable that doesn't occur in the term.
fn is_further(node: Node, other: &Term) -> bool
    ensures { (result ≡ false) ↔ ((x : ℕ) → node ≡ Node.Var x → Occurs x other.now) }
{
    match node {
        Node::Var(x) => !has_variable(other.as_nodes(), x),
        Node::App(_, _) => false,
    }
}

/// Whether the variable occurs in the term.
fn has_variable(nodes: &[Node], x: u32) -> bool
    requires { IsWhole nodes.now }
    ensures { IsTrue result ↔ Occurs x (tree_of nodes.now) }
{
    for node in nodes {
        if is_var(*node, x) {
            return true;
        }
    }
    false
}

/// Whether the node is this variable.
#[inline]
fn is_var(node: Node, x: u32) -> bool
    ensures { IsTrue result ↔ (node ≡ Node.Var x) }
{
    match node {
        Node::Var(y) => y == x,
        Node::App(_, _) => false,
    }
}
