//! Whether an equation may make a step in a term: a test that takes no memory.

ghost use Rattle.std.specs.Prelude.{◌≡◌, ◌↔◌, ◌<◌, ◌≤◌, length, false, IfSome, IsTrue};
ghost use Rattle.uc_term.specs.Tree.{subterm};
ghost use Rattle.uc_term.specs.Flat.{tree_of, IsWhole};
ghost use Rattle.uc_unify.specs.Matching.{HasNoMatch};
ghost use Rattle.uc_pair.specs.Listing.{IsWayOf};
ghost use Rattle.uc_machine.specs.Results.{StepsIn};
ghost use Rattle.uc_task.specs.Reducing.{HasNoPart};

use uc_fact::{Equation, is_instance};
use uc_order::{Cmp, Order};
use uc_pair::way_of;
use uc_term::{MAX_NODES, Node, Sym, Term, end_of};

/// Whether the equation of a fact may make an ordered step in a term: whether a subterm is an instance of a side that is neither
/// less than the other one nor equal to it. How its two sides compare is asked, by the fact's number, only where some side has
/// an instance and it isn't known yet.
pub fn may_step<O: Order>(
    number: u32,
    equation: &Equation,
    known: Option<Cmp>,
    term: &Term,
    order: &O,
) -> bool
    requires { IfSome known (IsWayOf (O.meaning order.now).greater equation.now) }
    ensures { result ≡ false → StepsIn (O.meaning order.now) equation.now term.now → ⊥ }
{
    match known {
        Some(way) => may_step_by(equation, way, term, order),
        None => may_step_asking(number, equation, term, order),
    }
}

/// The same, where it is known how the two sides compare.
fn may_step_by<O: Order>(equation: &Equation, way: Cmp, term: &Term, _order: &O) -> bool
    requires { IsWayOf (O.meaning _order.now).greater equation.now way }
    ensures { result ≡ false → StepsIn (O.meaning _order.now) equation.now term.now → ⊥ }
{
    match way {
        Cmp::Greater => has_part(term, &equation.left),
        Cmp::Less => has_part(term, &equation.right),
        Cmp::Equal => false,
        Cmp::Unknown => has_part(term, &equation.left) || has_part(term, &equation.right),
    }
}

/// The same, where it is asked how the two sides compare, if one of them has an instance.
fn may_step_asking<O: Order>(number: u32, equation: &Equation, term: &Term, order: &O) -> bool
    ensures { result ≡ false → StepsIn (O.meaning order.now) equation.now term.now → ⊥ }
{
    let left = has_part(term, &equation.left);
    let right = has_part(term, &equation.right);
    if !left && !right {
        return false;
    }
    match way_of(number, equation, order) {
        Cmp::Greater => left,
        Cmp::Less => right,
        Cmp::Equal => false,
        Cmp::Unknown => true,
    }
}

/// Whether a subterm is an instance of the pattern. Where fewer nodes are left than the pattern has, none is.
fn has_part(term: &Term, pattern: &Term) -> bool
    ensures { result ≡ false → HasNoPart pattern.now term.now }
{
    let places = (term.nodes() + 1).saturating_sub(pattern.nodes());
    for place in 0..places {
        if is_part(term.as_nodes(), place as usize, pattern.as_nodes()) {
            return true;
        }
    }
    false
}

/// Whether the subterm at a place is an instance of the pattern. Most places fail at their first symbol, so that one is looked
/// at before the subterm's end is sought.
fn is_part(nodes: &[Node], place: usize, pattern: &[Node]) -> bool
    requires whole { IsWhole nodes.now }
    requires whole_pattern { IsWhole pattern.now }
    requires small { length nodes.now ≤ MAX_NODES }
    requires within { place < length nodes.now }
    ensures { result ≡ false → HasNoMatch (tree_of pattern.now) (subterm (tree_of nodes.now) place) }
{
    match pattern[0] {
        Node::Var(_) => true,
        Node::App(f, n) => {
            if !is_head(nodes[place], f, n) {
                return false;
            }
            is_instance(pattern, &nodes[place..end_of(nodes, place)])
        }
    }
}

/// Whether the node is this symbol with so many arguments.
#[inline]
fn is_head(node: Node, f: Sym, n: u32) -> bool
    ensures { IsTrue result ↔ (node ≡ Node.App f n) }
{
    match node {
        Node::App(g, m) => g == f && m == n,
        Node::Var(_) => false,
    }
}
