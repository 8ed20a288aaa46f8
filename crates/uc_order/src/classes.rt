//! Terms with the variables of a class replaced by its first.

ghost use Rattle.std.specs.Prelude.{◌≡◌, ℕ, ◌≤◌, length, IfOk, map};
ghost use Rattle.uc_term.specs.Variables.{is_among};
ghost use Rattle.uc_order.specs.VarOrders.{representative, represented, class_of};
ghost use Rattle.uc_order.specs.Renamed.{renamed_node};

use std::alloc::{AllocError, Global};
use uc_term::{Node, Seq, Term, VarOrder};

/// The term with each variable replaced by the first one of its class. A variable of no class stays.
pub fn represent(alloc: Global, cases: &VarOrder, term: &Term) -> Result<Term, AllocError>
    ensures { IfOk result (λ t. t ≡ represented cases.now term.now) }
{
    let mut list = Vec::new(alloc);
    for n in term.as_nodes() {
        list.push(represent_node(cases, *n))?;
    }
    Ok(Term::from_nodes(list))
}

/// The node with its variable, if it has one, replaced by the first one of its class. It takes no memory.
#[inline]
pub fn represent_node(cases: &VarOrder, node: Node) -> Node
    ensures { result ≡ renamed_node (representative cases.now) node }
{
    match node {
        Node::Var(x) => Node::Var(representative(cases, x)),
        Node::App(_, _) => node,
    }
}

/// The first variable of the class of `x`; `x` itself, where it is in none. It takes no memory.
pub fn representative(cases: &VarOrder, x: u32) -> u32
    ensures { result ≡ representative cases.now x }
{
    first_of_class(cases.classes(), x)
}

/// The number of the class of `x`, from 0 for the least; the number of classes, where it is in none. It takes no memory.
pub fn class_of(cases: &VarOrder, x: u32) -> usize
    ensures value { result ≡ class_of cases.now x }
    ensures small { result ≤ length cases.now }
{
    class_number(cases.classes(), x)
}

/// `representative` of the order with these classes.
pub fn first_of_class(classes: &[Seq<u32>], x: u32) -> u32
    ensures { result ≡ representative classes.now x }
{
    for class in classes {
        let vars = class.as_slice();
        if is_among(x, vars) {
            return vars[0];
        }
    }
    x
}

/// `class_of` in the order with these classes.
pub fn class_number(classes: &[Seq<u32>], x: u32) -> usize
    ensures value { result ≡ class_of classes.now x }
    ensures small { result ≤ length classes.now }
{
    let mut at = 0;
    for class in classes {
        if is_among(x, class.as_slice()) {
            return at;
        }
        at += 1;
    }
    at
}

#[inline]
fn is_among(x: u32, vars: &[u32]) -> bool
    ensures { result ≡ is_among x vars.now }
{
    for y in vars {
        if x == *y {
            return true;
        }
    }
    false
}
