//! The laws of an associative and commutative symbol.

ghost use Rattle.std.specs.Prelude.{◌≡◌, ◌≢◌, ◌↔◌, ℕ, IsTrue};
ghost use Rattle.uc_term.specs.Flat.{tree_of, IsWhole};
ghost use Rattle.uc_ac.specs.AcLaw.{AreSides, IsLaw, AreVariables, AreTwoVariables};

use uc_term::{Node, Sym, same_nodes};

/// One of the laws of an associative and commutative symbol.
#[derive(Clone, Copy)]
pub enum AcLaw {
    /// `f(f(X,Y),Z) = f(X,f(Y,Z))`
    Assoc,
    /// `f(X,Y) = f(Y,X)`
    Comm,
    /// `f(X,f(Y,Z)) = f(Y,f(X,Z))`
    Extended,
}

/// Whether two terms are the sides of the law for a symbol, either way round, the variables named in whatever way.
pub fn is_law(law: AcLaw, f: Sym, left: &[Node], right: &[Node]) -> bool
    requires left_whole { IsWhole left.now }
    requires right_whole { IsWhole right.now }
    ensures { IsTrue result ↔ IsLaw law f (record { left = tree_of left.now; right = tree_of right.now }) }
{
    if are_sides(law, f, left, right) {
        true
    } else {
        are_sides(law, f, right, left)
    }
}

/// Whether two terms are the sides of the law, from left to right.
fn are_sides(law: AcLaw, f: Sym, from: &[Node], to: &[Node]) -> bool
    requires from_whole { IsWhole from.now }
    requires to_whole { IsWhole to.now }
    ensures { IsTrue result ↔ AreSides f law (tree_of from.now) (tree_of to.now) }
{
    match law {
        AcLaw::Assoc => are_assoc(f, from, to),
        AcLaw::Comm => are_comm(f, from, to),
        AcLaw::Extended => are_extended(f, from, to),
    }
}

fn are_assoc(f: Sym, from: &[Node], to: &[Node]) -> bool
    requires from_whole { IsWhole from.now }
    requires to_whole { IsWhole to.now }
    ensures { IsTrue result ↔ AreSides f AcLaw.Assoc (tree_of from.now) (tree_of to.now) }
{
    if from.len() != 5 {
        return false;
    }
    let head = Node::App(f, 2);
    let (x, y, z) = (from[2], from[3], from[4]);
    if !same_nodes(from, &[head, head, x, y, z]) {
        return false;
    }
    if !same_nodes(to, &[head, x, head, y, z]) {
        return false;
    }
    are_variables(x, y, z)
}

fn are_comm(f: Sym, from: &[Node], to: &[Node]) -> bool
    requires from_whole { IsWhole from.now }
    requires to_whole { IsWhole to.now }
    ensures { IsTrue result ↔ AreSides f AcLaw.Comm (tree_of from.now) (tree_of to.now) }
{
    if from.len() != 3 {
        return false;
    }
    let head = Node::App(f, 2);
    let (x, y) = (from[1], from[2]);
    if !same_nodes(from, &[head, x, y]) {
        return false;
    }
    if !same_nodes(to, &[head, y, x]) {
        return false;
    }
    are_two_variables(x, y)
}

fn are_extended(f: Sym, from: &[Node], to: &[Node]) -> bool
    requires from_whole { IsWhole from.now }
    requires to_whole { IsWhole to.now }
    ensures { IsTrue result ↔ AreSides f AcLaw.Extended (tree_of from.now) (tree_of to.now) }
{
    if from.len() != 5 {
        return false;
    }
    let head = Node::App(f, 2);
    let (x, y, z) = (from[1], from[3], from[4]);
    if !same_nodes(from, &[head, x, head, y, z]) {
        return false;
    }
    if !same_nodes(to, &[head, y, head, x, z]) {
        return false;
    }
    are_variables(x, y, z)
}

/// Whether three nodes are different variables.
fn are_variables(x: Node, y: Node, z: Node) -> bool
    ensures { IsTrue result ↔ AreVariables x y z }
{
    if !are_two_variables(x, y) {
        return false;
    }
    if !are_two_variables(x, z) {
        return false;
    }
    are_two_variables(y, z)
}

/// Whether two nodes are different variables.
fn are_two_variables(x: Node, y: Node) -> bool
    ensures { IsTrue result ↔ AreTwoVariables x y }
{
    match (x, y) {
        (Node::Var(x), Node::Var(y)) => x != y,
        (Node::Var(_), Node::App(_, _)) => false,
        (Node::App(_, _), _) => false,
    }
}
