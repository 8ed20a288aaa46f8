//! A term is a flat prefix list of at most 4,096 nodes, seen as a tree.

ghost use Rattle.std.specs.Prelude.{◌≡◌, ℕ, ◌+◌, ◌<◌, ◌≤◌, ◌∷◌, [], length, drop, IfOk, IfErr, OnOk, IsTrue, ◌↔◌, false};
ghost use Rattle.uc_term.specs.Tree.{var, app, of_list, nodes, subterm, put};
ghost use Rattle.uc_term.specs.Variables.{has_variable};
ghost use Rattle.uc_term.specs.Faults.{IsSizeFault, IsPutFault};
ghost use Rattle.uc_term.specs.Flat.{flat, tree_of, IsWhole, AreWhole};

use crate::{Node, Pos, Sym, TermFault};
use std::alloc::{AllocError, Global};
use std::marker::Model;

/// The most nodes that a term has.
pub const MAX_NODES: usize = 4096;

/// The most nodes that an instance of a term by terms has.
pub const MAX_INSTANCE: usize = MAX_NODES * MAX_NODES;

/// A first-order term: a variable, or a symbol with its arguments. It is kept as the list of its nodes in prefix order, at
/// most 4,096 of them, and contracts see it as a tree.
#[derive(Drop, Debug)]
pub struct Term {
    list: Vec<Node>,
}

impl Model for Term {
    ghost use Rattle.std.specs.Prelude.{◌≤◌, length};
    ghost use Rattle.uc_term.specs.Tree.{Tree};
    ghost use Rattle.uc_term.specs.Code.{tree_code};
    ghost use Rattle.uc_term.specs.Flat.{tree_of, IsWhole};

    ghost Value = { Tree };

    ghost coded = { tree_code };

    ghost view = { λ s. tree_of s.list.items };

    ghost invariant = { λ s. IsWhole s.list.items × (length s.list.items ≤ 4096) };
}

impl Term {
    /// The variable of this number.
    pub fn var(alloc: Global, n: u32) -> Result<Term, AllocError>
        ensures { IfOk result (λ t. t ≡ var n) }
    {
        let mut list = Vec::new(alloc);
        list.push(Node::Var(n))?;
        Ok(Term { list })
    }

    /// The term whose prefix list these nodes are.
    pub fn from_nodes(list: Vec<Node>) -> Term
        requires whole { IsWhole list.items }
        requires small { length list.items ≤ MAX_NODES }
        ensures { result ≡ tree_of list.items }
    {
        Term { list }
    }

    /// A symbol with its arguments. `TooLarge` comes exactly where the term would have more than 4,096 nodes.
    pub fn app(alloc: Global, sym: Sym, args: &[Term]) -> Result<Term, TermFault>
        requires { length args.now ≤ 255 }
        ensures ok { IfOk result (λ t. t ≡ app sym (of_list args.now)) }
        ensures small { OnOk result (nodes (app sym (of_list args.now)) ≤ MAX_NODES) }
        ensures err { IfErr result (IsSizeFault (app sym (of_list args.now))) }
    {
        let mut total: usize = 1;
        for t in args {
            total += t.nodes() as usize;
        }
        if total > MAX_NODES {
            return Err(TermFault::TooLarge);
        }
        let mut list = Vec::new(alloc);
        list.push(Node::App(sym, args.len() as u32))
            .map_err(AllocError::from)?;
        for t in args {
            list.extend_from_slice(t.as_nodes())?;
        }
        Ok(Term { list })
    }

    /// How many nodes the term has.
    #[tactic(auto, using(crate::proofs::Terms::nodes_whole))]
    pub fn nodes(&self) -> u32
        ensures value { result ≡ nodes self.now }
        ensures small { result ≤ MAX_NODES }
    {
        self.list.len() as u32
    }

    /// The nodes in prefix order.
    #[tactic(auto, using(crate::proofs::Terms::nodes_whole))]
    pub fn as_nodes(&self) -> &[Node]
        ensures value { result.now ≡ flat self.now }
        ensures small { nodes self.now ≤ MAX_NODES }
        // what follows for the list itself
        ensures whole { IsWhole result.now }
        ensures short { length result.now ≤ MAX_NODES }
        ensures tree { tree_of result.now ≡ self.now }
    {
        self.list.as_slice()
    }

    /// The nodes of the subterm at a place. `NoSuchPosition` comes exactly where the place is at least `nodes`.
    pub fn at(&self, pos: Pos) -> Result<&[Node], TermFault>
        ensures ok { IfOk result (λ part. (pos.0 < nodes self.now) × (part.now ≡ flat (subterm self.now pos.0))) }
        ensures err { IfErr result (λ e. (e ≡ TermFault.NoSuchPosition) × (nodes self.now ≤ pos.0)) }
    {
        let from = pos.0 as usize;
        if from >= self.list.len() {
            return Err(TermFault::NoSuchPosition);
        }
        let list = self.list.as_slice();
        let to = end_of(list, from);
        Ok(&list[from..to])
    }

    /// The term with its subterm at a place replaced. `NoSuchPosition` comes exactly where the place is at least
    /// `nodes`, and else `TooLarge` exactly where the result would have more than 4,096 nodes.
    pub fn put(&self, alloc: Global, pos: Pos, part: &Term) -> Result<Term, TermFault>
        ensures ok { IfOk result (λ t. t ≡ put self.now pos.0 part.now) }
        ensures within { OnOk result (pos.0 < nodes self.now) }
        ensures small { OnOk result (nodes (put self.now pos.0 part.now) ≤ MAX_NODES) }
        ensures err { IfErr result (IsPutFault self.now pos.0 part.now) }
    {
        let from = pos.0 as usize;
        let list = self.as_nodes();
        if from >= list.len() {
            return Err(TermFault::NoSuchPosition);
        }
        let to = end_of(list, from);
        let middle = part.as_nodes();
        if from + middle.len() + (list.len() - to) > MAX_NODES {
            return Err(TermFault::TooLarge);
        }
        let mut all = Vec::new(alloc);
        all.extend_from_slice(&list[..from])?;
        all.extend_from_slice(middle)?;
        all.extend_from_slice(&list[to..])?;
        Ok(Term { list: all })
    }

    /// Whether the two terms are equal.
    pub fn same(&self, other: &Term) -> bool
        ensures { IsTrue result ↔ (self.now ≡ other.now) }
    {
        same_nodes(self.as_nodes(), other.as_nodes())
    }

    /// Whether no variable occurs in the term.
    pub fn is_ground(&self) -> bool
        ensures { IsTrue result ↔ (has_variable self.now ≡ false) }
    {
        for node in self.as_nodes() {
            if let Node::Var(_) = node {
                return false;
            }
        }
        true
    }

    /// An equal term.
    pub fn copy(&self, alloc: Global) -> Result<Term, AllocError>
        ensures { IfOk result (λ t. t ≡ self.now) }
    {
        let mut list = Vec::new(alloc);
        list.extend_from_slice(self.as_nodes())?;
        Ok(Term { list })
    }
}

/// The place behind the term that begins at `from`, in a list of whole terms.
pub fn end_of(list: &[Node], from: usize) -> usize
    requires whole { AreWhole list.now }
    requires within { from < length list.now }
    requires small { length list.now ≤ MAX_INSTANCE }
    ensures end { result ≡ from + nodes (tree_of (drop from list.now)) }
    ensures in_list { result ≤ length list.now }
{
    let mut end = from;
    let mut pending: usize = 1;
    while pending > 0 {
        match list[end] {
            Node::Var(_) => pending -= 1,
            Node::App(_, arity) => pending = pending - 1 + arity as usize,
        }
        end += 1;
    }
    end
}

/// Whether the two lists of nodes are equal.
pub fn same_nodes(a: &[Node], b: &[Node]) -> bool
    ensures { IsTrue result ↔ (a.now ≡ b.now) }
{
    a == b
}
