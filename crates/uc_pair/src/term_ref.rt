//! Terms that are borrowed as their nodes.

ghost use Rattle.std.specs.Prelude.{◌≡◌, ◌≤◌, length, IfOk};
ghost use Rattle.uc_term.specs.Tree.{nodes, subterm};
ghost use Rattle.uc_term.specs.Flat.{tree_of, IsWhole};
ghost use Rattle.uc_pair.specs.Fitting.{IsPart};

use crate::fitting::Part;
use std::alloc::{AllocError, Global};
use std::marker::Model;
use uc_term::{MAX_NODES, Node, Term};

/// A term whose nodes stand in memory that is lent. Contracts see it as a tree.
#[derive(Drop)]
pub(crate) struct TermRef<'a> {
    nodes: &'a [Node],
}

impl<'a> Model for TermRef<'a> {
    ghost use Rattle.std.specs.Prelude.{◌≤◌, length};
    ghost use Rattle.uc_term.specs.Tree.{Tree};
    ghost use Rattle.uc_term.specs.Code.{tree_code};
    ghost use Rattle.uc_term.specs.Flat.{tree_of, IsWhole};

    ghost Value = { Tree };

    ghost coded = { tree_code };

    ghost view = { λ s. tree_of s.nodes.now };

    ghost invariant = { λ s. IsWhole s.nodes.now × (length s.nodes.now ≤ 4096) };
}

impl<'a> TermRef<'a> {
    /// The term whose prefix list these nodes are.
    pub(crate) fn from_nodes(nodes: &'a [Node]) -> TermRef<'a>
        requires whole { IsWhole nodes.now }
        requires small { length nodes.now ≤ MAX_NODES }
        ensures { result ≡ tree_of nodes.now }
    {
        TermRef { nodes }
    }

    /// The nodes in prefix order.
    #[tactic(auto, using(crate::proofs::Held::small_tree))]
    pub(crate) fn as_nodes(&self) -> &'a [Node]
        ensures small { nodes self.now ≤ MAX_NODES }
        ensures whole { IsWhole result.now }
        ensures short { length result.now ≤ MAX_NODES }
        ensures tree { tree_of result.now ≡ self.now }
    {
        self.nodes
    }

    /// The nodes of a part.
    pub(crate) fn part(&self, there: Part) -> &'a [Node]
        requires { IsPart self.now there }
        ensures whole { IsWhole result.now }
        ensures short { length result.now ≤ MAX_NODES }
        ensures tree { tree_of result.now ≡ subterm self.now there.place }
    {
        &self.nodes[there.place as usize..there.end as usize]
    }

    /// An equal term in memory of its own.
    pub(crate) fn to_term(&self, alloc: Global) -> Result<Term, AllocError>
        ensures { IfOk result (λ t. t ≡ self.now) }
    {
        Ok(Term::from_nodes(Vec::from_slice(alloc, self.nodes)?))
    }
}
