//! Substitutions and instances.

ghost use Rattle.std.specs.Prelude.{◌≡◌, ◌↔◌, IsTrue, ℕ, ◌+◌, ◌*◌, ◌<◌, ◌≤◌, ◌∷◌, ◌++◌, [], length, IfOk, IfErr, OnOk, OnErr, MatchOption};
ghost use Rattle.uc_term.specs.Tree.{apply, nodes};
ghost use Rattle.uc_term.specs.Subst.{found, image, image_nodes, HasPair, Moves, IsIdempotent};
ghost use Rattle.uc_term.specs.Flat.{flat, tree_of, IsWhole};
ghost use Rattle.uc_term.specs.Bindings.{part_of, IsBinding, IsTermOf};
ghost use Rattle.uc_term.specs.Faults.{IsSizeFault};

use crate::{MAX_INSTANCE, MAX_NODES, Node, Term, TermFault};
use std::alloc::{AllocError, Global};
use std::marker::Model;

/// A variable, and where the nodes of its term stand among those of all terms.
#[derive(Clone, Copy)]
struct Binding {
    variable: u32,
    start: usize,
    end: usize,
}

/// A substitution: a finite map from variables to terms, kept as a list of pairs. A variable without a pair stands for
/// itself, and the first pair of a variable counts. The terms stand one behind another in one list of nodes.
#[derive(Drop)]
pub struct Subst {
    bindings: Vec<Binding>,
    nodes: Vec<Node>,
}

impl Model for Subst {
    ghost use Rattle.std.specs.Prelude.{List, ℕ};
    ghost use Rattle.uc_term.specs.Tree.{Tree};
    ghost use Rattle.uc_term.specs.Subst.{pairs_code};
    ghost use Rattle.uc_term.specs.Bindings.{pairs_of, AreBindings};

    ghost Value = { List (ℕ × Tree) };

    ghost coded = { pairs_code };

    ghost view = { λ s. pairs_of s.nodes.items s.bindings.items };

    ghost invariant = { λ s. AreBindings s.nodes.items s.bindings.items };
}

impl Subst {
    /// The substitution that changes nothing. It takes no memory.
    pub fn new(alloc: Global) -> Subst
        ensures { result ≡ [] }
    {
        Subst {
            bindings: Vec::new(alloc),
            nodes: Vec::new(alloc),
        }
    }

    /// Takes all pairs away, and keeps the memory.
    pub fn clear(&mut self)
        ensures { self.new ≡ [] }
    {
        self.bindings.clear();
        self.nodes.clear();
    }

    /// Gives a variable the term of these nodes, where it has none yet. For want of memory the substitution stays.
    pub fn add(&mut self, x: u32, term: &[Node]) -> Result<(), AllocError>
        requires whole { IsWhole term.now }
        requires small { length term.now ≤ MAX_NODES }
        ensures ok { IfOk result (λ _. self.new ≡ self.old ++ (x, tree_of term.now) ∷ []) }
        ensures err { OnErr result (self.new ≡ self.old) }
    {
        let start = self.nodes.len();
        self.nodes.extend_from_slice(term)?;
        let end = self.nodes.len();
        self.bindings.push(Binding {
            variable: x,
            start,
            end,
        })?;
        Ok(())
    }

    /// The nodes of a variable's term, if it has a pair.
    pub fn get(&self, x: u32) -> Option<&[Node]>
        ensures { MatchOption result (found self.now x ≡ None) (λ nodes. IsTermOf self.now x nodes.now) }
    {
        for binding in &self.bindings {
            if binding.variable == x {
                return Some(term_of(self.nodes.as_slice(), *binding));
            }
        }
        None
    }
}

impl Subst {
    /// Whether no variable that has a pair occurs in a pair's term, so that the substitution is idempotent. It takes no memory.
    pub fn is_idempotent(&self) -> bool
        ensures { IsTrue result ↔ IsIdempotent self.now }
    {
        for binding in &self.bindings {
            if self.moves(term_of(self.nodes.as_slice(), *binding)) {
                return false;
            }
        }
        true
    }

    /// Whether a variable among these nodes has a pair.
    fn moves(&self, nodes: &[Node]) -> bool
        ensures { IsTrue result ↔ Moves self.now nodes.now }
    {
        for node in nodes {
            if self.has(*node) {
                return true;
            }
        }
        false
    }

    /// Whether the node is a variable that has a pair.
    #[inline]
    fn has(&self, node: Node) -> bool
        ensures { IsTrue result ↔ HasPair self.now node }
    {
        match node {
            Node::Var(x) => self.get(x).is_some(),
            Node::App(_, _) => false,
        }
    }
}

/// The nodes of a binding's term.
#[inline]
fn term_of(nodes: &[Node], binding: Binding) -> &[Node]
    requires { IsBinding nodes.now binding }
    ensures { result.now ≡ part_of nodes.now binding }
{
    &nodes[binding.start..binding.end]
}

/// Returns the nodes of the pattern's instance, of which there are at most 16,777,216.
pub fn instance(alloc: Global, pattern: &[Node], subst: &Subst) -> Result<Vec<Node>, AllocError>
    requires whole { IsWhole pattern.now }
    requires small { length pattern.now ≤ MAX_NODES }
    ensures nodes { IfOk result (λ v. v.items ≡ flat (apply (image subst.now) (tree_of pattern.now))) }
    ensures small { IfOk result (λ v. length v.items ≤ MAX_INSTANCE) }
{
    let mut all = Vec::new(alloc);
    for n in pattern {
        match *n {
            Node::Var(x) => match subst.get(x) {
                Some(nodes) => all.extend_from_slice(nodes)?,
                None => all.push(*n)?,
            },
            Node::App(_, _) => all.push(*n)?,
        }
    }
    Ok(all)
}

/// How many nodes the pattern's instance has. It takes no memory.
pub fn instance_size(pattern: &[Node], subst: &Subst) -> usize
    requires whole { IsWhole pattern.now }
    requires small { length pattern.now ≤ MAX_NODES }
    ensures { result ≡ nodes (apply (image subst.now) (tree_of pattern.now)) }
{
    let mut size = 0;
    for n in pattern {
        size += image_size(*n, subst);
    }
    size
}

/// How many nodes a node becomes.
#[inline]
fn image_size(node: Node, subst: &Subst) -> usize
    ensures size { result ≡ image_nodes (image subst.now) node }
    ensures small { result ≤ MAX_NODES }
{
    match node {
        Node::Var(x) => match subst.get(x) {
            Some(nodes) => nodes.len(),
            None => 1,
        },
        Node::App(_, _) => 1,
    }
}

impl Term {
    /// The term's instance. `TooLarge` comes exactly where it would have more than 4,096 nodes; nothing is built then.
    pub fn apply(&self, alloc: Global, subst: &Subst) -> Result<Term, TermFault>
        ensures ok { IfOk result (λ t. t ≡ apply (image subst.now) self.now) }
        ensures small { OnOk result (nodes (apply (image subst.now) self.now) ≤ MAX_NODES) }
        ensures err { IfErr result (IsSizeFault (apply (image subst.now) self.now)) }
    {
        let pattern = self.as_nodes();
        if instance_size(pattern, subst) > MAX_NODES {
            return Err(TermFault::TooLarge);
        }
        Ok(Term::from_nodes(instance(alloc, pattern, subst)?))
    }
}
