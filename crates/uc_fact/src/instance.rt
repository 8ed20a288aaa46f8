//! Matching that takes no memory where there is no match.

ghost use Rattle.std.specs.Prelude.{◌≡◌, ◌≤◌, ◌<◌, ◌↔◌, ◌⊎◌, length, IfOk, OnErr, IsTrue, MatchOption, Some, None, false};
ghost use Rattle.uc_term.specs.Tree.{Tree};
ghost use Rattle.uc_term.specs.Flat.{IsWhole, tree_of};
ghost use Rattle.uc_term.specs.Subst.{found};
ghost use Rattle.uc_unify.specs.Matching.{IsMatch, HasNoMatch};
ghost use Rattle.uc_fact.specs.Against.{Fits, against, HasMatch};

use std::alloc::{AllocError, Global};
use uc_term::{MAX_NODES, Node, Subst, Sym, end_of, same_nodes};
use uc_unify::matches;

/// The substitution that makes the pattern the term. None exactly where there is none, which takes no memory.
pub fn matching(alloc: Global, pattern: &[Node], term: &[Node]) -> Result<Option<Subst>, AllocError>
    requires whole_pattern { IsWhole pattern.now }
    requires whole_term { IsWhole term.now }
    requires small_term { length term.now ≤ MAX_NODES }
    ensures value { IfOk result (λ found. MatchOption found (HasNoMatch (tree_of pattern.now) (tree_of term.now)) (IsMatch (tree_of pattern.now) (tree_of term.now))) }
    ensures memory { OnErr result (HasMatch (tree_of pattern.now) (tree_of term.now)) }
{
    if is_instance(pattern, term) {
        matches(alloc, pattern, term)
    } else {
        Ok(None)
    }
}

/// Tells whether the term is an instance of the pattern. It takes no memory, and time linear in the two where no variable is
/// repeated in the pattern and they are numbered as they come; each further occurrence of a variable goes through them anew.
pub fn is_instance(pattern: &[Node], term: &[Node]) -> bool
    requires whole_pattern { IsWhole pattern.now }
    requires whole_term { IsWhole term.now }
    requires small_term { length term.now ≤ MAX_NODES }
    ensures yes { IsTrue result → HasMatch (tree_of pattern.now) (tree_of term.now) }
    ensures no { result ≡ false → HasNoMatch (tree_of pattern.now) (tree_of term.now) }
{
    if fits(pattern, term) {
        repeats_agree(pattern, term)
    } else {
        false
    }
}

/// Whether the first symbols are different, so that the term is no instance of the pattern. A quick test to ask before
/// [`matching`]: it looks at one node of each, and `false` says nothing of the rest.
pub fn heads_differ(pattern: &[Node], term: &[Node]) -> bool
    requires whole_pattern { IsWhole pattern.now }
    requires whole_term { IsWhole term.now }
    ensures { IsTrue result → HasNoMatch (tree_of pattern.now) (tree_of term.now) }
{
    match pattern[0] {
        Node::Var(_) => false,
        Node::App(f, n) => !is_head(term[0], f, n),
    }
}

/// Whether the term has the pattern's symbols where the pattern has them.
fn fits(pattern: &[Node], term: &[Node]) -> bool
    requires whole_pattern { IsWhole pattern.now }
    requires whole_term { IsWhole term.now }
    requires small_term { length term.now ≤ MAX_NODES }
    ensures yes { IsTrue result → Fits (tree_of pattern.now) (tree_of term.now) }
    ensures no { result ≡ false → HasNoMatch (tree_of pattern.now) (tree_of term.now) }
{
    let mut place = 0;
    for node in pattern {
        match *node {
            Node::Var(_) => place = end_of(term, place),
            Node::App(f, n) => {
                if !is_head(term[place], f, n) {
                    return false;
                }
                place += 1;
            }
        }
    }
    true
}

/// Whether against each variable of the pattern, wherever it occurs, the same subterm stands.
fn repeats_agree(pattern: &[Node], term: &[Node]) -> bool
    requires whole_pattern { IsWhole pattern.now }
    requires whole_term { IsWhole term.now }
    requires small_term { length term.now ≤ MAX_NODES }
    requires fit { Fits (tree_of pattern.now) (tree_of term.now) }
    ensures yes { IsTrue result → HasMatch (tree_of pattern.now) (tree_of term.now) }
    ensures no { result ≡ false → HasNoMatch (tree_of pattern.now) (tree_of term.now) }
{
    let mut place = 0;
    let mut bound = 0;
    for node in pattern {
        match *node {
            Node::Var(x) => {
                let end = end_of(term, place);
                if !is_new_or_same(pattern, term, bound, x, &term[place..end]) {
                    return false;
                }
                bound = bound_with(bound, x);
                place = end;
            }
            Node::App(_, _) => place += 1,
        }
    }
    true
}

/// Whether the variable isn't below a bound, or the part is what stands against its first occurrence.
fn is_new_or_same(pattern: &[Node], term: &[Node], bound: u64, x: u32, part: &[Node]) -> bool
    requires whole_pattern { IsWhole pattern.now }
    requires whole_term { IsWhole term.now }
    requires small_term { length term.now ≤ MAX_NODES }
    requires fit { Fits (tree_of pattern.now) (tree_of term.now) }
    requires whole_part { IsWhole part.now }
    ensures yes { IsTrue result → (bound ≤ x) ⊎ (found (against (tree_of pattern.now) (tree_of term.now)) x ≡ Some (tree_of part.now)) }
    ensures no { result ≡ false → (first : Tree) → found (against (tree_of pattern.now) (tree_of term.now)) x ≡ Some first → first ≡ tree_of part.now → ⊥ }
{
    if bound <= x as u64 {
        return true;
    }
    match first_against(pattern, term, x) {
        Some(first) => same_nodes(first, part),
        None => false,
    }
}

/// A bound that the variable is below, too.
fn bound_with(bound: u64, x: u32) -> u64
    ensures old { bound ≤ result }
    ensures new { x < result }
{
    let next = x as u64 + 1;
    if bound < next { next } else { bound }
}

/// What stands in the term against the variable's first occurrence in the pattern. None exactly where it doesn't occur.
fn first_against<'a>(pattern: &[Node], term: &'a [Node], x: u32) -> Option<&'a [Node]>
    requires whole_pattern { IsWhole pattern.now }
    requires whole_term { IsWhole term.now }
    requires small_term { length term.now ≤ MAX_NODES }
    requires fit { Fits (tree_of pattern.now) (tree_of term.now) }
    ensures { MatchOption result (found (against (tree_of pattern.now) (tree_of term.now)) x ≡ None) (λ part. IsWhole part.now × (found (against (tree_of pattern.now) (tree_of term.now)) x ≡ Some (tree_of part.now))) }
{
    let mut place = 0;
    for node in pattern {
        match *node {
            Node::Var(y) => {
                let end = end_of(term, place);
                if x == y {
                    return Some(&term[place..end]);
                }
                place = end;
            }
            Node::App(_, _) => place += 1,
        }
    }
    None
}

/// Whether the node is this symbol with this number of arguments.
#[inline]
pub(crate) fn is_head(node: Node, f: Sym, n: u32) -> bool
    ensures { IsTrue result ↔ (node ≡ Node.App f n) }
{
    match node {
        Node::App(g, m) => g == f && m == n,
        Node::Var(_) => false,
    }
}
