//! Matching: the substitution that makes a pattern a term. One walk over both flat lists, in which a variable takes the
//! subterm that stands against it.

ghost use Rattle.std.specs.Prelude.{◌≡◌, ◌↔◌, ℕ, ◌+◌, ◌<◌, ◌≤◌, IsTrue, length, IfOk, MatchOption};
ghost use Rattle.uc_term.specs.Flat.{IsWhole, tree_of};
ghost use Rattle.uc_unify.specs.Matching.{IsMatch, HasNoMatch, IsMatched, IsMatchOfBoth, HasNoMatchOfBoth};
ghost use Rattle.uc_unify.specs.Extension.{IsExtended, IsBound};

use std::alloc::{AllocError, Global};
use uc_term::{MAX_NODES, Node, Subst, Sym, end_of, same_nodes};

/// The substitution that makes the pattern the term: its pairs are those of the pattern's variables, by first
/// occurrence. None exactly where there is none.
pub fn matches(alloc: Global, pattern: &[Node], term: &[Node]) -> Result<Option<Subst>, AllocError>
    requires whole_pattern { IsWhole pattern.now }
    requires whole_term { IsWhole term.now }
    requires small_term { length term.now ≤ MAX_NODES }
    ensures { IfOk result (λ found. MatchOption found (HasNoMatch (tree_of pattern.now) (tree_of term.now)) (IsMatch (tree_of pattern.now) (tree_of term.now))) }
{
    let mut subst = Subst::new(alloc);
    if matches_in(&mut subst, pattern, term)? {
        Ok(Some(subst))
    } else {
        Ok(None)
    }
}

/// The same in a lent substitution, whatever it was: whether there is one, which it then is; else it is of no further use.
pub fn matches_in(subst: &mut Subst, pattern: &[Node], term: &[Node]) -> Result<bool, AllocError>
    requires whole_pattern { IsWhole pattern.now }
    requires whole_term { IsWhole term.now }
    requires small_term { length term.now ≤ MAX_NODES }
    ensures { IfOk result (IsMatched (tree_of pattern.now) (tree_of term.now) subst.new) }
{
    subst.clear();
    extend(subst, pattern, term)
}

/// One substitution that makes each pattern its term: its pairs are those of the variables of both patterns, by first
/// occurrence, those of the left one first. None exactly where there is none.
pub fn matches_both(
    alloc: Global,
    left_pattern: &[Node],
    left_term: &[Node],
    right_pattern: &[Node],
    right_term: &[Node],
) -> Result<Option<Subst>, AllocError>
    requires whole_left_pattern { IsWhole left_pattern.now }
    requires whole_left_term { IsWhole left_term.now }
    requires whole_right_pattern { IsWhole right_pattern.now }
    requires whole_right_term { IsWhole right_term.now }
    requires small_left_term { length left_term.now ≤ MAX_NODES }
    requires small_right_term { length right_term.now ≤ MAX_NODES }
    ensures { IfOk result (λ found. MatchOption found (HasNoMatchOfBoth (tree_of left_pattern.now) (tree_of left_term.now) (tree_of right_pattern.now) (tree_of right_term.now)) (IsMatchOfBoth (tree_of left_pattern.now) (tree_of left_term.now) (tree_of right_pattern.now) (tree_of right_term.now))) }
{
    let mut subst = Subst::new(alloc);
    if !extend(&mut subst, left_pattern, left_term)? {
        return Ok(None);
    }
    if !extend(&mut subst, right_pattern, right_term)? {
        return Ok(None);
    }
    Ok(Some(subst))
}

/// Adds the pairs that the pattern's further variables need so that the substitution makes it the term. False exactly
/// where no substitution that has the pairs so far does; then the substitution is of no further use.
fn extend(subst: &mut Subst, pattern: &[Node], term: &[Node]) -> Result<bool, AllocError>
    requires whole_pattern { IsWhole pattern.now }
    requires whole_term { IsWhole term.now }
    requires small_term { length term.now ≤ MAX_NODES }
    ensures { IfOk result (IsExtended (tree_of pattern.now) (tree_of term.now) subst.old subst.new) }
{
    let mut place = 0;
    for node in pattern {
        match *node {
            Node::Var(x) => {
                let end = end_of(term, place);
                if !bind(subst, x, &term[place..end])? {
                    return Ok(false);
                }
                place = end;
            }
            Node::App(f, n) => {
                if !is_head(term[place], f, n) {
                    return Ok(false);
                }
                place += 1;
            }
        }
    }
    Ok(true)
}

/// Whether the variable's term is this one. Where it has none, it is given this one.
pub fn bind(subst: &mut Subst, x: u32, part: &[Node]) -> Result<bool, AllocError>
    requires whole { IsWhole part.now }
    requires small { length part.now ≤ MAX_NODES }
    ensures { IfOk result (IsBound x (tree_of part.now) subst.old subst.new) }
{
    if let Some(nodes) = subst.get(x) {
        return Ok(same_nodes(nodes, part));
    }
    subst.add(x, part)?;
    Ok(true)
}

/// Whether the node is this symbol with this number of arguments.
#[inline]
pub fn is_head(node: Node, f: Sym, n: u32) -> bool
    ensures { IsTrue result ↔ (node ≡ Node.App f n) }
{
    match node {
        Node::App(g, m) => g == f && m == n,
        Node::Var(_) => false,
    }
}
