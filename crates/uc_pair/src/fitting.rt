//! Where two terms may unify: a test that takes no memory.

ghost use Rattle.std.specs.Prelude.{◌≡◌, ◌↔◌, ◌<◌, ◌≤◌, ℕ, length, IsTrue, false, MatchOption};
ghost use Rattle.uc_term.specs.Flat.{tree_of, IsWhole};
ghost use Rattle.uc_pair.specs.Fitting.{NeverMeet, MeetFrom, WalksOn, HasNoFit, IsFitAt, IsNextFit, FitsNowhere};

use uc_term::{MAX_NODES, Node, Sym, Term, end_of};

/// A part of a term: its place, and the place behind it.
#[derive(Clone, Copy)]
pub(crate) struct Part {
    pub(crate) place: u32,
    pub(crate) end: u32,
}

/// The first part of the outer side, from a place on, at which a symbol stands and which may unify with the inner side. It takes
/// no memory.
pub(crate) fn next_fit(outer: &Term, inner: &Term, from: u32) -> Option<Part>
    ensures { MatchOption result (FitsNowhere outer.now inner.now from) (IsNextFit outer.now inner.now from) }
{
    for place in from..outer.nodes() {
        if let Some(part) = fit_at(outer.as_nodes(), place, inner.as_nodes()) {
            return Some(part);
        }
    }
    None
}

/// The part at the place, where a symbol stands there and the part has the same symbols as the inner side where both have one.
/// It takes no memory. Most places fail at their first symbol, so that one is looked at before the part's end is sought.
fn fit_at(outer: &[Node], place: u32, inner: &[Node]) -> Option<Part>
    requires whole_outer { IsWhole outer.now }
    requires whole_inner { IsWhole inner.now }
    requires small_outer { length outer.now ≤ MAX_NODES }
    requires small_inner { length inner.now ≤ MAX_NODES }
    requires within { place < length outer.now }
    ensures { MatchOption result (HasNoFit (tree_of outer.now) (tree_of inner.now) place) (IsFitAt (tree_of outer.now) place) }
{
    let from = place as usize;
    match outer[from] {
        Node::Var(_) => None,
        Node::App(f, n) => {
            if is_other_head(inner[0], f, n) {
                return None;
            }
            let end = end_of(outer, from);
            if fits(&outer[from..end], inner) {
                Some(Part {
                    place,
                    end: end as u32,
                })
            } else {
                None
            }
        }
    }
}

/// Whether the two terms have the same symbols where both have one.
fn fits(s: &[Node], t: &[Node]) -> bool
    requires whole_s { IsWhole s.now }
    requires whole_t { IsWhole t.now }
    requires small_s { length s.now ≤ MAX_NODES }
    requires small_t { length t.now ≤ MAX_NODES }
    ensures { result ≡ false → NeverMeet (tree_of s.now) (tree_of t.now) }
{
    let mut p = 0;
    let mut q = 0;
    while p < s.len() {
        match next_places(s, t, p, q) {
            Some(next) => {
                p = next.0;
                q = next.1;
            }
            None => return false,
        }
    }
    true
}

/// The places behind two nodes: where one of them is a variable, behind the term that stands against it. None where two
/// different symbols stand.
fn next_places(s: &[Node], t: &[Node], p: usize, q: usize) -> Option<(usize, usize)>
    requires whole_s { IsWhole s.now }
    requires whole_t { IsWhole t.now }
    requires small_s { length s.now ≤ MAX_NODES }
    requires small_t { length t.now ≤ MAX_NODES }
    requires within { p < length s.now }
    requires meets { MeetFrom s.now t.now p q }
    ensures { MatchOption result (NeverMeet (tree_of s.now) (tree_of t.now)) (WalksOn s.now t.now p) }
{
    match s[p] {
        Node::Var(_) => Some((p + 1, end_of(t, q))),
        Node::App(f, n) => {
            if is_var(t[q]) {
                return Some((end_of(s, p), q + 1));
            }
            if is_head(t[q], f, n) {
                Some((p + 1, q + 1))
            } else {
                None
            }
        }
    }
}

/// Whether the node is another symbol than this one with this number of arguments.
#[inline]
fn is_other_head(node: Node, f: Sym, n: u32) -> bool
    ensures not_var { IsTrue result → (x : ℕ) → node ≡ Node.Var x → ⊥ }
    ensures not_head { IsTrue result → node ≡ Node.App f n → ⊥ }
{
    if let Node::App(g, m) = node {
        g != f || m != n
    } else {
        false
    }
}

/// Whether the node is a variable.
#[inline]
fn is_var(node: Node) -> bool
    ensures is { IsTrue result → (x : ℕ) × (node ≡ Node.Var x) }
    ensures not { result ≡ false → (x : ℕ) → node ≡ Node.Var x → ⊥ }
{
    match node {
        Node::Var(_) => true,
        Node::App(_, _) => false,
    }
}

/// Whether the node is this symbol with this number of arguments.
#[inline]
fn is_head(node: Node, f: Sym, n: u32) -> bool
    ensures { IsTrue result ↔ (node ≡ Node.App f n) }
{
    if let Node::App(g, m) = node {
        g == f && m == n
    } else {
        false
    }
}
