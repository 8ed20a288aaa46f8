//! Terms that come of another one by leaving symbols out. Such a term is the same or smaller in every order for which subterms are
//! smaller and contexts are kept, so that no order need be asked about it. (Baader and Nipkow, Term Rewriting and All That,
//! section 5.4.)

ghost use Rattle.std.specs.Prelude.{◌≡◌, ◌+◌, ◌*◌, ◌<◌, ◌≤◌, ◌↔◌, IsTrue, length, drop, slice_get, Some};
ghost use Rattle.uc_term.specs.Tree.{var};
ghost use Rattle.uc_term.specs.Flat.{IsWhole, tree_of};
ghost use Rattle.uc_unify.specs.Closure.{at, values};
ghost use Rattle.uc_unify.proofs.Fitting.{Fits};
ghost use Rattle.uc_term.specs.declared.node.Node.TheVariants.{App};
ghost use Rattle.uc_fact.specs.Embedding.{Embedded, EmbeddedInOne, AreEmbedded, AreMarked};

use crate::instance::is_head;
use uc_term::{Node, Sym, Term, end_of};

/// The most nodes of each of two terms for which the table is filled.
const MOST: usize = 32;

/// Tells that a term is embedded in another one, where it is a variable or both have at most 32 nodes; of others nothing is
/// told. It takes no memory.
pub fn is_embedded(term: &Term, other: &Term) -> bool
    ensures { IsTrue result → Embedded term.now other.now }
{
    match term.as_nodes()[0] {
        Node::Var(x) => has_variable(other.as_nodes(), x),
        Node::App(_, _) => is_small_embedded(term.as_nodes(), other.as_nodes()),
    }
}

/// Tells that a variable occurs in a term.
fn has_variable(nodes: &[Node], x: u32) -> bool
    requires { IsWhole nodes.now }
    ensures { IsTrue result → Embedded (var x) (tree_of nodes.now) }
{
    for node in nodes {
        if is_var(*node, x) {
            return true;
        }
    }
    false
}

/// Whether the node is this variable.
#[inline]
fn is_var(node: Node, x: u32) -> bool
    ensures { IsTrue result ↔ (node ≡ Node.Var x) }
{
    match node {
        Node::Var(y) => y == x,
        Node::App(_, _) => false,
    }
}

/// Tells that a term is embedded in another one, where both have at most 32 nodes.
fn is_small_embedded(s: &[Node], t: &[Node]) -> bool
    requires whole_s { IsWhole s.now }
    requires whole_t { IsWhole t.now }
    ensures { IsTrue result → Embedded (tree_of s.now) (tree_of t.now) }
{
    if s.len() > MOST || t.len() > MOST {
        return false;
    }
    let mut table = [false; 1024];
    mark_rows(s, t, &mut table);
    table[0]
}

/// Marks which subterms of the first list are embedded in which ones of the second list, from the last ones on.
fn mark_rows(s: &[Node], t: &[Node], table: &mut [bool])
    requires whole_s { IsWhole s.now }
    requires whole_t { IsWhole t.now }
    requires small_s { length s.now ≤ MOST }
    requires small_t { length t.now ≤ MOST }
    requires marked { AreMarked s.now t.now table.old }
    ensures marked { AreMarked s.now t.now table.new }
{
    let mut p = s.len();
    while p > 0 {
        p -= 1;
        mark_row(s, t, table, p);
    }
}

/// Marks in which subterms of the second list that one of the first list is embedded that stands at a place.
fn mark_row(s: &[Node], t: &[Node], table: &mut [bool], p: usize)
    requires whole_s { IsWhole s.now }
    requires whole_t { IsWhole t.now }
    requires small_s { length s.now ≤ MOST }
    requires small_t { length t.now ≤ MOST }
    requires within { p < length s.now }
    requires marked { AreMarked s.now t.now table.old }
    ensures marked { AreMarked s.now t.now table.new }
{
    let mut q = t.len();
    while q > 0 {
        q -= 1;
        let embedded = is_embedded_at(s, t, table, p, q);
        table[p * MOST + q] = embedded;
    }
}

/// Whether the marks tell that the subterm at the first place is embedded in that at the second one.
fn is_embedded_at(s: &[Node], t: &[Node], table: &[bool], p: usize, q: usize) -> bool
    requires whole_s { IsWhole s.now }
    requires whole_t { IsWhole t.now }
    requires small_s { length s.now ≤ MOST }
    requires small_t { length t.now ≤ MOST }
    requires p_within { p < length s.now }
    requires q_within { q < length t.now }
    requires marked { AreMarked s.now t.now table.now }
    ensures { IsTrue result → Embedded (at s.now p) (at t.now q) }
{
    match t[q] {
        Node::Var(x) => is_var(s[p], x),
        Node::App(f, n) => {
            if has_embedded_arguments(s, t, table, p, q, f, n) {
                return true;
            }
            is_in_one(s, t, table, p, q + 1, n)
        }
    }
}

/// Whether the symbol at the second place stands at the first one, and the marks tell that its arguments there are embedded in
/// those here.
fn has_embedded_arguments(
    s: &[Node],
    t: &[Node],
    table: &[bool],
    p: usize,
    q: usize,
    f: Sym,
    n: u32,
) -> bool
    requires whole_s { IsWhole s.now }
    requires whole_t { IsWhole t.now }
    requires small_s { length s.now ≤ MOST }
    requires small_t { length t.now ≤ MOST }
    requires p_within { p < length s.now }
    requires symbol { slice_get t.now q ≡ Some (App f n) }
    requires marked { AreMarked s.now t.now table.now }
    ensures { IsTrue result → Embedded (at s.now p) (at t.now q) }
{
    if is_head(s[p], f, n) {
        are_embedded(s, t, table, p + 1, q + 1, n)
    } else {
        false
    }
}

/// Whether the marks tell that the subterm at the first place is embedded in one of so many terms from the second place on.
fn is_in_one(s: &[Node], t: &[Node], table: &[bool], p: usize, q: usize, n: u32) -> bool
    requires whole_t { IsWhole t.now }
    requires small_s { length s.now ≤ MOST }
    requires small_t { length t.now ≤ MOST }
    requires within { p < length s.now }
    requires fits { Fits t.now q n }
    requires marked { AreMarked s.now t.now table.now }
    ensures { IsTrue result → EmbeddedInOne (at s.now p) (values (at t.now) t.now q n) }
{
    if n == 0 {
        return false;
    }
    if table[p * MOST + q] {
        return true;
    }
    is_in_one(s, t, table, p, end_of(t, q), n - 1)
}

/// Whether the marks tell that so many terms from the first place on are embedded in those from the second place on, each in one.
fn are_embedded(s: &[Node], t: &[Node], table: &[bool], p: usize, q: usize, n: u32) -> bool
    requires whole_s { IsWhole s.now }
    requires whole_t { IsWhole t.now }
    requires small_s { length s.now ≤ MOST }
    requires small_t { length t.now ≤ MOST }
    requires p_fits { Fits s.now p n }
    requires q_fits { Fits t.now q n }
    requires marked { AreMarked s.now t.now table.now }
    ensures { IsTrue result → AreEmbedded (values (at s.now) s.now p n) (values (at t.now) t.now q n) }
{
    if n == 0 {
        return true;
    }
    if table[p * MOST + q] {
        are_embedded(s, t, table, end_of(s, p), end_of(t, q), n - 1)
    } else {
        false
    }
}
