//! Unifiers that one walk over both terms finds: each variable takes the term that stands against it. Where no variable that
//! has one occurs in any of these terms, they are a most general unifier. (Such pairs are a solved form: Baader and Nipkow, Term
//! Rewriting and All That, section 4.6.)

ghost use Rattle.std.specs.Prelude.{◌≡◌, ◌<◌, ◌≤◌, ℕ, List, length, slice_index_or, IfOk};
ghost use Rattle.uc_term.specs.declared.node.Node.TheVariants.{Var, App};
ghost use Rattle.uc_term.specs.Tree.{Tree};
ghost use Rattle.uc_term.specs.Flat.{IsWhole, tree_of};
ghost use Rattle.uc_unify.specs.Walking.{ReducedFrom, IsStep, IsWalked};

use crate::firsts::is_var;
use crate::matching::{bind, is_head};
use std::alloc::AllocError;
use uc_term::{MAX_NODES, Node, Subst, Sym, end_of};

/// What a walk over two terms comes to.
#[derive(Clone, Copy)]
pub enum Walked {
    /// They have no unifier.
    Apart,
    /// Their unifiers are the substitutions that give each variable with a pair the instance of its term.
    Reduced,
    /// The walk doesn't tell.
    Unclear,
}

/// What a step of a walk comes to: the walk ends, or goes on at these places.
#[derive(Clone, Copy)]
enum Step {
    Stop(Walked),
    To(usize, usize),
}

/// Walks over two terms, and fills a lent substitution, whatever it was, with the term that stands against each variable.
pub fn walk(s: &[Node], t: &[Node], subst: &mut Subst) -> Result<Walked, AllocError>
    requires whole_s { IsWhole s.now }
    requires whole_t { IsWhole t.now }
    requires small_s { length s.now ≤ MAX_NODES }
    requires small_t { length t.now ≤ MAX_NODES }
    ensures { IfOk result (IsWalked (tree_of s.now) (tree_of t.now) subst.new) }
{
    subst.clear();
    let mut p = 0;
    let mut q = 0;
    while p < s.len() {
        match go_on(s, t, p, q, subst)? {
            Step::To(i, j) => {
                p = i;
                q = j;
            }
            Step::Stop(walked) => return Ok(walked),
        }
    }
    Ok(Walked::Reduced)
}

/// One step of the walk.
fn go_on(s: &[Node], t: &[Node], p: usize, q: usize, subst: &mut Subst) -> Result<Step, AllocError>
    requires whole_s { IsWhole s.now }
    requires whole_t { IsWhole t.now }
    requires small_s { length s.now ≤ MAX_NODES }
    requires small_t { length t.now ≤ MAX_NODES }
    requires within { p < length s.now }
    requires reduced { ReducedFrom s.now t.now p q subst.old }
    ensures { IfOk result (IsStep s.now t.now p subst.new) }
{
    match s[p] {
        Node::Var(x) => go_on_at_var(s, t, p, q, x, subst),
        Node::App(f, n) => go_on_at_app(s, t, p, q, f, n, subst),
    }
}

/// The same where a variable stands in the first term.
fn go_on_at_var(
    s: &[Node],
    t: &[Node],
    p: usize,
    q: usize,
    x: u32,
    subst: &mut Subst,
) -> Result<Step, AllocError>
    requires whole_s { IsWhole s.now }
    requires whole_t { IsWhole t.now }
    requires small_s { length s.now ≤ MAX_NODES }
    requires small_t { length t.now ≤ MAX_NODES }
    requires within { p < length s.now }
    requires reduced { ReducedFrom s.now t.now p q subst.old }
    requires var { slice_index_or s.now p (Var 0) ≡ Var x }
    ensures { IfOk result (IsStep s.now t.now p subst.new) }
{
    if is_var(t[q], x) {
        return Ok(Step::To(p + 1, q + 1));
    }
    let end = end_of(t, q);
    if bind(subst, x, &t[q..end])? {
        Ok(Step::To(p + 1, end))
    } else {
        Ok(Step::Stop(Walked::Unclear))
    }
}

/// The same where a symbol stands in the first term.
fn go_on_at_app(
    s: &[Node],
    t: &[Node],
    p: usize,
    q: usize,
    f: Sym,
    n: u32,
    subst: &mut Subst,
) -> Result<Step, AllocError>
    requires whole_s { IsWhole s.now }
    requires whole_t { IsWhole t.now }
    requires small_s { length s.now ≤ MAX_NODES }
    requires small_t { length t.now ≤ MAX_NODES }
    requires within { p < length s.now }
    requires reduced { ReducedFrom s.now t.now p q subst.old }
    requires app { slice_index_or s.now p (Var 0) ≡ App f n }
    ensures { IfOk result (IsStep s.now t.now p subst.new) }
{
    match t[q] {
        Node::Var(y) => go_on_at_other_var(s, t, p, q, y, subst),
        Node::App(g, m) => Ok(go_on_at_apps(s, t, p, q, f, n, g, m)),
    }
}

/// The same where a variable stands in the second term.
fn go_on_at_other_var(
    s: &[Node],
    t: &[Node],
    p: usize,
    q: usize,
    y: u32,
    subst: &mut Subst,
) -> Result<Step, AllocError>
    requires whole_s { IsWhole s.now }
    requires whole_t { IsWhole t.now }
    requires small_s { length s.now ≤ MAX_NODES }
    requires small_t { length t.now ≤ MAX_NODES }
    requires within { p < length s.now }
    requires reduced { ReducedFrom s.now t.now p q subst.old }
    requires var { slice_index_or t.now q (Var 0) ≡ Var y }
    ensures { IfOk result (IsStep s.now t.now p subst.new) }
{
    let end = end_of(s, p);
    if bind(subst, y, &s[p..end])? {
        Ok(Step::To(end, q + 1))
    } else {
        Ok(Step::Stop(Walked::Unclear))
    }
}

/// The same where a symbol stands in both.
#[inline]
fn go_on_at_apps(s: &[Node], t: &[Node], p: usize, q: usize, f: Sym, n: u32, g: Sym, m: u32) -> Step
    requires whole_s { IsWhole s.now }
    requires whole_t { IsWhole t.now }
    requires small_s { length s.now ≤ MAX_NODES }
    requires small_t { length t.now ≤ MAX_NODES }
    requires within { p < length s.now }
    requires app { slice_index_or s.now p (Var 0) ≡ App f n }
    requires other { slice_index_or t.now q (Var 0) ≡ App g m }
    ensures { (pairs : List (ℕ × Tree)) → ReducedFrom s.now t.now p q pairs → IsStep s.now t.now p pairs result }
{
    if is_head(Node::App(g, m), f, n) {
        Step::To(p + 1, q + 1)
    } else {
        Step::Stop(Walked::Apart)
    }
}
