//! A comparison of two flat terms, from the first place where they differ up to the roots. It takes no memory and does
//! not recurse (Löchner, Things to Know when Implementing KBO, 2006).

ghost use Rattle.std.specs.Prelude.{◌≡◌, ◌≢◌, ◌↔◌, ℕ, ◌+◌, ◌<◌, ◌≤◌, IsTrue, length, slice_index_or, take, drop, ◌⊎◌};
ghost use Rattle.uc_term.specs.declared.node.Node.{Node as AnyNode};
ghost use Rattle.uc_term.specs.Tree.{nodes_all, of_list};
ghost use Rattle.uc_term.specs.Flat.{tree_of, spelled, IsWhole, AreWhole};
ghost use Rattle.uc_kbo.specs.Kbo.{Kbo};
ghost use Rattle.uc_kbo.specs.Runs.{IsRun, Beats, IsVerdict, IsOver, IsStack, part, read_by, slot_by, test_by, above_by, table_weighing};

use crate::Weights;
use crate::classes::Classes;
use crate::covers::has_all;
use crate::run::{Run, read};
use crate::wide::compare_wide;
use uc_order::Cmp;
use uc_term::Node;

// Weights first, and `equal` where they are equal; and the greater run has all variables of the other.
#[inline]
fn decide(
    w: &Weights,
    under: bool,
    classes: &Classes,
    s: &[Node],
    t: &[Node],
    a: &Run,
    b: &Run,
    equal: Cmp,
) -> Cmp
    requires a { IsRun (table_weighing w.now.w0 w.now.table.items) (slot_by under classes.now) (read_by under classes.now s.now) a.now }
    requires b { IsRun (table_weighing w.now.w0 w.now.table.items) (slot_by under classes.now) (read_by under classes.now t.now) b.now }
    ensures greater { (result ≡ Cmp.Greater) ↔ Beats (table_weighing w.now.w0 w.now.table.items) (test_by under classes.now) (above_by under classes.now) (part (read_by under classes.now s.now) a.now.from a.now.to) (part (read_by under classes.now t.now) b.now.from b.now.to) (equal ≡ Cmp.Greater) }
    ensures less { (result ≡ Cmp.Less) ↔ Beats (table_weighing w.now.w0 w.now.table.items) (test_by under classes.now) (above_by under classes.now) (part (read_by under classes.now t.now) b.now.from b.now.to) (part (read_by under classes.now s.now) a.now.from a.now.to) (equal ≡ Cmp.Less) }
    ensures differ { result ≢ Cmp.Equal }
{
    let way = heavier(a.weight, b.weight, equal);
    match way {
        Cmp::Greater => {
            if has_all(w, under, classes, s, t, a, b) {
                Cmp::Greater
            } else {
                Cmp::Unknown
            }
        }
        Cmp::Less => {
            if has_all(w, under, classes, t, s, b, a) {
                Cmp::Less
            } else {
                Cmp::Unknown
            }
        }
        Cmp::Equal => Cmp::Unknown,
        Cmp::Unknown => Cmp::Unknown,
    }
}

#[inline]
pub fn heavier(a: u64, b: u64, equal: Cmp) -> Cmp
    ensures greater { (result ≡ Cmp.Greater) ↔ ((b < a) ⊎ ((a ≡ b) × (equal ≡ Cmp.Greater))) }
    ensures less { (result ≡ Cmp.Less) ↔ ((a < b) ⊎ ((b ≡ a) × (equal ≡ Cmp.Less))) }
{
    if b < a {
        Cmp::Greater
    } else if a < b {
        Cmp::Less
    } else {
        equal
    }
}

#[inline]
fn is_same(a: Node, b: Node) -> bool
    ensures { IsTrue result ↔ (a ≡ b) }
{
    a == b
}

// Where the two lists first differ, as they are read.
#[inline]
fn first_difference(under: bool, classes: &Classes, s: &[Node], t: &[Node]) -> usize
    ensures in_s { result ≤ length s.now }
    ensures in_t { result ≤ length t.now }
    ensures common { take result (read_by under classes.now s.now) ≡ take result (read_by under classes.now t.now) }
    ensures differ { result < length s.now → result < length t.now → (d : AnyNode) → slice_index_or (read_by under classes.now s.now) result d ≢ slice_index_or (read_by under classes.now t.now) result d }
{
    let mut at = 0;
    while at < s.len() && at < t.len() {
        if !is_same(read(under, classes, s[at]), read(under, classes, t[at])) {
            return at;
        }
        at += 1;
    }
    at
}

// Where `count` terms from a place on end.
#[inline]
pub fn end_of_terms(list: &[Node], from: usize, count: usize) -> usize
    requires whole { AreWhole list.now }
    requires enough { count ≤ length (spelled (drop from list.now)) }
    requires within { from ≤ length list.now }
    requires small { length list.now ≤ 16777216 }
    ensures end { result ≡ from + nodes_all (of_list (take count (spelled (drop from list.now)))) }
    ensures in_list { result ≤ length list.now }
{
    let mut end = from;
    let mut pending = count;
    while pending > 0 {
        match list[end] {
            Node::Var(_) => pending -= 1,
            Node::App(_, arity) => pending = pending - 1 + arity as usize,
        }
        end += 1;
    }
    end
}

// Whether x is above y in the order of variables.
#[inline]
fn is_above(under: bool, classes: &Classes, x: u32, y: u32) -> bool
    ensures { IsTrue result ↔ above_by under classes.now x y }
{
    if under {
        classes.number_of(y) < classes.number_of(x)
    } else {
        false
    }
}

// From a place on there are unary symbols of weight 0, and then a variable that is x or above it.
#[cold]
fn is_stack(w: &Weights, under: bool, classes: &Classes, list: &[Node], from: usize, x: u32) -> bool
    requires { from ≤ length list.now }
    ensures { IsTrue result ↔ IsStack (table_weighing w.now.w0 w.now.table.items) (test_by under classes.now) (above_by under classes.now) (drop from (read_by under classes.now list.now)) x }
{
    let mut at = from;
    while at < list.len() {
        match read(under, classes, list[at]) {
            Node::Var(y) => return y == x || is_above(under, classes, y, x),
            Node::App(f, n) => {
                if n != 1 || w.weight_of(f, n) != 0 {
                    return false;
                }
            }
        }
        at += 1;
    }
    false
}

// What the heads at a place say, where they differ.
#[inline]
pub fn heads(w: &Weights, under: bool, classes: &Classes, s: &[Node], t: &[Node], at: usize) -> Cmp
    requires in_s { at < length s.now }
    requires in_t { at < length t.now }
    ensures greater { (result ≡ Cmp.Greater) ↔ IsOver (table_weighing w.now.w0 w.now.table.items) (test_by under classes.now) (above_by under classes.now) (drop at (read_by under classes.now s.now)) (drop at (read_by under classes.now t.now)) }
    ensures less { (result ≡ Cmp.Less) ↔ IsOver (table_weighing w.now.w0 w.now.table.items) (test_by under classes.now) (above_by under classes.now) (drop at (read_by under classes.now t.now)) (drop at (read_by under classes.now s.now)) }
{
    match read(under, classes, s[at]) {
        Node::Var(x) => match read(under, classes, t[at]) {
            Node::Var(y) => variables(under, classes, x, y),
            Node::App(_, _) => {
                if is_stack(w, under, classes, t, at, x) {
                    Cmp::Less
                } else {
                    Cmp::Unknown
                }
            }
        },
        Node::App(f, n) => match read(under, classes, t[at]) {
            Node::Var(y) => {
                if is_stack(w, under, classes, s, at, y) {
                    Cmp::Greater
                } else {
                    Cmp::Unknown
                }
            }
            Node::App(g, m) => ranks(w.rank_of(f, n), w.rank_of(g, m)),
        },
    }
}

#[inline]
fn variables(under: bool, classes: &Classes, x: u32, y: u32) -> Cmp
    ensures greater { (result ≡ Cmp.Greater) ↔ above_by under classes.now x y }
    ensures less { (result ≡ Cmp.Less) ↔ above_by under classes.now y x }
{
    if is_above(under, classes, x, y) {
        Cmp::Greater
    } else if is_above(under, classes, y, x) {
        Cmp::Less
    } else {
        Cmp::Unknown
    }
}

#[inline]
fn ranks(a: usize, b: usize) -> Cmp
    ensures greater { (result ≡ Cmp.Greater) ↔ (b < a) }
    ensures less { (result ≡ Cmp.Less) ↔ (a < b) }
{
    if b < a {
        Cmp::Greater
    } else if a < b {
        Cmp::Less
    } else {
        Cmp::Unknown
    }
}

// From the first place where the lists differ, level by level, up to the roots.
#[inline]
fn climb(w: &Weights, under: bool, classes: &Classes, s: &[Node], t: &[Node], at: usize) -> Cmp
    requires s_whole { IsWhole s.now }
    requires t_whole { IsWhole t.now }
    requires s_small { length s.now ≤ 16777216 }
    requires t_small { length t.now ≤ 16777216 }
    requires in_s { at < length s.now }
    requires in_t { at < length t.now }
    requires common { take at (read_by under classes.now s.now) ≡ take at (read_by under classes.now t.now) }
    requires differ { (d : AnyNode) → slice_index_or (read_by under classes.now s.now) at d ≢ slice_index_or (read_by under classes.now t.now) at d }
    ensures { IsVerdict (table_weighing w.now.w0 w.now.table.items) (test_by under classes.now) (above_by under classes.now) result (tree_of (read_by under classes.now s.now)) (tree_of (read_by under classes.now t.now)) }
{
    let mut a = Run::new(at);
    a.extend_terms(w, under, classes, s, 1);
    let mut b = Run::new(at);
    b.extend_terms(w, under, classes, t, 1);
    let inner = heads(w, under, classes, s, t, at);
    let mut verdict = decide(w, under, classes, s, t, &a, &b, inner);
    let mut part = at;
    let mut from = at;
    let mut done: usize = 0;
    while from > 0 {
        from -= 1;
        match s[from] {
            Node::Var(_) => done += 1,
            Node::App(_, n) => {
                let arity = n as usize;
                if arity <= done {
                    done = done - arity + 1;
                } else {
                    let left = arity - done - 1;
                    a.extend_terms(w, under, classes, s, left);
                    b.extend_terms(w, under, classes, t, left);
                    verdict = decide(w, under, classes, s, t, &a, &b, verdict);
                    part = from;
                    done = 0;
                }
            }
        }
    }
    verdict
}

// The order of two terms, as they are read.
#[inline]
pub fn compare_by(w: &Weights, under: bool, classes: &Classes, s: &[Node], t: &[Node]) -> Cmp
    requires s_whole { IsWhole s.now }
    requires t_whole { IsWhole t.now }
    requires s_small { length s.now ≤ 16777216 }
    requires t_small { length t.now ≤ 16777216 }
    ensures greater { (result ≡ Cmp.Greater) ↔ Kbo (table_weighing w.now.w0 w.now.table.items) (test_by under classes.now) (above_by under classes.now) (tree_of (read_by under classes.now s.now)) (tree_of (read_by under classes.now t.now)) }
    ensures less { (result ≡ Cmp.Less) ↔ Kbo (table_weighing w.now.w0 w.now.table.items) (test_by under classes.now) (above_by under classes.now) (tree_of (read_by under classes.now t.now)) (tree_of (read_by under classes.now s.now)) }
    ensures equal { (result ≡ Cmp.Equal) ↔ (tree_of (read_by under classes.now s.now) ≡ tree_of (read_by under classes.now t.now)) }
{
    let at = first_difference(under, classes, s, t);
    if at >= s.len() || at >= t.len() {
        return Cmp::Equal;
    }
    // Terms of one length often weigh as much, and then the weights of the whole terms decide nothing.
    if under && s.len() == t.len() {
        return climb(w, under, classes, s, t, at);
    }
    let mut a = Run::new(at);
    a.extend(w, under, classes, s, s.len());
    let mut b = Run::new(at);
    b.extend(w, under, classes, t, t.len());
    if !under && (a.has_large || b.has_large) {
        return compare_wide(w, s, t, at);
    }
    if a.weight != b.weight {
        decide(w, under, classes, s, t, &a, &b, Cmp::Unknown)
    } else {
        climb(w, under, classes, s, t, at)
    }
}
