//! Whether a run has all variables of another.

ghost use Rattle.std.specs.Prelude.{◌≡◌, ◌↔◌, ℕ, ◌<◌, ◌≤◌, IsTrue, true, length, slice_index, drop, sum, count_by};
ghost use Rattle.uc_order.specs.Renamed.{renamed_node};
ghost use Rattle.uc_kbo.specs.Kbo.{is_it, is_from};
ghost use Rattle.uc_kbo.specs.Runs.{IsRun, image_by, HasAll, part, read_by, slot_by, test_by, table_weighing, is_counted};

use crate::Weights;
use crate::classes::Classes;
use crate::run::{Run, slot};
use uc_term::Node;

// No variable is more often in the second run than in the first; under an order of variables, no more are of a class and
// the greater ones.
#[inline]
pub fn has_all(
    w: &Weights,
    under: bool,
    classes: &Classes,
    s: &[Node],
    t: &[Node],
    a: &Run,
    b: &Run,
) -> bool
    requires a { IsRun (table_weighing w.now.w0 w.now.table.items) (slot_by under classes.now) (read_by under classes.now s.now) a.now }
    requires b { IsRun (table_weighing w.now.w0 w.now.table.items) (slot_by under classes.now) (read_by under classes.now t.now) b.now }
    ensures { IsTrue result ↔ HasAll (test_by under classes.now) (part (read_by under classes.now s.now) a.now.from a.now.to) (part (read_by under classes.now t.now) b.now.from b.now.to) }
{
    if a.has_large || b.has_large {
        return has_all_nodes(under, classes, &s[a.from..a.to], &t[b.from..b.to]);
    }
    if under {
        has_from(a, b, counters(classes))
    } else {
        has_each(a, b)
    }
}

// Each counter of the first run is as great as that of the second. All are looked at, so that it is done several at a time.
#[inline]
fn has_each(a: &Run, b: &Run) -> bool
    requires a { length a.now.counts ≡ 32 }
    requires b { length b.now.counts ≡ 32 }
    ensures { IsTrue result ↔ ((i : ℕ) → i < 32 → slice_index b.now.counts i ≤ slice_index a.now.counts i) }
{
    let mut all = true;
    for i in 0..32 {
        if a.counts[i] < b.counts[i] {
            all = false;
        }
    }
    all
}

// How many counters may stand above 0: one for each class, and one for the variables that are in none.
#[inline]
fn counters(classes: &Classes) -> usize
    ensures within { result ≤ 32 }
    ensures beyond { (i : ℕ) → result ≤ i → i < 32 → length classes.now < i }
{
    let many = classes.as_slice().len();
    if many < 32 { many + 1 } else { 32 }
}

// From each counter on the sum of the first run is as great as that of the second. The counters from `end` on stand at 0.
#[inline]
fn has_from(a: &Run, b: &Run, end: usize) -> bool
    requires a { length a.now.counts ≡ 32 }
    requires b { length b.now.counts ≡ 32 }
    requires within { end ≤ 32 }
    requires a_rest { (i : ℕ) → end ≤ i → i < 32 → slice_index a.now.counts i ≡ 0 }
    requires b_rest { (i : ℕ) → end ≤ i → i < 32 → slice_index b.now.counts i ≡ 0 }
    ensures { IsTrue result ↔ ((i : ℕ) → i ≤ 32 → sum (drop i b.now.counts) ≤ sum (drop i a.now.counts)) }
{
    let mut ours: u64 = 0;
    let mut theirs: u64 = 0;
    let mut at = end;
    while at > 0 {
        at -= 1;
        let mine: u32 = a.counts[at];
        let other: u32 = b.counts[at];
        ours += mine as u64;
        theirs += other as u64;
        if ours < theirs {
            return false;
        }
    }
    true
}

// The same by counting anew for each variable or class. Only under an order of variables do terms come here, those with a
// variable whose class has no counter; without one `compare_wide` has them.
#[cold]
fn has_all_nodes(under: bool, classes: &Classes, s: &[Node], t: &[Node]) -> bool
    ensures { IsTrue result ↔ HasAll (test_by under classes.now) (read_by under classes.now s.now) (read_by under classes.now t.now) }
{
    if under {
        has_all_classes(classes, s, t)
    } else {
        has_all_variables(s, t)
    }
}

fn has_all_variables(s: &[Node], t: &[Node]) -> bool
    ensures { IsTrue result ↔ HasAll is_it s.now t.now }
{
    for n in t {
        if let Node::Var(x) = *n {
            if occurrences(x, t) > occurrences(x, s) {
                return false;
            }
        }
    }
    true
}

fn occurrences(x: u32, list: &[Node]) -> usize
    ensures { result ≡ count_by (is_counted (is_it x)) list.now }
{
    list.iter()
        .filter(|n| match **n {
            Node::Var(y) => y == x,
            Node::App(_, _) => false,
        })
        .count()
}

fn has_all_classes(classes: &Classes, s: &[Node], t: &[Node]) -> bool
    ensures { IsTrue result ↔ HasAll (is_from classes.now) (read_by true classes.now s.now) (read_by true classes.now t.now) }
{
    let mut k = 0;
    while k <= classes.as_slice().len() {
        if count_from(classes, t, k) > count_from(classes, s, k) {
            return false;
        }
        k += 1;
    }
    true
}

// How many variables are of the class of this number or a greater one.
fn count_from(classes: &Classes, list: &[Node], k: usize) -> usize
    ensures value { result ≡ count_by (is_counted (is_from classes.now k)) (read_by true classes.now list.now) }
    ensures small { result ≤ length list.now }
{
    let mut count = 0;
    for i in 0..list.len() {
        if is_node_from(classes, list[i], k) {
            count += 1;
        }
    }
    count
}

fn is_node_from(classes: &Classes, node: Node, k: usize) -> bool
    ensures { result ≡ is_counted (is_from classes.now k) (renamed_node (image_by true classes.now) node) }
{
    match node {
        Node::Var(x) => slot(true, classes, classes.first_of(x)) >= k,
        Node::App(_, _) => false,
    }
}
