//! The comparison of two terms that have variables without a counter in a run. It goes up level by level like `climb`, but
//! asks one balance of both terms at each level, so a climb takes time that grows with the nodes alone, however many
//! variables they have. A climb counts 8,192 variables; where others occur there is one climb more for each 8,192 numbers
//! among which a variable is.

ghost use Rattle.std.specs.Prelude.{◌≡◌, ◌≢◌, ◌↔◌, ◌+◌, ℕ, ◌<◌, ◌≤◌, ◌^◌, Bool, Option, IsTrue, length, slice_index_or, take, drop, count_by, false};
ghost use Rattle.uc_term.specs.declared.node.Node.{Node as AnyNode};
ghost use Rattle.uc_term.specs.Flat.{tree_of, IsWhole};
ghost use Rattle.uc_kbo.specs.Kbo.{is_it, None};
ghost use Rattle.uc_kbo.specs.Runs.{Beats, IsVerdict, part, table_weighing, is_counted};
ghost use Rattle.uc_kbo.specs.Balances.{IsBoth, is_asked, AsksFor, has_counter, is_below};

use crate::Weights;
use crate::balance::Balance;
use crate::classes::{Classes, Notes};
use crate::climb::{end_of_terms, heads, heavier};
use crate::run::Run;
use uc_order::Cmp;
use uc_term::{Node, end_of};

/// A run of each of two lists, and their balance.
#[derive(Drop)]
pub struct Both {
    pub first: Run,
    pub second: Run,
    pub balance: Balance,
}

impl Both {
    // The empty runs at a place of both lists.
    fn new(w: &Weights, s: &[Node], t: &[Node], at: usize, base: u32) -> Both
        requires in_s { at ≤ length s.now }
        requires in_t { at ≤ length t.now }
        ensures both { IsBoth (table_weighing w.now.w0 w.now.table.items) s.now t.now result }
        ensures first { result.first.from ≡ at }
        ensures first_to { result.first.to ≡ at }
        ensures second { result.second.from ≡ at }
        ensures second_to { result.second.to ≡ at }
        ensures base { result.balance.base ≡ base }
    {
        Both {
            first: Run::new(at),
            second: Run::new(at),
            balance: Balance::new(base),
        }
    }

    // Takes in the nodes of both lists up to their ends.
    fn extend(&mut self, w: &Weights, s: &[Node], t: &[Node], s_end: usize, t_end: usize)
        requires both { IsBoth (table_weighing w.now.w0 w.now.table.items) s.now t.now self.old }
        requires s_ahead { self.old.first.to ≤ s_end }
        requires t_ahead { self.old.second.to ≤ t_end }
        requires in_s { s_end ≤ length s.now }
        requires in_t { t_end ≤ length t.now }
        requires s_small { length s.now ≤ 16777216 }
        requires t_small { length t.now ≤ 16777216 }
        ensures both { IsBoth (table_weighing w.now.w0 w.now.table.items) s.now t.now self.new }
        ensures first { self.new.first.from ≡ self.old.first.from }
        ensures first_to { self.new.first.to ≡ s_end }
        ensures second { self.new.second.from ≡ self.old.second.from }
        ensures second_to { self.new.second.to ≡ t_end }
        ensures base { self.new.balance.base ≡ self.old.balance.base }
    {
        self.balance.gain_all(&s[self.first.to..s_end]);
        self.balance.lose_all(&t[self.second.to..t_end]);
        let notes = Notes::none(0);
        let none = Classes::none(&notes);
        self.first.extend(w, false, &none, s, s_end);
        self.second.extend(w, false, &none, t, t_end);
    }

    // Weights first, and `equal` where they are equal; and the greater run has all variables of the other that are asked
    // for, which are those that have a counter.
    fn decide(&self, w: &Weights, s: &[Node], t: &[Node], equal: Cmp) -> Cmp
        requires { IsBoth (table_weighing w.now.w0 w.now.table.items) s.now t.now self.now }
        ensures greater { (asked : ℕ → Bool) → AsksFor (has_counter self.now.balance.base) asked (part s.now self.now.first.from self.now.first.to) (part t.now self.now.second.from self.now.second.to) → (result ≡ Cmp.Greater) ↔ Beats (table_weighing w.now.w0 w.now.table.items) (is_asked asked) None (part s.now self.now.first.from self.now.first.to) (part t.now self.now.second.from self.now.second.to) (equal ≡ Cmp.Greater) }
        ensures less { (asked : ℕ → Bool) → AsksFor (has_counter self.now.balance.base) asked (part s.now self.now.first.from self.now.first.to) (part t.now self.now.second.from self.now.second.to) → (result ≡ Cmp.Less) ↔ Beats (table_weighing w.now.w0 w.now.table.items) (is_asked asked) None (part t.now self.now.second.from self.now.second.to) (part s.now self.now.first.from self.now.first.to) (equal ≡ Cmp.Less) }
        ensures differ { result ≢ Cmp.Equal }
    {
        match heavier(self.first.weight, self.second.weight, equal) {
            Cmp::Greater => {
                if self.balance.fewer == 0 {
                    Cmp::Greater
                } else {
                    Cmp::Unknown
                }
            }
            Cmp::Less => {
                if self.balance.more == 0 {
                    Cmp::Less
                } else {
                    Cmp::Unknown
                }
            }
            Cmp::Equal => Cmp::Unknown,
            Cmp::Unknown => Cmp::Unknown,
        }
    }
}

// From the first place where the lists differ, level by level, up to the roots, by the variables from the base on that
// have a counter.
fn climb_from(w: &Weights, s: &[Node], t: &[Node], at: usize, base: u32) -> Cmp
    requires s_whole { IsWhole s.now }
    requires t_whole { IsWhole t.now }
    requires s_small { length s.now ≤ 16777216 }
    requires t_small { length t.now ≤ 16777216 }
    requires in_s { at < length s.now }
    requires in_t { at < length t.now }
    requires common { take at s.now ≡ take at t.now }
    requires differ { (d : AnyNode) → slice_index_or s.now at d ≢ slice_index_or t.now at d }
    ensures { (asked : ℕ → Bool) → AsksFor (has_counter base) asked (drop at s.now) (drop at t.now) → IsVerdict (table_weighing w.now.w0 w.now.table.items) (is_asked asked) None result (tree_of s.now) (tree_of t.now) }
{
    let mut both = Both::new(w, s, t, at, base);
    let s_end = end_of(s, at);
    let t_end = end_of(t, at);
    both.extend(w, s, t, s_end, t_end);
    let notes = Notes::none(0);
    let inner = heads(w, false, &Classes::none(&notes), s, t, at);
    let mut verdict = both.decide(w, s, t, inner);
    let mut part = at;
    let mut from = at;
    let mut done: usize = 0;
    while from > 0 {
        from -= 1;
        match s[from] {
            Node::Var(_) => done += 1,
            Node::App(_, n) => {
                let arity = n as usize;
                if arity <= done {
                    done = done - arity + 1;
                } else {
                    let left = arity - done - 1;
                    let s_end = end_of_terms(s, both.first.to, left);
                    let t_end = end_of_terms(t, both.second.to, left);
                    both.extend(w, s, t, s_end, t_end);
                    verdict = both.decide(w, s, t, verdict);
                    part = from;
                    done = 0;
                }
            }
        }
    }
    verdict
}

// The node's variable, where it is `from` or above and below the least one so far.
fn lesser(node: Node, from: u64, least: Option<u32>) -> Option<u32>
    ensures here { (k : ℕ) → from ≤ k → IsTrue (is_below result k) → is_counted (is_it k) node ≡ false }
    ensures less { (k : ℕ) → IsTrue (is_below result k) → IsTrue (is_below least k) }
    ensures from { ((k : ℕ) → k < from → IsTrue (is_below least k)) → (k : ℕ) → k < from → IsTrue (is_below result k) }
{
    match node {
        Node::Var(x) => {
            if (x as u64) < from {
                return least;
            }
            match least {
                Some(y) => { if x < y { Some(x) } else { least } }
                None => Some(x),
            }
        }
        Node::App(_, _) => least,
    }
}

// The least variable of the nodes that is `from` or above, where it is below the least one so far.
fn least_of(nodes: &[Node], from: u64, least: Option<u32>) -> Option<u32>
    ensures here { (k : ℕ) → from ≤ k → IsTrue (is_below result k) → count_by (is_counted (is_it k)) nodes.now ≡ 0 }
    ensures less { (k : ℕ) → IsTrue (is_below result k) → IsTrue (is_below least k) }
    ensures from { ((k : ℕ) → k < from → IsTrue (is_below least k)) → (k : ℕ) → k < from → IsTrue (is_below result k) }
{
    let mut result = least;
    for n in nodes {
        result = lesser(*n, from, result);
    }
    result
}

// The least variable of both lists that is `from` or above.
fn next_variable(s: &[Node], t: &[Node], from: u64) -> Option<u32>
    ensures none { (k : ℕ) → from ≤ k → IsTrue (is_below result k) → count_by (is_counted (is_it k)) s.now + count_by (is_counted (is_it k)) t.now ≡ 0 }
    ensures from { (k : ℕ) → k < from → IsTrue (is_below result k) }
{
    least_of(t, from, least_of(s, from, None))
}

// The number behind the last one that has a counter.
fn past(base: u32) -> u64
    ensures value { result ≡ base + 8192 }
    ensures small { result < 2 ^ 32 + 8192 }
{
    base as u64 + 8192
}

// What two verdicts have in common.
fn agreed(a: Cmp, b: Cmp) -> Cmp
    ensures greater { (result ≡ Cmp.Greater) ↔ ((a ≡ Cmp.Greater) × (b ≡ Cmp.Greater)) }
    ensures less { (result ≡ Cmp.Less) ↔ ((a ≡ Cmp.Less) × (b ≡ Cmp.Less)) }
    ensures equal { result ≡ Cmp.Equal → a ≡ Cmp.Equal }
{
    if a == b { a } else { Cmp::Unknown }
}

// The order of two terms from the first place where they differ. Each climb asks for some of the variables, and a term is
// greater where each climb says so. Its stack holds the counters of a balance, and that of the other terms' comparison
// doesn't: so it is kept apart.
#[cold]
#[inline(never)]
pub fn compare_wide(w: &Weights, s: &[Node], t: &[Node], at: usize) -> Cmp
    requires s_whole { IsWhole s.now }
    requires t_whole { IsWhole t.now }
    requires s_small { length s.now ≤ 16777216 }
    requires t_small { length t.now ≤ 16777216 }
    requires in_s { at < length s.now }
    requires in_t { at < length t.now }
    requires common { take at s.now ≡ take at t.now }
    requires differ { (d : AnyNode) → slice_index_or s.now at d ≢ slice_index_or t.now at d }
    ensures { IsVerdict (table_weighing w.now.w0 w.now.table.items) is_it None result (tree_of s.now) (tree_of t.now) }
{
    let mut verdict = climb_from(w, s, t, at, 0);
    let mut next = next_variable(&s[at..], &t[at..], 8192);
    while let Some(base) = next {
        let more = climb_from(w, s, t, at, base);
        verdict = agreed(verdict, more);
        next = next_variable(&s[at..], &t[at..], past(base));
    }
    verdict
}
