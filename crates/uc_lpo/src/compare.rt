//! Whether one flat term is greater than another, by positions, with no memory and recursion that is never as deep as a
//! term.
//!
//! Löchner, Things to know when implementing LPO (International Journal on Artificial Intelligence Tools 15, 2006): where
//! the heads are equal, the first arguments that differ tell which side can be greater, so that the further arguments of
//! one side alone are compared with the other term. Two scans pass over heads that can't decide.
//!
//! The comparison of two parts that both have more than half the nodes of their terms is put off until all others are
//! made, and then taken in place of the terms'. There is at most one, since two subterms beside one another can't both
//! have more than half. So each call of `greater` inside another one halves a side, and terms of at most 16,777,216 nodes
//! need at most 48 calls one in another, whatever their depth.

ghost use Rattle.std.specs.Prelude.{◌≡◌, ◌≢◌, ◌↔◌, ℕ, ◌+◌, ◌<◌, ◌≤◌, IsTrue, length, slice_index_or, take, drop};
ghost use Rattle.uc_term.specs.declared.node.Node.{Node as AnyNode};
ghost use Rattle.uc_term.specs.Flat.{tree_of, trees_of, IsWhole, AreWhole};
ghost use Rattle.uc_order.specs.VarOrders.{representative, IsHigher};
ghost use Rattle.uc_order.specs.Renamed.{renamed_nodes};
ghost use Rattle.uc_lpo.specs.PathOrder.{PathOrder, SomeReaches, Exceeds};
ghost use Rattle.uc_lpo.specs.Shown.{shown, shown_all};
ghost use Rattle.uc_lpo.specs.Heads.{SameHead, IsLower, IsPassed};
ghost use Rattle.uc_lpo.specs.Rests.{Says, IsWithin, Goes};
ghost use Rattle.uc_lpo.specs.Ranks.{rank_of};

use crate::levels::{end_among, end_of_level, first_difference};
use crate::variables::{are_alike, is_above};
use uc_order::Cmp;
use uc_term::{MAX_INSTANCE, Node, Seq, Sym, end_of};

// The rank of a symbol, by its number: 0 past the table's end.
#[inline]
fn rank(ranks: &[usize], f: Sym) -> usize
    ensures { result ≡ rank_of ranks.now f }
{
    let at = f.0 as usize;
    if at < ranks.len() { ranks[at] } else { 0 }
}

// Whether both have heads and the left one is lower: what exceeds all its arguments then exceeds it.
#[inline]
fn is_lower(ranks: &[usize], n: Node, m: Node) -> bool
    ensures { IsTrue result ↔ IsLower (rank_of ranks.now) n m }
{
    match n {
        Node::Var(_) => false,
        Node::App(g, _) => match m {
            Node::Var(_) => false,
            Node::App(f, _) => rank(ranks, g) < rank(ranks, f),
        },
    }
}

// Whether the left one reaches the right one only by an argument.
#[inline]
fn is_passed(ranks: &[usize], n: Node, m: Node) -> bool
    ensures { IsTrue result ↔ IsPassed (rank_of ranks.now) n m }
{
    match n {
        Node::Var(_) => false,
        Node::App(f, _) => match m {
            Node::Var(_) => true,
            Node::App(g, _) => rank(ranks, f) < rank(ranks, g),
        },
    }
}

/// How two terms compare, where variables stand in these classes, the least first.
pub fn compare(ranks: &[usize], classes: &[Seq<u32>], s: &[Node], t: &[Node]) -> Cmp
    requires s_whole { IsWhole s.now }
    requires t_whole { IsWhole t.now }
    requires s_small { length s.now ≤ MAX_INSTANCE }
    requires t_small { length t.now ≤ MAX_INSTANCE }
    ensures greater { (result ≡ Cmp.Greater) ↔ PathOrder (rank_of ranks.now) (IsHigher classes.now) (shown (representative classes.now) (tree_of s.now)) (shown (representative classes.now) (tree_of t.now)) }
    ensures less { (result ≡ Cmp.Less) ↔ PathOrder (rank_of ranks.now) (IsHigher classes.now) (shown (representative classes.now) (tree_of t.now)) (shown (representative classes.now) (tree_of s.now)) }
    ensures equal { (result ≡ Cmp.Equal) ↔ (shown (representative classes.now) (tree_of s.now) ≡ shown (representative classes.now) (tree_of t.now)) }
{
    if are_alike(classes, s, t) {
        Cmp::Equal
    } else if greater(ranks, classes, s, t) {
        Cmp::Greater
    } else if greater(ranks, classes, t, s) {
        Cmp::Less
    } else {
        Cmp::Unknown
    }
}

// What is left of a comparison: nothing, or whether the first of two terms is greater than the second.
#[derive(Clone, Copy)]
enum Rest<'a> {
    Known(bool),
    Pair(&'a [Node], &'a [Node]),
}

// Whether s is greater than t, where variables stand in these classes, the least first.
#[cycle(path)]
fn greater(ranks: &[usize], classes: &[Seq<u32>], s: &[Node], t: &[Node]) -> bool
    requires s_whole { IsWhole s.now }
    requires t_whole { IsWhole t.now }
    requires s_small { length s.now ≤ MAX_INSTANCE }
    requires t_small { length t.now ≤ MAX_INSTANCE }
    requires s_some { 0 < length s.now }
    requires t_some { 0 < length t.now }
    ensures { IsTrue result ↔ PathOrder (rank_of ranks.now) (IsHigher classes.now) (shown (representative classes.now) (tree_of s.now)) (shown (representative classes.now) (tree_of t.now)) }
{
    let mut rest = Rest::Pair(s, t);
    while let Rest::Pair(x, y) = rest {
        rest = step(ranks, classes, x, y);
    }
    matches!(rest, Rest::Known(true))
}

// What is left to find out whether s is greater than t.
#[cycle(path)]
fn step<'a>(ranks: &[usize], classes: &[Seq<u32>], s: &'a [Node], t: &'a [Node]) -> Rest<'a>
    requires s_whole { IsWhole s.now }
    requires t_whole { IsWhole t.now }
    requires s_small { length s.now ≤ MAX_INSTANCE }
    requires t_small { length t.now ≤ MAX_INSTANCE }
    requires s_some { 0 < length s.now }
    requires t_some { 0 < length t.now }
    ensures says { Says ranks.now classes.now result (PathOrder (rank_of ranks.now) (IsHigher classes.now) (shown (representative classes.now) (tree_of s.now)) (shown (representative classes.now) (tree_of t.now))) }
    ensures smaller { IsWithin (length s.now + length t.now) result }
{
    match s[0] {
        Node::Var(x) => match t[0] {
            Node::Var(y) => Rest::Known(is_above(classes, x, y)),
            Node::App(_, _) => Rest::Known(false),
        },
        Node::App(f, _) => match t[0] {
            Node::Var(_) => left_to_reach(ranks, classes, &s[1..], t, s.len() / 2, false),
            Node::App(g, _) => {
                if f == g {
                    from_difference(ranks, classes, s, t)
                } else if rank(ranks, g) < rank(ranks, f) {
                    left_to_exceed(ranks, classes, s, &t[1..], t.len() / 2, false)
                } else {
                    left_to_reach(ranks, classes, &s[1..], t, s.len() / 2, false)
                }
            }
        },
    }
}

// Whether s is greater than each of the terms.
#[cycle(path)]
fn exceeds(ranks: &[usize], classes: &[Seq<u32>], s: &[Node], ts: &[Node]) -> bool
    requires s_whole { IsWhole s.now }
    requires ts_whole { AreWhole ts.now }
    requires s_small { length s.now ≤ MAX_INSTANCE }
    requires ts_small { length ts.now ≤ MAX_INSTANCE }
    requires s_some { 0 < length s.now }
    ensures { IsTrue result ↔ Exceeds (rank_of ranks.now) (IsHigher classes.now) (shown (representative classes.now) (tree_of s.now)) (shown_all (representative classes.now) (trees_of ts.now)) }
{
    let mut from = 0;
    while from < ts.len() {
        if is_lower(ranks, ts[from], s[0]) {
            from += 1;
        } else {
            let end = end_of(ts, from);
            if !greater(ranks, classes, s, &ts[from..end]) {
                return false;
            }
            from = end;
        }
    }
    true
}

// Whether some of the terms is t or greater.
#[cycle(path)]
fn reaches(ranks: &[usize], classes: &[Seq<u32>], ss: &[Node], t: &[Node]) -> bool
    requires ss_whole { AreWhole ss.now }
    requires t_whole { IsWhole t.now }
    requires ss_small { length ss.now ≤ MAX_INSTANCE }
    requires t_small { length t.now ≤ MAX_INSTANCE }
    requires t_some { 0 < length t.now }
    ensures { IsTrue result ↔ SomeReaches (rank_of ranks.now) (IsHigher classes.now) (shown_all (representative classes.now) (trees_of ss.now)) (shown (representative classes.now) (tree_of t.now)) }
{
    let mut from = 0;
    while from < ss.len() {
        if is_passed(ranks, ss[from], t[0]) {
            from += 1;
        } else {
            let end = end_of(ss, from);
            let part = &ss[from..end];
            if are_alike(classes, part, t) || greater(ranks, classes, part, t) {
                return true;
            }
            from = end;
        }
    }
    false
}

// What is left to find out whether s is greater than each of the terms; a part of more nodes than the limit is put off.
#[cycle(path)]
fn left_to_exceed<'a>(
    ranks: &[usize],
    classes: &[Seq<u32>],
    s: &'a [Node],
    ts: &'a [Node],
    limit: usize,
    is_single: bool,
) -> Rest<'a>
    requires s_whole { IsWhole s.now }
    requires ts_whole { AreWhole ts.now }
    requires s_small { length s.now ≤ MAX_INSTANCE }
    requires ts_small { length ts.now ≤ MAX_INSTANCE }
    requires s_some { 0 < length s.now }
    requires single { IsTrue is_single → IsWhole ts.now }
    ensures says { Says ranks.now classes.now result (Exceeds (rank_of ranks.now) (IsHigher classes.now) (shown (representative classes.now) (tree_of s.now)) (shown_all (representative classes.now) (trees_of ts.now))) }
    ensures smaller { IsWithin (length s.now + length ts.now + 1) result }
{
    let mut from = 0;
    while from < ts.len() {
        if is_lower(ranks, ts[from], s[0]) {
            from += 1;
        } else {
            let end = end_among(ts, from, is_single);
            let part = &ts[from..end];
            if part.len() > limit {
                return if exceeds(ranks, classes, s, &ts[end..]) {
                    Rest::Pair(s, part)
                } else {
                    Rest::Known(false)
                };
            }
            if !greater(ranks, classes, s, part) {
                return Rest::Known(false);
            }
            from = end;
        }
    }
    Rest::Known(true)
}

// What is left to find out whether some of the terms is t or greater; a part of more nodes than the limit is put off.
#[cycle(path)]
fn left_to_reach<'a>(
    ranks: &[usize],
    classes: &[Seq<u32>],
    ss: &'a [Node],
    t: &'a [Node],
    limit: usize,
    is_single: bool,
) -> Rest<'a>
    requires ss_whole { AreWhole ss.now }
    requires t_whole { IsWhole t.now }
    requires ss_small { length ss.now ≤ MAX_INSTANCE }
    requires t_small { length t.now ≤ MAX_INSTANCE }
    requires t_some { 0 < length t.now }
    requires single { IsTrue is_single → IsWhole ss.now }
    ensures says { Says ranks.now classes.now result (SomeReaches (rank_of ranks.now) (IsHigher classes.now) (shown_all (representative classes.now) (trees_of ss.now)) (shown (representative classes.now) (tree_of t.now))) }
    ensures smaller { IsWithin (length ss.now + length t.now + 1) result }
{
    let mut from = 0;
    while from < ss.len() {
        if is_passed(ranks, ss[from], t[0]) {
            from += 1;
        } else {
            let end = end_among(ss, from, is_single);
            let part = &ss[from..end];
            if are_alike(classes, part, t) {
                return Rest::Known(true);
            }
            if part.len() > limit {
                return if reaches(ranks, classes, &ss[end..], t) {
                    Rest::Known(true)
                } else {
                    Rest::Pair(part, t)
                };
            }
            if greater(ranks, classes, part, t) {
                return Rest::Known(true);
            }
            from = end;
        }
    }
    Rest::Known(false)
}

// What is left to find out whether s is greater than t, where both have one head: their first arguments that differ
// decide.
#[cycle(path)]
fn differs<'a>(ranks: &[usize], classes: &[Seq<u32>], s: &'a [Node], t: &'a [Node]) -> Rest<'a>
    requires s_whole { IsWhole s.now }
    requires t_whole { IsWhole t.now }
    requires s_small { length s.now ≤ MAX_INSTANCE }
    requires t_small { length t.now ≤ MAX_INSTANCE }
    requires s_some { 0 < length s.now }
    requires t_some { 0 < length t.now }
    requires same_head { SameHead (tree_of s.now) (tree_of t.now) }
    ensures says { Says ranks.now classes.now result (PathOrder (rank_of ranks.now) (IsHigher classes.now) (shown (representative classes.now) (tree_of s.now)) (shown (representative classes.now) (tree_of t.now))) }
    ensures smaller { IsWithin (length s.now + length t.now) result }
{
    let mut from = 1;
    while from < s.len() && from < t.len() {
        let s_end = end_of(s, from);
        let t_end = end_of(t, from);
        let s_part = &s[from..s_end];
        let t_part = &t[from..t_end];
        if !are_alike(classes, s_part, t_part) {
            let first = parts(ranks, classes, s_part, t_part, s.len() / 2, t.len() / 2);
            return around(
                ranks,
                classes,
                s,
                t,
                &s[s_end..],
                &t[t_end..],
                s.len() / 2,
                t.len() / 2,
                false,
                first,
            );
        }
        from = s_end;
    }
    left_to_reach(ranks, classes, &s[from..], t, s.len() / 2, false)
}

// What is left to find out whether s is greater than t; it is put off where both have more nodes than their limits.
#[cycle(path)]
fn parts<'a>(
    ranks: &[usize],
    classes: &[Seq<u32>],
    s: &'a [Node],
    t: &'a [Node],
    s_limit: usize,
    t_limit: usize,
) -> Rest<'a>
    requires s_whole { IsWhole s.now }
    requires t_whole { IsWhole t.now }
    requires s_small { length s.now ≤ MAX_INSTANCE }
    requires t_small { length t.now ≤ MAX_INSTANCE }
    requires s_some { 0 < length s.now }
    requires t_some { 0 < length t.now }
    ensures says { Says ranks.now classes.now result (PathOrder (rank_of ranks.now) (IsHigher classes.now) (shown (representative classes.now) (tree_of s.now)) (shown (representative classes.now) (tree_of t.now))) }
    ensures smaller { IsWithin (length s.now + length t.now + 1) result }
{
    if s.len() > s_limit && t.len() > t_limit {
        Rest::Pair(s, t)
    } else {
        Rest::Known(greater(ranks, classes, s, t))
    }
}

// What is left to find out whether s is greater than t, where both have one head, and these arguments behind the first ones
// that differ, of which that is left. It is put off where both of its terms have more nodes than their limits.
#[cycle(path)]
fn around<'a>(
    ranks: &[usize],
    classes: &[Seq<u32>],
    s: &'a [Node],
    t: &'a [Node],
    s_later: &'a [Node],
    t_later: &'a [Node],
    s_limit: usize,
    t_limit: usize,
    is_single: bool,
    first: Rest<'a>,
) -> Rest<'a>
    requires s_whole { IsWhole s.now }
    requires t_whole { IsWhole t.now }
    requires s_small { length s.now ≤ MAX_INSTANCE }
    requires t_small { length t.now ≤ MAX_INSTANCE }
    requires s_later_whole { AreWhole s_later.now }
    requires t_later_whole { AreWhole t_later.now }
    requires s_later_small { length s_later.now + 2 ≤ length s.now }
    requires t_later_small { length t_later.now + 2 ≤ length t.now }
    requires first_smaller { IsWithin (length s.now + length t.now) first }
    requires s_single { IsTrue is_single → IsWhole s_later.now }
    requires t_single { IsTrue is_single → IsWhole t_later.now }
    requires s_over { Exceeds (rank_of ranks.now) (IsHigher classes.now) (shown (representative classes.now) (tree_of s.now)) (shown_all (representative classes.now) (trees_of s_later.now)) }
    requires t_over { Exceeds (rank_of ranks.now) (IsHigher classes.now) (shown (representative classes.now) (tree_of t.now)) (shown_all (representative classes.now) (trees_of t_later.now)) }
    ensures goes { Goes ranks.now classes.now first.entry result (SomeReaches (rank_of ranks.now) (IsHigher classes.now) (shown_all (representative classes.now) (trees_of s_later.now)) (shown (representative classes.now) (tree_of t.now))) (Exceeds (rank_of ranks.now) (IsHigher classes.now) (shown (representative classes.now) (tree_of s.now)) (shown_all (representative classes.now) (trees_of t_later.now))) }
    ensures smaller { IsWithin (length s.now + length t.now) result }
{
    if are_alike(classes, s_later, t_later) {
        // each of them is an argument of both
        return first;
    }
    match first {
        Rest::Known(true) => {
            let limit = if s.len() > s_limit { t_limit } else { t.len() };
            left_to_exceed(ranks, classes, s, t_later, limit, is_single)
        }
        Rest::Known(false) => {
            let limit = if t.len() > t_limit { s_limit } else { s.len() };
            left_to_reach(ranks, classes, s_later, t, limit, is_single)
        }
        Rest::Pair(_, _) => {
            if reaches(ranks, classes, s_later, t) {
                Rest::Known(true)
            } else if exceeds(ranks, classes, s, t_later) {
                first
            } else {
                Rest::Known(false)
            }
        }
    }
}

// What is left to find out whether s is greater than t, where both have one head.
#[cycle(path)]
fn from_difference<'a>(
    ranks: &[usize],
    classes: &[Seq<u32>],
    s: &'a [Node],
    t: &'a [Node],
) -> Rest<'a>
    requires s_whole { IsWhole s.now }
    requires t_whole { IsWhole t.now }
    requires s_small { length s.now ≤ MAX_INSTANCE }
    requires t_small { length t.now ≤ MAX_INSTANCE }
    requires s_some { 0 < length s.now }
    requires t_some { 0 < length t.now }
    requires same_head { SameHead (tree_of s.now) (tree_of t.now) }
    ensures says { Says ranks.now classes.now result (PathOrder (rank_of ranks.now) (IsHigher classes.now) (shown (representative classes.now) (tree_of s.now)) (shown (representative classes.now) (tree_of t.now))) }
    ensures smaller { IsWithin (length s.now + length t.now) result }
{
    let at = first_difference(classes, s, t);
    if at == 0 {
        // the one head with another number of arguments
        differs(ranks, classes, s, t)
    } else if at >= s.len() || at >= t.len() {
        Rest::Known(false)
    } else {
        climb(ranks, classes, s, t, at)
    }
}

// What is left to find out whether s is greater than t, from the first place where they differ, level by level, up to the
// roots: the ancestors of that place, with their arguments behind it, are read off the lists backwards.
#[cycle(path)]
fn climb<'a>(
    ranks: &[usize],
    classes: &[Seq<u32>],
    s: &'a [Node],
    t: &'a [Node],
    at: usize,
) -> Rest<'a>
    requires s_whole { IsWhole s.now }
    requires t_whole { IsWhole t.now }
    requires s_small { length s.now ≤ MAX_INSTANCE }
    requires t_small { length t.now ≤ MAX_INSTANCE }
    requires below_root { 0 < at }
    requires in_s { at < length s.now }
    requires in_t { at < length t.now }
    requires common { take at (renamed_nodes (representative classes.now) s.now) ≡ take at (renamed_nodes (representative classes.now) t.now) }
    requires differ { (d : AnyNode) → slice_index_or (renamed_nodes (representative classes.now) s.now) at d ≢ slice_index_or (renamed_nodes (representative classes.now) t.now) at d }
    ensures says { Says ranks.now classes.now result (PathOrder (rank_of ranks.now) (IsHigher classes.now) (shown (representative classes.now) (tree_of s.now)) (shown (representative classes.now) (tree_of t.now))) }
    ensures smaller { IsWithin (length s.now + length t.now) result }
{
    let s_limit = s.len() / 2;
    let t_limit = t.len() / 2;
    let mut s_to = end_of(s, at);
    let mut t_to = end_of(t, at);
    let mut rest = parts(ranks, classes, &s[at..s_to], &t[at..t_to], s_limit, t_limit);
    let mut part = at;
    let mut from = at;
    let mut done: usize = 0;
    while from > 0 {
        from -= 1;
        match s[from] {
            Node::Var(_) => done += 1,
            Node::App(_, n) => {
                let arity = n as usize;
                if arity <= done {
                    done = done - arity + 1;
                } else {
                    let left = arity - done - 1;
                    let s_end = end_of_level(s, from, s_to, left);
                    let t_end = end_of_level(t, from, t_to, left);
                    rest = around(
                        ranks,
                        classes,
                        &s[from..s_end],
                        &t[from..t_end],
                        &s[s_to..s_end],
                        &t[t_to..t_end],
                        s_limit,
                        t_limit,
                        left == 1,
                        rest,
                    );
                    s_to = s_end;
                    t_to = t_end;
                    part = from;
                    done = 0;
                }
            }
        }
    }
    rest
}
