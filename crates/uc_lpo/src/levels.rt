//! Places in flat terms: where two lists first differ, and where a level ends.

ghost use Rattle.std.specs.Prelude.{◌≡◌, ◌≢◌, ◌+◌, ◌<◌, ◌≤◌, IsTrue, length, slice_index_or, take, drop};
ghost use Rattle.uc_term.specs.declared.node.Node.{Node as AnyNode};
ghost use Rattle.uc_term.specs.Tree.{nodes, nodes_all, of_list};
ghost use Rattle.uc_term.specs.Flat.{tree_of, spelled, IsWhole, AreWhole};
ghost use Rattle.uc_order.specs.VarOrders.{representative};
ghost use Rattle.uc_order.specs.Renamed.{renamed_nodes};

use crate::variables::is_alike;
use uc_term::{MAX_INSTANCE, Node, Seq, end_of};

// Where the two lists first differ, as their nodes look.
pub fn first_difference(classes: &[Seq<u32>], s: &[Node], t: &[Node]) -> usize
    ensures in_s { result ≤ length s.now }
    ensures in_t { result ≤ length t.now }
    ensures common { take result (renamed_nodes (representative classes.now) s.now) ≡ take result (renamed_nodes (representative classes.now) t.now) }
    ensures differ { result < length s.now → result < length t.now → (d : AnyNode) → slice_index_or (renamed_nodes (representative classes.now) s.now) result d ≢ slice_index_or (renamed_nodes (representative classes.now) t.now) result d }
{
    let mut at = 0;
    while at < s.len() && at < t.len() {
        if !is_alike(classes, s[at], t[at]) {
            return at;
        }
        at += 1;
    }
    at
}

// Where `count` terms from `to` on end: those are the last arguments of the term at `from`, so that at the root it is the
// list's end.
#[inline]
pub fn end_of_level(list: &[Node], from: usize, to: usize, count: usize) -> usize
    requires whole { AreWhole list.now }
    requires enough { count ≤ length (spelled (drop to list.now)) }
    requires within { to ≤ length list.now }
    requires small { length list.now ≤ MAX_INSTANCE }
    requires root { from ≡ 0 → length list.now ≡ to + nodes_all (of_list (take count (spelled (drop to list.now)))) }
    ensures end { result ≡ to + nodes_all (of_list (take count (spelled (drop to list.now)))) }
    ensures in_list { result ≤ length list.now }
{
    if from == 0 {
        return list.len();
    }
    let mut end = to;
    let mut left = count;
    while left > 0 {
        end = end_of(list, end);
        left -= 1;
    }
    end
}

// Where the term at `from` ends. Where the list is known to be a single term, that one isn't walked along.
#[inline]
pub fn end_among(list: &[Node], from: usize, is_single: bool) -> usize
    requires whole { AreWhole list.now }
    requires within { from < length list.now }
    requires small { length list.now ≤ MAX_INSTANCE }
    requires single { IsTrue is_single → IsWhole list.now }
    ensures end { result ≡ from + nodes (tree_of (drop from list.now)) }
    ensures in_list { result ≤ length list.now }
{
    if is_single && from == 0 {
        return list.len();
    }
    end_of(list, from)
}
