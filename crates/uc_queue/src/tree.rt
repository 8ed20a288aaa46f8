// Winner trees (Knuth, The Art of Computer Programming, volume 3, section 5.4.1) over a list of entries, with leaves by the entries' places. A node holds
// the place of the entry that wins below it, so that a change of one entry is mended on the way from its leaf to the root.

ghost use Rattle.std.specs.Prelude.{◌≡◌, ℕ, ◌+◌, ◌*◌, ◌^◌, ◌<◌, ◌≤◌, [], length, MatchOption, Some};
ghost use Rattle.std.specs.List.{slice_get};
ghost use Rattle.uc_queue.specs.Queue.{least, by_number, times};
ghost use Rattle.uc_queue.specs.Trees.{before, better, winner_at, IsRight, WasRight};

use crate::entry::{Entry, Key};

fn better(key: Key, entries: &[Entry], a: usize, b: usize) -> usize
    ensures { result ≡ better key entries.now a b }
{
    if key.loses(entries.get(a).copied(), entries.get(b).copied()) {
        b
    } else {
        a
    }
}

fn winner_at(winners: &[u32], node: usize) -> usize
    requires few { length winners.now ≤ 2 ^ 31 }
    requires node { node < 2 * length winners.now }
    ensures winner { result ≡ winner_at winners.now node }
    ensures small { result < 2 ^ 32 }
{
    if node < winners.len() {
        winners[node] as usize
    } else {
        node - winners.len()
    }
}

// Puts the tree right at one node.
fn settle(key: Key, entries: &[Entry], winners: &[u32], node: usize) -> usize
    requires few { length winners.now ≤ 2 ^ 31 }
    requires node { node < length winners.now }
    ensures winner { result ≡ better key entries.now (winner_at winners.now (2 * node)) (winner_at winners.now (2 * node + 1)) }
    ensures small { result < 2 ^ 32 }
{
    let left = winner_at(winners, 2 * node);
    let right = winner_at(winners, 2 * node + 1);
    better(key, entries, left, right)
}

/// Makes a tree.
pub(crate) fn build(key: Key, entries: &[Entry], winners: &mut [u32])
    requires few { length winners.old ≤ 2 ^ 31 }
    ensures len { length winners.new ≡ length winners.old }
    ensures right { IsRight key entries.now winners.new }
{
    let mut node = winners.len();
    while node > 1 {
        node -= 1;
        winners[node] = settle(key, entries, winners, node) as u32;
    }
}

/// Mends a tree after a change of one entry, up to the first node at which the change doesn't show.
pub(crate) fn mend(key: Key, entries: &[Entry], winners: &mut [u32], slot: usize)
    requires few { length winners.old ≤ 2 ^ 31 }
    requires slot { slot < length winners.old }
    requires right { WasRight key entries.now winners.old slot }
    ensures len { length winners.new ≡ length winners.old }
    ensures right { IsRight key entries.now winners.new }
{
    let mut node = (winners.len() + slot) / 2;
    while node > 0 {
        let winner = settle(key, entries, winners, node);
        if winner == winners[node] as usize && winner != slot {
            return;
        }
        winners[node] = winner as u32;
        node /= 2;
    }
}

/// The place of the least entry.
pub(crate) fn root(key: Key, entries: &[Entry], winners: &[u32]) -> Option<usize>
    requires few { length winners.now ≤ 2 ^ 31 }
    requires room { length entries.now ≤ length winners.now }
    requires right { IsRight key entries.now winners.now }
    requires distinct { (n : ℕ) → times n entries.now ≤ 1 }
    ensures { MatchOption result (entries.now ≡ []) (λ k. (k < length entries.now) × (slice_get entries.now k ≡ least (before key) (by_number entries.now))) }
{
    if entries.is_empty() {
        None
    } else {
        Some(winner_at(winners, 1))
    }
}
