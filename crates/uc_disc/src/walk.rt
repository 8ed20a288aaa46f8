//! Walks over the places of a tree.

ghost use Rattle.std.specs.Prelude.{◌≡◌, ◌↔◌, IsTrue, ◌+◌, ◌<◌, ◌≤◌, ◌-◌, ◌^◌, ℕ, length};
ghost use Rattle.uc_term.specs.Flat.{IsWhole};
ghost use Rattle.uc_disc.specs.Trail.{IsShaped, RefersBack};
ghost use Rattle.uc_disc.specs.Standing.{part, IsFollowed, StandsAt, FailsAt, IsLeafAt};
ghost use Rattle.uc_disc.specs.declared.place.Label.TheVariants.{Leaf};

use crate::place::{Label, Place};
use uc_term::{MAX_NODES, Node, end_of, same_nodes};

/// Whether the node is this symbol with so many arguments.
#[inline]
fn is_head(node: Node, f: u32, n: u32) -> bool
    ensures { IsTrue result ↔ (node ≡ Node.App (record { 0 = f }) n) }
{
    match node {
        Node::App(g, m) => g.0 == f && m == n,
        Node::Var(_) => false,
    }
}

/// Whether a subterm stands at the first place, and is the one at the other place.
#[inline]
fn is_same_part(term: &[Node], first: usize, here: usize) -> bool
    requires whole { IsWhole term.now }
    requires small { length term.now ≤ MAX_NODES }
    requires within { here < length term.now }
    ensures { IsTrue result ↔ (first < length term.now) × (part term.now first ≡ part term.now here) }
{
    if first >= term.len() {
        return false;
    }
    if first == here {
        return true;
    }
    same_nodes(
        &term[first..end_of(term, first)],
        &term[here..end_of(term, here)],
    )
}

/// Tells whether a label leads on from a depth; then the place of the term after it is noted.
#[inline]
fn follow(term: &[Node], at: &mut [u16], depth: usize, label: Label) -> bool
    requires whole { IsWhole term.now }
    requires small { length term.now ≤ MAX_NODES }
    requires room { depth + 1 < length at.old }
    requires back { RefersBack label depth }
    requires label { (r : ℕ) → label ≡ Leaf r → ⊥ }
    ensures value { IsFollowed term.now depth label at.old at.new result }
    ensures long { length at.new ≡ length at.old }
{
    let here = at[depth] as usize;
    if here >= term.len() {
        return false;
    }
    match label {
        Label::Head(f, n) => {
            if is_head(term[here], f, n) {
                at[depth + 1] = here as u16 + 1;
                true
            } else {
                false
            }
        }
        Label::Variable(k) => {
            if is_same_part(term, at[k as usize] as usize, here) {
                at[depth + 1] = end_of(term, here) as u16;
                true
            } else {
                false
            }
        }
        Label::Leaf(_) => false,
    }
}

/// Finds the next leaf, from one place on and before another, to which the term leads and whose rule is below a bound; or a
/// place behind those. It takes no memory.
#[inline]
pub fn next_leaf(
    places: &[Place],
    term: &[Node],
    at: &mut [u16],
    start: usize,
    stop: usize,
    bound: u32,
) -> usize
    requires tree { IsShaped places.now (length at.old - 1) }
    requires whole { IsWhole term.now }
    requires small { length term.now ≤ MAX_NODES }
    requires within { (start ≤ length places.now) × (stop ≤ length places.now) }
    requires stands { StandsAt term.now places.now start at.old }
    ensures within { (start ≤ result) × (result ≤ length places.now) }
    ensures stands { StandsAt term.now places.now result at.new }
    ensures fails { FailsAt term.now places.now start result bound }
    ensures leaf { result < stop → IsLeafAt term.now places.now result }
    ensures long { length at.new ≡ length at.old }
{
    let mut i = start;
    while i < stop {
        if places[i].least >= bound {
            i = places[i].skip;
        } else {
            match places[i].label {
                Label::Leaf(_) => return i,
                label => {
                    if follow(term, at, places[i].depth as usize, label) {
                        i += 1;
                    } else {
                        i = places[i].skip;
                    }
                }
            }
        }
    }
    i
}
