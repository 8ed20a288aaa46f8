//! A run of nodes within a list: its weight, and how often each variable is in it.

ghost use Rattle.std.specs.Prelude.{◌≡◌, ℕ, ◌+◌, ◌<◌, ◌≤◌, length, slice_index, false, replicate, cond, ◌^◌, take, drop};
ghost use Rattle.uc_term.specs.Tree.{nodes_all, of_list};
ghost use Rattle.uc_term.specs.Flat.{spelled, AreWhole};
ghost use Rattle.uc_order.specs.Renamed.{renamed_node};
ghost use Rattle.uc_kbo.specs.Runs.{IsRun, image_by, slot_by, read_by, table_weighing, node_weight, is_counted, in_slot, arguments};

use crate::Weights;
use crate::classes::Classes;
use uc_term::Node;

/// The nodes from one place of a list to another. The variables that are counted under a number below 32 have a counter
/// each.
#[derive(Drop)]
pub struct Run {
    pub from: usize,
    pub to: usize,
    pub weight: u64,
    pub counts: [u32; 32],
    pub has_large: bool,
}

// The node as it is, or with the first variable of its class.
#[inline]
pub fn read(under: bool, classes: &Classes, node: Node) -> Node
    ensures { result ≡ renamed_node (image_by under classes.now) node }
{
    match node {
        Node::Var(x) => Node::Var(if under { classes.first_of(x) } else { x }),
        Node::App(_, _) => node,
    }
}

// The number under which a variable is counted: its own, or that of its class.
#[inline]
pub fn slot(under: bool, classes: &Classes, x: u32) -> usize
    ensures { result ≡ slot_by under classes.now x }
{
    if under {
        classes.number_of(x)
    } else {
        x as usize
    }
}

#[inline]
fn arguments(node: Node) -> usize
    ensures value { result ≡ arguments node }
    ensures small { result < 2 ^ 32 }
{
    match node {
        Node::Var(_) => 0,
        Node::App(_, n) => n as usize,
    }
}

impl Run {
    // The empty run at a place.
    #[inline]
    pub fn new(from: usize) -> Run
        ensures from { result.from ≡ from }
        ensures to { result.to ≡ from }
        ensures weight { result.weight ≡ 0 }
        ensures counts { result.counts ≡ replicate 32 0 }
        ensures large { result.has_large ≡ false }
    {
        Run {
            from,
            to: from,
            weight: 0,
            counts: [0; 32],
            has_large: false,
        }
    }

    // Counts one node more.
    #[inline]
    fn count(&mut self, w: &Weights, under: bool, classes: &Classes, node: Node)
        requires weight { self.old.weight + 4294967295 < 2 ^ 64 }
        requires size { length self.old.counts ≡ 32 }
        requires counts { (i : ℕ) → i < 32 → slice_index self.old.counts i + 1 < 2 ^ 32 }
        ensures from { self.new.from ≡ self.old.from }
        ensures to { self.new.to ≡ self.old.to }
        ensures weight { self.new.weight ≡ self.old.weight + node_weight (table_weighing w.now.w0 w.now.table.items) node }
        ensures small { self.new.weight ≤ self.old.weight + 4294967295 }
        ensures size { length self.new.counts ≡ 32 }
        ensures counts { (i : ℕ) → i < 32 → slice_index self.new.counts i ≡ slice_index self.old.counts i + cond (is_counted (in_slot (slot_by under classes.now) i) node) 1 0 }
        ensures large { self.new.has_large ≡ false → (self.old.has_large ≡ false) × ((i : ℕ) → 32 ≤ i → is_counted (in_slot (slot_by under classes.now) i) node ≡ false) }
    {
        match node {
            Node::Var(x) => {
                self.weight += w.w0 as u64;
                let at = slot(under, classes, x);
                if at < 32 {
                    self.counts[at] += 1;
                } else {
                    self.has_large = true;
                }
            }
            Node::App(f, n) => self.weight += w.weight_of(f, n) as u64,
        }
    }

    // Takes in the nodes up to `to`.
    #[inline]
    pub fn extend(&mut self, w: &Weights, under: bool, classes: &Classes, list: &[Node], to: usize)
        requires run { IsRun (table_weighing w.now.w0 w.now.table.items) (slot_by under classes.now) (read_by under classes.now list.now) self.old }
        requires ahead { self.old.to ≤ to }
        requires within { to ≤ length list.now }
        requires small { length list.now ≤ 16777216 }
        ensures run { IsRun (table_weighing w.now.w0 w.now.table.items) (slot_by under classes.now) (read_by under classes.now list.now) self.new }
        ensures from { self.new.from ≡ self.old.from }
        ensures to { self.new.to ≡ to }
    {
        for n in &list[self.to..to] {
            self.count(w, under, classes, read(under, classes, *n));
        }
        self.to = to;
    }

    // Takes in the nodes of the next `terms` terms.
    #[inline]
    pub fn extend_terms(
        &mut self,
        w: &Weights,
        under: bool,
        classes: &Classes,
        list: &[Node],
        terms: usize,
    )
        requires run { IsRun (table_weighing w.now.w0 w.now.table.items) (slot_by under classes.now) (read_by under classes.now list.now) self.old }
        requires whole { AreWhole list.now }
        requires enough { terms ≤ length (spelled (drop self.old.to list.now)) }
        requires small { length list.now ≤ 16777216 }
        ensures run { IsRun (table_weighing w.now.w0 w.now.table.items) (slot_by under classes.now) (read_by under classes.now list.now) self.new }
        ensures from { self.new.from ≡ self.old.from }
        ensures to { self.new.to ≡ self.old.to + nodes_all (of_list (take terms (spelled (drop self.old.to list.now)))) }
    {
        let mut end = self.to;
        let mut pending = terms;
        while pending > 0 {
            let node = list[end];
            self.count(w, under, classes, read(under, classes, node));
            pending = pending - 1 + arguments(node);
            end += 1;
        }
        self.to = end;
    }
}
