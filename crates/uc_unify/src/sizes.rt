//! The sizes of the terms that closed classes stand for.

ghost use Rattle.std.specs.Prelude.{◌≡◌, ℕ, ◌+◌, ◌<◌, ◌≤◌, length, IfOk};
ghost use Rattle.uc_term.specs.Flat.{AreWhole};
ghost use Rattle.uc_unify.specs.Closure.{AreClasses, AreEnds, HasArguments, class};
ghost use Rattle.uc_unify.specs.Solutions.{AreSized, IsSizeAt, IsSizing, AreSizing, AllSized, AreSizes};

use crate::closure::MAX_BOTH;
use std::alloc::AllocError;
use uc_term::{MAX_NODES, Node};

/// The size at a place that stands for itself, cut behind that of the largest term; 0 where an argument has no size yet.
fn size_at(nodes: &[Node], ends: &[usize], classes: &[usize], sizes: &[u32], place: usize) -> u32
    requires whole { AreWhole nodes.now }
    requires ends { AreEnds nodes.now ends.now }
    requires small { length nodes.now ≤ MAX_BOTH }
    requires classes { AreClasses nodes.now classes.now }
    requires sized { AreSized nodes.now classes.now sizes.now }
    requires within { place < length nodes.now }
    requires stands { class classes.now place ≡ place }
    ensures { IsSizeAt nodes.now classes.now sizes.now place result }
{
    match nodes[place] {
        Node::Var(_) => 1,
        Node::App(_, count) => sum_of_sizes(nodes, ends, classes, sizes, place, count),
    }
}

/// One more than the sizes of the arguments.
fn sum_of_sizes(
    nodes: &[Node],
    ends: &[usize],
    classes: &[usize],
    sizes: &[u32],
    place: usize,
    count: u32,
) -> u32
    requires whole { AreWhole nodes.now }
    requires ends { AreEnds nodes.now ends.now }
    requires small { length nodes.now ≤ MAX_BOTH }
    requires classes { AreClasses nodes.now classes.now }
    requires sized { AreSized nodes.now classes.now sizes.now }
    requires stands { class classes.now place ≡ place }
    requires symbol { HasArguments nodes.now place count }
    ensures { IsSizeAt nodes.now classes.now sizes.now place result }
{
    let mut size: u32 = 1;
    let mut place = place + 1;
    for _ in 0..count {
        let part = sizes[classes[place]];
        if part == 0 {
            return 0;
        }
        size += part;
        place = ends[place];
    }
    size.min(MAX_NODES as u32 + 1)
}

/// Sizes a place, where it stands for its class, has no size yet and can have one; whether it was sized.
fn size_place(
    nodes: &[Node],
    ends: &[usize],
    classes: &[usize],
    sizes: &mut Vec<u32>,
    place: usize,
) -> bool
    requires whole { AreWhole nodes.now }
    requires ends { AreEnds nodes.now ends.now }
    requires small { length nodes.now ≤ MAX_BOTH }
    requires classes { AreClasses nodes.now classes.now }
    requires sized { AreSized nodes.now classes.now sizes.old.items }
    requires within { place < length nodes.now }
    ensures sized { AreSized nodes.now classes.now sizes.new.items }
    ensures outcome { IsSizing nodes.now classes.now place sizes.old.items sizes.new.items result }
{
    if classes[place] != place || sizes[place] != 0 {
        return false;
    }
    let size = size_at(nodes, ends, classes, sizes.as_slice(), place);
    if size == 0 {
        return false;
    }
    sizes[place] = size;
    true
}

/// Sizes what can be sized, from the last place to the first; whether a place was sized.
fn size_places(nodes: &[Node], ends: &[usize], classes: &[usize], sizes: &mut Vec<u32>) -> bool
    requires whole { AreWhole nodes.now }
    requires ends { AreEnds nodes.now ends.now }
    requires small { length nodes.now ≤ MAX_BOTH }
    requires classes { AreClasses nodes.now classes.now }
    requires sized { AreSized nodes.now classes.now sizes.old.items }
    ensures sized { AreSized nodes.now classes.now sizes.new.items }
    ensures outcome { AreSizing nodes.now classes.now sizes.old.items sizes.new.items result }
{
    let mut any = false;
    let mut place = nodes.len();
    while place > 0 {
        place -= 1;
        any = size_place(nodes, ends, classes, sizes, place) || any;
    }
    any
}

/// Fills a lent list with the size of each place that stands for a class. False where a class's term would hold itself.
pub fn sizes_of(
    nodes: &[Node],
    ends: &[usize],
    classes: &[usize],
    sizes: &mut Vec<u32>,
) -> Result<bool, AllocError>
    requires whole { AreWhole nodes.now }
    requires ends { AreEnds nodes.now ends.now }
    requires small { length nodes.now ≤ MAX_BOTH }
    requires some { 0 < length nodes.now }
    requires classes { AreClasses nodes.now classes.now }
    ensures { IfOk result (AreSizes nodes.now classes.now sizes.new.items) }
{
    sizes.clear();
    sizes.resize(nodes.len(), 0)?;
    while size_places(nodes, ends, classes, sizes) {
        if all_sized(classes, sizes.as_slice()) {
            return Ok(true);
        }
    }
    Ok(false)
}

/// Whether the class of each place has a size.
fn all_sized(classes: &[usize], sizes: &[u32]) -> bool
    requires long { length sizes.now ≡ length classes.now }
    requires within { (p : ℕ) → p < length classes.now → class classes.now p < length classes.now }
    ensures { AllSized classes.now sizes.now result }
{
    for class in classes {
        if sizes[*class] == 0 {
            return false;
        }
    }
    true
}
