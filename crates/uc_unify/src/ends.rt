//! Where each term of a list ends.

ghost use Rattle.std.specs.Prelude.{◌≡◌, ◌+◌, ◌<◌, ◌≤◌, length, OnOk};
ghost use Rattle.uc_term.specs.Flat.{AreWhole};
ghost use Rattle.uc_unify.specs.Closure.{next, HasArguments, AreEnds, AreEndsFrom};

use crate::closure::MAX_BOTH;
use std::alloc::AllocError;
use uc_term::Node;

/// Fills a lent list with the place behind the term at each place.
pub fn ends_of(nodes: &[Node], ends: &mut Vec<usize>) -> Result<(), AllocError>
    requires whole { AreWhole nodes.now }
    requires small { length nodes.now ≤ MAX_BOTH }
    ensures { OnOk result (AreEnds nodes.now ends.new.items) }
{
    ends.resize(nodes.len(), 0)?;
    let mut place = nodes.len();
    while place > 0 {
        place -= 1;
        let end = end_at(nodes, ends.as_slice(), place);
        ends[place] = end;
    }
    Ok(())
}

/// The place behind the term at a place, by the ends of the terms behind that place.
#[inline]
fn end_at(nodes: &[Node], ends: &[usize], place: usize) -> usize
    requires whole { AreWhole nodes.now }
    requires small { length nodes.now ≤ MAX_BOTH }
    requires within { place < length nodes.now }
    requires behind { AreEndsFrom nodes.now (place + 1) ends.now }
    ensures { result ≡ next nodes.now place }
{
    match nodes[place] {
        Node::Var(_) => place + 1,
        Node::App(_, count) => end_of_arguments(nodes, ends, place, count),
    }
}

/// The place behind so many arguments.
#[inline]
fn end_of_arguments(nodes: &[Node], ends: &[usize], place: usize, count: u32) -> usize
    requires whole { AreWhole nodes.now }
    requires small { length nodes.now ≤ MAX_BOTH }
    requires symbol { HasArguments nodes.now place count }
    requires behind { AreEndsFrom nodes.now (place + 1) ends.now }
    ensures { result ≡ next nodes.now place }
{
    let mut end = place + 1;
    for _ in 0..count {
        end = ends[end];
    }
    end
}
