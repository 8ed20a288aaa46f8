//! Written positions: which place of a term's flat list a position names.

ghost use Rattle.std.specs.Prelude.{◌≡◌, ◌+◌, ◌<◌, ◌≤◌, length, drop, take, IfOk, MatchOption};
ghost use Rattle.uc_term.specs.Tree.{of_list, nodes, nodes_all};
ghost use Rattle.uc_term.specs.Path.{at_position, written_argument};
ghost use Rattle.uc_term.specs.Flat.{tree_of, spelled, IsWhole, AreWhole};
ghost use Rattle.uc_term.specs.Positions.{IsPlaceOf, IsArgumentPlace, IsStepUp};

use crate::{MAX_NODES, Node, Pos, Seq, Term, end_of};
use std::alloc::{AllocError, Global};

impl Term {
    /// The place of the subterm at a written position, whose numbers count the arguments from 1. None exactly where there is
    /// no such position. It takes no memory.
    pub fn pos_of(&self, path: &[u32]) -> Option<Pos>
        ensures { MatchOption result (at_position self.now path.now ≡ None) (λ pos. IsPlaceOf self.now path.now pos.0) }
    {
        let list = self.as_nodes();
        let mut place = 0;
        for number in path {
            match argument_place(list, place, *number) {
                Some(next) => place = next,
                None => return None,
            }
        }
        Some(Pos(place as u32))
    }
}

impl Term {
    /// The written position of the subterm at a place: from the root, the number of the argument at each node, from 1.
    ///
    /// The list is read backwards from the place: a symbol with more arguments than whole terms stand between it and the
    /// place is the place's parent.
    pub fn path(&self, alloc: Global, pos: Pos) -> Result<Seq<u32>, AllocError>
        requires { pos.0 < nodes self.now }
        ensures { IfOk result (λ path. IsPlaceOf self.now path pos.0) }
    {
        let list = self.as_nodes();
        let mut upwards = Vec::new(alloc);
        let mut between: u32 = 0;
        let mut place = pos.0 as usize;
        while place > 0 {
            place -= 1;
            between = step_up(list[place], between, &mut upwards)?;
        }
        upwards.reverse();
        Ok(Seq::from_vec(upwards))
    }
}

/// How many whole terms stand between a node and the place, where so many stand behind the node. Where the node is the
/// place's parent it is the next place, and the number of the argument is noted.
fn step_up(node: Node, between: u32, upwards: &mut Vec<u32>) -> Result<u32, AllocError>
    requires { between < MAX_NODES }
    ensures { IfOk result (IsStepUp node between upwards.old.items upwards.new.items) }
{
    match node {
        Node::Var(_) => Ok(between + 1),
        Node::App(_, arity) => {
            if between < arity {
                upwards.push(between + 1)?;
                Ok(0)
            } else {
                Ok(between - arity + 1)
            }
        }
    }
}

/// The place of the argument of a number, counted from 1, of the term that begins at a place.
fn argument_place(list: &[Node], at: usize, number: u32) -> Option<usize>
    requires whole { AreWhole list.now }
    requires within { at < length list.now }
    requires small { length list.now ≤ MAX_NODES }
    ensures { MatchOption result (written_argument (tree_of (drop at list.now)) number ≡ None) (IsArgumentPlace list.now at number) }
{
    match list[at] {
        Node::Var(_) => None,
        Node::App(_, arity) => {
            if number == 0 || number > arity {
                None
            } else {
                Some(behind(list, at + 1, number as usize - 1))
            }
        }
    }
}

/// The place behind so many terms, which stand one after another from a place on.
fn behind(list: &[Node], from: usize, count: usize) -> usize
    requires whole { AreWhole list.now }
    requires within { from ≤ length list.now }
    requires many { count ≤ length (spelled (drop from list.now)) }
    requires small { length list.now ≤ MAX_NODES }
    ensures place { result ≡ from + nodes_all (of_list (take count (spelled (drop from list.now)))) }
    ensures rest { spelled (drop result list.now) ≡ drop count (spelled (drop from list.now)) }
    ensures in_list { result ≤ length list.now }
{
    let mut place = from;
    for _i in 0..count {
        place = end_of(list, place);
    }
    place
}
