//! Combs with a variable of its own in each level.

use crate::deep::{INVERSE, UNIT, is_whole};
use crate::orders::M;
use std::alloc::{AllocError, Global};
use uc_order::{Cmp, Order};
use uc_term::{MAX_INSTANCE, Node};

// The nodes of a comb of so many levels that goes on by its first argument, to `end` in the deepest level; beside that
// argument each level has its variable.
fn comb(alloc: Global, levels: u32, end: &[Node]) -> Result<Vec<Node>, AllocError> {
    let mut list = Vec::new(alloc);
    for _ in 0..levels {
        list.push(Node::App(M, 2))?;
    }
    list.extend_from_slice(end)?;
    for x in 0..levels {
        list.push(Node::Var(x))?;
    }
    Ok(list)
}

// How often the first is found greater, where both are whole terms that are small enough.
fn times_greater<O: Order>(order: &O, s: &[Node], t: &[Node], rounds: u32) -> u64 {
    if s.len() > MAX_INSTANCE || t.len() > MAX_INSTANCE || !is_whole(s) || !is_whole(t) {
        return 0;
    }
    let mut times: u64 = 0;
    for _ in 0..rounds {
        if order.compare(s, t) == Cmp::Greater {
            times = times.saturating_add(1);
        }
    }
    times
}

/// How often in so many rounds a comb of so many levels is greater than one with a lesser term in its deep end, which
/// weighs as much.
pub fn many_variables<O: Order>(
    alloc: Global,
    order: &O,
    levels: u32,
    rounds: u32,
) -> Result<u64, AllocError> {
    let s = comb(alloc, levels, INVERSE)?;
    let t = comb(alloc, levels, UNIT)?;
    Ok(times_greater(order, &s, &t, rounds))
}
