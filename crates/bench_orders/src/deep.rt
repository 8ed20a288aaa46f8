//! Deep terms: chains, and combs that go on by their first or by their last argument.

ghost use Rattle.std.specs.Prelude.{◌≡◌, ◌<◌, ◌^◌, IsTrue};
ghost use Rattle.uc_term.specs.Flat.{IsWhole};
ghost use Rattle.bench_orders.specs.Nodes.{arguments};

use crate::orders::{E, I, M};
use std::alloc::{AllocError, Global};
use uc_order::{Cmp, Order};
use uc_term::{MAX_INSTANCE, Node};

/// How a term goes on: by its one argument, by the first of two or by the second.
#[derive(Clone, Copy, Debug)]
pub enum Shape {
    Chain,
    Left,
    Right,
}

// So many times the nodes.
fn add(list: &mut Vec<Node>, times: usize, nodes: &[Node]) -> Result<(), AllocError> {
    for _ in 0..times {
        list.extend_from_slice(nodes)?;
    }
    Ok(())
}

const CHAIN: &[Node] = &[Node::App(I, 1)];

const COMB: &[Node] = &[Node::App(M, 2)];

const COMB_BESIDE_UNIT: &[Node] = &[Node::App(M, 2), Node::App(E, 0)];

// The nodes of a term of so many levels: `end` stands in the deepest, and `near` beside the first argument that goes on,
// where the other levels have the constant.
fn add_deep(
    list: &mut Vec<Node>,
    shape: Shape,
    levels: usize,
    near: &[Node],
    end: &[Node],
) -> Result<(), AllocError> {
    let further = levels.saturating_sub(1);
    match shape {
        Shape::Chain => {
            add(list, levels, CHAIN)?;
            add(list, 1, end)
        }
        Shape::Left => {
            add(list, levels, COMB)?;
            add(list, 1, end)?;
            add(list, further, UNIT)?;
            add(list, 1, near)
        }
        Shape::Right => {
            add(list, 1, COMB)?;
            add(list, 1, near)?;
            add(list, further, COMB_BESIDE_UNIT)?;
            add(list, 1, end)
        }
    }
}

#[inline]
fn arguments(node: Node) -> usize
    ensures value { result ≡ arguments node }
    ensures small { result < 2 ^ 32 }
{
    match node {
        Node::Var(_) => 0,
        Node::App(_, n) => n as usize,
    }
}

/// Whether the nodes are those of one whole term, by the number of terms that are still to come.
pub fn is_whole(list: &[Node]) -> bool
    ensures { IsTrue result → IsWhole list.now }
{
    let mut pending: usize = 1;
    let mut at = 0;
    while at < list.len() {
        if pending == 0 || pending > MAX_INSTANCE {
            return false;
        }
        pending = pending - 1 + arguments(list[at]);
        at += 1;
    }
    pending == 0
}

// How the two compare, where both are whole terms that are small enough.
fn compared_whole<O: Order>(order: &O, s: &[Node], t: &[Node]) -> Option<Cmp> {
    if s.len() > MAX_INSTANCE || t.len() > MAX_INSTANCE || !is_whole(s) || !is_whole(t) {
        return None;
    }
    Some(order.compare(s, t))
}

/// The constant.
pub const UNIT: &[Node] = &[Node::App(E, 0)];

/// Greater than the constant, and as heavy.
pub const INVERSE: &[Node] = &[Node::App(I, 1), Node::App(E, 0)];

const X: &[Node] = &[Node::Var(0)];

const Y: &[Node] = &[Node::Var(1)];

// The nodes of the deep term with the part at one end, the near or the deep one, and the constant at the other.
fn deep(
    alloc: Global,
    shape: Shape,
    levels: usize,
    part: &[Node],
    is_near: bool,
) -> Result<Vec<Node>, AllocError> {
    let mut list = Vec::new(alloc);
    if is_near {
        add_deep(&mut list, shape, levels, part, UNIT)?;
    } else {
        add_deep(&mut list, shape, levels, UNIT, part)?;
    }
    Ok(list)
}

// How two deep terms of one shape compare that differ in the part at one end.
fn deep_compared<O: Order>(
    alloc: Global,
    order: &O,
    shape: Shape,
    levels: usize,
    parts: (&[Node], &[Node]),
    is_near: bool,
) -> Result<Option<Cmp>, AllocError> {
    let s = deep(alloc, shape, levels, parts.0, is_near)?;
    let t = deep(alloc, shape, levels, parts.1, is_near)?;
    Ok(compared_whole(order, &s, &t))
}

// How a deep term with `X` in its deep end compares with a variable.
fn variable_compared<O: Order>(
    alloc: Global,
    order: &O,
    shape: Shape,
    levels: usize,
    variable: &[Node],
) -> Result<Option<Cmp>, AllocError> {
    let s = deep(alloc, shape, levels, X, false)?;
    Ok(compared_whole(order, &s, variable))
}

/// How deep terms compare that differ at one end alone, whose parts there are the inverse and the unit, the unit and the
/// inverse, or two variables; and how a deep term compares with its variable and with another one.
#[derive(Clone, Copy, Debug)]
pub struct Outcomes {
    pub deep: [Option<Cmp>; 3],
    pub near: [Option<Cmp>; 3],
    pub variables: [Option<Cmp>; 2],
}

/// The outcomes for terms of this shape with so many levels.
pub fn deep_outcomes<O: Order>(
    alloc: Global,
    order: &O,
    shape: Shape,
    levels: usize,
) -> Result<Outcomes, AllocError> {
    Ok(Outcomes {
        deep: compared_at(alloc, order, shape, levels, false)?,
        near: compared_at(alloc, order, shape, levels, true)?,
        variables: [
            variable_compared(alloc, order, shape, levels, X)?,
            variable_compared(alloc, order, shape, levels, Y)?,
        ],
    })
}

// How deep terms compare that differ at this end.
fn compared_at<O: Order>(
    alloc: Global,
    order: &O,
    shape: Shape,
    levels: usize,
    is_near: bool,
) -> Result<[Option<Cmp>; 3], AllocError> {
    Ok([
        deep_compared(alloc, order, shape, levels, (INVERSE, UNIT), is_near)?,
        deep_compared(alloc, order, shape, levels, (UNIT, INVERSE), is_near)?,
        deep_compared(alloc, order, shape, levels, (X, Y), is_near)?,
    ])
}
