//! Facts made of two ends with the chain between them.

ghost use Rattle.std.specs.Prelude.{◌≡◌, ◌≤◌, IfOk, length};
ghost use Rattle.uc_machine.specs.Results.{made, Trial, GivesFact};
ghost use Rattle.uc_task.specs.Ends.{HasEnds};

use crate::chains::reversed;
use crate::numbering::{number, number_chain};
use std::alloc::{AllocError, Global};
use uc_fact::{Chain, Fact, Origin, Stop};
use uc_order::{Cmp, Order};
use uc_term::Term;

/// An end of a pair, and why it was normalised no further.
#[derive(Drop)]
pub struct End {
    pub term: Term,
    pub stop: Stop,
}

/// Where a fact comes from, and how many entries there were when it was made.
#[derive(Clone, Copy)]
pub struct Source {
    pub origin: Origin,
    pub front: u32,
}

/// The fact that two ends give with the chain from the left one to the right one: turned so that the greater end is left
/// where one is greater, and with its variables numbered by first occurrence.
pub fn fact_of<O: Order>(
    alloc: Global,
    source: Source,
    left: &End,
    right: &End,
    chain: Chain,
    order: &O,
) -> Result<Fact, AllocError>
    requires short { length chain.steps ≤ 16384 }
    ensures { IfOk result (λ fact. (t : Trial) → HasEnds left.now right.now chain t → GivesFact (O.meaning order.now) source.origin source.front t fact) }
{
    match order.compare(left.term.as_nodes(), right.term.as_nodes()) {
        Cmp::Greater => made(alloc, true, source, left, right, &chain),
        Cmp::Less => made(alloc, true, source, right, left, &reversed(alloc, chain)?),
        Cmp::Equal => made(alloc, false, source, left, right, &chain),
        Cmp::Unknown => made(alloc, false, source, left, right, &chain),
    }
}

/// The fact with these ends as its sides. Its variables are numbered by first occurrence, left side first; those that only
/// the chain has come behind.
fn made(
    alloc: Global,
    oriented: bool,
    source: Source,
    left: &End,
    right: &End,
    chain: &Chain,
) -> Result<Fact, AllocError>
    requires short { length chain.now.steps ≤ 16384 }
    ensures { IfOk result (λ fact. fact ≡ made oriented source.origin source.front left.now.term right.now.term chain.now left.now.stop right.now.stop) }
{
    let mut names = Vec::new(alloc);
    let left_side = number(alloc, &left.term, &mut names)?;
    let right_side = number(alloc, &right.term, &mut names)?;
    let chain = number_chain(alloc, chain, &mut names)?;
    Ok(Fact {
        left: left_side,
        right: right_side,
        oriented,
        origin: source.origin,
        chain,
        front: source.front,
        stops: (left.stop, right.stop),
    })
}
