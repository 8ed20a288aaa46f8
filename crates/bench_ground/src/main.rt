//! Tests pairs of terms with five variables for ground joinability and prints how many of how many are joined, to be timed.
//! The word says how many pairs. The facts are those of an associative and commutative symbol, with the one that sorts
//! what stands in brackets to the right. The pairs are the variables in brackets to the left and their arrangements,
//! one after another, in brackets to the right; there are 120 arrangements.
#![tactic(auto)]

mod order;
mod pairs;

use order::default_order;
use pairs::{IN_ORDER, arrangement, sorting_facts, spelled};
use std::alloc::{AllocError, Global};
use std::rt::Env;
use std::{env, io};
use uc_fact::{Equation, Joinable};
use uc_ground::ground_join;
use uc_order::{Order, Remembering};
use uc_rewrite::Scan;
use uc_term::{Term, TermFault};

// The number that the word says, 0 where it says none.
fn number(rt: &(impl Env + AllocGlobal)) -> io::Result<u64> {
    let mut words = env::args(rt)?.skip(1);
    match words.next() {
        Some(word) => Ok(word.parse::<u64>().unwrap_or(0)),
        None => Ok(0),
    }
}

// Whether the variables in order and their arrangement with this number are joined.
fn is_joined<O: Order>(
    alloc: Global,
    order: &O,
    facts: &Scan,
    left: &Term,
    number: u64,
) -> Result<bool, TermFault> {
    let right = spelled(alloc, &arrangement(number as usize))?;
    let answer = ground_join(alloc, left, &right, facts, order)?;
    Ok(matches!(answer, Joinable::Joined(_)))
}

// The order as the program has it, which remembers how the sides of each fact compare.
fn remembering<'a, O: Order>(
    alloc: Global,
    order: &'a O,
    facts: &[Equation],
) -> Result<Remembering<'a, O>, AllocError> {
    let mut order = Remembering::new(alloc, order);
    for fact in facts {
        order.remember(alloc, &fact.left, &fact.right)?;
    }
    Ok(order)
}

// How many of the first pairs are joined.
fn count_joined<O: Order>(
    alloc: Global,
    order: &O,
    facts: &[Equation],
    number: u64,
) -> Result<u64, TermFault> {
    if facts.len() > 9 {
        return Ok(0);
    }
    let left = spelled(alloc, IN_ORDER)?;
    let scan = Scan::new(facts);
    let order = remembering(alloc, order, facts)?;
    let mut count: u64 = 0;
    for place in 0..number {
        if is_joined(alloc, &order, &scan, &left, place)? {
            count = count.saturating_add(1);
        }
    }
    Ok(count)
}

fn work(alloc: Global, number: u64) -> Option<u64> {
    let order = default_order(alloc)?;
    let facts = sorting_facts(alloc).ok()?;
    count_joined(alloc, &order, &facts, number).ok()
}

fn main(rt: HostRuntime) -> io::Result<()> {
    let number = number(&rt)?;
    match work(rt.alloc(), number) {
        Some(joined) => println!(rt; "{joined} of {number}"),
        None => println!(rt; "no memory"),
    }
}
