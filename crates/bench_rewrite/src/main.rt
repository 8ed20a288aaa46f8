//! Normalises a product of two numerals by the axioms of addition and multiplication, and prints the number of steps, to be
//! timed. Of the three words the first one says how many rounds are made, and the others are the two factors.
#![tactic(auto)]

mod peano;

use peano::{axioms, order, product};
use std::alloc::{AllocError, Global};
use std::io::Print;
use std::rt::Env;
use std::{env, io};
use uc_fact::{Equation, Stop};
use uc_order::Order;
use uc_rewrite::{Scan, normalise};
use uc_term::Term;

const LIMIT: u32 = 1_000_000;

// The number that each word says, 0 where it says none.
fn numbers(rt: &(impl Env + AllocGlobal)) -> io::Result<[u64; 3]> {
    let mut words = env::args(rt)?.skip(1);
    let mut numbers = [0; 3];
    for number in &mut numbers {
        *number = match words.next() {
            Some(word) => word.parse::<u64>().unwrap_or(0),
            None => 0,
        };
    }
    Ok(numbers)
}

// What a round comes to.
#[derive(Clone, Copy)]
struct Outcome {
    steps: usize,
    nodes: u32,
    stop: Stop,
}

fn normalised<O: Order>(
    alloc: Global,
    term: &Term,
    index: &Scan,
    order: &O,
) -> Result<Outcome, AllocError> {
    let normal = normalise(alloc, term, index, order, LIMIT)?;
    Ok(Outcome {
        steps: normal.chain.steps.len(),
        nodes: normal.term.nodes(),
        stop: normal.stop,
    })
}

// What the last of so many rounds comes to.
fn last_round<O: Order>(
    alloc: Global,
    term: &Term,
    facts: &[Equation],
    order: &O,
    rounds: u64,
) -> Result<Option<Outcome>, AllocError> {
    if facts.len() > 4 {
        return Ok(None);
    }
    let index = Scan::new(facts);
    let mut last = None;
    for _ in 0..rounds {
        last = Some(normalised(alloc, term, &index, order)?);
    }
    Ok(last)
}

fn work(alloc: Global, facts: &[Equation], numbers: [u64; 3]) -> Option<Outcome> {
    let order = order(alloc)?;
    let term = product(alloc, numbers[1], numbers[2]).ok()?;
    last_round(alloc, &term, facts, &order, numbers[0]).ok()?
}

fn tell(rt: &impl Print, outcome: Option<Outcome>) -> io::Result<()> {
    match outcome {
        Some(Outcome { steps, nodes, stop }) => {
            println!(rt; "{steps} steps to {nodes} nodes: {stop:?}")
        }
        None => println!(rt; "no round, or no memory"),
    }
}

fn main(rt: HostRuntime) -> io::Result<()> {
    let numbers = numbers(&rt)?;
    match axioms(rt.alloc()) {
        Ok(facts) => tell(&rt, work(rt.alloc(), &facts, numbers)),
        Err(_) => tell(&rt, None),
    }
}
