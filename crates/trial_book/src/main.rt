//! Runs a book beside the machine as a plain slow program: forty problems by chance, some hundred calls of three workers on
//! each, and after each call the two are compared in all that the book tells. Prints each difference, how many runs there
//! were, and how often each kind of happening was there.
#![tactic(auto)]

mod agreeing;
mod hand;
mod images;
mod machine;
mod order;
mod problems;
mod rest;
mod runs;
mod taking;
mod tally;
mod trouble;

use order::default_order;
use runs::run;
use std::io;
use std::io::Print;
use std::sync::Wait;
use tally::Tally;

const RUNS: u32 = 40;

const CALLS: u32 = 200;

fn main(rt: HostRuntime) -> io::Result<()> {
    let alloc = rt.alloc();
    let Some(order) = default_order(alloc) else {
        return println!(rt; "no memory");
    };
    let mut tally = Tally::new();
    for seed in 1..=RUNS {
        match run(&rt, alloc, &order, seed, CALLS) {
            Ok(machine) => tally.adds(&machine),
            Err(trouble) => println!(rt; "seed {seed}: {trouble:?}")?,
        }
    }
    println!(rt; "{RUNS} runs, {} events: {tally}", tally.events)
}
