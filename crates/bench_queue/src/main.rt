//! A million adds and a million draws of the passive queue, with a checksum of what was drawn, to be timed beside the same work in plain Rust (`bench/queue.rs`).
#![tactic(auto)]

ghost use Rattle.std.specs.Prelude.{◌+◌, ℕ, OnOk};
ghost use Rattle.bench_queue.specs.Below.{IsBelow};

use std::alloc::{AllocError, Global};
use std::io;
use uc_queue::Passive;

const ENTRIES: u64 = 1_000_000;

// the next of a row of numbers that look random (Knuth's multiplier for 64 bits)
fn scrambled(seed: u64) -> u64 {
    seed.wrapping_mul(6364136223846793005)
        .wrapping_add(1442695040888963407)
}

// what was drawn, in order
fn mixed(sum: u64, number: u64) -> u64 {
    sum.wrapping_mul(31).wrapping_add(number)
}

fn add_and_draw(
    queue: &mut Passive,
    alloc: Global,
    weight: u32,
    number: u64,
    sum: u64,
) -> Result<u64, AllocError>
    requires { IsBelow number queue.old.waiting }
    ensures { OnOk result (IsBelow (number + 1) queue.new.waiting) }
{
    queue.add(alloc, weight, number)?;
    if number % 4 != 3 {
        return Ok(sum);
    }
    match queue.draw() {
        Some(drawn) => Ok(mixed(sum, drawn)),
        None => Ok(sum),
    }
}

// adds with a draw after each fourth, and then draws to the end
fn work(alloc: Global) -> Result<u64, AllocError> {
    let mut queue = Passive::new(alloc)?;
    let mut seed = 1;
    let mut sum = 0;
    for number in 0..ENTRIES {
        seed = scrambled(seed);
        let weight = (seed >> 33) as u32 % 200;
        sum = add_and_draw(&mut queue, alloc, weight, number, sum)?;
    }
    for _ in 0..ENTRIES {
        if let Some(number) = queue.draw() {
            sum = mixed(sum, number);
        }
    }
    Ok(sum)
}

fn main(rt: HostRuntime) -> io::Result<()> {
    match work(rt.alloc()) {
        Ok(sum) => println!(rt; "{sum}"),
        Err(_) => println!(rt; "no memory"),
    }
}
