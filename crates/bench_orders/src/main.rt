//! Compares terms under the Knuth-Bendix and the lexicographic path order and prints the outcomes, to be timed. Of the
//! six words the first two say how many rounds each order compares the pairs of the file `group_pairs` (made by
//! `bench/pairs.py`), as plain Rust does it too (`bench/orders_plain`); the next two, how many levels the deep terms have
//! that each order compares; the last two, how many levels two combs have, each with a variable of its own, that each
//! order compares a thousand times.
#![tactic(auto)]

mod counts;
mod deep;
mod many;
mod orders;
mod pairs;

use counts::compared;
use deep::{Shape, deep_outcomes};
use many::many_variables;
use orders::{kbo, lpo, symbols};
use pairs::read_terms;
use std::alloc::AllocError;
use std::io::Print;
use std::rt::{Env, Files};
use std::{env, fs, io};
use uc_order::Order;
use uc_term::{Symbols, Term};

// How often two combs with many variables are compared.
const ROUNDS: u32 = 1000;

// The number that each word says, 0 where it says none.
fn numbers(rt: &(impl Env + AllocGlobal)) -> io::Result<[u64; 6]> {
    let mut words = env::args(rt)?.skip(1);
    let mut numbers = [0; 6];
    for number in &mut numbers {
        *number = match words.next() {
            Some(word) => word.parse::<u64>().unwrap_or(0),
            None => 0,
        };
    }
    Ok(numbers)
}

// What an order says of deep terms of this shape.
fn tell_deep<O: Order>(
    rt: &(impl Print + AllocGlobal),
    name: &str,
    order: &O,
    shape: Shape,
    levels: u64,
) -> io::Result<()> {
    let outcomes = deep_outcomes(rt.alloc(), order, shape, levels as usize)?;
    println!(rt; "{name} {shape:?} {outcomes:?}")
}

// What an order says of deep terms of each shape.
fn tell_shapes<O: Order>(
    rt: &(impl Print + AllocGlobal),
    name: &str,
    order: &O,
    levels: u64,
) -> io::Result<()> {
    if levels == 0 {
        return Ok(());
    }
    tell_deep(rt, name, order, Shape::Chain, levels)?;
    tell_deep(rt, name, order, Shape::Left, levels)?;
    tell_deep(rt, name, order, Shape::Right, levels)
}

// What an order says of two combs with so many variables.
fn tell_many<O: Order>(
    rt: &(impl Print + AllocGlobal),
    name: &str,
    order: &O,
    levels: u64,
) -> io::Result<()> {
    if levels == 0 {
        return Ok(());
    }
    let count = u32::try_from(levels).unwrap_or(u32::MAX);
    let greater = many_variables(rt.alloc(), order, count, ROUNDS)?;
    println!(rt; "{name} {levels} variables: greater in {greater} of {ROUNDS} rounds")
}

// What an order says of the pairs in so many rounds, of deep terms with so many levels and of combs with so many variables.
fn tell<O: Order>(
    rt: &(impl Print + AllocGlobal),
    name: &str,
    order: &O,
    terms: &[Term],
    rounds: u64,
    levels: u64,
    variables: u64,
) -> io::Result<()> {
    println!(rt; "{name} {:?}", compared(order, terms, rounds))?;
    tell_shapes(rt, name, order, levels)?;
    tell_many(rt, name, order, variables)
}

fn tell_kbo(
    rt: &(impl Print + AllocGlobal),
    symbols: &Symbols,
    terms: &[Term],
    numbers: [u64; 6],
) -> io::Result<()> {
    let order = kbo(rt.alloc(), symbols).ok_or(AllocError)?;
    tell(rt, "kbo", &order, terms, numbers[0], numbers[2], numbers[4])
}

fn tell_lpo(
    rt: &(impl Print + AllocGlobal),
    symbols: &Symbols,
    terms: &[Term],
    numbers: [u64; 6],
) -> io::Result<()> {
    let order = lpo(rt.alloc(), symbols).ok_or(AllocError)?;
    tell(rt, "lpo", &order, terms, numbers[1], numbers[3], numbers[5])
}

fn tell_all(rt: &(impl Print + AllocGlobal), terms: &[Term], numbers: [u64; 6]) -> io::Result<()> {
    let symbols = symbols(rt.alloc())?;
    tell_kbo(rt, &symbols, terms, numbers)?;
    tell_lpo(rt, &symbols, terms, numbers)
}

// The terms of the file.
fn group_pairs(rt: &(impl Files + AllocGlobal)) -> io::Result<Vec<Term>> {
    let text = fs::read(rt, "group_pairs")?;
    Ok(read_terms(rt.alloc(), &text).ok().ok_or(AllocError)?)
}

fn main(rt: HostRuntime) -> io::Result<()> {
    let numbers = numbers(&rt)?;
    let terms = group_pairs(&rt)?;
    tell_all(&rt, &terms, numbers)
}
