//! Asks a front of facts by chance which of them a term is an instance of, to be timed. Of the four words the first one says how
//! many facts there are, the second for how many terms all that are found are made and then the first one, the third for how
//! many terms the first one alone is made, and the fourth how many times the front is compared with its copy.
#![tactic(auto)]

mod facts;

ghost use Rattle.uc_shelf.specs.Fronts.{IsOf};

use facts::{Random, fill, term_by_chance};
use std::alloc::Global;
use std::io::Print;
use std::rt::Env;
use std::sync::Wait;
use std::{env, io};
use uc_fact::{Found, Index, Outlook, Side, Test};
use uc_shelf::{Front, Shelf, View};
use uc_term::{Node, Term};

// The number that each word says, 0 where it says none.
fn numbers(rt: &(impl Env + AllocGlobal)) -> io::Result<[u64; 4]> {
    let mut words = env::args(rt)?.skip(1);
    let mut numbers = [0; 4];
    for number in &mut numbers {
        *number = match words.next() {
            Some(word) => word.parse::<u64>().unwrap_or(0),
            None => 0,
        };
    }
    Ok(numbers)
}

// A test that nothing passes.
struct Nothing;

impl Test for Nothing {
    ghost use Rattle.std.specs.Prelude.{ℕ};

    ghost can_test = { λ _ _ _ _. Unit {0} };

    ghost accepts = { λ _ _. ⊥ };

    fn outlook(&self, fact: u32, side: Side, _from: &Term, _to: &Term) -> Outlook {
        Outlook::Unclear
    }

    fn passes(
        &self,
        alloc: Global,
        found: &Found,
        _from: &Term,
        _to: &Term,
        _space: &mut Vec<Node>,
    ) -> Result<bool, std::alloc::AllocError> {
        Ok(false)
    }
}

// A test that everything passes.
struct Anything;

impl Test for Anything {
    ghost can_test = { λ _ _ _ _. Unit {0} };

    ghost accepts = { λ _ _. Unit {0} };

    fn outlook(&self, fact: u32, side: Side, _from: &Term, _to: &Term) -> Outlook {
        Outlook::Unclear
    }

    fn passes(
        &self,
        alloc: Global,
        found: &Found,
        _from: &Term,
        _to: &Term,
        _space: &mut Vec<Node>,
    ) -> Result<bool, std::alloc::AllocError> {
        Ok(true)
    }
}

// Makes all that is found for a term. Whether there was memory.
fn make_all(view: &View, alloc: Global, term: &Term) -> bool {
    match view.first_that(alloc, term.as_nodes(), &Nothing) {
        Ok(None) => true,
        _ => false,
    }
}

// Whether a term is an instance of a side, of which the first is made.
fn is_found(view: &View, alloc: Global, term: &Term) -> Option<bool> {
    Some(
        view.first_that(alloc, term.as_nodes(), &Anything)
            .ok()?
            .is_some(),
    )
}

// How many of the terms are an instance of a side.
fn ask(view: &View, alloc: Global, random: &mut Random, all: u64, first: u64) -> Option<u64> {
    let mut found: u64 = 0;
    for round in 0..all {
        let term = term_by_chance(alloc, random, true).ok()?;
        if !make_all(view, alloc, &term) {
            return None;
        }
        found = found.saturating_add(is_found(view, alloc, &term)? as u64);
    }
    for round in 0..first {
        let term = term_by_chance(alloc, random, true).ok()?;
        found = found.saturating_add(is_found(view, alloc, &term)? as u64);
    }
    Some(found)
}

// How many times of so many a front is the same as its copy.
fn compare(shelf: &Shelf, alloc: Global, front: &Front, times: u64) -> Option<u64>
    requires { IsOf shelf.now front.now }
{
    let copy = front.copy(alloc).ok()?;
    let mut same: u64 = 0;
    for round in 0..times {
        same = same.saturating_add(shelf.same(front, &copy) as u64);
    }
    Some(same)
}

fn work<R: Wait>(rt: &R, alloc: Global, numbers: [u64; 4]) -> Option<u64> {
    let mut random = Random { state: 7 };
    let shelf = Shelf::new(alloc).ok()?;
    let mut front = Front::empty(alloc);
    if !fill(rt, alloc, &shelf, &mut front, &mut random, numbers[0]) {
        return None;
    }
    let view = shelf.view(&front);
    let found = ask(&view, alloc, &mut random, numbers[1], numbers[2])?;
    let same = compare(&shelf, alloc, &front, numbers[3])?;
    if same != numbers[3] {
        return None;
    }
    Some(found)
}

fn main(rt: HostRuntime) -> io::Result<()> {
    match work(&rt, rt.alloc(), numbers(&rt)?) {
        Some(found) => println!(rt; "{found} terms are an instance of a side"),
        None => println!(rt; "no memory"),
    }
}
