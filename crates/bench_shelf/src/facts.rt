//! Facts and terms by chance, over a binary symbol, a unary one and five constants.

ghost use Rattle.std.specs.Prelude.{◌<◌};
ghost use Rattle.uc_shelf.specs.Fronts.{IsOf};

use std::alloc::{AllocError, Global};
use std::sync::Wait;
use uc_fact::{Chain, Fact, Origin, Stop};
use uc_shelf::{Entry, Front, Shelf};
use uc_term::{Seq, Sym, Term, TermFault};

/// A generator of numbers.
#[derive(Drop)]
pub struct Random {
    pub state: u32,
}

impl Random {
    /// A number below another one.
    pub fn below(&mut self, n: u32) -> u32
        requires { 0 < n }
        ensures { result < n }
    {
        self.state = self.state.wrapping_mul(1664525).wrapping_add(1013904223);
        (self.state >> 8) % n
    }
}

fn leaf(alloc: Global, random: &mut Random, ground: bool) -> Result<Term, TermFault> {
    if ground || random.below(3) == 0 {
        let none: [Term; 0] = [];
        Term::app(alloc, Sym(2 + random.below(5)), &none)
    } else {
        Ok(Term::var(alloc, random.below(3))?)
    }
}

/// A term by chance, of at most 12 nodes.
pub fn term_by_chance(alloc: Global, random: &mut Random, ground: bool) -> Result<Term, TermFault> {
    let mut term = leaf(alloc, random, ground)?;
    for _ in 0..2 + random.below(4) {
        if random.below(3) == 0 {
            let args = [term];
            term = Term::app(alloc, Sym(1), &args)?;
        } else {
            let other = leaf(alloc, random, ground)?;
            let args = if random.below(2) == 0 {
                [term, other]
            } else {
                [other, term]
            };
            term = Term::app(alloc, Sym(0), &args)?;
        }
    }
    Ok(term)
}

fn fact_by_chance(alloc: Global, random: &mut Random) -> Result<Fact, TermFault> {
    let left = term_by_chance(alloc, random, false)?;
    let right = term_by_chance(alloc, random, false)?;
    let start = left.copy(alloc)?;
    Ok(Fact {
        left,
        right,
        oriented: false,
        origin: Origin::Axiom(0),
        chain: Chain {
            start,
            steps: Seq::new(alloc),
        },
        front: 0,
        stops: (Stop::Full, Stop::Full),
    })
}

// Puts a fact by chance on a front that isn't too long. Whether it is done.
fn put<R: Wait>(
    rt: &R,
    alloc: Global,
    shelf: &Shelf,
    front: &mut Front,
    random: &mut Random,
) -> bool
    requires of { IsOf shelf.now front.old }
    ensures of { IsOf shelf.now front.new }
{
    let Ok(fact) = fact_by_chance(alloc, random) else {
        return false;
    };
    if front.len() >= 1_000_000 {
        return false;
    }
    shelf.publish(rt, alloc, front, Entry::Born(fact)).is_ok()
}

/// Puts so many facts by chance on a front. Whether it is done.
pub fn fill<R: Wait>(
    rt: &R,
    alloc: Global,
    shelf: &Shelf,
    front: &mut Front,
    random: &mut Random,
    count: u64,
) -> bool
    requires of { IsOf shelf.now front.old }
    ensures of { IsOf shelf.now front.new }
{
    for number in 0..count {
        if !put(rt, alloc, shelf, front, random) {
            return false;
        }
    }
    true
}
