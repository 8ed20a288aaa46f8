//! Where the fact of a number stands among facts with rising numbers.

ghost use Rattle.std.specs.Prelude.{◌≡◌, ◌*◌, ◌<◌, ◌≤◌, ◌^◌, ℕ, length, slice_get, Some, IfSome, IfOk, OnOk};
ghost use Rattle.uc_term.specs.declared.equation.Equation.{Equation as AnyEquation};
ghost use Rattle.uc_fact.specs.Live.{AreRising};
ghost use Rattle.uc_disc.specs.Numbered.{lives, IsSeated};

use std::alloc::{AllocError, Global};
use uc_fact::Equation;

/// The most seats for each fact.
const SEATS: usize = 8;

/// Lists for numbers, from that of the first fact on, which place to look at for its fact. The list ends with the number of
/// the last fact, or where it is many times as long as that of the facts.
pub fn seats_of(alloc: Global, facts: &[(u32, Equation)]) -> Result<Vec<u32>, AllocError>
    requires few { length facts.now < 2 ^ 31 }
    ensures { IfOk result (λ seats. length seats.items ≤ 8 * length facts.now) }
{
    let mut seats = Vec::new(alloc);
    let most = facts.len() * SEATS;
    for place in 0..facts.len() {
        let above = facts[place].0.saturating_sub(facts[0].0);
        fill(&mut seats, place as u32, above as usize, most)?;
    }
    Ok(seats)
}

/// Puts a place at the end of a list until it has one for a number, or is as long as it may be.
fn fill(seats: &mut Vec<u32>, place: u32, above: usize, most: usize) -> Result<(), AllocError>
    requires { length seats.old.items ≤ most }
    ensures { OnOk result (length seats.new.items ≤ most) }
{
    while seats.len() <= above && seats.len() < most {
        seats.push(place)?;
    }
    Ok(())
}

/// Finds the first fact with this number or a greater one, among facts with rising numbers: at its seat, or by halving.
#[inline]
pub fn place_of(facts: &[(u32, Equation)], seats: &[u32], fact: u32) -> usize
    requires rising { AreRising (lives facts.now) }
    ensures within { result ≤ length facts.now }
    ensures below { (j : ℕ) (f : ℕ × AnyEquation) → j < result → slice_get facts.now j ≡ Some f → f.0 < fact }
    ensures not_below { (j : ℕ) (f : ℕ × AnyEquation) → result ≤ j → slice_get facts.now j ≡ Some f → fact ≤ f.0 }
{
    match seat_of(facts, seats, fact) {
        Some(place) => place,
        None => first_not_below(facts, fact),
    }
}

/// Looks for the fact of this number at its seat.
#[inline]
fn seat_of(facts: &[(u32, Equation)], seats: &[u32], fact: u32) -> Option<usize>
    ensures { IfSome result (IsSeated facts.now fact) }
{
    let first = facts.first()?;
    let above = fact.checked_sub(first.0)?;
    let place = *seats.get(above as usize)? as usize;
    if place < facts.len() && facts[place].0 == fact {
        Some(place)
    } else {
        None
    }
}

/// Finds the first fact with this number or a greater one, by halving, among facts with rising numbers.
#[inline(never)]
fn first_not_below(facts: &[(u32, Equation)], fact: u32) -> usize
    requires rising { AreRising (lives facts.now) }
    ensures within { result ≤ length facts.now }
    ensures below { (j : ℕ) (f : ℕ × AnyEquation) → j < result → slice_get facts.now j ≡ Some f → f.0 < fact }
    ensures not_below { (j : ℕ) (f : ℕ × AnyEquation) → result ≤ j → slice_get facts.now j ≡ Some f → fact ≤ f.0 }
{
    let mut low = 0;
    let mut high = facts.len();
    while low < high {
        let middle = low + (high - low) / 2;
        if facts[middle].0 < fact {
            low = middle + 1;
        } else {
            high = middle;
        }
    }
    low
}
