//! Rules that are read from a side that is embedded in their other side: many terms are instances of that, of a variable even
//! all, and no step from it leads to a smaller term, whatever the order.

ghost use Rattle.std.specs.Prelude.{◌≡◌, ◌<◌, ◌*◌, ◌^◌, ℕ, [], List, false, IsTrue, IfOk, length, slice_index_or};
ghost use Rattle.uc_fact.specs.Live.{Rule, rules_of};
ghost use Rattle.uc_disc.specs.declared.place.Label.TheVariants.{Leaf};
ghost use Rattle.uc_disc.specs.Numbered.{lives};
ghost use Rattle.uc_disc.specs.Idle.{IsIdle, AreIdleRules, AreIdle};
ghost use Rattle.uc_disc.specs.Heads.{IsRoot};
ghost use Rattle.uc_disc.specs.Trail.{AreSupported};

use crate::facts::{other_side_term, side_of_rule, side_term};
use crate::place::{Label, Place};
use std::alloc::{AllocError, Global};
use uc_fact::{Equation, is_embedded};

/// Marks rules that are idle, each by its number: those of which `is_embedded` tells it.
pub fn idle_rules(alloc: Global, facts: &[(u32, Equation)]) -> Result<Vec<bool>, AllocError>
    requires few { length facts.now < 2 ^ 31 }
    ensures { IfOk result (λ marks. AreIdleRules (rules_of (lives facts.now)) marks.items) }
{
    let mut marks = Vec::new(alloc);
    for rule in 0..facts.len() as u32 * 2 {
        marks.push(is_idle_rule(facts, rule))?;
    }
    Ok(marks)
}

/// Tells that a rule is read from a side that is embedded in its other side.
fn is_idle_rule(facts: &[(u32, Equation)], rule: u32) -> bool
    requires within { rule < 2 * length facts.now }
    requires few { length facts.now < 2 ^ 31 }
    ensures { IsTrue result → IsIdle (rules_of (lives facts.now)) rule }
{
    let fact = &facts[rule as usize / 2];
    let side = side_of_rule(facts, rule);
    is_embedded(side_term(&fact.1, side), other_side_term(&fact.1, side))
}

/// Finds a branch of the root, or the end, before which all leaves are those of idle rules: the first one behind the rules that
/// are read from a variable, where all of these are idle, and else the first of all.
pub fn idle_end(marks: &[bool], places: &[Place]) -> usize
    requires supported { AreSupported [] places.now }
    ensures { (rules : List Rule) → AreIdleRules rules marks.now → AreIdle rules places.now result }
{
    let mut end = 0;
    while end < places.len() && is_idle(marks, places[end].label) {
        end += 1;
    }
    if is_root(places, end) { end } else { 0 }
}

/// Tells that a label is a variable, or the leaf of an idle rule.
fn is_idle(marks: &[bool], label: Label) -> bool
    ensures { IsTrue result → (rule : ℕ) → label ≡ Leaf rule → IsTrue (slice_index_or marks.now rule false) }
{
    match label {
        Label::Variable(_) => true,
        Label::Head(_, _) => false,
        Label::Leaf(rule) => is_marked(marks, rule),
    }
}

/// Whether the rule of a number is marked.
#[inline]
pub fn is_marked(marks: &[bool], rule: u32) -> bool
    ensures { result ≡ slice_index_or marks.now rule false }
{
    match marks.get(rule as usize) {
        Some(mark) => *mark,
        None => false,
    }
}

/// Whether a place is a branch of the root, or behind all places.
fn is_root(places: &[Place], place: usize) -> bool
    ensures { IsTrue result → IsRoot places.now place }
{
    match places.get(place) {
        Some(place) => place.depth == 0,
        None => true,
    }
}
