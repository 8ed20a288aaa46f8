//! Builds the places of a tree from the spellings of its rules.

ghost use Rattle.std.specs.Prelude.{◌≡◌, ◌≤◌, ◌<◌, ◌+◌, ◌*◌, ◌^◌, [], ℕ, take, length, slice_get, Some, IfOk, All, List, map};
ghost use Rattle.uc_fact.specs.Live.{Rule, rules_of};
ghost use Rattle.uc_disc.specs.declared.place.Place.{Place as AnyPlace};
ghost use Rattle.uc_disc.specs.declared.place.Label.TheVariants.{Leaf};
ghost use Rattle.uc_disc.specs.Numbered.{lives};
ghost use Rattle.uc_disc.specs.Trail.{bare, IsMark, AreMarks, AreBelow};
ghost use Rattle.uc_disc.specs.Building.{AreInOrder, AddsPlaces, IsBuilt, IsSpelled, rules_spelled};

use crate::facts::{side_of_rule, side_term};
use crate::place::{Label, Place, leaf_rule};
use crate::spelling::spelling;
use std::alloc::{AllocError, Global};
use uc_fact::Equation;
use uc_term::MAX_NODES;

/// A rule's side, spelled.
#[derive(PartialEq, Eq, PartialOrd, Ord, Drop)]
pub struct Spelled {
    pub labels: Vec<Label>,
    pub rule: u32,
}

/// Spells the sides of all rules, in the order of the rules.
pub fn spell_all(alloc: Global, facts: &[(u32, Equation)]) -> Result<Vec<Spelled>, AllocError>
    requires few { length facts.now < 2 ^ 31 }
    ensures { IfOk result (λ list. AreInOrder (rules_of (lives facts.now)) (length (rules_of (lives facts.now))) list.items) }
{
    let mut list = Vec::new(alloc);
    for rule in 0..facts.len() as u32 * 2 {
        let side = side_of_rule(facts, rule);
        let term = side_term(&facts[rule as usize / 2].1, side);
        let labels = spelling(alloc, term.as_nodes())?;
        list.push(Spelled { labels, rule })?;
    }
    Ok(list)
}

/// Counts the labels that two spellings have in common at their front.
fn shared(a: &[Label], b: &[Label]) -> usize
    ensures within { (result ≤ length a.now) × (result ≤ length b.now) }
    ensures same { take result a.now ≡ take result b.now }
{
    let mut n = 0;
    while n < a.len() && n < b.len() && a[n] == b[n] {
        n += 1;
    }
    n
}

/// Adds the places of a spelling behind those of another.
fn add_places(
    places: &mut Vec<Place>,
    before: &[Label],
    labels: &[Label],
    rule: u32,
) -> Result<(), AllocError>
    requires short { length labels.now ≤ MAX_NODES }
    ensures { IfOk result (λ _. AddsPlaces before.now labels.now rule places.old.items places.new.items) }
{
    let from = shared(before, labels);
    for depth in from..labels.len() {
        places.push(Place {
            label: labels[depth],
            depth: depth as u32,
            skip: 0,
            least: 0,
        })?;
    }
    places.push(Place {
        label: Label::Leaf(rule),
        depth: labels.len() as u32,
        skip: 0,
        least: 0,
    })?;
    Ok(())
}

/// Makes the places of spellings, without marks, each of which shares the front that it has in common with the one before it.
pub fn places_of(alloc: Global, list: &[Spelled]) -> Result<Vec<Place>, AllocError>
    requires short { (i : ℕ) (s : Spelled) → slice_get list.now i ≡ Some s → length s.labels.items ≤ MAX_NODES }
    ensures { IfOk result (λ places. (rules : List Rule) → All (IsSpelled rules) list.now → IsBuilt rules (rules_spelled list.now) places.items) }
{
    let mut places = Vec::new(alloc);
    let mut before: &[Label] = &[];
    for spelled in list {
        let labels = spelled.labels.as_slice();
        add_places(&mut places, before, labels, spelled.rule)?;
        before = labels;
    }
    Ok(places)
}

/// Returns a place with its mark, when the places behind it have theirs.
fn marked(places: &[Place], i: usize) -> Place
    requires within { i < length places.now }
    requires known { (j : ℕ) (p : AnyPlace) → i < j → slice_get places.now j ≡ Some p → IsMark places.now j p }
    ensures same { (p : AnyPlace) → slice_get places.now i ≡ Some p → bare result ≡ bare p }
    ensures mark { IsMark places.now i result }
{
    let label = places[i].label;
    let depth = places[i].depth;
    let mut least = leaf_rule(label);
    let mut skip = i + 1;
    while skip < places.len() && places[skip].depth > depth {
        least = least.min(places[skip].least);
        skip = places[skip].skip;
    }
    Place {
        label,
        depth,
        skip,
        least,
    }
}

/// Notes the marks of all places, from the last place back.
pub fn set_marks(places: &mut [Place])
    ensures same { map bare places.new ≡ map bare places.old }
    ensures marks { AreMarks places.new }
{
    let mut i = places.len();
    while i > 0 {
        i -= 1;
        let place = marked(places, i);
        places[i] = place;
    }
}

/// Returns one more than the greatest depth.
pub fn depth_of(places: &[Place]) -> usize
    requires short { (i : ℕ) (p : AnyPlace) → slice_get places.now i ≡ Some p → p.depth ≤ MAX_NODES }
    ensures below { AreBelow result places.now }
    ensures small { result ≤ MAX_NODES + 1 }
{
    let mut deep = 0;
    for place in places {
        deep = deep.max(place.depth as usize + 1);
    }
    deep
}
