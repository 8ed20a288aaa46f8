//! The facts: the front of the entries, and for each fact what the front says of it and whether its meeting is to come.

ghost use Rattle.std.specs.Prelude.{◌≡◌, ℕ, ◌+◌, ◌<◌, ◌≤◌, ◌^◌, ◌++◌, ◌∷◌, [], length, cond, true, false, Some, slice_get, slice_index_or, vec_capacity, OnOk, OnErr};
ghost use Rattle.uc_shelf.specs.Entries.{born, is_dead};
ghost use Rattle.uc_rows.specs.declared.facts.FactRow.{FactRow as AnyRow};
ghost use Rattle.uc_machine.specs.declared.state.Meeting.{Meeting as AnyMeeting};
ghost use Rattle.uc_machine.specs.declared.state.Meeting.TheVariants.{Unmet, Met};
ghost use Rattle.uc_machine.specs.Lists.{At, first, change, map_option};
ghost use Rattle.uc_machine.specs.State.{is_unmet};
ghost use Rattle.uc_machine.specs.Effects.{sides_weight, meets_unmet};
ghost use Rattle.uc_rows.specs.Rising.{AreBelow};
ghost use Rattle.uc_rows.specs.FactRows.{HasOneMore};
ghost use Rattle.uc_rows.specs.Deaths.{HasDeaths, met_by, dead_row};

use crate::goals::back_to;
use std::alloc::{AllocError, Global};
use std::marker::Model;
use uc_machine::Meeting;
use uc_shelf::Front;

/// A fact: its meeting, whether it is dead, and how many nodes its two sides have together.
#[derive(Clone, Copy)]
pub struct FactRow {
    pub meeting: Meeting,
    pub is_dead: bool,
    pub weight: u32,
}

/// The front of the entries with all facts, by number. No fact before `unmet_from` is Unmet, so the search for the least one
/// goes on there.
#[derive(Drop)]
pub struct Facts {
    front: Front,
    rows: Vec<FactRow>,
    unmet_from: usize,
}

impl Model for Facts {
    ghost use Rattle.std.specs.Coded.{codes};
    ghost use Rattle.uc_term.specs.Code.{tree_code};
    ghost use Rattle.uc_rows.specs.RowViews.{FactsView};

    ghost Value = { FactsView };

    ghost coded = { Prim.hlevel (codes, tree_code) };

    ghost use Rattle.uc_rows.specs.FactRows.{facts_view, AreFacts};

    ghost view = { facts_view };

    ghost invariant = { AreFacts };
}

#[inline]
fn is_unmet(meeting: Meeting) -> bool
    ensures { result ≡ is_unmet meeting }
{
    matches!(meeting, Meeting::Unmet)
}

/// The least number, from one on, of a fact that is Unmet; how many facts there are, where there is none.
fn unmet_from(rows: &[FactRow], from: usize) -> usize
    ensures none { (k : ℕ) (d : AnyRow) → from ≤ k → k < result → k < length rows.now → is_unmet (slice_index_or rows.now k d).meeting ≡ false }
    ensures some { (d : AnyRow) → result < length rows.now → is_unmet (slice_index_or rows.now result d).meeting ≡ true }
    ensures within { result ≤ length rows.now }
{
    for k in from..rows.len() {
        if is_unmet(rows[k].meeting) {
            return k;
        }
    }
    rows.len()
}

/// What the meeting of a fact becomes when the fact dies.
#[inline]
fn without_visit(meeting: Meeting) -> Meeting
    ensures { result ≡ meets_unmet meeting }
{
    match meeting {
        Meeting::Unmet | Meeting::Met => Meeting::Met,
        Meeting::Visiting => Meeting::Visiting,
    }
}

/// The fact of a number is dead; if it was Unmet it is Met.
fn bury_row(rows: &mut Vec<FactRow>, fact: u32)
    ensures items { rows.new.items ≡ change dead_row rows.old.items fact }
    ensures capacity { vec_capacity rows.new ≡ vec_capacity rows.old }
{
    let number = fact as usize;
    if number < rows.len() {
        let row = rows[number];
        rows[number] = FactRow {
            meeting: without_visit(row.meeting),
            is_dead: true,
            weight: row.weight,
        };
    }
}

impl Facts {
    /// No entry, and no fact.
    pub fn new(alloc: Global) -> Facts
        ensures entries { result.front.entries ≡ [] }
        ensures homes { result.front.homes ≡ [] }
        ensures meetings { result.meetings ≡ [] }
    {
        Facts {
            front: Front::empty(alloc),
            rows: Vec::new(alloc),
            unmet_from: 0,
        }
    }

    /// The front of the entries.
    pub fn front(&self) -> &Front
        ensures { result.now ≡ self.now.front }
    {
        &self.front
    }

    /// How many facts are born.
    pub fn count(&self) -> usize
        ensures value { result ≡ length (born self.now.front.entries) }
        ensures few { result ≤ 2 ^ 31 }
    {
        self.rows.len()
    }

    /// Whether the fact of a number is dead.
    pub fn is_dead(&self, fact: u32) -> bool
        ensures { result ≡ is_dead self.now.front.entries fact }
    {
        let number = fact as usize;
        number < self.rows.len() && self.rows[number].is_dead
    }

    /// How many nodes the two sides of a fact have together; none, where it isn't born.
    pub fn weight(&self, fact: u32) -> u32
        ensures { result ≡ sides_weight (slice_get (born self.now.front.entries) fact) }
    {
        let number = fact as usize;
        if number < self.rows.len() {
            self.rows[number].weight
        } else {
            0
        }
    }

    /// The least fact that is Unmet.
    pub fn first_unmet(&mut self) -> Option<u32>
        ensures found { result ≡ map_option (λ (f : At AnyMeeting). f.number) (first is_unmet self.old.meetings) }
        ensures same { self.new ≡ self.old }
    {
        let number = unmet_from(self.rows.as_slice(), self.unmet_from);
        self.unmet_from = number;
        if number >= self.rows.len() {
            return None;
        }
        Some(number as u32)
    }

    /// Says how the meeting of a fact stands.
    pub fn settle(&mut self, fact: u32, meeting: Meeting)
        ensures { self.new ≡ record self.old { meetings = change (λ _. meeting) self.old.meetings fact } }
    {
        let number = fact as usize;
        if number >= self.rows.len() {
            return;
        }
        self.rows[number].meeting = meeting;
        self.unmet_from = back_to(self.unmet_from, number, is_unmet(meeting));
    }

    /// The meeting of a fact won't be held now: it is Unmet again, or Met where the fact died meanwhile.
    pub fn restore(&mut self, fact: u32)
        ensures { self.new ≡ record self.old { meetings = change (λ m. cond (is_dead self.old.front.entries fact) Met Unmet) self.old.meetings fact } }
    {
        let meeting = if self.is_dead(fact) {
            Meeting::Met
        } else {
            Meeting::Unmet
        };
        self.settle(fact, meeting);
    }

    /// Makes room for so many more facts. It answers want of memory only where there is less room, and the facts are then as
    /// before.
    pub fn reserve(&mut self, more: usize) -> Result<(), AllocError>
        ensures front { self.new.front ≡ self.old.front }
        ensures meetings { self.new.meetings ≡ self.old.meetings }
        ensures room { OnOk result (more ≤ self.new.room) }
        ensures kept { self.old.room ≤ self.new.room }
        ensures refused { OnErr result (self.old.room < more) }
    {
        self.rows.reserve(more)
    }

    /// Takes over a front with one fact more, of this weight, which is Unmet.
    pub fn adopt(&mut self, front: Front, weight: u32)
        requires grew { HasOneMore self.old.front.entries front.entries weight }
        requires few { length front.entries ≤ 2 ^ 31 }
        requires room { 1 ≤ self.old.room }
        ensures front { self.new.front ≡ front }
        ensures meetings { self.new.meetings ≡ self.old.meetings ++ Unmet ∷ [] }
        ensures room { self.old.room ≤ self.new.room + 1 }
    {
        self.front = front;
        self.rows.push_reserved(FactRow {
            meeting: Meeting::Unmet,
            is_dead: false,
            weight,
        });
    }

    /// Takes over a front with the deaths of these facts behind it. Those of them that were Unmet are Met.
    pub fn bury(&mut self, front: Front, falls: &[u32])
        requires grew { HasDeaths self.old.front.entries front.entries falls.now }
        requires born { AreBelow (length (born self.old.front.entries)) falls.now }
        ensures front { self.new.front ≡ front }
        ensures meetings { self.new.meetings ≡ met_by falls.now self.old.meetings }
        ensures room { self.new.room ≡ self.old.room }
    {
        for k in 0..falls.len() {
            bury_row(&mut self.rows, falls[k]);
        }
        self.front = front;
    }

    /// How the meeting of a fact stands; none, where it isn't born.
    pub fn meeting(&self, fact: u32) -> Option<Meeting>
        ensures { result ≡ slice_get self.now.meetings fact }
    {
        let number = fact as usize;
        if number < self.rows.len() {
            Some(self.rows[number].meeting)
        } else {
            None
        }
    }
}
