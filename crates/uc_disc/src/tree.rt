//! The tree, and how it answers as an index.

ghost use Rattle.std.specs.Prelude.{◌≡◌, ◌<◌, ◌≤◌, ◌^◌, ℕ, IfOk, length};
ghost use Rattle.uc_fact.specs.Live.{AreRising};
ghost use Rattle.uc_disc.specs.Numbered.{lives};

use crate::build::{depth_of, places_of, set_marks, spell_all};
use crate::facts::copy_facts;
use crate::heads::{Head, heads_of};
use crate::idle::{idle_end, idle_rules};
use crate::place::Place;
use crate::search::{Any, first_from};
use crate::seats::{place_of, seats_of};
use std::alloc::{AllocError, Global};
use std::marker::Model;
use uc_fact::{Equation, Found, Index, Test};
use uc_term::{Node, Seq, Term};

/// A perfect discrimination tree over numbered equations. It has exactly one leaf for each side of each of them, whose trail
/// spells that side, and no other leaf. A contract sees the equations with their numbers.
#[derive(Drop)]
pub struct Tree {
    facts: Vec<(u32, Equation)>,
    /// Where to look for the fact of a number.
    seats: Vec<u32>,
    places: Vec<Place>,
    heads: Vec<Head>,
    deep: usize,
    /// For each rule by its number, whether `is_embedded` tells that its side is embedded in its other side.
    idle: Vec<bool>,
    /// Before this place all leaves are those of such rules.
    idle_end: usize,
}

impl Model for Tree {
    ghost use Rattle.std.specs.Prelude.{List, ℕ, ◌≤◌, ◌<◌, ◌^◌, length};
    ghost use Rattle.std.specs.Coded.{codes};
    ghost use Rattle.uc_term.specs.Code.{tree_code};
    ghost use Rattle.uc_term.specs.declared.equation.Equation.{Equation as AnyEquation};
    ghost use Rattle.uc_fact.specs.Live.{AreRising, rules_of};
    ghost use Rattle.uc_disc.specs.Numbered.{lives};
    ghost use Rattle.uc_disc.specs.Heads.{AreHeads};
    ghost use Rattle.uc_disc.specs.Idle.{AreIdleRules, AreIdle};
    ghost use Rattle.uc_disc.specs.Trail.{IsTree};

    ghost Value = { List (ℕ × AnyEquation) };

    ghost coded = { Prim.hlevel (codes, tree_code) };

    ghost view = { λ t. t.facts.items };

    ghost invariant = { λ t. AreRising (lives t.facts.items) × (length t.facts.items < 2 ^ 31) × IsTree (rules_of (lives t.facts.items)) t.places.items t.deep × (t.deep ≤ 4097) × AreHeads t.places.items t.heads.items (length t.places.items) × AreIdleRules (rules_of (lives t.facts.items)) t.idle.items × AreIdle (rules_of (lives t.facts.items)) t.places.items t.idle_end };
}

impl Tree {
    /// Builds the tree of copies of these facts. Memory is the only fault.
    pub fn build(alloc: Global, facts: &[(u32, Equation)]) -> Result<Tree, AllocError>
        requires rising { AreRising (lives facts.now) }
        requires few { length facts.now < 2 ^ 31 }
        ensures { IfOk result (λ tree. tree ≡ facts.now) }
    {
        Tree::of(alloc, copy_facts(alloc, facts)?)
    }

    /// Builds the tree of these facts, of which no copy is made. Memory is the only fault.
    pub fn of(alloc: Global, facts: Vec<(u32, Equation)>) -> Result<Tree, AllocError>
        requires rising { AreRising (lives facts.items) }
        requires few { length facts.items < 2 ^ 31 }
        ensures { IfOk result (λ tree. tree ≡ facts.items) }
    {
        let mut list = spell_all(alloc, facts.as_slice())?;
        list.sort()?;
        let mut places = places_of(alloc, list.as_slice())?;
        set_marks(places.as_mut_slice());
        let heads = heads_of(alloc, places.as_slice())?;
        let deep = depth_of(places.as_slice());
        let idle = idle_rules(alloc, facts.as_slice())?;
        let idle_end = idle_end(idle.as_slice(), places.as_slice());
        let seats = seats_of(alloc, facts.as_slice())?;
        Ok(Tree {
            facts,
            seats,
            places,
            heads,
            deep,
            idle,
            idle_end,
        })
    }

    /// Its equations with their numbers, which rise.
    pub fn facts(&self) -> &[(u32, Equation)]
        ensures value { result.now ≡ self.now }
        ensures rising { AreRising (lives self.now) }
    {
        self.facts.as_slice()
    }
}

impl Index for Tree {
    ghost use Rattle.uc_disc.specs.Numbered.{risen};
    ghost use Rattle.uc_disc.specs.Rising.{risen_rises};

    ghost live = { risen 0 };

    fn generalisations(&self, alloc: Global, term: &[Node]) -> Result<Seq<Found>, AllocError> {
        let mut list = Vec::new(alloc);
        let mut from = 0;
        while let Some(answer) = first_from(
            self.facts.as_slice(),
            self.places.as_slice(),
            self.heads.as_slice(),
            self.deep,
            self.idle.as_slice(),
            self.idle_end,
            alloc,
            from,
            term,
            &Any,
        )? {
            from = answer.rule + 1;
            list.push(answer.found)?;
        }
        Ok(Seq::from_vec(list))
    }

    fn first_that<T: Test>(
        &self,
        alloc: Global,
        term: &[Node],
        test: &T,
    ) -> Result<Option<Found>, AllocError> {
        match first_from(
            self.facts.as_slice(),
            self.places.as_slice(),
            self.heads.as_slice(),
            self.deep,
            self.idle.as_slice(),
            self.idle_end,
            alloc,
            0,
            term,
            test,
        )? {
            Some(answer) => Ok(Some(answer.found)),
            None => Ok(None),
        }
    }

    fn pair(&self, fact: u32) -> Option<(&Term, &Term)> {
        let facts = self.facts.as_slice();
        let place = place_of(facts, self.seats.as_slice(), fact);
        if place >= facts.len() {
            return None;
        }
        let found = &facts[place];
        if found.0 != fact {
            return None;
        }
        Some((&found.1.left, &found.1.right))
    }

    ghost rising = { risen_rises 0 };
}
