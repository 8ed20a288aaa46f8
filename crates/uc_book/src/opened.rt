//! What a book was opened with.

ghost use Rattle.std.specs.Prelude.{◌≡◌};

use std::marker::Model;
use std::snapshot::Snapshot;
use uc_problem::Encoded;
use uc_shelf::Shelf;

/// What a book was opened with, but for its order: its problem, its shelf, its budget of counted units and its limit on pairs
/// that wait. Contracts alone see the problem and the shelf.
#[derive(Drop)]
pub struct Opened {
    problem: Snapshot<Encoded>,
    shelf: Snapshot<Shelf>,
    budget: u32,
    limit: u32,
}

impl Model for Opened {
    ghost use Rattle.std.specs.Coded.{codes};
    ghost use Rattle.uc_term.specs.Code.{tree_code};
    ghost use Rattle.boxcar.specs.Table.{shelves_coded};
    ghost use Rattle.uc_book.specs.Openings.{Opened as AnyOpened};

    ghost Value = { AnyOpened };

    ghost coded = { Prim.hlevel (codes, tree_code, shelves_coded) };

    ghost view = { λ o. record { problem = o.problem.value; shelf = o.shelf.value; budget = o.budget; limit = o.limit } };
}

impl Opened {
    /// The opening by these. It takes no memory.
    pub fn new(problem: &Encoded, shelf: &Shelf, budget: u32, limit: u32) -> Opened
        ensures problem { result.problem ≡ problem.now }
        ensures shelf { result.shelf ≡ shelf.now }
        ensures budget { result.budget ≡ budget }
        ensures limit { result.limit ≡ limit }
    {
        Opened {
            problem: Snapshot::of(problem),
            shelf: Snapshot::of(shelf),
            budget,
            limit,
        }
    }

    /// How many units may be counted.
    pub fn budget(&self) -> u32
        ensures { result ≡ self.now.budget }
    {
        self.budget
    }

    /// How many pairs may wait.
    pub fn limit(&self) -> u32
        ensures { result ≡ self.now.limit }
    {
        self.limit
    }
}
