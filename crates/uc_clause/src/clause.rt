//! What a file gives: clauses and includes.

ghost use Rattle.std.specs.Prelude.{◌≡◌, ◌↔◌, IsTrue};

use crate::Place;
use uc_term::{Seq, Term, Text};

/// The name of a clause: a word, or an integer as it was written. An integer differs from every word.
#[derive(Drop, Debug)]
pub struct Name {
    pub text: Text,
    pub integer: bool,
}

impl Name {
    /// Whether the two names are equal: both words or both integers, of the same bytes.
    pub fn same(&self, other: &Name) -> bool
        ensures { IsTrue result ↔ (self.now ≡ other.now) }
    {
        self.integer == other.integer && self.text.same(&other.text)
    }
}

/// What a clause is for.
#[derive(Clone, Copy, PartialEq, Eq, Debug)]
pub enum Role {
    Axiom,
    Hypothesis,
    Definition,
    Assumption,
    Lemma,
    Theorem,
    Corollary,
    Plain,
    NegatedConjecture,
}

/// A unit clause: an equation between two terms, or its denial. Variables are numbered from 0 by first occurrence, left
/// side first. `places` has one place for each node, left side first; `place` is where the item begins.
#[derive(Drop, Debug)]
pub struct Clause {
    pub name: Name,
    pub role: Role,
    pub positive: bool,
    pub left: Term,
    pub right: Term,
    pub places: Seq<Place>,
    pub place: Place,
}

/// An include of a file: of all its clauses, or of those of the names that are listed, each with its place.
#[derive(Drop, Debug)]
pub struct Include {
    pub file: Text,
    pub names: Option<Seq<(Name, Place)>>,
    pub place: Place,
}

/// What a file is made of.
#[derive(Drop, Debug)]
pub enum Item {
    Clause(Clause),
    Include(Include),
}

/// A clause and the file that it stands in, by the name under which that file was fetched.
#[derive(Drop, Debug)]
pub struct Sourced {
    pub file: Text,
    pub clause: Clause,
}
