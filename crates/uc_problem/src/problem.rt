//! Problems and encoded problems.

use uc_clause::Sourced;
use uc_term::{Equation, Fresh, Seq, Signature};

/// A problem: its clauses in flat order, which of them are axioms and which are goals, by their numbers in `clauses`, and its
/// signature. `conjecture` is the number of the clause that was a conjecture, where there was one.
#[derive(Drop)]
pub struct Problem {
    pub clauses: Seq<Sourced>,
    pub axioms: Seq<u32>,
    pub goals: Seq<u32>,
    pub signature: Signature,
    pub conjecture: Option<u32>,
}

/// What an axiom of an encoded problem comes from: a clause of the problem, the encoding's reflexivity, or a goal clause with a
/// variable.
#[derive(Clone, Copy, PartialEq, Eq, Debug)]
pub enum Source {
    Clause(u32),
    Reflexive,
    Goal(u32),
}

/// A problem whose goals are ground: where a goal of the problem has a variable, the goals with variables are written as
/// equations by the three fresh symbols, and the last goal is `true = false`. `sources` says where each axiom comes from, and
/// `goal_clauses` which clause each goal is, none for the encoding's.
#[derive(Drop)]
pub struct Encoded {
    pub axioms: Seq<Equation>,
    pub sources: Seq<Source>,
    pub goals: Seq<Equation>,
    pub goal_clauses: Seq<Option<u32>>,
    pub fresh: Option<Fresh>,
    pub signature: Signature,
}
