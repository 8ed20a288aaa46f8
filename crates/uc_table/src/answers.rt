//! What is answered about a table, and by a search for one.

use crate::Table;
use uc_term::Seq;

/// What a table is to a problem. Axioms and goals are numbered among their own, clauses in the problem's flat order, and an
/// assignment has a value for each variable.
#[derive(Drop, Debug)]
pub enum Tabled {
    /// The table is a model of the problem: each axiom holds under every assignment, and no goal under any.
    Model,
    /// The sides of this axiom have two values under this assignment.
    AxiomFails(u32, Seq<u32>),
    /// The sides of this goal have one value under this assignment.
    GoalMeets(u32, Seq<u32>),
    /// This clause has more than 16,777,216 assignments.
    Assignments(u32),
}

/// What a search for a table that is a model of a problem comes to.
#[derive(Drop, Debug)]
pub enum Searched {
    /// This table is a model.
    Found(Table),
    /// No table up to the size is a model.
    Absent,
    /// So many prefixes were visited, and a further one is due.
    Spent(u32),
    /// A table of this size has more than 65,536 cells.
    Cells(u32),
    /// At this size a clause has more than 16,777,216 assignments.
    Assignments(u32),
}
