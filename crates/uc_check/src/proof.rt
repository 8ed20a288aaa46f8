//! Proofs as lists of lines.

use uc_clause::Name;
use uc_term::{Seq, Term, Text};

/// A proof: its lines in order. Lines are numbered from 0.
#[derive(Drop, Debug)]
pub struct Proof {
    pub lines: Seq<Line>,
}

/// A line of a proof: its name, where it comes from, and its equation or, where it isn't positive, its denied equation. A
/// refute line has no equation: both its sides are the variable 0, and it is positive.
#[derive(Drop, Debug)]
pub struct Line {
    pub name: Text,
    pub source: LineSource,
    pub left: Term,
    pub right: Term,
    pub positive: bool,
}

/// Where a line comes from.
#[derive(Drop, Debug)]
pub enum LineSource {
    /// A clause of the problem of this name.
    File(Name),
    /// A chain of replacements from the left side to the right side, and the lines that its steps name.
    Chain {
        start: Term,
        steps: Seq<LineStep>,
        parents: Seq<u32>,
    },
    /// The encoding's axiom `eq(X,X) = true`.
    Reflexive {
        parents: Seq<u32>,
    },
    /// The encoding's axiom `eq(s,t) = false` of a goal.
    EncodeGoal {
        parents: Seq<u32>,
    },
    /// The refutation of a goal.
    Refute {
        parents: Seq<u32>,
    },
}

/// A step of a chain: the line by whose equation a subterm is replaced, which way the equation is used, the position of the
/// subterm with arguments counted from 1, and the whole term behind the step.
#[derive(Drop, Debug)]
pub struct LineStep {
    pub by: u32,
    pub left_to_right: bool,
    pub path: Seq<u32>,
    pub to: Term,
}
