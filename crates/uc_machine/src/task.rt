//! Tasks and their results.

use uc_fact::{Chain, Fact, Joinable, Origin, Overlap, Reason, Stop, System};
use uc_pair::Formed;
use uc_term::{Seq, Term};

/// What a task is about.
#[derive(Debug, Drop)]
pub enum Job {
    /// Normalise the two ends of this goal.
    Goal { goal: u32, left: Term, right: Term },
    /// Go on normalising the two ends of this goal.
    More { goal: u32, left: Term, right: Term },
    /// Overlap this fact with the earlier ones and itself, and see which of them it replaces.
    Meet(u32),
    /// Join the two sides of this pair.
    Join { pair: u64, origin: Origin },
}

/// What comes of a task.
#[derive(Drop)]
pub enum Finding {
    /// The goal's two ends go on by these chains, and this is why they stop.
    Ends {
        left: Chain,
        right: Chain,
        stop: Stop,
    },
    /// The pair's two sides are joinable.
    Joined(Reason),
    /// The pair's two sides are not shown to be joinable, and give this fact.
    Kept(Fact),
    /// The fact that was to meet the others is replaced by this one.
    Stale(u32),
    /// The fact replaces these facts, and has these overlaps.
    Met {
        kills: Seq<u32>,
        overlaps: Seq<Formed>,
    },
}

/// An equation that the facts don't join: where it comes from, the fact that it gives, and the case in which its ends differ.
#[derive(Drop)]
pub struct Missing {
    pub origin: Origin,
    pub fact: Fact,
    pub open_case: Joinable,
}

/// What the final pass over a drained book answers.
#[derive(Drop)]
pub enum Outcome {
    /// All is joined: these are the facts that live.
    Convergent(System),
    /// These equations aren't joined.
    Missing(Seq<Missing>),
    /// The pair of this overlap is too large.
    Large(Overlap),
    /// A step from an end of this goal is too large.
    GoalUnsettled(u32),
}
