//! The machine of completion: its state, its events and runs, the tasks and their results (unfailing completion; Bachmair,
//! Dershowitz and Plaisted, Completion without failure).
//!
//! `specs/` has the machine as relations and functions on lists; the small types that code and definitions share are declared
//! here. What every run keeps is said in `specs/Promises.antt`: the laws on numbers, tickets and states are proved here, those
//! on chains, facts, meetings and goals in `uc_runs`.
#![tactic(auto)]

mod event;
mod laws;
mod state;
mod task;

pub use event::{Ending, Event, GoalEnd, Happening, Verdict};
pub use laws::{
    counts_units, counts_workers, dies_once, ends_pairs_once, entries_grow, fronts_are_prefixes,
    one_commit, one_draw, one_end, one_state, tickets_differ,
};
pub use state::{Meeting, Numbers, Stage};
pub use task::{Finding, Job, Missing, Outcome};
