//! What the tasks of the book come to: goals are normalised, pairs are joined, and facts meet those before them (Bachmair,
//! Dershowitz and Plaisted, Completion without failure).
//!
//! [`finding_of`] does a task of any kind. [`try_pair`] and [`live_facts`], on which it stands, are there for whoever tests
//! pairs outside a task.
//!
//! `specs/` says which tasks can be done, and what the trial of a pair comes to.
#![tactic(auto)]

mod chains;
mod fact;
mod finding;
mod goal;
mod join;
mod live;
mod meet;
mod numbering;
mod of_fact;
mod pair;
mod parts;
mod reducing;
mod trial;

pub use finding::finding_of;
pub use live::{LiveFact, live_facts};
pub use trial::{Tried, try_pair};
