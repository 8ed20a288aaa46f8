//! Extraction of proofs: from the chains of facts and of a goal to a proof whose lines are right, with the ancestors of its
//! refutation alone; and from the chains of facts to their derivation.
#![tactic(auto)]

mod aim;
mod conclusion;
mod extraction;
mod files;
mod laws;
mod lines;
mod needed;
mod part;
mod plan;
mod renumbering;
mod steps;

pub use extraction::{Extracted, extract_facts_from, extract_from};
pub use laws::{extraction_is_right, one_derivation, one_extraction};
