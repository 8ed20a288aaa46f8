//! The passive queue: entries of a weight and a number, of which each fifth draw takes the least number, and every other draw the least weight.
#![tactic(auto)]

mod entry;
mod passive;
mod tree;

pub use entry::Entry;
pub use passive::Passive;
