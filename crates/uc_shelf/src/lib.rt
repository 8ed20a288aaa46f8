//! The shelf of facts: entries that workers share, and fronts, which are lists of entries that stand on it.
//!
//! A [`Front`] is a list of entries that only its own [`Shelf::publish`] changes: that makes it one entry longer, a copy has
//! the same list, and whatever is put on the shelf for other fronts leaves it as it is. [`Shelf::same`] compares two lists
//! exactly, and [`Shelf::view`] is an index of the facts that are born and not dead in a front. A front goes with the shelf
//! on which its places are.
//!
//! It has at most 32 segments, runs of its entries whose lengths are powers of two, the longest first (Bentley and Saxe,
//! Decomposable searching problems). Each has a discrimination tree of its facts; a copy of a front shares them.
//!
//! Memory is taken by `Shelf::new`, `Shelf::publish`, `Front::copy`, `Entry::copy` and what a view finds or lists
//! (`generalisations`, `first_that`, `facts`), and by no other call. Where `publish` finds none, the entry is dropped and the front stays.
//!
//! `specs/` says which facts a list of entries has born, and which of them live.
#![tactic(auto)]

mod entry;
mod front;
mod row;
mod same;
mod segment;
mod shelf;
mod view;

pub use entry::Entry;
pub use front::Front;
pub use shelf::Shelf;
pub use view::{Lent, View};
