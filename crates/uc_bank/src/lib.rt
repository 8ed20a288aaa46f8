//! Banks: what a worker remembers of the facts that it works with, so that it isn't found anew in each task.
//!
//! A [`Bank`] has a shelf and an order. It remembers how the two sides of each fact compare, once for each fact of the fronts
//! that it [learned](Bank::learn), by the fact's number, and normal forms over one front. Nothing that is answered by its
//! help depends on it: a comparison is that of the order, and [`normalise_in`] gives what `normalise` gives over the facts
//! that live in the front.
#![tactic(auto)]

mod bank;
mod forms;

pub use bank::{Bank, normalise_in};
