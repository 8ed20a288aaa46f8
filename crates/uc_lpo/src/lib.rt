//! The lexicographic path order.
#![tactic(auto)]

mod compare;
mod levels;
mod path_order;
mod tables;
mod variables;

pub use path_order::Lpo;
