//! The Knuth-Bendix order, with a unary symbol of weight 0 where it is last in the precedence.
#![tactic(auto)]

mod balance;
mod classes;
mod climb;
mod covers;
mod kbo;
mod run;
mod table;
mod weights;
mod wide;

pub use kbo::Kbo;
pub use run::Run;
pub use weights::{Slot, Weighed, Weights};
