//! The ledger of pairs: for each pair, by its number, the one state that it is in.
#![tactic(auto)]

mod ledger;

pub use ledger::{Ledger, NotThere, State};
