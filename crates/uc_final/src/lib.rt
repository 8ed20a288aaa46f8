//! The final pass over a drained book: whether the facts that live converge (Bachmair, Dershowitz and Plaisted, Completion
//! without failure).
//!
//! It goes by phases, each a function from lists to a list: the facts that live; the overlaps of each of them with each; the
//! pairs to be tested; of each of these whether it is missing. No phase changes anything, and the items of a list are worked
//! on one by one, each without the others.
#![tactic(auto)]

mod answering;
mod counted;
mod laws;
mod overlapping;
mod passing;
mod searching;
mod selecting;
mod testing;

pub use counted::FinalPasses;
pub use laws::{convergent_decides, convergent_joins};
pub use passing::final_pass;
