//! Ground joinability: whether each ground instance of two terms is joined by ground steps, by trying all orders of their
//! variables (Martin and Nipkow, Ordered rewriting and confluence).
#![tactic(auto)]

mod instance;
mod join;
mod laws;
mod variables;

pub use join::ground_join;
pub use laws::{joined_is_joinable, one_answer};
