//! Pairs that are joinable because their two sides are equal up to brackets and order at associative and commutative symbols
//! (Martin and Nipkow, Ordered rewriting and confluence).
//!
//! [`join_ends`] is the whole test of the two ends of a pair: this one, and the one for ground joinability where it fails.
#![tactic(auto)]

mod ac_law;
mod among;
mod binary;
mod classes;
mod comparing;
mod joining;
mod laws;
mod least;
mod numbering;
mod testing;

pub use ac_law::{AcLaw, is_law};
pub use comparing::ac_equal;
pub use joining::ac_join;
pub use laws::{
    ac_answer_joins, ac_equal_joins, ends_joined_is_joinable, one_ac_answer, one_ends_answer,
    one_sorted_form, sorted_form_is_reached,
};
pub use testing::join_ends;
