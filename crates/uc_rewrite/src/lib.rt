//! Ordered rewriting: looking through a list of equations, normalising by the first possible step, and replaying chains of
//! steps (Baader and Nipkow, Term Rewriting and All That, chapter 4; Bachmair, Dershowitz and Plaisted, Completion without
//! failure).
#![tactic(auto)]

mod comparison;
mod completed;
mod falls;
mod laws;
mod normal;
mod replaying;
mod scan;
mod walk;

pub use laws::{one_normal_form, one_normal_form_under};
pub use normal::{Normal, is_reducible, normalise, normalise_under};
pub use replaying::replay;
pub use scan::Scan;
