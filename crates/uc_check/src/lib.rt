//! The proof checker: whether each line of a proof is right for the clauses of a problem, and the last one refutes it.
//!
//! A chain line replaces equals by equals, each step by an earlier line, the named way and at the named position (Birkhoff's
//! replacement of equals; Baader and Nipkow, Term Rewriting and All That, chapter 3).
#![tactic(auto)]

mod chain;
mod checker;
mod encode;
mod file;
mod laws;
mod parents;
mod proof;
mod refute;
mod replacement;
mod variants;

pub use checker::{Cause, Checked, check, check_lines};
pub use laws::{lines_follow, one_answer, refutation_follows};
pub use proof::{Line, LineSource, LineStep, Proof};
