//! What a fact, a chain of steps and an index of facts are.
//!
//! `specs/` holds the definitions that all crates above cite: the facts that live, what is found for a term among them, and
//! ordered steps (Bachmair, Dershowitz and Plaisted, Completion without failure).
#![tactic(auto)]

mod ac_facts;
mod chain;
mod embedding;
mod fact;
mod index;
mod instance;
mod joinable;
mod laws;

pub use ac_facts::AcFacts;
pub use chain::{By, Chain, Step};
pub use embedding::is_embedded;
pub use fact::{Fact, Origin, Overlap, Stop, System};
pub use index::{Found, Index, Outlook, Test, passes_by};
pub use instance::{heads_differ, is_instance, matching};
pub use joinable::{Joinable, Reason};
pub use laws::{first_of_the_list, one_list};
pub use uc_term::{Equation, Side};
