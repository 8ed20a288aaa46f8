//! Finite tables: algebras on a few values, as models of a problem that refute its goals (McCune, A Davis-Putnam program and
//! its application to finite first-order model search).
//!
//! A table gives each symbol a value below its size for each list of arguments. Where the two sides of every axiom have one value
//! under every assignment, and the sides of a goal two values under every assignment, the goal doesn't follow from the axioms.
#![tactic(auto)]

mod answers;
mod checking;
mod evaluating;
mod fault;
mod laws;
mod lines;
mod places;
mod printing;
mod reading;
mod search_instances;
mod search_layout;
mod search_reads;
mod search_size;
mod search_steps;
mod search_waiting;
mod searching;
mod table;

pub use answers::{Searched, Tabled};
pub use checking::check_table;
pub use fault::TableFault;
pub use laws::{model_refutes, one_search, one_verdict};
pub use printing::print_table;
pub use reading::read_table;
pub use searching::search;
pub use table::{MAX_ASSIGNMENTS, MAX_CELLS, MAX_SIZE, Table};
