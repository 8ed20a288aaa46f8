//! The search over a book by one worker: tasks are computed and their results committed, one by one, and each time that the
//! book is drained the final pass says whether more is missing.
#![tactic(auto)]

mod computing;
mod facts;
mod laws;
mod rounds;
mod working;

pub use computing::{compute, compute_in};
pub use facts::{all_facts, live_numbers, live_system};
pub use laws::{limits_have_causes, one_search, search_is_a_run, searches_are_bounded};
pub use rounds::{end_round, search_alone, search_counting};
pub use working::{Ended, work_alone};
