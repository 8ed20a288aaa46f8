//! The book: unfailing completion as a machine of events (Bachmair, Dershowitz and Plaisted, Completion without failure).
//!
//! `uc_machine` has the machine's state, its events and runs, and the results of tasks. `Book` is the code: its value is a
//! state of the machine, and each call is one of the machine's relations.
#![tactic(auto)]

mod answer;
mod auditing;
mod book;
mod committing;
mod drawing;
mod drops;
mod limits;
mod opened;
mod parts;
mod returning;
mod starting;
mod token;
mod visiting;

pub use answer::{Audited, CommitFault, Drawn, Receipt};
pub use book::{Book, MAX_BUDGET, MAX_LIMIT};
pub use opened::Opened;
pub use token::{Done, Pass, Task};
pub use uc_rows::{WORKERS, copy_job};
