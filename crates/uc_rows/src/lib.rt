//! What a book holds, in rows: the facts with their meetings, the pairs with their states and their queue, the goals with their
//! chains, the tasks that are out and the numbers of the workers. Each has the machine's list as its value, and each change is
//! one change of that list.
#![tactic(auto)]

mod chains;
mod facts;
mod goals;
mod pairs;
mod tasks;
mod workers;

pub use chains::end_of;
pub use facts::Facts;
pub use goals::Goals;
pub use pairs::Pairs;
pub use tasks::{TaskRow, copy_job, draw_event, place_of, reclaim_event, same_job, units};
pub use workers::{WORKERS, count_commit, count_draw, count_reclaim, no_numbers};
