//! Workers over one book under a lock: the book with a ledger of its commits, the workers' hands, what each worker does, and
//! the rounds of a search by several workers.
#![tactic(auto)]

mod counting;
mod held;
mod laws;
mod naming;
mod searched;
mod searching;
mod working;

pub use counting::shares;
pub use held::{Hand, Held};
pub use laws::one_worker_ends;
pub use naming::{NamesOrder, Naming};
pub use searched::{Searched, search};
pub use searching::rounds;
pub use uc_search::Ended;
pub use working::work;
