//! Problems: loading from a library with includes and selections, constants in the place of a conjecture's variables, the
//! signature, and the encoding of goals with variables.
#![tactic(auto)]

mod assembly;
mod candidates;
mod closing;
mod counts;
mod encoding;
mod fault;
mod fetch;
mod files;
mod flat;
mod laws;
mod loading;
mod locating;
mod marking;
mod names;
mod problem;
mod selection;

pub use counts::Counts;
pub use encoding::encode;
pub use fault::{EncodeFault, LoadFault};
pub use fetch::MAX_FILE;
pub use flat::FlatClause;
pub use laws::{encoding_is_sound, goal_stands_for_conjecture, one_problem};
pub use loading::load;
pub use marking::marks;
pub use problem::{Encoded, Problem, Source};
pub use uc_clause::Sourced;
pub use uc_term::{Equation, Fresh, Signature};
