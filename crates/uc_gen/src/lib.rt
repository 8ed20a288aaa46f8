//! Generated problems: a function over constants, given by a sequence of numbers that look random; and into how many classes the
//! constants fall.
#![tactic(auto)]

mod axiom;
mod forms;
mod generating;
mod laws;
mod ordering;
mod sequence;

pub use forms::count_forms;
pub use generating::generate;
pub use laws::{forms_are_classes, one_count, one_generated};
pub use ordering::default_order;
