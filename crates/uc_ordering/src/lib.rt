//! The order that the options of a command line and the defaults name for a problem's signature, and orders of either kind
//! as values.
//!
//! `choose` looks the names up and makes the description of an order, or says why the options are refused; `Chosen` is the
//! order that a description stands for.
#![tactic(auto)]

mod choice;
mod chosen;
mod fault;
mod laws;
mod numbers;
mod options;
mod precedence;
mod weights;

pub use choice::choose;
pub use chosen::Chosen;
pub use fault::ChoiceFault;
pub use laws::{encoding_extends_order, one_choice, restriction_agrees};
