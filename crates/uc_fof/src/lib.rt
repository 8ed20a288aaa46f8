//! The FOF part of the TPTP language for unit equality: files whose items may be closed formulas, each an equation or its
//! denial under universal quantifiers, or a conjecture of one (Sutcliffe, The TPTP Problem Library and Associated
//! Infrastructure).
#![tactic(auto)]

mod bound;
mod file;
mod formulas;
mod heading;
mod item;
mod laws;
mod literals;
mod notes;
mod quantifiers;
mod refusal;
mod stop;
mod terms;
mod tokens;

pub use file::read_formulas;
pub use heading::{FormulaHeading, FormulaRole};
pub use item::FofItem;
pub use laws::{constants_stand_for_variables, one_reading, one_table};
pub use stop::{Halt, Reason};
