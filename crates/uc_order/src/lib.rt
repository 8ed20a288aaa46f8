//! Orders on terms with their laws, and total preorders of variables.
//!
//! The trait `Order` says what the Knuth-Bendix and the lexicographic path order have in common: `compare`, the same
//! under an order of variables, and the least constant (Baader and Nipkow, Term Rewriting and All That, chapter 5).
//! [`Remembering`] is such an order that remembers how numbered pairs of terms compare.
#![tactic(auto)]

mod classes;
mod completeness;
mod listing;
mod order;
mod precedence;
mod remembering;
mod spec;

pub use classes::{
    class_number, class_of, first_of_class, represent, represent_node, representative,
};
pub use completeness::{each_once, exactly_one};
pub use listing::var_orders;
pub use order::{Cmp, Order};
pub use precedence::check_precedence;
pub use remembering::Remembering;
pub use spec::{OrderFault, OrderSpec};
pub use uc_term::VarOrder;
