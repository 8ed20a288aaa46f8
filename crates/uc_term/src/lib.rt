//! First-order terms as flat prefix lists that contracts see as trees, with substitutions, symbols and texts.
//!
//! `specs/` holds the definitions that all other crates cite: trees and instances, terms over a signature, a relation
//! used at one place of a term, one replacement of equals, conversion, and what follows from equations (Baader and
//! Nipkow, Term Rewriting and All That, chapters 3 and 4).
#![tactic(auto)]

mod equation;
mod fault;
mod fresh;
mod fresh_symbol;
mod gather;
mod laws;
mod names;
mod node;
mod position;
mod seq;
mod signature;
mod subst;
mod symbols;
mod term;
mod text;
mod var_order;
mod variables;

pub use equation::{Equation, Side};
pub use fault::TermFault;
pub use fresh::Fresh;
pub use fresh_symbol::add_fresh;
pub use laws::{encoding_adds_nothing, encoding_decides_goals};
pub use node::{Node, Pos, Sym};
pub use seq::Seq;
pub use signature::Signature;
pub use subst::{Subst, instance, instance_size};
pub use symbols::Symbols;
pub use term::{MAX_INSTANCE, MAX_NODES, Term, end_of, same_nodes};
pub use text::Text;
pub use var_order::VarOrder;
