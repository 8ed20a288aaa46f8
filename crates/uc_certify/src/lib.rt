//! The tests of a certificate of saturation, which need no search: that its derivation derives the facts from the axioms, and that
//! each axiom and each overlap of two facts is joined under its order (Bachmair, Dershowitz and Plaisted, Completion without
//! failure). A certificate that passes decides what follows from the axioms. And how one is made of facts that converge.
#![tactic(auto)]

mod ac_ends;
mod certified;
mod checking;
mod comparison;
mod ending;
mod ends;
mod expected;
mod fact_lines;
mod joining;
mod laws;
mod making;
mod moves;
mod moving;
mod sides;
mod symbol_set;
mod variables;

pub use certified::Certified;
pub use checking::check_certificate;
pub use expected::{Member, expected_members};
pub use laws::{
    certified_decides, convergent_is_joined, joins_are_joinable, made_joins_are_printable,
    one_certified, one_making, own_forms_agree,
};
pub use making::make_certificate;
