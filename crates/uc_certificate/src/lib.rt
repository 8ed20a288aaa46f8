//! Certificates of saturation and their texts: a system with the order under which it is saturated, a derivation of its facts from
//! the axioms, and how each axiom and each overlap of two facts is joined. What one says, printed and read; whether it is right is
//! another crate's.
#![tactic(auto)]

mod border;
mod bounds;
mod cases;
mod certificate;
mod classes;
mod fact_names;
mod fault;
mod headings;
mod joins;
mod laws;
mod numerals;
mod parts;
mod printing;
mod reading;
mod replacements;
mod terms;
mod triples;
mod words;

pub use certificate::{AcTriple, Case, Certificate, End, Join, Move, What};
pub use fault::CertFault;
pub use laws::{one_reading, one_refusal, one_table, printed_reads_back, reading_stays};
pub use printing::print_certificate;
pub use reading::read_certificate;
