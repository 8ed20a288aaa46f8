//! Proofs as texts: reading and printing the part of the TSTP language in which proofs are written (Sutcliffe, Schulz, Claessen
//! and Van Gelder, Using the TPTP Language for Writing Derivations and Finite Interpretations), with the inference rules
//! `chain`, `encode` and `refute`.
#![tactic(auto)]

mod bodies;
mod bounds;
mod drafts;
mod fault;
mod framing;
mod laws;
mod lines;
mod lists;
mod names;
mod printing;
mod reading;
mod refusal;
mod resolving;
mod scope;
mod sources;
mod steps;
mod words;

pub use fault::ProofFault;
pub use framing::{Frame, MAX_PROOF, frame_of};
pub use laws::{one_reading, one_table, reading_stays};
pub use lists::{has_next, path};
pub use printing::{print_lines, print_proof};
pub use reading::{read_inside, read_lines, read_proof};
pub use scope::Scope;
pub use words::{expect, way, word};
