//! Saturated systems as texts: the description of an order, and facts, a line each.
//!
//! [`read_system`] reads a text exactly where it is that of a system, and else refuses it for the first reason, at its place;
//! a refusal leaves the table of symbols grown only. What [`print_system`] prints of a description of an order of its own
//! symbols, and of facts over these, is read again as the very same.
//!
//! `specs/Reading.antt` says what a text reads as, line by line.
#![tactic(auto)]

mod facts;
mod fault;
mod header;
mod laws;
mod lines;
mod numerals;
mod pass;
mod pieces;
mod printing;
mod reading;
mod sides;
mod symbols;
mod system;

pub use fault::SystemFault;
pub use laws::{one_refusal, one_system, one_table, system_stays};
pub use lines::Cursor;
pub use printing::print_system;
pub use reading::{read_system, system_at};
pub use system::SystemText;
pub use uc_fact::System;
