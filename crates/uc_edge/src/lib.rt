//! The outside of the program, as traits: where its files come from, where its answer goes, and a gate that a test may
//! hold a worker at. A library and a sink have, for contracts alone, a count of faults that never falls, what they hold or
//! have taken, where they tell that, and the names at which the library failed or the pieces that the sink was given. For
//! tests there is a library and a sink in memory.
#![tactic(auto)]

mod gate;
mod laws;
mod library;
mod log;
mod memory;
mod sink;

pub use gate::{Gate, NoGate};
pub use laws::counts_rise;
pub use library::{Fetched, Library};
pub use log::{Log, Logged};
pub use memory::{MemoryLibrary, MemorySink};
pub use sink::{Sink, WriteFault, Written, put};
