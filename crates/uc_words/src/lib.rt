//! The command line: from the words after the program's name to one command, or to the fault that they have no reading.
#![tactic(auto)]

mod application;
mod command;
mod digits;
mod form;
mod line;
mod names;
mod read;
mod table;

pub use command::{Command, OrderWords, Verb, WordsFault};
pub use digits::number;
pub use read::read_words;
