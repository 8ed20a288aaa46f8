//! The program as one call, from the words of its command line to its answer and status.
#![tactic(auto)]

mod axioms;
mod certificates;
mod certifying;
mod checking;
mod deciding;
mod deciding_by_certificate;
mod gen_lines;
mod generating;
mod laws;
mod listing;
mod loading;
mod modelling;
mod output;
mod program;
mod proving;
mod replying;
mod rewriting;
mod searching;
mod showing;
mod tabling;

pub use laws::{
    chosen_order_fits, one_answer, one_history, one_line, one_line_by_certificate, one_number,
    one_run, one_system, searches_are_short,
};
pub use output::tell_memory_out;
pub use program::run;
