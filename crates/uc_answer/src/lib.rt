//! The texts of answers: lines, statuses, chains, pairs, replies, histories, and what a verdict prints.
//!
//! Each function makes lines and pins their bytes; what a line promises of a proof, a system or a reply is said beside it. Reading
//! the terms and questions that are words of a command line is here too, with the lines of words that are none.
#![tactic(auto)]

mod answer;
mod certificate_lines;
mod certify_lines;
mod chaining;
mod choosing;
mod clause_lines;
mod directing;
mod limit_lines;
mod lines;
mod model_lines;
mod pair_lines;
mod question_word;
mod refusing;
mod replying;
mod szs;
mod table_lines;
mod term_word;
mod trace_lines;
mod verdict_lines;
mod word_lines;

pub use answer::{
    Answer, DONE, NO, READ_FAULT, REFUSED, STOPPED, USAGE, WANT_OF_MEMORY, of_line, usage_answer,
};
pub use certify_lines::{cert_fault_answer, certified_answer};
pub use chaining::chain_lines;
pub use choosing::choice_answer;
pub use clause_lines::shown_lines;
pub use directing::directed_lines;
pub use limit_lines::out_lines;
pub use lines::{about_file, checked_line, proof_line};
pub use model_lines::searched_answer;
pub use pair_lines::all_pair_lines;
pub use question_word::{Misread, Question, read_questions};
pub use refusing::{large_answer, load_answer};
pub use replying::{replies, replies_status, reply_lines};
pub use szs::{unloaded_answer, with_status};
pub use table_lines::{table_fault_answer, tabled_answer};
pub use term_word::{WordFault, read_word};
pub use verdict_lines::{Closed, verdict_answer};
pub use word_lines::word_answer;
