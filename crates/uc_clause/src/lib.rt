//! The CNF part of the TPTP language for unit equality: its tokens, its items, and printing (Sutcliffe, The TPTP Problem
//! Library and Associated Infrastructure).
#![tactic(auto)]

mod bytes;
mod clause;
mod fault;
mod grammar;
mod laws;
mod lexer;
mod printer;
mod quotes;
mod terminal;
mod token;

pub use clause::{Clause, Include, Item, Name, Role, Sourced};
pub use fault::{ClauseFault, TokenFault, What};
pub use grammar::{
    Head, Heading, Inclusion, MAX_ARITY, MAX_BRACKETS, MAX_BYTES, Opening, Stop, Variables, Why,
    item_at, literal_at, read_equation, read_items, read_term, term_at,
};
pub use laws::{one_reading, one_table};
pub use lexer::{place_behind, tokens};
pub use printer::{print_clause, print_equation, print_name, print_term, print_word};
pub use terminal::{Terminal, bytes_at, place_at, spelling_at, stands_at, terminal_at, word_at};
pub use token::{Kind, Place, Token};
