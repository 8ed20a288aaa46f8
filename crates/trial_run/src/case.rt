//! Cases.

use crate::line::Span;
use std::alloc::{AllocError, Global};
use uc_term::Text;

/// The bytes for which a sink has room where a case doesn't say.
const ROOM: usize = 1_048_576;

/// A name, and what stands under it.
pub type Named = (Text, Text);

/// The writes that fail.
#[derive(Drop)]
pub enum Writes {
    /// Those of these numbers, from 1 on.
    Listed(Vec<u32>),
    /// Each of them, in a run of its own.
    Each,
}

/// What is to be written.
#[derive(Drop)]
pub enum Answer {
    /// This text; where a file is cut, `@` stands for the number of the byte.
    Text(Text),
    /// Anything. The library holds it from then on under this name.
    Kept(Text),
}

/// A run of the program, and what is to come of it.
#[derive(Drop)]
pub struct Case {
    pub words: Vec<String>,
    pub files: Vec<Named>,
    pub fetches: Vec<u32>,
    pub writes: Writes,
    pub room: usize,
    /// A file, and the bytes before which it is cut, each in a run of its own.
    pub cut: Option<(Text, Span)>,
    pub status: Option<u8>,
    pub answer: Answer,
}

impl Case {
    /// A case with these words and nothing else.
    pub fn new(alloc: Global, words: Vec<String>) -> Case {
        Case {
            words,
            files: Vec::new(alloc),
            fetches: Vec::new(alloc),
            writes: Writes::Listed(Vec::new(alloc)),
            room: ROOM,
            cut: None,
            status: None,
            answer: Answer::Text(Text::new(alloc)),
        }
    }
}

/// The last text of this name.
pub fn find<'a>(texts: &'a [Named], name: &[u8]) -> Option<&'a Text> {
    for (other, text) in texts.iter().rev() {
        if other.as_bytes() == name {
            return Some(text);
        }
    }
    None
}

/// A text of a word.
pub fn text_of(alloc: Global, word: &str) -> Result<Text, AllocError> {
    Text::from_bytes(alloc, word.as_bytes())
}
