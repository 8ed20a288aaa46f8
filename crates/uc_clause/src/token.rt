//! The tokens of a text and their places.

ghost use Rattle.std.specs.Prelude.{◌≡◌, ◌<◌, ◌≤◌, length, IfOk};
ghost use Rattle.uc_clause.specs.Tokens.{bytes_of, IsWithin};
ghost use Rattle.uc_clause.specs.Names.{word_of};

use crate::quotes::unescaped;
use std::alloc::{AllocError, Global};
use uc_term::Text;

/// A place in a text: its line and its column, both counted from 1. A line ends at a line feed alone, and a column counts
/// bytes.
#[derive(Clone, Copy, PartialEq, Eq, Debug)]
pub struct Place {
    pub line: u32,
    pub column: u32,
}

/// How a token is spelled.
#[derive(Clone, Copy, PartialEq, Eq, Debug)]
pub enum Kind {
    /// A word that begins with a lower-case letter.
    Lower,
    /// A word that begins with an upper-case letter.
    Upper,
    /// A text in single quotes.
    Quoted,
    /// A text in double quotes.
    Distinct,
    /// Digits, with a sign before them or without.
    Integer,
    /// A word with one dollar sign or two before it.
    Dollar,
    /// `!=`.
    Unequal,
    /// Any other visible byte.
    Mark,
}

/// A token: how it is spelled, the number of its first byte in the text, that of the first byte behind it, and where it
/// begins.
#[derive(Clone, Copy, PartialEq, Eq, Debug)]
pub struct Token {
    pub kind: Kind,
    pub from: u32,
    pub to: u32,
    pub place: Place,
}

impl Token {
    /// The token's bytes in its text.
    pub fn bytes(self, text: &[u8]) -> &[u8]
        requires { IsWithin text.now self }
        ensures { result.now ≡ bytes_of text.now self }
    {
        &text[self.from as usize..self.to as usize]
    }

    /// The word that the token stands for in its text: a quoted one for its bytes without quotes, in which a `\` before a
    /// quote or another `\` is left out, any other for its bytes.
    pub fn word(self, alloc: Global, text: &[u8]) -> Result<Text, AllocError>
        requires { IsWithin text.now self }
        ensures { IfOk result (λ word. word ≡ word_of text.now self) }
    {
        let bytes = self.bytes(text);
        if self.kind == Kind::Quoted {
            unescaped(alloc, &bytes[1..])
        } else {
            Text::from_bytes(alloc, bytes)
        }
    }
}
