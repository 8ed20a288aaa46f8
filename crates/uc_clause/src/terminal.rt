//! What a token is to the grammar.

ghost use Rattle.std.specs.Prelude.{◌^◌, ◌≡◌, ◌+◌, ◌≤◌, ◌∷◌, Some, ◌<◌, slice_index, length, slice_range, MatchBool, ◌≢◌, slice_get, drop, IfOk};
ghost use Rattle.uc_clause.specs.Tokens.{AreTokens, IsWithin};
ghost use Rattle.uc_clause.specs.Terminals.{terminal_of_mark, terminal_of, terminal_at, bytes_at, word_at, place_at};

use crate::lexer::place_behind;
use crate::{Kind, Place, Token};
use std::alloc::{AllocError, Global};
use uc_term::Text;

/// What stands at a place among the tokens, as the grammar tells tokens apart: a kind, with the marks that it calls for,
/// or the end of the text.
#[derive(Clone, Copy, PartialEq, Eq, Debug)]
pub enum Terminal {
    Lower,
    Upper,
    Quoted,
    Distinct,
    Integer,
    Dollar,
    Unequal,
    Open,
    Close,
    OpenSquare,
    CloseSquare,
    Comma,
    Dot,
    Equal,
    Bar,
    Tilde,
    Star,
    OtherMark,
    End,
}

// The mark that a byte is.
fn terminal_of_mark(byte: u8) -> Terminal
    ensures { result ≡ terminal_of_mark byte }
{
    match byte {
        b'(' => Terminal::Open,
        b')' => Terminal::Close,
        b'[' => Terminal::OpenSquare,
        b']' => Terminal::CloseSquare,
        b',' => Terminal::Comma,
        b'.' => Terminal::Dot,
        b'=' => Terminal::Equal,
        b'|' => Terminal::Bar,
        b'~' => Terminal::Tilde,
        b'*' => Terminal::Star,
        _ => Terminal::OtherMark,
    }
}

// What a token is.
fn terminal_of(bytes: &[u8], token: Token) -> Terminal
    ensures { result ≡ terminal_of bytes.now token }
{
    match token.kind {
        Kind::Lower => Terminal::Lower,
        Kind::Upper => Terminal::Upper,
        Kind::Quoted => Terminal::Quoted,
        Kind::Distinct => Terminal::Distinct,
        Kind::Integer => Terminal::Integer,
        Kind::Dollar => Terminal::Dollar,
        Kind::Unequal => Terminal::Unequal,
        Kind::Mark => terminal_of_mark(first_byte(bytes, token.from as usize)),
    }
}

// The byte at a number, 0 past the end.
fn first_byte(bytes: &[u8], at: usize) -> u8
    ensures { result ≡ slice_index bytes.now at }
{
    if at < bytes.len() { bytes[at] } else { 0 }
}

/// What stands at the token of this number, or the end of the text where there is none. It takes no memory.
pub fn terminal_at(bytes: &[u8], tokens: &[Token], at: usize) -> Terminal
    ensures { result ≡ terminal_at bytes.now tokens.now at }
{
    if at < tokens.len() {
        terminal_of(bytes, tokens[at])
    } else {
        Terminal::End
    }
}

/// Whether this stands at the token of this number. It takes no memory.
pub fn stands_at(bytes: &[u8], tokens: &[Token], at: usize, terminal: Terminal) -> bool
    ensures { MatchBool result (terminal_at bytes.now tokens.now at ≡ terminal) (terminal_at bytes.now tokens.now at ≢ terminal) }
{
    terminal_at(bytes, tokens, at) == terminal
}

/// The bytes of the token of this number. It takes no memory.
pub fn bytes_at<'a>(bytes: &'a [u8], tokens: &[Token], at: usize) -> &'a [u8]
    requires tokens { AreTokens bytes.now tokens.now }
    requires within { at < length tokens.now }
    ensures { result.now ≡ bytes_at bytes.now tokens.now at }
{
    token_at(bytes, tokens, at).bytes(bytes)
}

/// The bytes of the token of this number, none at the end of the text. It takes no memory.
pub fn spelling_at<'a>(bytes: &'a [u8], tokens: &[Token], at: usize) -> &'a [u8]
    requires { AreTokens bytes.now tokens.now }
    ensures { result.now ≡ bytes_at bytes.now tokens.now at }
{
    if at < tokens.len() {
        bytes_at(bytes, tokens, at)
    } else {
        &bytes[..0]
    }
}

/// The word that the token of this number stands for.
pub fn word_at(alloc: Global, bytes: &[u8], tokens: &[Token], at: usize) -> Result<Text, AllocError>
    requires tokens { AreTokens bytes.now tokens.now }
    requires within { at < length tokens.now }
    ensures { IfOk result (λ word. word ≡ word_at bytes.now tokens.now at) }
{
    token_at(bytes, tokens, at).word(alloc, bytes)
}

// The word that the token of this number stands for, none at the end of the text.
pub(crate) fn named_at(
    alloc: Global,
    bytes: &[u8],
    tokens: &[Token],
    at: usize,
) -> Result<Text, AllocError>
    requires { AreTokens bytes.now tokens.now }
    ensures { IfOk result (λ word. word ≡ word_at bytes.now tokens.now at) }
{
    if at < tokens.len() {
        word_at(alloc, bytes, tokens, at)
    } else {
        Ok(Text::new(alloc))
    }
}

/// Where the token of this number begins; the end of the text stands behind the last byte. It takes no memory.
pub fn place_at(bytes: &[u8], tokens: &[Token], at: usize) -> Place
    requires { length bytes.now < 2 ^ 31 }
    ensures { result ≡ place_at bytes.now tokens.now at }
{
    if at < tokens.len() {
        tokens[at].place
    } else {
        place_behind(bytes)
    }
}

// The token of a number.
pub(crate) fn token_at(bytes: &[u8], tokens: &[Token], at: usize) -> Token
    requires tokens { AreTokens bytes.now tokens.now }
    requires within { at < length tokens.now }
    ensures token { slice_get tokens.now at ≡ Some result }
    ensures in_text { IsWithin bytes.now result }
    ensures place { place_at bytes.now tokens.now at ≡ result.place }
{
    let _ = bytes;
    tokens[at]
}
