//! The tokens of a text.

ghost use Rattle.std.specs.Prelude.{◌≡◌, ◌⊎◌, ◌+◌, ◌<◌, ◌≤◌, ◌^◌, ℕ, List, Ok, Err, length, IfOk, IfErr, IsTrue, ◌↔◌, slice_index, ◌-◌, ◌∷◌, ◌++◌, [], true};
ghost use Rattle.uc_clause.specs.Bytes.{is_sign, name_len};
ghost use Rattle.uc_clause.specs.First.{IsFirst};
ghost use Rattle.uc_clause.specs.Tokens.{place_behind, AreTokens, StopsAt, IsRefused, Spans};

use crate::bytes::{
    digits_len, is_digit, is_lower, is_mark, is_sign, is_upper, is_white, line_len, word_len,
};
use crate::quotes::{block_end, closing};
use crate::{Kind, Place, Token, TokenFault};
use std::alloc::Global;
use uc_term::Seq;

// What a text begins with, and how many bytes that is.
enum First {
    Gap(usize),
    Whole(Kind, usize),
    Neither,
}

// The first bytes decide which; only this and what it calls is as hot as the loop in `tokens`.
#[inline]
fn scan(text: &[u8]) -> First
    ensures { IsFirst text.now result }
{
    let [b, rest @ ..] = text else {
        return First::Neither;
    };
    let b = *b;
    if is_white(b) {
        First::Gap(1)
    } else if is_lower(b) {
        First::Whole(Kind::Lower, 1 + word_len(rest))
    } else if is_upper(b) {
        First::Whole(Kind::Upper, 1 + word_len(rest))
    } else if is_digit(b) {
        First::Whole(Kind::Integer, 1 + digits_len(rest))
    } else if b == b'%' {
        First::Gap(1 + line_len(rest))
    } else if is_sign(b) {
        sign(text)
    } else if b == b'\'' {
        quoted(text)
    } else if b == b'"' {
        distinct(text)
    } else if b == b'$' {
        dollar(text)
    } else if b == b'!' {
        bang(text)
    } else if b == b'/' {
        slash(text)
    } else if is_mark(b) {
        First::Whole(Kind::Mark, 1)
    } else {
        First::Neither
    }
}

fn sign(text: &[u8]) -> First
    requires some { 0 < length text.now }
    requires first { is_sign (slice_index text.now 0) ≡ true }
    ensures { IsFirst text.now result }
{
    match digits_len(&text[1..]) {
        0 => First::Whole(Kind::Mark, 1),
        n => First::Whole(Kind::Integer, 1 + n),
    }
}

fn quoted(text: &[u8]) -> First
    requires some { 0 < length text.now }
    requires first { slice_index text.now 0 ≡ 39 }
    ensures { IsFirst text.now result }
{
    if text.len() == 1 {
        return First::Neither;
    }
    if text[1] == b'\'' {
        return First::Neither;
    }
    match closing(&text[1..], b'\'') {
        Some(n) => First::Whole(Kind::Quoted, 1 + n),
        None => First::Neither,
    }
}

fn distinct(text: &[u8]) -> First
    requires some { 0 < length text.now }
    requires first { slice_index text.now 0 ≡ 34 }
    ensures { IsFirst text.now result }
{
    match closing(&text[1..], b'"') {
        Some(n) => First::Whole(Kind::Distinct, 1 + n),
        None => First::Neither,
    }
}

fn dollar(text: &[u8]) -> First
    requires some { 0 < length text.now }
    requires first { slice_index text.now 0 ≡ 36 }
    ensures { IsFirst text.now result }
{
    let rest = &text[1..];
    let n = name_len(rest);
    if n > 0 {
        return First::Whole(Kind::Dollar, 1 + n);
    }
    if rest.is_empty() {
        return First::Whole(Kind::Mark, 1);
    }
    if rest[0] != b'$' {
        return First::Whole(Kind::Mark, 1);
    }
    let m = name_len(&rest[1..]);
    if m == 0 {
        return First::Whole(Kind::Mark, 1);
    }
    First::Whole(Kind::Dollar, 2 + m)
}

// How many bytes of a word that begins with a lower-case letter stand in front.
fn name_len(text: &[u8]) -> usize
    ensures value { result ≡ name_len text.now }
    ensures within { result ≤ length text.now }
{
    match text {
        [b, rest @ ..] => { if is_lower(*b) { 1 + word_len(rest) } else { 0 } }
        [] => 0,
    }
}

fn bang(text: &[u8]) -> First
    requires some { 0 < length text.now }
    requires first { slice_index text.now 0 ≡ 33 }
    ensures { IsFirst text.now result }
{
    if second_is(text, b'=') {
        First::Whole(Kind::Unequal, 2)
    } else {
        First::Whole(Kind::Mark, 1)
    }
}

fn slash(text: &[u8]) -> First
    requires some { 0 < length text.now }
    requires first { slice_index text.now 0 ≡ 47 }
    ensures { IsFirst text.now result }
{
    if second_is(text, b'*') {
        match block_end(&text[2..]) {
            Some(n) => First::Gap(2 + n),
            None => First::Neither,
        }
    } else {
        First::Whole(Kind::Mark, 1)
    }
}

fn second_is(text: &[u8], b: u8) -> bool
    ensures { IsTrue result ↔ ((1 < length text.now) × (slice_index text.now 1 ≡ b)) }
{
    text.len() > 1 && text[1] == b
}

// The place behind a byte at a place.
#[inline]
fn step(place: Place, b: u8) -> Place
    requires line { place.line < 2 ^ 32 - 1 }
    requires column { place.column < 2 ^ 32 - 1 }
    ensures behind { (front : List ℕ) → place ≡ place_behind front → result ≡ place_behind (front ++ b ∷ []) }
    ensures line { result.line ≤ place.line + 1 }
    ensures column { result.column ≤ place.column + 1 }
{
    if b == b'\n' {
        Place {
            line: place.line + 1,
            column: 1,
        }
    } else {
        Place {
            line: place.line,
            column: place.column + 1,
        }
    }
}

// The place behind these bytes at a place.
#[inline]
fn advance(place: Place, piece: &[u8]) -> Place
    requires line { place.line + length piece.now < 2 ^ 32 }
    requires column { place.column + length piece.now < 2 ^ 32 }
    ensures { (front : List ℕ) → place ≡ place_behind front → result ≡ place_behind (front ++ piece.now) }
{
    let mut behind = place;
    for b in piece {
        behind = step(behind, *b);
    }
    behind
}

/// The place behind these bytes, of which there are fewer than 2^31. It takes no memory.
pub fn place_behind(bytes: &[u8]) -> Place
    requires { length bytes.now < 2 ^ 31 }
    ensures { result ≡ place_behind bytes.now }
{
    advance(Place { line: 1, column: 1 }, bytes)
}

/// The tokens of a text of fewer than 2^31 bytes, in order, with white space and comments left out. At each place the
/// longest token is taken. `Syntax` comes exactly where some byte begins no token, at the first such byte: a quote or a
/// block comment that isn't closed, and `''`, stop at their first byte.
pub fn tokens(alloc: Global, bytes: &[u8]) -> Result<Seq<Token>, TokenFault>
    requires { length bytes.now < 2 ^ 31 }
    ensures tokens { IfOk result (AreTokens bytes.now) }
    ensures spans { IfOk result (Spans bytes.now 0) }
    ensures few { IfOk result (λ ts. length ts ≤ length bytes.now) }
    ensures refused { IfErr result (IsRefused bytes.now) }
    ensures complete { (ts : List Token) → AreTokens bytes.now ts → (result ≡ Ok ts) ⊎ (result ≡ Err TokenFault.NoMemory) }
    ensures stops { (place : Place) → StopsAt bytes.now place → (result ≡ Err (TokenFault.Syntax place)) ⊎ (result ≡ Err TokenFault.NoMemory) }
{
    let mut out = Vec::new(alloc);
    let mut at = 0;
    let mut place = Place { line: 1, column: 1 };
    // Hot: each token and each gap is gone over twice, for its length and for the place behind it, and memory is taken for
    // the tokens alone.
    while at < bytes.len() {
        let (_, rest) = bytes.split_at(at);
        let n = match scan(rest) {
            First::Gap(n) => n,
            First::Whole(kind, n) => {
                out.push(Token {
                    kind,
                    from: at as u32,
                    to: (at + n) as u32,
                    place,
                })?;
                n
            }
            First::Neither => return Err(TokenFault::Syntax(place)),
        };
        let (piece, _) = rest.split_at(n);
        place = advance(place, piece);
        at += n;
    }
    Ok(Seq::from_vec(out))
}
