// Where a quoted text and a block comment close.

ghost use Rattle.std.specs.Prelude.{◌≡◌, ◌⊎◌, ◌+◌, ◌<◌, ◌≤◌, ℕ, IfSome, IfNone, length, take, true, false, IsTrue, ◌↔◌, slice_index, IfOk, ◌==◌, if◌then◌else◌};
ghost use Rattle.uc_clause.specs.Bytes.{closes, ends_block};
ghost use Rattle.uc_clause.specs.Names.{unescaped};
ghost use Rattle.uc_clause.specs.Pieces.{IsPiece};

use std::alloc::{AllocError, Global};
use uc_term::Text;

// How many bytes there are up to and with the closing quote.
pub(crate) fn closing(text: &[u8], quote: u8) -> Option<usize>
    requires { (quote ≡ 39) ⊎ (quote ≡ 34) }
    ensures some { IfSome result (λ n. (n ≤ length text.now) × (closes quote (take n text.now) ≡ true)) }
    ensures none { IfNone result ((n : ℕ) → closes quote (take n text.now) ≡ false) }
{
    let mut at = 0;
    while at < text.len() {
        let (_, rest) = text.split_at(at);
        match piece_at(rest, quote) {
            Piece::Plain(n) => at += n,
            Piece::Close => return Some(at + 1),
            Piece::Neither => return None,
        }
    }
    None
}

// What stands next between quotes: a byte or an escape, or the closing quote.
enum Piece {
    Plain(usize),
    Close,
    Neither,
}

#[inline]
fn piece_at(text: &[u8], quote: u8) -> Piece
    requires some { 0 < length text.now }
    requires quote { (quote ≡ 39) ⊎ (quote ≡ 34) }
    ensures { IsPiece quote text.now result }
{
    let b = text[0];
    if b == quote {
        return Piece::Close;
    }
    if b == b'\\' {
        if text.len() == 1 {
            return Piece::Neither;
        }
        let c = text[1];
        if c == b'\\' {
            return Piece::Plain(2);
        }
        if c == quote {
            return Piece::Plain(2);
        }
        return Piece::Neither;
    }
    if b < 32 {
        return Piece::Neither;
    }
    if b > 126 {
        return Piece::Neither;
    }
    Piece::Plain(1)
}

// How many bytes there are up to and with the first `*/`.
pub(crate) fn block_end(text: &[u8]) -> Option<usize>
    ensures some { IfSome result (λ n. (n ≤ length text.now) × (ends_block (take n text.now) ≡ true)) }
    ensures none { IfNone result ((n : ℕ) → ends_block (take n text.now) ≡ false) }
{
    let mut at = 0;
    while at + 1 < text.len() {
        if closes_at(text, at) {
            return Some(at + 2);
        }
        at += 1;
    }
    None
}

// Whether `*/` stands here.
#[inline]
fn closes_at(text: &[u8], at: usize) -> bool
    requires { at + 1 < length text.now }
    ensures { IsTrue result ↔ ((slice_index text.now at ≡ 42) × (slice_index text.now (at + 1) ≡ 47)) }
{
    text[at] == b'*' && text[at + 1] == b'/'
}

// The bytes that pieces with a quote behind them stand for.
pub(crate) fn unescaped(alloc: Global, pieces: &[u8]) -> Result<Text, AllocError>
    ensures { IfOk result (λ text. text ≡ unescaped pieces.now) }
{
    let mut out = Text::new(alloc);
    let mut at = 0;
    while at + 1 < pieces.len() {
        let from = plain_at(pieces, at);
        out.push(pieces[from])?;
        at = from + 1;
    }
    Ok(out)
}

// Where the byte is that the piece here stands for.
#[inline]
fn plain_at(pieces: &[u8], at: usize) -> usize
    requires { at + 1 < length pieces.now }
    ensures value { result ≡ (if slice_index pieces.now at == 92 then at + 1 else at) }
    ensures within { result ≤ at + 1 }
{
    if pieces[at] == b'\\' { at + 1 } else { at }
}
