//! Notes, which are read and dropped.

ghost use Rattle.std.specs.Prelude.{◌≡◌, ◌-◌, length, slice_get, IfOk, IfErr};
ghost use Rattle.uc_clause.specs.Terminals.{terminal_at};
ghost use Rattle.uc_clause.specs.declared.terminal.Terminal.{Terminal};
ghost use Rattle.uc_fof.specs.Rules.{Goes, Stops};
ghost use Rattle.uc_fof.specs.Notes as notes;
ghost use Rattle.uc_fof.specs.Formulas as formulas;

use crate::tokens::expect;
use crate::{Halt, Reason};
use std::alloc::Global;
use uc_clause::{Terminal, Token, Why, stands_at, terminal_at};

/// A kind of brackets that a note may have.
#[derive(Clone, Copy, PartialEq, Eq, Debug)]
pub(crate) enum Bracket {
    Round,
    Square,
}

/// What a token is to a note.
#[derive(Clone, Copy, PartialEq, Eq, Debug)]
pub(crate) enum Piece {
    /// A part of it.
    Plain,
    /// A bracket that opens.
    Opens(Bracket),
    /// The bracket that closes the innermost open one.
    Closes,
    /// What ends the note.
    Behind,
    /// What can't stand there.
    Misplaced,
}

// What a token is to a note, behind this innermost open bracket.
fn piece_of(innermost: Option<Bracket>, terminal: Terminal) -> Piece
    ensures { result ≡ notes.piece_of innermost terminal }
{
    match terminal {
        Terminal::End => Piece::Misplaced,
        Terminal::Open => Piece::Opens(Bracket::Round),
        Terminal::OpenSquare => Piece::Opens(Bracket::Square),
        Terminal::Comma => match innermost {
            None => Piece::Behind,
            Some(_) => Piece::Plain,
        },
        Terminal::Close => match innermost {
            None => Piece::Behind,
            Some(Bracket::Round) => Piece::Closes,
            Some(Bracket::Square) => Piece::Misplaced,
        },
        Terminal::CloseSquare => match innermost {
            None => Piece::Behind,
            Some(Bracket::Round) => Piece::Misplaced,
            Some(Bracket::Square) => Piece::Closes,
        },
        _ => Piece::Plain,
    }
}

// The innermost of the open brackets, which is the last one.
fn innermost(brackets: &[Bracket]) -> Option<Bracket>
    ensures { result ≡ slice_get brackets.now (length brackets.now - 1) }
{
    if brackets.is_empty() {
        None
    } else {
        Some(brackets[brackets.len() - 1])
    }
}

/// What a stop in a note is for.
const REASON: Reason = Reason::Outside(Why::NoToken);

/// A note while it is read: the next token, and the open brackets, the innermost last.
#[derive(Drop)]
struct Note {
    at: usize,
    brackets: Vec<Bracket>,
}

impl Note {
    // Goes over the next token, and answers whether that is a part of the note.
    fn step(&mut self, bytes: &[u8], tokens: &[Token]) -> Result<bool, Halt>
        ensures goes { IfOk result (notes.NoteGoes bytes.now tokens.now self.old self.new) }
        ensures stops { IfErr result (Stops (notes.Rest bytes.now tokens.now self.old.brackets.items self.old.at)) }
    {
        match piece_of(
            innermost(self.brackets.as_slice()),
            terminal_at(bytes, tokens, self.at),
        ) {
            Piece::Plain => {
                self.at += 1;
                Ok(true)
            }
            Piece::Opens(bracket) => {
                self.brackets.push(bracket)?;
                self.at += 1;
                Ok(true)
            }
            Piece::Closes => {
                let _ = self.brackets.pop();
                self.at += 1;
                Ok(true)
            }
            Piece::Behind => Ok(false),
            Piece::Misplaced => Err(Halt::At(REASON, self.at)),
        }
    }
}

// Reads a note, and gives the number of the token behind it.
fn note_at(alloc: Global, bytes: &[u8], tokens: &[Token], from: usize) -> Result<usize, Halt>
    ensures { Goes (notes.Note bytes.now tokens.now from) result }
{
    if let Piece::Behind = piece_of(None, terminal_at(bytes, tokens, from)) {
        return Err(Halt::At(REASON, from));
    }
    let mut note = Note {
        at: from,
        brackets: Vec::new(alloc),
    };
    'pieces: while note.step(bytes, tokens)? {}
    Ok(note.at)
}

// Reads `, note )` or `)`, behind a note.
fn more_notes_at(alloc: Global, bytes: &[u8], tokens: &[Token], from: usize) -> Result<usize, Halt>
    ensures { Goes (notes.more_notes bytes.now tokens.now from) result }
{
    if !stands_at(bytes, tokens, from, Terminal::Comma) {
        return expect(bytes, tokens, from, Terminal::Close, REASON);
    }
    let end = note_at(alloc, bytes, tokens, from + 1)?;
    expect(bytes, tokens, end, Terminal::Close, REASON)
}

// Reads `, note [ , note ] )` or `)`, behind a formula.
pub(crate) fn notes_at(
    alloc: Global,
    bytes: &[u8],
    tokens: &[Token],
    conjecture: bool,
    from: usize,
) -> Result<usize, Halt>
    ensures { Goes (formulas.notes bytes.now tokens.now conjecture from) result }
{
    if !stands_at(bytes, tokens, from, Terminal::Comma) {
        return expect(
            bytes,
            tokens,
            from,
            Terminal::Close,
            Reason::Inside(conjecture, Why::NoEnd),
        );
    }
    let end = note_at(alloc, bytes, tokens, from + 1)?;
    more_notes_at(alloc, bytes, tokens, end)
}
