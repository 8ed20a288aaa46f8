//! The replacements of join lines.

ghost use Rattle.std.specs.Prelude.{◌≡◌, IfOk, IfErr};
ghost use Rattle.uc_term.specs.Table.{Grows};
ghost use Rattle.uc_clause.specs.Tokens.{AreTokens};
ghost use Rattle.uc_clause.specs.Rules.{read, Stops};
ghost use Rattle.uc_tstp.specs.Lines as lines;
ghost use Rattle.uc_certificate.specs.JoinLines as rules;
ghost use Rattle.uc_certificate.specs.JoinMeaning.{MeansMove, MeanMoves};
ghost use Rattle.uc_certificate.specs.Interning.{with_move, with_moves};
ghost use Rattle.uc_certificate.specs.Reads.{ReadsAs, AreVariables};

use crate::Move;
use crate::terms::term;
use crate::words::integer;
use std::alloc::Global;
use uc_clause::{Stop, Terminal, Token, Variables, stands_at};
use uc_term::{Seq, Symbols};
use uc_tstp::{expect, has_next, path, way, word};

/// What stands before the term of a move.
#[derive(Drop)]
pub(crate) struct MoveHead {
    fact: u32,
    left_to_right: bool,
    path: Seq<u32>,
}

// Reads what stands before the term of a move.
fn move_head(
    alloc: Global,
    bytes: &[u8],
    tokens: &[Token],
    from: usize,
) -> Result<(MoveHead, usize), Stop>
    requires { AreTokens bytes.now tokens.now }
    ensures reads { IfOk result (λ r. rules.move_head bytes.now tokens.now from (read (record { fact = r.0.fact; left_to_right = r.0.left_to_right; path = r.0.path }) r.1)) }
    ensures stops { IfErr result (Stops (rules.move_head bytes.now tokens.now from)) }
{
    let at = word(bytes, tokens, from, b"step")?;
    let at = expect(bytes, tokens, at, Terminal::Open)?;
    let (fact, at) = integer(bytes, tokens, at)?;
    let at = expect(bytes, tokens, at, Terminal::Comma)?;
    let (left_to_right, at) = way(bytes, tokens, at)?;
    let at = expect(bytes, tokens, at, Terminal::Comma)?;
    let (path, at) = path(alloc, bytes, tokens, at)?;
    let end = expect(bytes, tokens, at, Terminal::Comma)?;
    Ok((
        MoveHead {
            fact,
            left_to_right,
            path,
        },
        end,
    ))
}

// Reads a move.
fn move_at(
    alloc: Global,
    bytes: &[u8],
    tokens: &[Token],
    from: usize,
    variables: &mut Variables,
    symbols: &mut Symbols,
) -> Result<(Move, usize), Stop>
    requires tokens { AreTokens bytes.now tokens.now }
    requires seen { AreVariables bytes.now tokens.now variables.old }
    ensures reads { IfOk result (λ r. ReadsAs (rules.move bytes.now tokens.now) (MeansMove bytes.now tokens.now) (with_move bytes.now tokens.now) from r.1 symbols.old symbols.new r.0) }
    ensures same { IfOk result (λ _. variables.new ≡ variables.old) }
    ensures stops { IfErr result (Stops (rules.move bytes.now tokens.now from)) }
    ensures grows { Grows symbols.old symbols.new }
{
    let (head, at) = move_head(alloc, bytes, tokens, from)?;
    let (to, at) = term(alloc, bytes, tokens, at, variables, symbols)?;
    let end = expect(bytes, tokens, at, Terminal::Close)?;
    Ok((
        Move {
            fact: head.fact,
            left_to_right: head.left_to_right,
            path: head.path,
            to,
        },
        end,
    ))
}

// Reads moves up to the closing square bracket.
fn more_moves(
    alloc: Global,
    bytes: &[u8],
    tokens: &[Token],
    from: usize,
    variables: &mut Variables,
    symbols: &mut Symbols,
) -> Result<(Seq<Move>, usize), Stop>
    requires tokens { AreTokens bytes.now tokens.now }
    requires seen { AreVariables bytes.now tokens.now variables.old }
    ensures reads { IfOk result (λ r. ReadsAs (lines.members bytes.now tokens.now (rules.move bytes.now tokens.now)) (MeanMoves bytes.now tokens.now) (with_moves bytes.now tokens.now) from r.1 symbols.old symbols.new r.0) }
    ensures same { IfOk result (λ _. variables.new ≡ variables.old) }
    ensures stops { IfErr result (Stops (lines.members bytes.now tokens.now (rules.move bytes.now tokens.now) from)) }
    ensures grows { Grows symbols.old symbols.new }
{
    let mut list = Seq::new(alloc);
    let mut at = from;
    let mut more = true;
    'members: while more {
        let member = move_at(alloc, bytes, tokens, at, variables, symbols)?;
        list.push(member.0)?;
        more = has_next(bytes, tokens, member.1)?;
        at = member.1 + 1;
    }
    Ok((list, at))
}

/// Reads a list of moves.
pub(crate) fn moves(
    alloc: Global,
    bytes: &[u8],
    tokens: &[Token],
    from: usize,
    variables: &mut Variables,
    symbols: &mut Symbols,
) -> Result<(Seq<Move>, usize), Stop>
    requires tokens { AreTokens bytes.now tokens.now }
    requires seen { AreVariables bytes.now tokens.now variables.old }
    ensures reads { IfOk result (λ r. ReadsAs (rules.moves bytes.now tokens.now) (MeanMoves bytes.now tokens.now) (with_moves bytes.now tokens.now) from r.1 symbols.old symbols.new r.0) }
    ensures same { IfOk result (λ _. variables.new ≡ variables.old) }
    ensures stops { IfErr result (Stops (rules.moves bytes.now tokens.now from)) }
    ensures grows { Grows symbols.old symbols.new }
{
    let at = expect(bytes, tokens, from, Terminal::OpenSquare)?;
    if stands_at(bytes, tokens, at, Terminal::CloseSquare) {
        return Ok((Seq::new(alloc), at + 1));
    }
    more_moves(alloc, bytes, tokens, at, variables, symbols)
}
