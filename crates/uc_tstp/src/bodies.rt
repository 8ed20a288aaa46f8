//! The bodies of lines.

ghost use Rattle.std.specs.Prelude.{◌≡◌, IfOk, IfErr};
ghost use Rattle.uc_term.specs.Table.{Grows};
ghost use Rattle.uc_clause.specs.Tokens.{AreTokens};
ghost use Rattle.uc_clause.specs.Rules.{Stops, Gives};
ghost use Rattle.uc_clause.specs.Items as items;
ghost use Rattle.uc_tstp.specs.Lines as lines;
ghost use Rattle.uc_tstp.specs.Drafts.{ReadsBodyAt};

use crate::drafts::BodyDraft;
use crate::words::is_falsum;
use std::alloc::Global;
use uc_clause::{Stop, Terminal, Token, Variables, Why, term_at, terminal_at};
use uc_term::Symbols;

// The sign that a token is, if it is one: whether it is `=`, and not `!=`.
fn sign_of(terminal: Terminal) -> Option<bool>
    ensures { result ≡ items.sign_of terminal }
{
    match terminal {
        Terminal::Equal => Some(true),
        Terminal::Unequal => Some(false),
        _ => None,
    }
}

// Reads the sign behind the term that begins at `first`.
fn sign(bytes: &[u8], tokens: &[Token], first: usize, at: usize) -> Result<(bool, usize), Stop>
    ensures { Gives (items.sign bytes.now tokens.now first at) result }
{
    match sign_of(terminal_at(bytes, tokens, at)) {
        Some(positive) => Ok((positive, at + 1)),
        None => Err(Stop::At(Why::NoSign(first), at)),
    }
}

/// Reads the body of a line.
pub(crate) fn body_at(
    alloc: Global,
    bytes: &[u8],
    tokens: &[Token],
    from: usize,
    variables: &mut Variables,
    symbols: &mut Symbols,
) -> Result<(BodyDraft, usize), Stop>
    requires { AreTokens bytes.now tokens.now }
    ensures reads { IfOk result (λ r. ReadsBodyAt bytes.now tokens.now from r.1 variables.old variables.new symbols.old symbols.new r.0) }
    ensures stops { IfErr result (Stops (lines.body bytes.now tokens.now from)) }
    ensures grows { Grows symbols.old symbols.new }
{
    if is_falsum(bytes, tokens, from) {
        return Ok((BodyDraft::Falsum, from + 1));
    }
    let (left, at) = term_at(alloc, bytes, tokens, from, variables, symbols)?;
    let (positive, at) = sign(bytes, tokens, from, at)?;
    let (right, end) = term_at(alloc, bytes, tokens, at, variables, symbols)?;
    Ok((
        BodyDraft::Sides {
            positive,
            left,
            right,
        },
        end,
    ))
}
