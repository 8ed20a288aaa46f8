//! What begins a term.

ghost use Rattle.std.specs.Prelude.{◌≡◌};
ghost use Rattle.uc_clause.specs.Terms.{head_at};

use crate::{Terminal, Token, terminal_at};

/// What begins at a token, where a term is called for.
#[derive(Clone, Copy, PartialEq, Eq, Debug)]
pub enum Head {
    Variable,
    Functor,
    Neither,
}

// What begins at the token of this number.
pub(crate) fn head_at(bytes: &[u8], tokens: &[Token], at: usize) -> Head
    ensures { result ≡ head_at bytes.now tokens.now at }
{
    match terminal_at(bytes, tokens, at) {
        Terminal::Upper => Head::Variable,
        Terminal::Lower => Head::Functor,
        Terminal::Quoted => Head::Functor,
        _ => Head::Neither,
    }
}
