//! How the item of a formula begins.

ghost use Rattle.std.specs.Prelude.{◌≡◌};
ghost use Rattle.uc_clause.specs.Tokens.{AreTokens};
ghost use Rattle.uc_clause.specs.Items as items;
ghost use Rattle.uc_fof.specs.Rules.{Gives, AsIn};
ghost use Rattle.uc_fof.specs.Formulas as formulas;

use crate::tokens::expect;
use crate::{Halt, Reason};
use uc_clause::{Role, Terminal, Token, Why, spelling_at, terminal_at};

/// What a formula is for: it is a conjecture, or has the role of a clause.
#[derive(Clone, Copy, PartialEq, Eq, Debug)]
pub enum FormulaRole {
    Conjecture,
    OfClause(Role),
}

/// How the item of a formula begins: the number of its first token, that of its name, and its role, with its token's number.
#[derive(Clone, Copy, Debug)]
pub struct FormulaHeading {
    pub first: usize,
    pub name: usize,
    pub role: FormulaRole,
    pub role_at: usize,
}

impl FormulaRole {
    // Whether it is that of a conjecture.
    pub(crate) fn is_conjecture(self) -> bool
        ensures { result ≡ formulas.is_conjecture self }
    {
        match self {
            FormulaRole::Conjecture => true,
            FormulaRole::OfClause(_) => false,
        }
    }
}

// Whether the item of a formula begins at a token.
pub(crate) fn is_formula(terminal: Terminal, word: &[u8]) -> bool
    ensures { result ≡ formulas.is_formula terminal word.now }
{
    match terminal {
        Terminal::Lower => word == b"fof".as_slice(),
        _ => false,
    }
}

// The role of a clause that a word is, if it is one of the nine.
fn clause_role_of(word: &[u8]) -> Option<Role>
    ensures { result ≡ items.role_of word.now }
{
    if word == b"axiom".as_slice() {
        Some(Role::Axiom)
    } else if word == b"hypothesis".as_slice() {
        Some(Role::Hypothesis)
    } else if word == b"definition".as_slice() {
        Some(Role::Definition)
    } else if word == b"assumption".as_slice() {
        Some(Role::Assumption)
    } else if word == b"lemma".as_slice() {
        Some(Role::Lemma)
    } else if word == b"theorem".as_slice() {
        Some(Role::Theorem)
    } else if word == b"corollary".as_slice() {
        Some(Role::Corollary)
    } else if word == b"plain".as_slice() {
        Some(Role::Plain)
    } else if word == b"negated_conjecture".as_slice() {
        Some(Role::NegatedConjecture)
    } else {
        None
    }
}

// The role that a word is, if it is one.
fn role_of(word: &[u8]) -> Option<FormulaRole>
    ensures { result ≡ formulas.role_of word.now }
{
    if word == b"conjecture".as_slice() {
        return Some(FormulaRole::Conjecture);
    }
    match clause_role_of(word) {
        Some(role) => Some(FormulaRole::OfClause(role)),
        None => None,
    }
}

// The role at a token, which is a Lower.
fn role_by(terminal: Terminal, word: &[u8]) -> Option<FormulaRole>
    ensures { result ≡ formulas.role_by terminal word.now }
{
    match terminal {
        Terminal::Lower => role_of(word),
        _ => None,
    }
}

// Reads a name: the number of its token, and of the next.
fn name_at(bytes: &[u8], tokens: &[Token], at: usize) -> Result<(usize, usize), Halt>
    ensures { Gives (AsIn (items.name bytes.now tokens.now) at) result }
{
    match terminal_at(bytes, tokens, at) {
        Terminal::Lower => Ok((at, at + 1)),
        Terminal::Quoted => Ok((at, at + 1)),
        Terminal::Integer => Ok((at, at + 1)),
        _ => Err(Halt::At(Reason::Outside(Why::NoToken), at)),
    }
}

// Reads a role.
fn role_at(bytes: &[u8], tokens: &[Token], at: usize) -> Result<(FormulaRole, usize), Halt>
    requires { AreTokens bytes.now tokens.now }
    ensures { Gives (formulas.role bytes.now tokens.now at) result }
{
    match role_by(
        terminal_at(bytes, tokens, at),
        spelling_at(bytes, tokens, at),
    ) {
        Some(role) => Ok((role, at + 1)),
        None => Err(Halt::At(Reason::Outside(Why::NoRole), at)),
    }
}

// Reads `fof ( name , role ,`.
pub(crate) fn heading_at(
    bytes: &[u8],
    tokens: &[Token],
    from: usize,
) -> Result<(FormulaHeading, usize), Halt>
    requires { AreTokens bytes.now tokens.now }
    ensures { Gives (formulas.heading bytes.now tokens.now from) result }
{
    let at = expect(
        bytes,
        tokens,
        from,
        Terminal::Lower,
        Reason::Outside(Why::NoItem),
    )?;
    let at = expect(
        bytes,
        tokens,
        at,
        Terminal::Open,
        Reason::Outside(Why::NoToken),
    )?;
    let (name, at) = name_at(bytes, tokens, at)?;
    let role_from = expect(
        bytes,
        tokens,
        at,
        Terminal::Comma,
        Reason::Outside(Why::NoToken),
    )?;
    let (role, at) = role_at(bytes, tokens, role_from)?;
    let end = expect(
        bytes,
        tokens,
        at,
        Terminal::Comma,
        Reason::Outside(Why::NoToken),
    )?;
    Ok((
        FormulaHeading {
            first: from,
            name,
            role,
            role_at: role_from,
        },
        end,
    ))
}
