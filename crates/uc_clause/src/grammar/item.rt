//! Items: clauses and includes.

ghost use Rattle.std.specs.Prelude.{◌≡◌, ◌+◌, ◌<◌, Some, None, length, IfOk, IfErr};
ghost use Rattle.uc_term.specs.Table.{Grows};
ghost use Rattle.uc_clause.specs.Tokens.{AreTokens};
ghost use Rattle.uc_clause.specs.Terminals.{terminal_at, bytes_at};
ghost use Rattle.uc_clause.specs.Rules.{Stops, Gives};
ghost use Rattle.uc_clause.specs.Items as items;

use super::note::expect;
use crate::terminal::spelling_at;
use crate::{Role, Stop, Terminal, Token, Why, stands_at, terminal_at};
use std::alloc::Global;
use uc_term::Seq;

/// How the item of a clause begins: the number of its first token, that of its name, and its role.
#[derive(Clone, Copy, Debug)]
pub struct Heading {
    pub first: usize,
    pub name: usize,
    pub role: Role,
}

/// An include by its tokens: its first one, that of its file, and those of the names, where names are listed.
#[derive(Drop, Debug)]
pub struct Inclusion {
    pub first: usize,
    pub file: usize,
    pub names: Option<Seq<usize>>,
}

/// What an item begins with.
#[derive(Clone, Copy, PartialEq, Eq, Debug)]
pub enum Opening {
    OpensClause,
    OpensInclude,
    OpensNothing,
}

// What begins at a token, where an item is called for.
pub(crate) fn opening_of(terminal: Terminal, word: &[u8]) -> Opening
    ensures { result ≡ items.opening_of terminal word.now }
{
    match terminal {
        Terminal::Lower => {
            if word == b"cnf".as_slice() {
                Opening::OpensClause
            } else if word == b"include".as_slice() {
                Opening::OpensInclude
            } else {
                Opening::OpensNothing
            }
        }
        _ => Opening::OpensNothing,
    }
}

// The role that a word is, if it is one of the nine.
fn role_of(word: &[u8]) -> Option<Role>
    ensures { result ≡ items.role_of word.now }
{
    if word == b"axiom".as_slice() {
        Some(Role::Axiom)
    } else if word == b"hypothesis".as_slice() {
        Some(Role::Hypothesis)
    } else if word == b"definition".as_slice() {
        Some(Role::Definition)
    } else if word == b"assumption".as_slice() {
        Some(Role::Assumption)
    } else if word == b"lemma".as_slice() {
        Some(Role::Lemma)
    } else if word == b"theorem".as_slice() {
        Some(Role::Theorem)
    } else if word == b"corollary".as_slice() {
        Some(Role::Corollary)
    } else if word == b"plain".as_slice() {
        Some(Role::Plain)
    } else if word == b"negated_conjecture".as_slice() {
        Some(Role::NegatedConjecture)
    } else {
        None
    }
}

// The role at a token, which is a Lower.
fn role_by(terminal: Terminal, word: &[u8]) -> Option<Role>
    ensures { result ≡ items.role_by terminal word.now }
{
    match terminal {
        Terminal::Lower => role_of(word),
        _ => None,
    }
}

// Reads a name: the number of its token, and of the next.
fn name_at(bytes: &[u8], tokens: &[Token], at: usize) -> Result<(usize, usize), Stop>
    ensures { Gives (items.name bytes.now tokens.now at) result }
{
    match terminal_at(bytes, tokens, at) {
        Terminal::Lower => Ok((at, at + 1)),
        Terminal::Quoted => Ok((at, at + 1)),
        Terminal::Integer => Ok((at, at + 1)),
        _ => Err(Stop::At(Why::NoToken, at)),
    }
}

// Reads a Quoted.
fn quoted_at(bytes: &[u8], tokens: &[Token], at: usize) -> Result<(usize, usize), Stop>
    ensures { Gives (items.quoted bytes.now tokens.now at) result }
{
    match terminal_at(bytes, tokens, at) {
        Terminal::Quoted => Ok((at, at + 1)),
        _ => Err(Stop::At(Why::NoToken, at)),
    }
}

// Reads a role.
fn role_at(bytes: &[u8], tokens: &[Token], at: usize) -> Result<(Role, usize), Stop>
    requires { AreTokens bytes.now tokens.now }
    ensures { Gives (items.role bytes.now tokens.now at) result }
{
    match role_by(
        terminal_at(bytes, tokens, at),
        spelling_at(bytes, tokens, at),
    ) {
        Some(role) => Ok((role, at + 1)),
        None => Err(Stop::At(Why::NoRole, at)),
    }
}

// Reads `cnf ( name , role ,`.
pub(crate) fn heading_at(
    bytes: &[u8],
    tokens: &[Token],
    from: usize,
) -> Result<(Heading, usize), Stop>
    requires { AreTokens bytes.now tokens.now }
    ensures { Gives (items.heading bytes.now tokens.now from) result }
{
    let at = expect(bytes, tokens, from, Terminal::Lower, Why::NoItem)?;
    let at = expect(bytes, tokens, at, Terminal::Open, Why::NoToken)?;
    let (name, at) = name_at(bytes, tokens, at)?;
    let at = expect(bytes, tokens, at, Terminal::Comma, Why::NoToken)?;
    let (role, at) = role_at(bytes, tokens, at)?;
    let end = expect(bytes, tokens, at, Terminal::Comma, Why::NoToken)?;
    Ok((
        Heading {
            first: from,
            name,
            role,
        },
        end,
    ))
}

// Reads `name { , name } ]`.
fn names_at(
    alloc: Global,
    bytes: &[u8],
    tokens: &[Token],
    from: usize,
) -> Result<(Seq<usize>, usize), Stop>
    ensures { Gives (items.Names bytes.now tokens.now from) result }
{
    let mut names = Vec::new(alloc);
    let mut at = from;
    'names: loop {
        let (name, end) = name_at(bytes, tokens, at)?;
        names.push(name)?;
        match terminal_at(bytes, tokens, end) {
            Terminal::CloseSquare => return Ok((Seq::from_vec(names), end + 1)),
            Terminal::Comma => at = end + 1,
            _ => return Err(Stop::At(Why::NoToken, end)),
        }
    }
}

// Reads a list of names in square brackets, which may be empty.
fn list_at(
    alloc: Global,
    bytes: &[u8],
    tokens: &[Token],
    from: usize,
) -> Result<(Seq<usize>, usize), Stop>
    ensures { Gives (items.list bytes.now tokens.now from) result }
{
    let at = expect(bytes, tokens, from, Terminal::OpenSquare, Why::NoSelection)?;
    if stands_at(bytes, tokens, at, Terminal::CloseSquare) {
        Ok((Seq::new(alloc), at + 1))
    } else {
        names_at(alloc, bytes, tokens, at)
    }
}

// Reads `, [ [ name { , name } ] ] )` or `)`.
fn selected_at(
    alloc: Global,
    bytes: &[u8],
    tokens: &[Token],
    from: usize,
) -> Result<(Option<Seq<usize>>, usize), Stop>
    ensures { Gives (items.selected bytes.now tokens.now from) result }
{
    if !stands_at(bytes, tokens, from, Terminal::Comma) {
        let end = expect(bytes, tokens, from, Terminal::Close, Why::NoToken)?;
        return Ok((None, end));
    }
    let (names, at) = list_at(alloc, bytes, tokens, from + 1)?;
    let end = expect(bytes, tokens, at, Terminal::Close, Why::NoToken)?;
    Ok((Some(names), end))
}

// Reads an include.
pub(crate) fn inclusion_at(
    alloc: Global,
    bytes: &[u8],
    tokens: &[Token],
    from: usize,
) -> Result<(Inclusion, usize), Stop>
    ensures { Gives (items.include bytes.now tokens.now from) result }
{
    let at = expect(bytes, tokens, from, Terminal::Lower, Why::NoItem)?;
    let at = expect(bytes, tokens, at, Terminal::Open, Why::NoToken)?;
    let (file, at) = quoted_at(bytes, tokens, at)?;
    let (names, at) = selected_at(alloc, bytes, tokens, at)?;
    let end = expect(bytes, tokens, at, Terminal::Dot, Why::NoToken)?;
    Ok((
        Inclusion {
            first: from,
            file,
            names,
        },
        end,
    ))
}
