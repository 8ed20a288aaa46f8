//! A term that is a word of the command line.

ghost use Rattle.std.specs.Prelude.{◌≡◌, ◌<◌, ◌^◌, ℕ, List, Some, slice_get, length, IfOk, IfErr, position};
ghost use Rattle.std.specs.List.{list_any};
ghost use Rattle.uc_term.specs.declared.node.Sym.{Sym as AnySym};
ghost use Rattle.uc_term.specs.declared.node.Node.TheVariants.{App};
ghost use Rattle.uc_term.specs.Tree.{Tree};
ghost use Rattle.uc_term.specs.Flat.{flat};
ghost use Rattle.uc_term.specs.Table.{Table, Grows, Has, name_of};
ghost use Rattle.uc_term.specs.Gathering.{HasAll};
ghost use Rattle.uc_term.specs.Signatures.{same_symbol};
ghost use Rattle.uc_clause.specs.Tokens.{AreTokens};
ghost use Rattle.uc_clause.specs.Items.{term_alone};
ghost use Rattle.uc_clause.specs.Reading.{ReadsTerm, Refuses};
ghost use Rattle.uc_clause.specs.Interning.{InternsTerm};
ghost use Rattle.uc_answer.specs.TermWords.{is_foreign, first_foreign, is_mark, node_tokens, node_place, IsTermWord, HasForeign, IsWordFault};
ghost use Rattle.uc_answer.specs.declared.term_word.WordFault.TheVariants as word_fault;

use std::alloc::{AllocError, Global};
use uc_clause::{ClauseFault, Kind, Place, Token, TokenFault, read_term, tokens};
use uc_term::{Node, Sym, Symbols, Term, Text};

/// Says why a word is no term, or no question, over a signature.
#[derive(Debug, Drop)]
pub enum WordFault {
    /// It isn't read as a term, or as an equation of two.
    Unread(ClauseFault),
    /// The signature lacks the symbol of this name, which stands at this place.
    UnknownSymbol(Place, Text),
    /// A variable stands at this place, where none may.
    NotGround(Place),
    /// Memory is wanted.
    NoMemory,
}

impl From<AllocError> for WordFault {
    ghost from_gives = { λ _ e. e ≡ word_fault.NoMemory };

    fn from(_: AllocError) -> Self {
        WordFault::NoMemory
    }
}

/// Reads the term that a word is, whose symbols are all known. A word is read whole, and then its symbols are looked at, from
/// left to right. The table stays as it was where the word is such a term; else it may have grown by symbols that aren't known.
pub fn read_word(
    alloc: Global,
    word: &[u8],
    known: &[Sym],
    symbols: &mut Symbols,
) -> Result<Term, WordFault>
    requires { length word.now < 2 ^ 31 }
    ensures reads { IfOk result (IsTermWord symbols.new known.now word.now) }
    ensures refused { IfErr result (IsWordFault symbols.old known.now word.now) }
    ensures grows { Grows symbols.old symbols.new }
    ensures kept { HasAll symbols.old known.now → IfOk result (λ _. symbols.new ≡ symbols.old) }
{
    let term = whole_term(alloc, word, symbols)?;
    match first_foreign(known, &term) {
        Some(number) => {
            let place = place_in(alloc, word, number)?;
            let name = name_at(alloc, &term, number, symbols)?;
            Err(WordFault::UnknownSymbol(place, name))
        }
        None => Ok(term),
    }
}

// The term that a word is.
fn whole_term(alloc: Global, word: &[u8], symbols: &mut Symbols) -> Result<Term, WordFault>
    requires { length word.now < 2 ^ 31 }
    ensures reads { IfOk result (ReadsTerm word.now symbols.new) }
    ensures refused { (known : List AnySym) → IfErr result (IsWordFault symbols.old known word.now) }
    ensures grows { Grows symbols.old symbols.new }
    ensures interns { IfOk result (λ _. InternsTerm word.now symbols.old symbols.new) }
{
    match read_term(alloc, word, symbols) {
        Ok(term) => Ok(term),
        Err(ClauseFault::NoMemory) => Err(WordFault::NoMemory),
        Err(fault) => Err(WordFault::Unread(fault)),
    }
}

/// Whether a symbol is one of these.
pub(crate) fn is_among(symbol: Sym, symbols: &[Sym]) -> bool
    ensures { result ≡ list_any (same_symbol symbol) symbols.now }
{
    symbols.iter().any(|other| symbol.0 == other.0)
}

// Whether a node's symbol is none of these.
fn is_foreign(known: &[Sym], node: Node) -> bool
    ensures { result ≡ is_foreign known.now node }
{
    match node {
        Node::Var(_) => false,
        Node::App(symbol, _) => !is_among(symbol, known),
    }
}

// The number of the first node whose symbol is none of these, if there is one.
fn first_foreign(known: &[Sym], term: &Term) -> Option<usize>
    ensures { result ≡ first_foreign known.now term.now }
{
    term.as_nodes()
        .iter()
        .position(|node| is_foreign(known, *node))
}

// The name of the symbol at a node, which is no variable.
fn name_at(alloc: Global, term: &Term, number: usize, symbols: &Symbols) -> Result<Text, AllocError>
    requires { (f : AnySym) × (n : ℕ) × (slice_get (flat term.now) number ≡ Some (App f n)) × Has symbols.now f }
    ensures { (f : AnySym) (n : ℕ) → slice_get (flat term.now) number ≡ Some (App f n) → IfOk result (λ name. name ≡ name_of symbols.now f) }
{
    match term.as_nodes()[number] {
        Node::App(symbol, _) => Text::from_bytes(alloc, symbols.name(symbol)),
        Node::Var(_) => unreachable!(),
    }
}

fn is_mark(kind: Kind) -> bool
    ensures { result ≡ is_mark kind }
{
    match kind {
        Kind::Mark => true,
        _ => false,
    }
}

// The tokens that are nodes of terms.
fn node_tokens(alloc: Global, tokens: &[Token]) -> Result<Vec<Token>, AllocError>
    ensures { IfOk result (λ nodes. nodes.items ≡ node_tokens tokens.now) }
{
    let mut nodes = Vec::new(alloc);
    for token in tokens {
        if !is_mark(token.kind) {
            nodes.push(*token)?;
        }
    }
    Ok(nodes)
}

// Where the node of a number of the terms of these tokens stands.
fn node_place(alloc: Global, tokens: &[Token], number: usize) -> Result<Place, AllocError>
    ensures { IfOk result (λ place. place ≡ node_place tokens.now number) }
{
    let nodes = node_tokens(alloc, tokens)?;
    match nodes.get(number) {
        Some(token) => Ok(token.place),
        None => Ok(Place { line: 1, column: 1 }),
    }
}

/// Where the node of a number stands in a word that is a term, or an equation of two.
pub(crate) fn place_in(alloc: Global, word: &[u8], number: usize) -> Result<Place, AllocError>
    requires small { length word.now < 2 ^ 31 }
    requires tokens { (ts : List Token) × AreTokens word.now ts }
    ensures { (ts : List Token) → AreTokens word.now ts → IfOk result (λ place. place ≡ node_place ts number) }
{
    match tokens(alloc, word) {
        Ok(tokens) => node_place(alloc, tokens.as_slice(), number),
        Err(TokenFault::NoMemory) => Err(AllocError),
        Err(TokenFault::Syntax(_)) => unreachable!(),
    }
}
