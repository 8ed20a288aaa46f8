//! A file of items.

ghost use Rattle.std.specs.Prelude.{◌≡◌, ◌<◌, ◌^◌, ℕ, Bool, List, [], Ok, Err, length, IfOk, IfErr};
ghost use Rattle.uc_term.specs.Tree.{Tree};
ghost use Rattle.uc_clause.specs.Reading.{ReadsBy, ReadsFile, Refuses, RefusesFile, SaysItems, IsAnswer, IsFault, IsUnlessMemory};
ghost use Rattle.uc_clause.specs.declared.clause.Item.{Item};
ghost use Rattle.uc_clause.specs.declared.fault.ClauseFault.{ClauseFault};
ghost use Rattle.uc_clause.specs.declared.token.Place.{Place};
ghost use Rattle.uc_term.specs.Table.{Grows};
ghost use Rattle.uc_clause.specs.Tokens.{AreTokens};
ghost use Rattle.uc_clause.specs.Rules.{Stops};
ghost use Rattle.uc_clause.specs.Items as items;
ghost use Rattle.uc_clause.specs.Meaning.{IsName, AreNames, MeansInclude, AreSelected};
ghost use Rattle.uc_clause.specs.Interning.{InternsAt, InternsFile, with_clause, with_item, with_items, with_literal};
ghost use Rattle.uc_clause.specs.Given.{ReadsFormula, ReadsClauseAt, ReadsItemAt, ReadsLiteralAt, AreItems, StopsWith};

use super::item::{heading_at, inclusion_at, opening_of};
use super::literal::{Equation, clause_at, equation_or_denial_at};
use super::note::{expect, notes_at};
use super::refusal::refusal;
use crate::terminal::named_at;
use crate::{
    Clause, ClauseFault, Heading, Include, Inclusion, Item, Name, Opening, Place, Stop, Terminal,
    Token, Variables, What, Why, place_at, spelling_at, stands_at, terminal_at, tokens,
};
use std::alloc::{AllocError, Global};
use uc_term::{Seq, Symbols, Term};

// Reads the item of a clause.
fn formula_at(
    alloc: Global,
    bytes: &[u8],
    tokens: &[Token],
    from: usize,
    symbols: &mut Symbols,
) -> Result<(Heading, Equation, usize), Stop>
    requires tokens { AreTokens bytes.now tokens.now }
    ensures reads { IfOk result (λ r. ReadsFormula bytes.now tokens.now from symbols.new r.0 r.1 r.2) }
    ensures stops { IfErr result (Stops (items.cnf bytes.now tokens.now from)) }
    ensures grows { Grows symbols.old symbols.new }
    ensures interns { IfOk result (λ r. InternsAt (items.cnf bytes.now tokens.now from) (with_clause bytes.now tokens.now) symbols.old symbols.new r.2) }
{
    let (heading, at) = heading_at(bytes, tokens, from)?;
    let mut variables = Variables::new(alloc);
    let equation = clause_at(alloc, bytes, tokens, 0, at, &mut variables, symbols)?;
    let at = notes_at(alloc, bytes, tokens, equation.pair.end)?;
    let end = expect(bytes, tokens, at, Terminal::Dot, Why::NoToken)?;
    Ok((heading, equation, end))
}

// The name that a token is.
fn name_of(alloc: Global, bytes: &[u8], tokens: &[Token], at: usize) -> Result<Name, AllocError>
    requires { AreTokens bytes.now tokens.now }
    ensures { IfOk result (IsName bytes.now tokens.now at) }
{
    let text = named_at(alloc, bytes, tokens, at)?;
    Ok(Name {
        text,
        integer: stands_at(bytes, tokens, at, Terminal::Integer),
    })
}

// Reads a clause.
fn cnf_at(
    alloc: Global,
    bytes: &[u8],
    tokens: &[Token],
    from: usize,
    symbols: &mut Symbols,
) -> Result<(Clause, usize), Stop>
    requires tokens { AreTokens bytes.now tokens.now }
    requires small { length bytes.now < 2 ^ 31 }
    ensures reads { IfOk result (λ r. ReadsClauseAt bytes.now tokens.now from symbols.new r.0 r.1) }
    ensures stops { IfErr result (Stops (items.cnf bytes.now tokens.now from)) }
    ensures grows { Grows symbols.old symbols.new }
    ensures interns { IfOk result (λ r. InternsAt (items.cnf bytes.now tokens.now from) (with_clause bytes.now tokens.now) symbols.old symbols.new r.1) }
{
    let (heading, equation, end) = formula_at(alloc, bytes, tokens, from, symbols)?;
    let name = name_of(alloc, bytes, tokens, heading.name)?;
    let Equation { positive, pair } = equation;
    Ok((
        Clause {
            name,
            role: heading.role,
            positive,
            left: pair.left,
            right: pair.right,
            places: Seq::from_vec(pair.places),
            place: place_at(bytes, tokens, heading.first),
        },
        end,
    ))
}

// The names that tokens are, each with its place.
fn names_of(
    alloc: Global,
    bytes: &[u8],
    tokens: &[Token],
    numbers: &[usize],
) -> Result<Seq<(Name, Place)>, AllocError>
    requires tokens { AreTokens bytes.now tokens.now }
    requires small { length bytes.now < 2 ^ 31 }
    ensures { IfOk result (AreNames bytes.now tokens.now numbers.now) }
{
    let mut names = Vec::new(alloc);
    for at in numbers {
        names.push((
            name_of(alloc, bytes, tokens, *at)?,
            place_at(bytes, tokens, *at),
        ))?;
    }
    Ok(Seq::from_vec(names))
}

// The names that an include lists, where it has a list.
fn selected_of(
    alloc: Global,
    bytes: &[u8],
    tokens: &[Token],
    numbers: &Option<Seq<usize>>,
) -> Result<Option<Seq<(Name, Place)>>, AllocError>
    requires tokens { AreTokens bytes.now tokens.now }
    requires small { length bytes.now < 2 ^ 31 }
    ensures { IfOk result (AreSelected bytes.now tokens.now numbers.now) }
{
    match numbers {
        Some(numbers) => {
            let names = names_of(alloc, bytes, tokens, numbers.as_slice())?;
            Ok(Some(names))
        }
        None => Ok(None),
    }
}

// The include that its tokens say.
fn include_of(
    alloc: Global,
    bytes: &[u8],
    tokens: &[Token],
    inclusion: &Inclusion,
) -> Result<Include, AllocError>
    requires tokens { AreTokens bytes.now tokens.now }
    requires small { length bytes.now < 2 ^ 31 }
    ensures { IfOk result (MeansInclude bytes.now tokens.now inclusion.now) }
{
    let file = named_at(alloc, bytes, tokens, inclusion.file)?;
    let names = selected_of(alloc, bytes, tokens, &inclusion.names)?;
    Ok(Include {
        file,
        names,
        place: place_at(bytes, tokens, inclusion.first),
    })
}

// Reads an item.
pub(crate) fn item_in(
    alloc: Global,
    bytes: &[u8],
    tokens: &[Token],
    from: usize,
    symbols: &mut Symbols,
) -> Result<(Item, usize), Stop>
    requires tokens { AreTokens bytes.now tokens.now }
    requires small { length bytes.now < 2 ^ 31 }
    ensures reads { IfOk result (λ r. ReadsItemAt bytes.now tokens.now from symbols.new r.0 r.1) }
    ensures stops { IfErr result (Stops (items.Item bytes.now tokens.now from)) }
    ensures grows { Grows symbols.old symbols.new }
    ensures interns { IfOk result (λ r. InternsAt (items.Item bytes.now tokens.now from) (with_item bytes.now tokens.now) symbols.old symbols.new r.1) }
{
    match opening_of(
        terminal_at(bytes, tokens, from),
        spelling_at(bytes, tokens, from),
    ) {
        Opening::OpensClause => {
            let (clause, end) = cnf_at(alloc, bytes, tokens, from, symbols)?;
            Ok((Item::Clause(clause), end))
        }
        Opening::OpensInclude => {
            let (inclusion, end) = inclusion_at(alloc, bytes, tokens, from)?;
            let include = include_of(alloc, bytes, tokens, &inclusion)?;
            Ok((Item::Include(include), end))
        }
        Opening::OpensNothing => Err(Stop::At(Why::NoItem, from)),
    }
}

// Reads items up to the end of the text.
fn items_in(
    alloc: Global,
    bytes: &[u8],
    tokens: &[Token],
    symbols: &mut Symbols,
) -> Result<Seq<Item>, Stop>
    requires tokens { AreTokens bytes.now tokens.now }
    requires small { length bytes.now < 2 ^ 31 }
    ensures reads { IfOk result (AreItems bytes.now tokens.now symbols.new) }
    ensures stops { IfErr result (Stops (items.Items bytes.now tokens.now 0)) }
    ensures grows { Grows symbols.old symbols.new }
    ensures interns { IfOk result (λ _. (end : ℕ) × InternsAt (items.Items bytes.now tokens.now 0) (with_items bytes.now tokens.now) symbols.old symbols.new end) }
{
    let mut found = Vec::new(alloc);
    let mut at = 0;
    'items: while !stands_at(bytes, tokens, at, Terminal::End) {
        let (item, end) = item_in(alloc, bytes, tokens, at, symbols)?;
        found.push(item)?;
        at = end;
    }
    Ok(Seq::from_vec(found))
}

/// The most bytes of a file.
pub const MAX_BYTES: usize = 16_777_216;

/// The items of a file, in order.
///
/// A file of more than 16,777,216 bytes is refused as `Limit` at its first byte, then a text that isn't tokens as `Syntax`
/// at the first byte that begins none. Then the refusal is that of the first token with which no file goes on, or with
/// which a limit is passed: `Unsupported` at a word that begins the items of another language, at a number, a text in
/// double quotes or a dollar word in a term's or a clause's place, and at the star behind the comma of an include;
/// `BadRole` at a word that is none of the nine roles; `NotUnit` at a bar behind a term that is no equation yet, or behind
/// a whole literal; `NotEquality` at the first token of a term behind which a closing bracket or a comma stands, where it
/// is no equation yet; `Limit` at the 17th bracket round a clause, at the 4,097th node of a term, and at a functor whose
/// 256th argument a comma announces; `Syntax` at any other token, or behind the last byte.
///
/// Symbols are interned when their arguments are closed; after a refusal the table may have grown, and only grown.
/// (Sutcliffe, The TPTP Problem Library and Associated Infrastructure; the grammar is its CNF for unit equality.)
pub fn read_items(
    alloc: Global,
    bytes: &[u8],
    symbols: &mut Symbols,
) -> Result<Seq<Item>, ClauseFault>
    ensures reads { IfOk result (ReadsFile bytes.now symbols.new) }
    ensures refused { IfErr result (IsFault (RefusesFile bytes.now)) }
    ensures complete { (found : List Item) → ReadsFile bytes.now symbols.new found → IsUnlessMemory (Ok found) result }
    ensures refuses { (fault : ClauseFault) → RefusesFile bytes.now fault → IsUnlessMemory (Err fault) result }
    ensures grows { Grows symbols.old symbols.new }
    ensures interns { IfOk result (λ _. InternsFile bytes.now symbols.old symbols.new) }
{
    if bytes.len() > MAX_BYTES {
        return Err(ClauseFault::Limit(Place { line: 1, column: 1 }, What::Bytes));
    }
    let result = items_of(alloc, bytes, symbols);
    // The entries of the table are all different, so what was read is the only reading.
    let _ = symbols.len();
    result
}

// The items of a text that isn't too long.
fn items_of(alloc: Global, bytes: &[u8], symbols: &mut Symbols) -> Result<Seq<Item>, ClauseFault>
    requires { length bytes.now < 2 ^ 31 }
    ensures answer { IsAnswer (ReadsBy items.Items (SaysItems symbols.new) bytes.now) (Refuses items.Items bytes.now) result }
    ensures grows { Grows symbols.old symbols.new }
    ensures interns { IfOk result (λ _. InternsFile bytes.now symbols.old symbols.new) }
{
    let list = tokens(alloc, bytes)?;
    match items_in(alloc, bytes, list.as_slice(), symbols) {
        Ok(found) => Ok(found),
        Err(stop) => Err(refusal(alloc, bytes, list.as_slice(), stop)),
    }
}

/// Reads the item that begins at the token of a number: the item, and the number of the token behind it.
///
/// The tokens are those of the text, of which there are fewer than 2^31, as there are bytes. It is refused as
/// `read_items` is.
pub fn item_at(
    alloc: Global,
    bytes: &[u8],
    tokens: &[Token],
    from: u32,
    symbols: &mut Symbols,
) -> Result<(Item, u32), ClauseFault>
    requires tokens { AreTokens bytes.now tokens.now }
    requires small { length bytes.now < 2 ^ 31 }
    requires few { length tokens.now < 2 ^ 31 }
    requires within { from < length tokens.now }
    ensures reads { IfOk result (λ r. ReadsItemAt bytes.now tokens.now from symbols.new r.0 r.1) }
    ensures refused { IfErr result (IsFault (StopsWith (items.Item bytes.now tokens.now) bytes.now tokens.now from)) }
    ensures complete { (item : Item) (end : ℕ) → ReadsItemAt bytes.now tokens.now from symbols.new item end → IsUnlessMemory (Ok (item, end)) result }
    ensures refuses { (fault : ClauseFault) → StopsWith (items.Item bytes.now tokens.now) bytes.now tokens.now from fault → IsUnlessMemory (Err fault) result }
    ensures grows { Grows symbols.old symbols.new }
    ensures interns { IfOk result (λ r. InternsAt (items.Item bytes.now tokens.now from) (with_item bytes.now tokens.now) symbols.old symbols.new r.1) }
{
    let found = item_in(alloc, bytes, tokens, from as usize, symbols);
    // The entries of the table are all different, so what was read is the only reading.
    let _ = symbols.len();
    match found {
        Ok((item, end)) => Ok((item, end as u32)),
        Err(stop) => Err(refusal(alloc, bytes, tokens, stop)),
    }
}

/// Reads the literal that begins at the token of a number: whether it is an equation, and not the denial of one, its two
/// sides, the places of their nodes, left side first, and the number of the token behind it. The variables are numbered
/// from 0 by first occurrence in the literal.
///
/// The tokens are those of the text, of which there are fewer than 2^31, as there are bytes. It is refused as
/// `read_items` is.
pub fn literal_at(
    alloc: Global,
    bytes: &[u8],
    tokens: &[Token],
    from: u32,
    symbols: &mut Symbols,
) -> Result<(bool, Term, Term, Seq<Place>, u32), ClauseFault>
    requires tokens { AreTokens bytes.now tokens.now }
    requires small { length bytes.now < 2 ^ 31 }
    requires few { length tokens.now < 2 ^ 31 }
    requires within { from < length tokens.now }
    ensures reads { IfOk result (λ r. ReadsLiteralAt bytes.now tokens.now from symbols.new r.0 r.1 r.2 r.3 r.4) }
    ensures refused { IfErr result (IsFault (StopsWith (items.literal bytes.now tokens.now) bytes.now tokens.now from)) }
    ensures complete { (positive : Bool) (left right : Tree) (places : List Place) (end : ℕ) → ReadsLiteralAt bytes.now tokens.now from symbols.new positive left right places end → IsUnlessMemory (Ok (positive, left, right, places, end)) result }
    ensures refuses { (fault : ClauseFault) → StopsWith (items.literal bytes.now tokens.now) bytes.now tokens.now from fault → IsUnlessMemory (Err fault) result }
    ensures grows { Grows symbols.old symbols.new }
    ensures interns { IfOk result (λ r. InternsAt (items.literal bytes.now tokens.now from) (with_literal bytes.now tokens.now) symbols.old symbols.new r.4) }
{
    let mut variables = Variables::new(alloc);
    let from = from as usize;
    let found = equation_or_denial_at(alloc, bytes, tokens, from, &mut variables, symbols);
    // The entries of the table are all different, so what was read is the only reading.
    let _ = symbols.len();
    match found {
        Ok(Equation { positive, pair }) => Ok((
            positive,
            pair.left,
            pair.right,
            Seq::from_vec(pair.places),
            pair.end as u32,
        )),
        Err(stop) => Err(refusal(alloc, bytes, tokens, stop)),
    }
}
