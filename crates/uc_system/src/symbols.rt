//! The lines of the symbols.

ghost use Rattle.std.specs.Prelude.{◌≡◌, ◌<◌, ◌^◌, ◌++◌, ◌∷◌, [], length, drop, false, IsTrue, ◌↔◌, IfOk, IfSome, MatchOption};
ghost use Rattle.uc_term.specs.Table.{Table, Grows, Has};
ghost use Rattle.std.specs.List.{list_all};
ghost use Rattle.uc_clause.specs.Bytes.{between};
ghost use Rattle.uc_clause.specs.Names.{IsSpellable, stands_for};
ghost use Rattle.uc_order.specs.Members.{Each};
ghost use Rattle.uc_system.specs.Symbols.{begins_symbol, is_bad_weight, weighs_nothing, symbol_fault, symbols_fault, has_light, has_constant, symbols_in, is_one_of, IsFollowed, SymbolAt};
ghost use Rattle.uc_system.specs.Places.{IsAt};
ghost use Rattle.uc_system.specs.Written.{HasNoSpace, IsSplit, IsWritten, IsNotWritten, IsNamed, IsNotNamed, IsWordOf, kind_at, AreSame};
ghost use Rattle.uc_system.specs.Reads.{GivesIn, ReadsSymbols, InternsLine};
ghost use Rattle.uc_system.specs.Interning.{InternsSymbols};

use crate::SystemFault;
use crate::header::{Header, Kind, MOST_WEIGHT};
use crate::lines::{Cursor, departs, line_at, place_in};
use crate::numerals::numeral;
use crate::pieces::behind;
use indexmap::IndexSet;
use std::alloc::{AllocError, Global};
use uc_clause::{Kind as TokenKind, MAX_ARITY, Place, Token, print_word};
use uc_term::{Sym, Symbols, Text};

/// A symbol with its weight, 0 where the order has none.
#[derive(Clone, Copy, PartialEq, Eq, Debug)]
pub(crate) struct Ranked {
    pub(crate) symbol: Sym,
    pub(crate) weight: u32,
}

/// The symbols of the lines, the least first, and the same for looking one up.
#[derive(Drop)]
pub(crate) struct Ranks {
    pub(crate) ranked: Vec<Ranked>,
    pub(crate) known: IndexSet<Sym>,
}

impl Ranks {
    // Puts a symbol, which is none of the others, behind them.
    fn put(&mut self, symbol: Ranked) -> Result<(), AllocError>
        requires same { AreSame self.old }
        requires new { is_one_of symbol.symbol self.old.known.keys ≡ false }
        ensures ranked { IfOk result (λ _. self.new.ranked.items ≡ self.old.ranked.items ++ symbol ∷ []) }
        ensures same { IfOk result (λ _. AreSame self.new) }
    {
        self.ranked.push(symbol)?;
        self.known.insert(symbol.symbol)?;
        Ok(())
    }
}

/// What stands in a symbol's line: the name as it is spelled, the arity and the weight, each at most the greatest `u32`.
#[derive(Clone, Copy)]
struct Written<'a> {
    spelled: &'a [u8],
    arity: u32,
    weight: u32,
}

const SYMBOL: &[u8] = b"% symbol ";

// Whether a line of a symbol begins here, or what should be one.
fn begins_symbol(text: &[u8]) -> bool
    ensures { result ≡ begins_symbol text.now }
{
    text.starts_with(SYMBOL)
}

// What stands before the last space, and behind it.
fn split_last(text: &[u8]) -> Option<(&[u8], &[u8])>
    ensures { MatchOption result (HasNoSpace text.now) (λ r. IsSplit text.now r.0.now r.1.now) }
{
    let mut end = text.len();
    while end > 0 {
        let at = end - 1;
        if text[at] == b' ' {
            let (front, _) = text.split_at(at);
            let (_, back) = text.split_at(end);
            return Some((front, back));
        }
        end = at;
    }
    None
}

// What stands in a line, if it can be a symbol's.
fn written_in(kind: Kind, line: &[u8]) -> Option<Written<'_>>
    ensures { MatchOption result (IsNotWritten kind line.now) (λ w. IsWritten kind line.now w.spelled.now w.arity w.weight) }
{
    let rest = behind(SYMBOL, line)?;
    match kind {
        Kind::Weighing(_) => {
            let (front, digits) = split_last(rest)?;
            let weight = numeral(digits)?;
            named_in(front, weight)
        }
        Kind::Paths => named_in(rest, 0),
    }
}

// The name and the arity before a weight.
fn named_in(text: &[u8], weight: u32) -> Option<Written<'_>>
    ensures named { MatchOption result (IsNotNamed text.now) (λ w. IsNamed text.now w.spelled.now w.arity) }
    ensures weight { IfSome result (λ w. w.weight ≡ weight) }
{
    let (spelled, digits) = split_last(text)?;
    let arity = numeral(digits)?;
    Some(Written {
        spelled,
        arity,
        weight,
    })
}

fn is_visible(b: u8) -> bool
    ensures { result ≡ between 32 126 b }
{
    32 <= b && b <= 126
}

fn are_visible(word: &[u8]) -> bool
    ensures { result ≡ list_all (between 32 126) word.now }
{
    word.iter().all(|b| is_visible(*b))
}

// Whether a token can spell the word, quoted or not: it has one or more bytes, each 32 to 126.
fn is_spellable(word: &[u8]) -> bool
    ensures { IsTrue result ↔ IsSpellable word.now }
{
    !word.is_empty() && are_visible(word)
}

// The kind of the token that a spelling is.
fn kind_at(spelled: &[u8]) -> TokenKind
    ensures { result ≡ kind_at spelled.now }
{
    match spelled {
        [b'\'', ..] => TokenKind::Quoted,
        _ => TokenKind::Lower,
    }
}

// What one or more bytes say as a token.
fn said_by(alloc: Global, spelled: &[u8]) -> Result<Text, AllocError>
    requires some { 0 < length spelled.now }
    requires small { length spelled.now < 2 ^ 31 }
    ensures { IfOk result (λ word. word ≡ stands_for (kind_at spelled.now) spelled.now) }
{
    let token = Token {
        kind: kind_at(spelled),
        from: 0,
        to: spelled.len() as u32,
        place: Place { line: 1, column: 1 },
    };
    token.word(alloc, spelled)
}

// The word that is spelled so, if one is.
fn word_of(alloc: Global, spelled: &[u8]) -> Result<Option<Text>, AllocError>
    requires { length spelled.now < 2 ^ 31 }
    ensures { IfOk result (IsWordOf spelled.now) }
{
    if spelled.is_empty() {
        return Ok(None);
    }
    let word = said_by(alloc, spelled)?;
    if !is_spellable(word.as_bytes()) {
        return Ok(None);
    }
    let again = print_word(alloc, word.as_bytes())?;
    if again.as_bytes() == spelled {
        Ok(Some(word))
    } else {
        Ok(None)
    }
}

// Whether the weight is too great, or a constant's and below a variable's, or 0 where the symbol isn't unary.
fn is_bad_weight(kind: Kind, arity: u32, weight: u32) -> bool
    ensures { result ≡ is_bad_weight kind arity weight }
{
    match kind {
        Kind::Weighing(w0) => {
            weight > MOST_WEIGHT || (arity == 0 && weight < w0) || (weight == 0 && arity != 1)
        }
        Kind::Paths => false,
    }
}

fn weighs_nothing(kind: Kind, weight: u32) -> bool
    ensures { result ≡ weighs_nothing kind weight }
{
    match kind {
        Kind::Weighing(_) => weight == 0,
        Kind::Paths => false,
    }
}

// What is wrong with a symbol of this arity and weight in the line of this number, if anything is.
fn symbol_fault(
    header: Header,
    repeated: bool,
    followed: bool,
    number: u32,
    arity: u32,
    weight: u32,
) -> Option<SystemFault>
    ensures { result ≡ symbol_fault header repeated followed number arity weight }
{
    if is_bad_weight(header.kind, arity, weight) || repeated {
        return Some(departs(number));
    }
    if !weighs_nothing(header.kind, weight) {
        return None;
    }
    if !header.light {
        return Some(departs(header.first));
    }
    if followed {
        return Some(departs(number));
    }
    None
}

// Whether exactly a symbol's line stands here.
fn stands_symbol(alloc: Global, bytes: &[u8], kind: Kind, at: Cursor) -> Result<bool, AllocError>
    requires small { length bytes.now < 2 ^ 31 }
    requires at { IsAt bytes.now at }
    ensures { IfOk result (IsFollowed kind (drop at.from bytes.now)) }
{
    let Some((line, _)) = line_at(bytes, at) else {
        return Ok(false);
    };
    let Some(written) = written_in(kind, line) else {
        return Ok(false);
    };
    match word_of(alloc, written.spelled)? {
        Some(_) => Ok(true),
        None => Ok(false),
    }
}

// Reads a symbol's line, behind the lines of these.
fn symbol_at(
    alloc: Global,
    bytes: &[u8],
    header: Header,
    earlier: &IndexSet<Sym>,
    at: Cursor,
    symbols: &mut Symbols,
) -> Result<(Ranked, Cursor), SystemFault>
    requires small { length bytes.now < 2 ^ 31 }
    requires at { IsAt bytes.now at }
    ensures reads { GivesIn (λ (table : Table). SymbolAt table header earlier.now.keys) symbols.new bytes.now at result }
    ensures further { IfOk result (λ r. at.from < r.1.from) }
    ensures new { IfOk result (λ r. is_one_of r.0.symbol earlier.now.keys ≡ false) }
    ensures grows { Grows symbols.old symbols.new }
    ensures interns { IfOk result (λ r. InternsLine header.kind (drop at.from bytes.now) (drop r.1.from bytes.now) symbols.old symbols.new) }
{
    let Some((line, next)) = line_at(bytes, at) else {
        return Err(departs(at.number));
    };
    let Some(written) = written_in(header.kind, line) else {
        return Err(departs(at.number));
    };
    let Some(name) = word_of(alloc, written.spelled)? else {
        return Err(departs(at.number));
    };
    let Written { arity, weight, .. } = written;
    if arity > MAX_ARITY {
        let front = SYMBOL.len() + written.spelled.len() + 1;
        return Err(SystemFault::Limit(place_in(at.number, front)));
    }
    let symbol = symbols.intern(alloc, name.as_bytes(), arity)?;
    let repeated = earlier.contains(&symbol);
    let followed = stands_symbol(alloc, bytes, header.kind, next)?;
    match symbol_fault(header, repeated, followed, at.number, arity, weight) {
        Some(fault) => Err(fault),
        None => Ok((Ranked { symbol, weight }, next)),
    }
}

// Reads all lines of symbols.
pub(crate) fn symbols_at(
    alloc: Global,
    bytes: &[u8],
    header: Header,
    at: Cursor,
    symbols: &mut Symbols,
) -> Result<(Ranks, Cursor), SystemFault>
    requires small { length bytes.now < 2 ^ 31 }
    requires at { IsAt bytes.now at }
    ensures reads { ReadsSymbols header symbols.new bytes.now at result }
    ensures known { IfOk result (λ r. AreSame r.0) }
    ensures grows { Grows symbols.old symbols.new }
    ensures interns { IfOk result (λ _. InternsSymbols header.kind (drop at.from bytes.now) symbols.old symbols.new) }
{
    let mut ranks = Ranks {
        ranked: Vec::new(alloc),
        known: IndexSet::new(alloc),
    };
    let mut here = at;
    'lines: while begins_symbol(bytes.split_at(here.from).1) {
        let (symbol, next) = symbol_at(alloc, bytes, header, &ranks.known, here, symbols)?;
        ranks.put(symbol)?;
        here = next;
    }
    Ok((ranks, here))
}

// What is wrong with all of them, where the line of this number stands behind the last, if anything is.
pub(crate) fn symbols_fault(
    header: Header,
    ranked: &[Ranked],
    number: u32,
    symbols: &Symbols,
) -> Option<SystemFault>
    requires { Each (Has symbols.now) (symbols_in ranked.now) }
    ensures { result ≡ symbols_fault symbols.now header ranked.now number }
{
    if header.light && !has_light(header, ranked) {
        return Some(departs(header.first));
    }
    if has_constant(ranked, symbols) {
        None
    } else {
        Some(departs(number))
    }
}

fn has_light(header: Header, ranked: &[Ranked]) -> bool
    ensures { result ≡ has_light header ranked.now }
{
    ranked.iter().any(|s| weighs_nothing(header.kind, s.weight))
}

fn has_constant(ranked: &[Ranked], symbols: &Symbols) -> bool
    requires { Each (Has symbols.now) (symbols_in ranked.now) }
    ensures { result ≡ has_constant symbols.now ranked.now }
{
    for s in ranked {
        if symbols.arity(s.symbol) == 0 {
            return true;
        }
    }
    false
}
