//! A file of items and formulas.

ghost use Rattle.std.specs.Prelude.{◌≡◌, ◌<◌, ◌^◌, ℕ, Bool, List, Ok, Err, length, IfOk, IfErr};
ghost use Rattle.uc_term.specs.Table.{Grows};
ghost use Rattle.uc_clause.specs.Tokens.{AreTokens};
ghost use Rattle.uc_clause.specs.Meaning.{IsName};
ghost use Rattle.uc_clause.specs.Reading.{IsFault, IsUnlessMemory};
ghost use Rattle.uc_clause.specs.declared.fault.ClauseFault.{ClauseFault};
ghost use Rattle.uc_fof.specs.declared.item.FofItem.{FofItem};
ghost use Rattle.uc_fof.specs.Rules.{Stops};
ghost use Rattle.uc_fof.specs.Formulas as formulas;
ghost use Rattle.uc_fof.specs.Given.{BeginsLiteral, IsStated, IsLiteral, ReadsStatedAt, ReadsItemAt, ReadsItems, StopsWith};
ghost use Rattle.uc_fof.specs.Reading.{AreItems, ArentItems, ReadsFile, RefusesFile};
ghost use Rattle.uc_fof.specs.Interning.{InternsFile};
ghost use Rattle.uc_fof.specs.Meaning.{clause_role, clause_sign};
ghost use Rattle.uc_clause.specs.Terminals.{word_at};
ghost use Rattle.uc_fof.specs.declared.stop.Halt.{Halt};

use crate::formulas::formula_at;
use crate::heading::{heading_at, is_formula};
use crate::notes::notes_at;
use crate::refusal::refusal;
use crate::tokens::expect;
use crate::{FofItem, FormulaHeading, FormulaRole, Halt, Reason};
use std::alloc::{AllocError, Global};
use uc_clause::{
    Clause, ClauseFault, MAX_BYTES, Name, Place, Role, Terminal, Token, What, Why, item_at,
    literal_at, place_at, spelling_at, stands_at, terminal_at, tokens, word_at,
};
use uc_term::{Seq, Symbols, Term, Text};

/// A literal that is read: whether it is an equation, and not the denial of one, its sides, and the places of their nodes.
#[derive(Drop)]
struct Literal {
    positive: bool,
    left: Term,
    right: Term,
    places: Seq<Place>,
}

// The literal that begins at a token, which is known to be one.
fn literal_of(
    alloc: Global,
    bytes: &[u8],
    tokens: &[Token],
    conjecture: bool,
    from: usize,
    symbols: &mut Symbols,
) -> Result<Literal, Halt>
    requires tokens { AreTokens bytes.now tokens.now }
    requires small { length bytes.now < 2 ^ 31 }
    requires few { length tokens.now < 2 ^ 31 }
    requires begins { BeginsLiteral bytes.now tokens.now conjecture from }
    ensures reads { IfOk result (λ l. IsLiteral bytes.now tokens.now from symbols.old symbols.new l.positive l.left l.right l.places) }
    ensures memory { IfErr result (λ e. e ≡ Halt.NoMemory) }
    ensures grows { Grows symbols.old symbols.new }
{
    match literal_at(alloc, bytes, tokens, from as u32, symbols) {
        Ok((positive, left, right, places, _)) => Ok(Literal {
            positive,
            left,
            right,
            places,
        }),
        Err(fault) => Err(no_memory(fault)),
    }
}

// The stop of a fault that is known to be want of memory.
fn no_memory(fault: ClauseFault) -> Halt
    requires { fault ≡ ClauseFault.NoMemory }
    ensures { result ≡ Halt.NoMemory }
{
    match fault {
        ClauseFault::NoMemory => Halt::NoMemory,
        _ => unreachable!(),
    }
}

// The word that a token stands for, none at the end of the text.
fn named_at(alloc: Global, bytes: &[u8], tokens: &[Token], at: usize) -> Result<Text, AllocError>
    requires { AreTokens bytes.now tokens.now }
    ensures { IfOk result (λ word. word ≡ word_at bytes.now tokens.now at) }
{
    if at < tokens.len() {
        word_at(alloc, bytes, tokens, at)
    } else {
        Ok(Text::new(alloc))
    }
}

// The name that a token is.
fn name_of(alloc: Global, bytes: &[u8], tokens: &[Token], at: usize) -> Result<Name, AllocError>
    requires { AreTokens bytes.now tokens.now }
    ensures { IfOk result (IsName bytes.now tokens.now at) }
{
    let text = named_at(alloc, bytes, tokens, at)?;
    Ok(Name {
        text,
        integer: stands_at(bytes, tokens, at, Terminal::Integer),
    })
}

// The role of the clause that a formula is.
fn clause_role(role: FormulaRole) -> Role
    ensures { result ≡ clause_role role }
{
    match role {
        FormulaRole::Conjecture => Role::NegatedConjecture,
        FormulaRole::OfClause(role) => role,
    }
}

// Whether the clause that a formula is is an equation, of whether the formula's literal is one.
fn clause_sign(role: FormulaRole, positive: bool) -> bool
    ensures { result ≡ clause_sign role positive }
{
    match role {
        FormulaRole::Conjecture => !positive,
        FormulaRole::OfClause(_) => positive,
    }
}

// Goes over the item of a formula: how it begins, its literal's first token, and the number of the token behind the item.
fn stated_at(
    alloc: Global,
    bytes: &[u8],
    tokens: &[Token],
    from: usize,
) -> Result<(FormulaHeading, usize, usize), Halt>
    requires { AreTokens bytes.now tokens.now }
    ensures reads { IfOk result (λ r. IsStated bytes.now tokens.now from r.0 r.1 r.2) }
    ensures stops { IfErr result (Stops (formulas.fof bytes.now tokens.now from)) }
{
    let (heading, at) = heading_at(bytes, tokens, from)?;
    let conjecture = heading.role.is_conjecture();
    let (literal, at) = formula_at(alloc, bytes, tokens, conjecture, at)?;
    let at = notes_at(alloc, bytes, tokens, conjecture, at)?;
    let end = expect(
        bytes,
        tokens,
        at,
        Terminal::Dot,
        Reason::Outside(Why::NoToken),
    )?;
    Ok((heading, literal, end))
}

// Reads the item of a formula.
fn fof_at(
    alloc: Global,
    bytes: &[u8],
    tokens: &[Token],
    from: usize,
    symbols: &mut Symbols,
) -> Result<(FofItem, usize), Halt>
    requires tokens { AreTokens bytes.now tokens.now }
    requires small { length bytes.now < 2 ^ 31 }
    requires few { length tokens.now < 2 ^ 31 }
    ensures reads { IfOk result (λ r. ReadsStatedAt bytes.now tokens.now from symbols.old symbols.new r.0 r.1) }
    ensures stops { IfErr result (Stops (formulas.fof bytes.now tokens.now from)) }
    ensures grows { Grows symbols.old symbols.new }
{
    let (heading, at, end) = stated_at(alloc, bytes, tokens, from)?;
    let conjecture = heading.role.is_conjecture();
    let name = name_of(alloc, bytes, tokens, heading.name)?;
    let literal = literal_of(alloc, bytes, tokens, conjecture, at, symbols)?;
    let clause = Clause {
        name,
        role: clause_role(heading.role),
        positive: clause_sign(heading.role, literal.positive),
        left: literal.left,
        right: literal.right,
        places: literal.places,
        place: place_at(bytes, tokens, heading.first),
    };
    Ok((
        FofItem::Formula {
            clause,
            conjecture,
            role_place: place_at(bytes, tokens, heading.role_at),
        },
        end,
    ))
}

// Reads an item.
fn item_in(
    alloc: Global,
    bytes: &[u8],
    tokens: &[Token],
    from: usize,
    symbols: &mut Symbols,
) -> Result<(FofItem, usize), ClauseFault>
    requires tokens { AreTokens bytes.now tokens.now }
    requires small { length bytes.now < 2 ^ 31 }
    requires few { length tokens.now < 2 ^ 31 }
    requires within { from < length tokens.now }
    ensures reads { IfOk result (λ r. ReadsItemAt bytes.now tokens.now from symbols.old symbols.new r.0 r.1) }
    ensures refused { IfErr result (IsFault (StopsWith bytes.now tokens.now (formulas.Item bytes.now tokens.now) from)) }
    ensures grows { Grows symbols.old symbols.new }
{
    if is_formula(
        terminal_at(bytes, tokens, from),
        spelling_at(bytes, tokens, from),
    ) {
        match fof_at(alloc, bytes, tokens, from, symbols) {
            Ok(found) => Ok(found),
            Err(halt) => Err(refusal(alloc, bytes, tokens, halt)),
        }
    } else {
        let (item, end) = item_at(alloc, bytes, tokens, from as u32, symbols)?;
        Ok((FofItem::Item(item), end as usize))
    }
}

// Reads items up to the end of the text.
fn items_in(
    alloc: Global,
    bytes: &[u8],
    tokens: &[Token],
    symbols: &mut Symbols,
) -> Result<Seq<FofItem>, ClauseFault>
    requires tokens { AreTokens bytes.now tokens.now }
    requires small { length bytes.now < 2 ^ 31 }
    requires few { length tokens.now < 2 ^ 31 }
    ensures reads { IfOk result (ReadsItems bytes.now tokens.now symbols.old symbols.new) }
    ensures refused { IfErr result (IsFault (StopsWith bytes.now tokens.now (formulas.Items bytes.now tokens.now) 0)) }
    ensures grows { Grows symbols.old symbols.new }
{
    let mut found = Vec::new(alloc);
    let mut at = 0;
    'items: while !stands_at(bytes, tokens, at, Terminal::End) {
        let (item, end) = item_in(alloc, bytes, tokens, at, symbols)?;
        found.push(item)?;
        at = end;
    }
    Ok(Seq::from_vec(found))
}

/// The items of a file that may have formulas, in order.
///
/// A file of more than 16,777,216 bytes is refused as `Limit` at its first byte, then a text that isn't tokens as `Syntax`
/// at the first byte that begins none. Then the refusal is that of the first token with which no file goes on, or with
/// which a limit is passed. Outside formulas it is that of `uc_clause::read_items`, but that `fof` begins an item. Inside a
/// formula it is so too, with these changes: `Unsupported` comes at `?` where a formula is called for, at `!` behind `~`, at
/// a variable that no quantifier binds, and at `~` and `!=` in a conjecture; `NotUnit` comes at a bar, `&`, `<` or `~` behind
/// a term that is no equation yet or behind a whole literal, also in a conjecture, at `=` behind a whole literal, and at `>`
/// behind the `=` of the literal; and `Limit` at the 17th bracket round a formula. A variable that is the 4,097th node of its
/// term answers `Limit`, bound or not.
///
/// A conjecture is the clause that denies it, with the role of a negated conjecture; its variables stand. Symbols are
/// interned when their arguments are closed; after a refusal the table may have grown, and only grown. A quantifier of many
/// variables is read in linear time. (Sutcliffe, The TPTP Problem Library and Associated Infrastructure; the grammar is its
/// FOF for unit equality.)
pub fn read_formulas(
    alloc: Global,
    bytes: &[u8],
    symbols: &mut Symbols,
) -> Result<Seq<FofItem>, ClauseFault>
    ensures reads { IfOk result (ReadsFile bytes.now symbols.new) }
    ensures refused { IfErr result (IsFault (RefusesFile bytes.now)) }
    ensures complete { (found : List FofItem) → ReadsFile bytes.now symbols.new found → IsUnlessMemory (Ok found) result }
    ensures refuses { (fault : ClauseFault) → RefusesFile bytes.now fault → IsUnlessMemory (Err fault) result }
    ensures grows { Grows symbols.old symbols.new }
    ensures interns { IfOk result (λ _. InternsFile bytes.now symbols.old symbols.new) }
{
    if bytes.len() > MAX_BYTES {
        return Err(ClauseFault::Limit(Place { line: 1, column: 1 }, What::Bytes));
    }
    let result = items_of(alloc, bytes, symbols);
    // The entries of the table are all different, so what was read is the only reading.
    let _ = symbols.len();
    result
}

// The items of a text that isn't too long.
fn items_of(alloc: Global, bytes: &[u8], symbols: &mut Symbols) -> Result<Seq<FofItem>, ClauseFault>
    requires { length bytes.now < 2 ^ 31 }
    ensures reads { IfOk result (AreItems bytes.now symbols.new) }
    ensures refused { IfErr result (IsFault (ArentItems bytes.now)) }
    ensures grows { Grows symbols.old symbols.new }
    ensures interns { IfOk result (λ _. InternsFile bytes.now symbols.old symbols.new) }
{
    let list = tokens(alloc, bytes)?;
    items_in(alloc, bytes, list.as_slice(), symbols)
}
