//! Terms among tokens, and a term that is a whole text.

ghost use Rattle.std.specs.Prelude.{◌≡◌, ◌⊎◌, ℕ, Ok, Err, IfOk, IfErr};
ghost use Rattle.uc_term.specs.Tree.{Tree};
ghost use Rattle.uc_term.specs.Table.{Grows};
ghost use Rattle.uc_clause.specs.Tokens.{AreTokens};
ghost use Rattle.uc_clause.specs.Rules.{stop, Stops};
ghost use Rattle.uc_clause.specs.declared.grammar.stop.Why.{Why};
ghost use Rattle.uc_clause.specs.Terms.{Term as Reads};
ghost use Rattle.uc_clause.specs.Reading.{ReadsTermAt};
ghost use Rattle.uc_clause.specs.Drafts.{IsPart};
ghost use Rattle.uc_clause.specs.Interning.{InternsAt, with_term};

use super::draft::Draft;
use crate::{Place, Stop, Token, Variables};
use std::alloc::Global;
use uc_term::{Symbols, Term};

/// A term that is read, the places of its nodes, and the number of the token behind it.
#[derive(Drop)]
pub(crate) struct Part {
    pub(crate) term: Term,
    pub(crate) places: Vec<Place>,
    pub(crate) end: usize,
}

// Reads the term that begins at a token.
pub(crate) fn part_at(
    alloc: Global,
    bytes: &[u8],
    tokens: &[Token],
    from: usize,
    variables: &mut Variables,
    symbols: &mut Symbols,
) -> Result<Part, Stop>
    requires tokens { AreTokens bytes.now tokens.now }
    ensures reads { IfOk result (IsPart bytes.now tokens.now from variables.old variables.new symbols.new) }
    ensures stops { IfErr result (Stops (Reads bytes.now tokens.now 0 from)) }
    ensures grows { Grows symbols.old symbols.new }
    ensures interns { IfOk result (λ part. InternsAt (Reads bytes.now tokens.now 0 from) (with_term bytes.now tokens.now) symbols.old symbols.new part.end) }
{
    let draft = Draft::read(alloc, bytes, tokens, from, variables, symbols)?;
    Ok(draft.into_part())
}

/// Reads the term that begins at the token of a number: the term, and the number of the token behind it.
///
/// The names of its variables are put behind those seen so far, and a variable's number is its name's place among them.
/// Symbols are interned when their arguments are closed, so those of the arguments come first; after a stop the table may
/// have grown, and only grown, and the names seen are any.
pub fn term_at(
    alloc: Global,
    bytes: &[u8],
    tokens: &[Token],
    from: usize,
    variables: &mut Variables,
    symbols: &mut Symbols,
) -> Result<(Term, usize), Stop>
    requires tokens { AreTokens bytes.now tokens.now }
    ensures reads { IfOk result (λ r. ReadsTermAt bytes.now tokens.now from r.1 variables.old variables.new symbols.new r.0) }
    ensures stops { IfErr result (Stops (Reads bytes.now tokens.now 0 from)) }
    ensures complete { (t : Tree) (end : ℕ) → ReadsTermAt bytes.now tokens.now from end variables.old variables.new symbols.new t → (result ≡ Ok (t, end)) ⊎ (result ≡ Err Stop.NoMemory) }
    ensures refuses { (why : Why) (k : ℕ) → Reads bytes.now tokens.now 0 from (stop why k) → (result ≡ Err (Stop.At why k)) ⊎ (result ≡ Err Stop.NoMemory) }
    ensures grows { Grows symbols.old symbols.new }
    ensures interns { IfOk result (λ r. InternsAt (Reads bytes.now tokens.now 0 from) (with_term bytes.now tokens.now) symbols.old symbols.new r.1) }
{
    let found = part_at(alloc, bytes, tokens, from, variables, symbols);
    // The entries of the table are all different, and so are the names, so what was read is the only reading.
    let _ = symbols.len();
    let _ = variables.len();
    let part = found?;
    Ok((part.term, part.end))
}
