//! Ends that are equal up to brackets and order at associative and commutative symbols (Martin and Nipkow, Ordered Rewriting and
//! Confluence).

ghost use Rattle.std.specs.Prelude.{◌≡◌, ◌↔◌, List, IsTrue, IfOk, MatchOption};
ghost use Rattle.uc_term.specs.declared.node.Sym.{Sym as AnySym};
ghost use Rattle.uc_fact.specs.Live.{numbered};
ghost use Rattle.uc_ac.specs.AcFacts.{IsFactThat};
ghost use Rattle.uc_certify.specs.Joining.{AreRightTriples};
ghost use Rattle.uc_certify.specs.Testing.{MakesAc, MakeAc};

use std::alloc::{AllocError, Global};
use uc_ac::{AcLaw, ac_equal, is_law};
use uc_certificate::AcTriple;
use uc_fact::Equation;
use uc_term::{Node, Sym, Term};

/// Whether each triple names three facts that make one symbol associative and commutative, and two terms are equal up to brackets
/// and order at these symbols.
pub(crate) fn are_right_triples(
    alloc: Global,
    facts: &[Equation],
    s: &Term,
    t: &Term,
    triples: &[AcTriple],
) -> Result<bool, AllocError>
    ensures { IfOk result (λ right. IsTrue right ↔ AreRightTriples facts.now s.now t.now triples.now) }
{
    let Some(symbols) = symbols_of(alloc, facts, triples)? else {
        return Ok(false);
    };
    ac_equal(alloc, symbols.as_slice(), s, t)
}

/// The symbols that the facts of each triple make associative and commutative, in order. None exactly where those of one make none
/// so.
fn symbols_of(
    alloc: Global,
    facts: &[Equation],
    triples: &[AcTriple],
) -> Result<Option<Vec<Sym>>, AllocError>
    ensures { IfOk result (λ found. MatchOption found ((fs : List AnySym) → MakeAc facts.now triples.now fs → ⊥) (λ symbols. MakeAc facts.now triples.now symbols.items)) }
{
    let mut symbols = Vec::new(alloc);
    for triple in triples {
        let Some(symbol) = symbol_of(facts, *triple) else {
            return Ok(None);
        };
        symbols.push(symbol)?;
    }
    Ok(Some(symbols))
}

/// The symbol that the three facts of a triple make associative and commutative. None exactly where there is none.
fn symbol_of(facts: &[Equation], triple: AcTriple) -> Option<Sym>
    ensures { MatchOption result ((f : AnySym) → MakesAc facts.now triple f → ⊥) (MakesAc facts.now triple) }
{
    let Some(symbol) = head_of(facts, triple.comm) else {
        return None;
    };
    if !make_ac(facts, triple, symbol) {
        return None;
    }
    Some(symbol)
}

/// The only symbol of which a fact can say that it is commutative: the one that heads its left side.
fn head_of(facts: &[Equation], number: u32) -> Option<Sym>
    ensures { MatchOption result ((f : AnySym) → IsFactThat (numbered facts.now) AcLaw.Comm f number → ⊥) (λ symbol. (f : AnySym) → IsFactThat (numbered facts.now) AcLaw.Comm f number → f ≡ symbol) }
{
    let Some(fact) = facts.get(number as usize) else {
        return None;
    };
    match fact.left.as_nodes()[0] {
        Node::Var(_) => None,
        Node::App(symbol, _) => Some(symbol),
    }
}

/// Whether the three facts of a triple make the symbol associative and commutative.
fn make_ac(facts: &[Equation], triple: AcTriple, symbol: Sym) -> bool
    ensures { IsTrue result ↔ MakesAc facts.now triple symbol }
{
    is_fact_that(facts, AcLaw::Assoc, symbol, triple.assoc)
        && is_fact_that(facts, AcLaw::Comm, symbol, triple.comm)
        && is_fact_that(facts, AcLaw::Extended, symbol, triple.extended)
}

/// Whether the fact of a number is the law for the symbol.
fn is_fact_that(facts: &[Equation], law: AcLaw, symbol: Sym, number: u32) -> bool
    ensures { IsTrue result ↔ IsFactThat (numbered facts.now) law symbol number }
{
    let Some(fact) = facts.get(number as usize) else {
        return false;
    };
    is_law(law, symbol, fact.left.as_nodes(), fact.right.as_nodes())
}
