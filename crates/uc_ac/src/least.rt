//! The least facts that make a symbol associative and commutative.

ghost use Rattle.std.specs.Prelude.{◌≡◌, ◌≤◌, ◌↔◌, ℕ, length, IsTrue, IfOk, MatchOption};
ghost use Rattle.uc_term.specs.Flat.{tree_of, IsWhole};
ghost use Rattle.uc_ac.specs.AcFacts.{IsFactThat};
ghost use Rattle.uc_ac.specs.Joining.{IsLeastThat, AreLeastFacts, IsAcSymbol};
ghost use Rattle.uc_ac.specs.Found.{IsInstanceOf};

use crate::ac_law::{AcLaw, is_law};
use std::alloc::{AllocError, Global};
use uc_fact::{AcFacts, Found, Index, Outlook, Side, Test};
use uc_term::{MAX_NODES, Node, Sym, Term};

/// The least facts that make the symbol associative and commutative. None exactly where no facts do.
pub fn facts_of<I: Index>(alloc: Global, f: Sym, index: &I) -> Result<Option<AcFacts>, AllocError>
    ensures { IfOk result (λ facts. MatchOption facts (IsAcSymbol (I.live index.now) f → ⊥) (λ facts. (facts.symbol ≡ f) × AreLeastFacts (I.live index.now) facts)) }
{
    let Some(comm) = least_fact(alloc, AcLaw::Comm, f, index)? else {
        return Ok(None);
    };
    let Some(assoc) = least_fact(alloc, AcLaw::Assoc, f, index)? else {
        return Ok(None);
    };
    let Some(extended) = least_fact(alloc, AcLaw::Extended, f, index)? else {
        return Ok(None);
    };
    Ok(Some(AcFacts {
        symbol: f,
        assoc,
        comm,
        extended,
    }))
}

/// The least fact that is the law for the symbol. None exactly where none is.
fn least_fact<I: Index>(
    alloc: Global,
    law: AcLaw,
    f: Sym,
    index: &I,
) -> Result<Option<u32>, AllocError>
    ensures { IfOk result (λ fact. MatchOption fact ((k : ℕ) → IsFactThat (I.live index.now) law f k → ⊥) (IsLeastThat (I.live index.now) law f)) }
{
    let head = Node::App(f, 2);
    let (x, y, z) = (Node::Var(0), Node::Var(1), Node::Var(2));
    match law {
        AcLaw::Assoc => first_fact(alloc, law, f, &[head, head, x, y, z], index),
        AcLaw::Comm => first_fact(alloc, law, f, &[head, x, y], index),
        AcLaw::Extended => first_fact(alloc, law, f, &[head, x, head, y, z], index),
    }
}

/// The first fact that is found for a term and is the law. The term is an instance of a side of the law, however the variables
/// are named.
fn first_fact<I: Index>(
    alloc: Global,
    law: AcLaw,
    f: Sym,
    term: &[Node],
    index: &I,
) -> Result<Option<u32>, AllocError>
    requires whole { IsWhole term.now }
    requires small { length term.now ≤ MAX_NODES }
    requires found { IsInstanceOf law f (tree_of term.now) }
    ensures { IfOk result (λ fact. MatchOption fact ((k : ℕ) → IsFactThat (I.live index.now) law f k → ⊥) (IsLeastThat (I.live index.now) law f)) }
{
    let test = LawTest {
        index,
        law,
        symbol: f,
    };
    match index.first_that(alloc, term, &test)? {
        Some(found) => Ok(Some(found.fact)),
        None => Ok(None),
    }
}

/// The test whether a fact is the law for a symbol.
#[derive(Drop)]
struct LawTest<'a, I> {
    index: &'a I,
    law: AcLaw,
    symbol: Sym,
}

impl<'a, I: Index> Test for LawTest<'a, I> {
    ghost use Rattle.uc_ac.specs.AcFacts.{IsFactThat};

    ghost can_test = { λ s found from to. Unit {0} };

    ghost accepts = { λ s found. IsFactThat (I.live s.index.now) s.law s.symbol found.fact };

    fn outlook(&self, fact: u32, _side: Side, _from: &Term, _to: &Term) -> Outlook {
        if is_fact_that(self.index, self.law, self.symbol, fact) {
            Outlook::Passes
        } else {
            Outlook::Fails
        }
    }

    fn passes(
        &self,
        _alloc: Global,
        found: &Found,
        _from: &Term,
        _to: &Term,
        _space: &mut Vec<Node>,
    ) -> Result<bool, AllocError> {
        Ok(is_fact_that(self.index, self.law, self.symbol, found.fact))
    }
}

/// Whether the fact of a number lives and is the law for the symbol.
fn is_fact_that<I: Index>(index: &I, law: AcLaw, f: Sym, fact: u32) -> bool
    ensures { IsTrue result ↔ IsFactThat (I.live index.now) law f fact }
{
    match index.pair(fact) {
        Some(sides) => is_law(law, f, sides.0.as_nodes(), sides.1.as_nodes()),
        None => false,
    }
}
