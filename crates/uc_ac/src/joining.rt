//! The test of two terms for equality up to brackets and order.

ghost use Rattle.std.specs.Prelude.{◌≡◌, IfOk, OnOk, IfSome};
ghost use Rattle.uc_fact.specs.Ground.{IsJoinable};
ghost use Rattle.uc_order.specs.Laws.{HasSym};
ghost use Rattle.uc_ac.specs.AcFacts.{symbols_of, named_equations};
ghost use Rattle.uc_ac.specs.Joining.{AreFactsOf, IsAcAnswer};
ghost use Rattle.uc_ac.specs.Found.{AddsFacts};

use crate::binary::binary_symbols;
use crate::comparing::{ac_equal, sizes_or_heads_differ};
use crate::least::facts_of;
use std::alloc::{AllocError, Global};
use uc_fact::{AcFacts, Index};
use uc_order::Order;
use uc_term::{Seq, Sym, Term};

/// The facts by which two terms are joinable because they are equal up to brackets and order. A binary symbol is associative
/// and commutative where three live facts are, either way round, `f(f(X,Y),Z) = f(X,f(Y,Z))`, `f(X,Y) = f(Y,X)` and
/// `f(X,f(Y,Z)) = f(Y,f(X,Z))`. There is an answer exactly where such symbols occur in the two terms and these are equal up to
/// brackets and order at them; it has, by symbol number, the least three facts of each.
///
/// Terms that differ in their number of nodes or in their first nodes have no answer, which takes no memory and looks up nothing.
pub fn ac_join<O: Order, I: Index>(
    alloc: Global,
    s: &Term,
    t: &Term,
    index: &I,
    order: &O,
) -> Result<Option<Seq<AcFacts>>, AllocError>
    ensures answer { IfOk result (IsAcAnswer (I.live index.now) s.now t.now) }
    // what follows: the terms are joinable by the named facts alone
    ensures joined { IfOk result (λ answer. IfSome answer (λ list. IsJoinable (O.meaning order.now).greater (HasSym (O.meaning order.now)) (O.meaning order.now).arity (named_equations (I.live index.now) list) s.now t.now)) }
{
    if sizes_or_heads_differ(s, t) {
        return Ok(None);
    }
    let list = facts_of_terms(alloc, s, t, index)?;
    if list.is_empty() {
        return Ok(None);
    }
    let symbols = symbols_in(alloc, list.as_slice())?;
    if !ac_equal(alloc, symbols.as_slice(), s, t)? {
        return Ok(None);
    }
    Ok(Some(list))
}

/// The least facts of each associative and commutative symbol that occurs in two terms, by symbol number.
fn facts_of_terms<I: Index>(
    alloc: Global,
    s: &Term,
    t: &Term,
    index: &I,
) -> Result<Seq<AcFacts>, AllocError>
    ensures { IfOk result (AreFactsOf (I.live index.now) s.now t.now) }
{
    let numbers = binary_symbols(alloc, s, t)?;
    let mut list = Vec::new(alloc);
    for number in numbers.as_slice() {
        add_facts(alloc, Sym(*number), index, &mut list)?;
    }
    Ok(Seq::from_vec(list))
}

/// Puts the facts of a symbol at the end of a list, if it is associative and commutative.
fn add_facts<I: Index>(
    alloc: Global,
    f: Sym,
    index: &I,
    list: &mut Vec<AcFacts>,
) -> Result<(), AllocError>
    ensures { OnOk result (AddsFacts (I.live index.now) f list.old.items list.new.items) }
{
    match facts_of(alloc, f, index)? {
        Some(facts) => {
            list.push(facts)?;
            Ok(())
        }
        None => Ok(()),
    }
}

/// The symbols of a list of facts.
fn symbols_in(alloc: Global, list: &[AcFacts]) -> Result<Vec<Sym>, AllocError>
    ensures { IfOk result (λ symbols. symbols.items ≡ symbols_of list.now) }
{
    list.iter().map(|facts| facts.symbol).collect(alloc)
}
