//! Normalising by the first possible step.

ghost use Rattle.std.specs.Prelude.{◌≡◌, IfOk, OnOk, IsTrue, false};
ghost use Rattle.uc_term.specs.Flat.{tree_of};
ghost use Rattle.uc_fact.specs.declared.fact.Stop.TheVariants.{Full};
ghost use Rattle.uc_fact.specs.Live.{equations_of};
ghost use Rattle.uc_fact.specs.Ordered.{OStep, IsIrreducible};
ghost use Rattle.uc_fact.specs.Chains.{Links, last_term};
ghost use Rattle.uc_order.specs.VarOrders.{HasOnly, represented};
ghost use Rattle.uc_rewrite.specs.Comparing.{VariablesAre};
ghost use Rattle.uc_rewrite.specs.Normalising.{IsNormalOf};
ghost use Rattle.uc_rewrite.specs.Walking.{Walks, AreKept};
ghost use Rattle.uc_rewrite.specs.Ends.{CanStep, IsNext, IsLast, normal_by};

use crate::comparison::{ByOrder, Comparison, UnderCases};
use crate::falls::Rules;
use crate::walk::Walk;
use std::alloc::{AllocError, Global};
use uc_fact::{Chain, Index, Step, Stop};
use uc_order::{Order, represent};
use uc_term::{Seq, Term, VarOrder};

/// What normalising comes to: the term at its end, the chain that leads there, and why it stopped.
#[derive(Debug, Drop)]
pub struct Normal {
    pub term: Term,
    pub chain: Chain,
    pub stop: Stop,
}

impl Normal {
    /// An equal one.
    pub fn copy(&self, alloc: Global) -> Result<Normal, AllocError>
        ensures { IfOk result (λ normal. normal ≡ self.now) }
    {
        Ok(Normal {
            term: self.term.copy(alloc)?,
            chain: self.chain.copy(alloc)?,
            stop: self.stop,
        })
    }
}

/// Normalises a term by the facts that live in an index. Each step is the first possible one: at the first position in
/// postorder, the arguments from left to right and then the term itself; there by the least fact; there from left to right
/// before from right to left. A step is possible where the instance of one side is greater than that of the other side, in
/// which variables that only that side has are the order's least constant, whatever the sizes of the two.
///
/// It stops `Full` where no step is possible, `Steps` where `limit` steps were made and a further one is possible, and `Size`
/// where fewer were made and the next one leads to a term of more than 4,096 nodes. The steps name the facts by their
/// numbers in the index.
pub fn normalise<O: Order, I: Index>(
    alloc: Global,
    term: &Term,
    index: &I,
    order: &O,
    limit: u32,
) -> Result<Normal, AllocError>
    ensures normal { IfOk result (IsNormalOf (O.meaning order.now).greater (O.meaning order.now).least (I.live index.now) limit term.now) }
    // what follows: neighbours in the chain are ordered steps, and with `Full` none leads on
    ensures steps { IfOk result (λ normal. Links (OStep (O.meaning order.now).greater (O.meaning order.now).least (equations_of (I.live index.now))) term.now normal.chain.steps normal.term) }
    ensures full { IfOk result (λ normal. normal.stop ≡ Full → IsIrreducible (O.meaning order.now).greater (O.meaning order.now).least (equations_of (I.live index.now)) normal.term) }
{
    normalise_by(alloc, term, index, &ByOrder { order }, limit)
}

/// Normalises a term as `normalise` does, but under an order of its variables. The term is first replaced by its
/// representative, in which each variable is the first one of its class, and the chain begins there. A step is possible
/// where the one instance is greater than the other under that order of variables.
pub fn normalise_under<O: Order, I: Index>(
    alloc: Global,
    cases: &VarOrder,
    term: &Term,
    index: &I,
    order: &O,
    limit: u32,
) -> Result<Normal, AllocError>
    requires { HasOnly cases.now term.now }
    ensures normal { IfOk result (IsNormalOf ((O.meaning order.now).under cases.now) (O.meaning order.now).least (I.live index.now) limit (represented cases.now term.now)) }
    // what follows: neighbours in the chain are ordered steps under that order of variables, and with `Full` none leads on
    ensures steps { IfOk result (λ normal. Links (OStep ((O.meaning order.now).under cases.now) (O.meaning order.now).least (equations_of (I.live index.now))) (represented cases.now term.now) normal.chain.steps normal.term) }
    ensures full { IfOk result (λ normal. normal.stop ≡ Full → IsIrreducible ((O.meaning order.now).under cases.now) (O.meaning order.now).least (equations_of (I.live index.now)) normal.term) }
{
    let start = represent(alloc, cases, term)?;
    normalise_by(alloc, &start, index, &UnderCases { order, cases }, limit)
}

/// Whether a step from a term is possible by the facts that live in an index. It is asked at each subterm, in postorder, and
/// nothing of the step is made.
pub fn is_reducible<O: Order, I: Index>(
    alloc: Global,
    term: &Term,
    index: &I,
    order: &O,
) -> Result<bool, AllocError>
    ensures yes { IfOk result (λ answer. IsTrue answer → CanStep (O.meaning order.now).greater (O.meaning order.now).least (I.live index.now) term.now) }
    ensures no { IfOk result (λ answer. answer ≡ false → IsIrreducible (O.meaning order.now).greater (O.meaning order.now).least (equations_of (I.live index.now)) term.now) }
{
    let comparison = ByOrder { order };
    let rules = Rules {
        index,
        comparison: &comparison,
    };
    let mut walk = Walk::new(alloc, term.as_nodes(), &rules)?;
    match last_stop(alloc, &mut walk, term, &rules)? {
        Stop::Full => Ok(false),
        Stop::Steps => Ok(true),
        Stop::Size => unreachable!(),
    }
}

/// Normalises a term by a comparison.
fn normalise_by<C: Comparison, I: Index>(
    alloc: Global,
    term: &Term,
    index: &I,
    comparison: &C,
    limit: u32,
) -> Result<Normal, AllocError>
    requires { VariablesAre (C.knows comparison.now) term.now }
    ensures { IfOk result (IsNormalOf (C.greater comparison.now) (C.constant comparison.now) (I.live index.now) limit term.now) }
{
    let rules = Rules { index, comparison };
    let mut walk = Walk::new(alloc, term.as_nodes(), &rules)?;
    let mut steps = Vec::new(alloc);
    for _ in 0..limit {
        match next_step(alloc, &mut walk, last_term(term, steps.as_slice()), &rules)? {
            Next::Made(step) => steps.push(step)?,
            Next::Irreducible => return ended(alloc, term, steps, Stop::Full),
            Next::TooLarge => return ended(alloc, term, steps, Stop::Size),
        }
    }
    let last = last_term(term, steps.as_slice());
    let stop = last_stop(alloc, &mut walk, last, &rules)?;
    ended(alloc, term, steps, stop)
}

/// What comes next: a step, or the end, since no step is possible or the next one leads to a term of more than 4,096 nodes.
#[derive(Drop)]
enum Next {
    Made(Step),
    Irreducible,
    TooLarge,
}

/// The first possible step of a term over which a walk goes.
fn next_step<C: Comparison, I: Index>(
    alloc: Global,
    walk: &mut Walk,
    term: &Term,
    rules: &Rules<C, I>,
) -> Result<Next, AllocError>
    requires known { VariablesAre (C.knows rules.now.comparison.now) term.now }
    requires walks { Walks (C.greater rules.now.comparison.now) (C.constant rules.now.comparison.now) (I.live rules.now.index.now) term.now walk.old.opened.items walk.old.place }
    requires kept { AreKept (C.greater rules.now.comparison.now) (C.constant rules.now.comparison.now) (I.live rules.now.index.now) walk.old.kept.items }
    ensures kept { OnOk result (AreKept (C.greater rules.now.comparison.now) (C.constant rules.now.comparison.now) (I.live rules.now.index.now) walk.new.kept.items) }
    ensures next { IfOk result (IsNext (C.greater rules.now.comparison.now) (C.constant rules.now.comparison.now) (I.live rules.now.index.now) term.now walk.new.opened.items walk.new.place) }
{
    let list = term.as_nodes();
    let Some(redex) = walk.next(alloc, list, rules)? else {
        return Ok(Next::Irreducible);
    };
    match walk.step(alloc, list, rules, redex)? {
        Some(step) => Ok(Next::Made(step)),
        None => Ok(Next::TooLarge),
    }
}

/// Why there is no step where none may be made any more: a further one is possible, or none is.
fn last_stop<C: Comparison, I: Index>(
    alloc: Global,
    walk: &mut Walk,
    term: &Term,
    rules: &Rules<C, I>,
) -> Result<Stop, AllocError>
    requires known { VariablesAre (C.knows rules.now.comparison.now) term.now }
    requires walks { Walks (C.greater rules.now.comparison.now) (C.constant rules.now.comparison.now) (I.live rules.now.index.now) term.now walk.old.opened.items walk.old.place }
    requires kept { AreKept (C.greater rules.now.comparison.now) (C.constant rules.now.comparison.now) (I.live rules.now.index.now) walk.old.kept.items }
    ensures { IfOk result (IsLast (C.greater rules.now.comparison.now) (C.constant rules.now.comparison.now) (I.live rules.now.index.now) term.now) }
{
    let Some(_redex) = walk.next(alloc, term.as_nodes(), rules)? else {
        return Ok(Stop::Full);
    };
    Ok(Stop::Steps)
}

/// The term to which the steps lead.
fn last_term<'a>(start: &'a Term, steps: &'a [Step]) -> &'a Term
    ensures { result.now ≡ last_term start.now steps.now }
{
    match steps.last() {
        Some(step) => &step.to,
        None => start,
    }
}

/// The steps from a term, with the term to which they lead, and why there are no more.
fn ended(alloc: Global, start: &Term, steps: Vec<Step>, stop: Stop) -> Result<Normal, AllocError>
    ensures { IfOk result (λ normal. normal ≡ normal_by start.now steps.items stop) }
{
    let term = last_term(start, steps.as_slice()).copy(alloc)?;
    Ok(Normal {
        term,
        chain: Chain {
            start: start.copy(alloc)?,
            steps: Seq::from_vec(steps),
        },
        stop,
    })
}
