//! Replaying chains: whether each step replaces equals by equals.

ghost use Rattle.std.specs.Prelude.{◌≡◌, ◌↔◌, IsTrue, IfOk, IfSome, MatchOption, Some, None};
ghost use Rattle.uc_term.specs.Conversion.{Conv};
ghost use Rattle.uc_fact.specs.Chains.{last_term};
ghost use Rattle.uc_rewrite.specs.Replay.{equations, named, IsReplacement, AreReplacements, Replays, ends};

use std::alloc::{AllocError, Global};
use uc_fact::{By, Chain, Equation, Fact, Step};
use uc_term::Term;
use uc_unify::replaces_at;

/// The two ends of a chain. None exactly where one of its steps names an equation that isn't there, or isn't a replacement of
/// equals by it: the named way, at the named place, and of nothing else (Birkhoff's replacement of equals). The numbers are
/// places in the two lists.
pub fn replay(
    alloc: Global,
    chain: &Chain,
    axioms: &[Equation],
    facts: &[Fact],
) -> Result<Option<(Term, Term)>, AllocError>
    ensures exact { IfOk result (λ found. MatchOption found (Replays axioms.now facts.now chain.now → ⊥) (λ pair. Replays axioms.now facts.now chain.now × (pair ≡ ends chain.now))) }
    // what follows from it
    ensures conversion { IfOk result (λ found. IfSome found (λ pair. Conv (equations axioms.now facts.now) pair.0 pair.1)) }
{
    let steps = chain.steps.as_slice();
    match replayed(alloc, &chain.start, steps, axioms, facts)? {
        None => Ok(None),
        Some(end) => Ok(Some((chain.start.copy(alloc)?, end.copy(alloc)?))),
    }
}

/// The last term of a chain. None exactly where one of the steps is no replacement of the term before it.
fn replayed<'a>(
    alloc: Global,
    start: &'a Term,
    steps: &'a [Step],
    axioms: &[Equation],
    facts: &[Fact],
) -> Result<Option<&'a Term>, AllocError>
    ensures { IfOk result (λ found. MatchOption found (AreReplacements axioms.now facts.now start.now steps.now → ⊥) (λ end. AreReplacements axioms.now facts.now start.now steps.now × (end.now ≡ last_term start.now steps.now))) }
{
    let mut before = start;
    for step in steps {
        if !is_replacement(alloc, axioms, facts, before, step)? {
            return Ok(None);
        }
        before = &step.to;
    }
    Ok(Some(before))
}

/// Whether the step replaces a subterm of the term before by the equation that it names.
fn is_replacement(
    alloc: Global,
    axioms: &[Equation],
    facts: &[Fact],
    before: &Term,
    step: &Step,
) -> Result<bool, AllocError>
    ensures { IfOk result (λ fits. IsTrue fits ↔ IsReplacement axioms.now facts.now before.now step.now) }
{
    match sides(axioms, facts, step.by) {
        None => Ok(false),
        Some((left, right)) => {
            if step.left_to_right {
                replaces_at(alloc, left, right, before, step.position, &step.to)
            } else {
                replaces_at(alloc, right, left, before, step.position, &step.to)
            }
        }
    }
}

/// The two sides of the equation that is named. None exactly where it isn't there.
fn sides<'a>(axioms: &'a [Equation], facts: &'a [Fact], by: By) -> Option<(&'a Term, &'a Term)>
    ensures { MatchOption result (named axioms.now facts.now by ≡ None) (λ pair. named axioms.now facts.now by ≡ Some (record { left = pair.0.now; right = pair.1.now })) }
{
    match by {
        By::Axiom(number) => match axioms.get(number as usize) {
            Some(axiom) => Some((&axiom.left, &axiom.right)),
            None => None,
        },
        By::Fact(number) => match facts.get(number as usize) {
            Some(fact) => Some((&fact.left, &fact.right)),
            None => None,
        },
    }
}
