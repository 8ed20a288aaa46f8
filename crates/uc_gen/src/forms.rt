//! How many normal forms constants have.

ghost use Rattle.std.specs.Prelude.{◌≡◌, ◌<◌, ◌≤◌, ◌^◌, length, IsTrue, false, IfOk};
ghost use Rattle.uc_order.specs.Laws.{HasSym};
ghost use Rattle.uc_fact.specs.Live.{equations_of};
ghost use Rattle.uc_fact.specs.Ground.{AreOfSignature};
ghost use Rattle.uc_fact.specs.Ordered.{IsIrreducible};
ghost use Rattle.uc_rewrite.specs.Ends.{CanStep};
ghost use Rattle.uc_gen.specs.Counting.{HasForms, AreLowest, constant_term, constant_terms};

use crate::axiom::term_of;
use std::alloc::{AllocError, Global};
use uc_fact::{Index, System};
use uc_order::Order;
use uc_rewrite::{Scan, is_reducible};
use uc_term::Sym;

/// Returns how many different normal forms these constants have by a system. Below a constant there are constants alone, so it counts
/// those that no step leads on from.
pub fn count_forms<O: Order>(
    alloc: Global,
    system: &System,
    order: &O,
    constants: &[Sym],
) -> Result<u32, AllocError>
    requires few_facts { length system.now.facts < 2 ^ 31 }
    requires over { AreOfSignature (HasSym (O.meaning order.now)) (O.meaning order.now).arity system.now.facts }
    requires lowest { AreLowest (O.meaning order.now) constants.now }
    requires few { length constants.now < 2 ^ 31 }
    ensures forms { IfOk result (HasForms (O.meaning order.now) system.now.facts (constant_terms constants.now)) }
{
    let index = Scan::new(system.facts.as_slice());
    let mut count = 0;
    for k in 0..constants.len() {
        if is_normal(alloc, &index, order, constants[k])? {
            count += 1;
        }
    }
    Ok(count)
}

/// Returns whether no step leads on from a constant.
fn is_normal<O: Order, I: Index>(
    alloc: Global,
    index: &I,
    order: &O,
    constant: Sym,
) -> Result<bool, AllocError>
    ensures yes { IfOk result (λ normal. IsTrue normal → IsIrreducible (O.meaning order.now).greater (O.meaning order.now).least (equations_of (I.live index.now)) (constant_term constant)) }
    ensures no { IfOk result (λ normal. normal ≡ false → CanStep (O.meaning order.now).greater (O.meaning order.now).least (I.live index.now) (constant_term constant)) }
{
    let term = term_of(alloc, constant, &[])?;
    Ok(!is_reducible(alloc, &term, index, order)?)
}
