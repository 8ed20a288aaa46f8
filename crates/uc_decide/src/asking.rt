//! Questions about ground terms.

ghost use Rattle.std.specs.Prelude.{List, ◌<◌, ◌^◌, IfOk, length};
ghost use Rattle.uc_term.specs.declared.equation.Equation.{Equation};
ghost use Rattle.uc_fact.specs.Live.{numbered};
ghost use Rattle.uc_fact.specs.Ground.{AreOfSignature};
ghost use Rattle.uc_order.specs.Laws.{HasSym, IsGroundOf};
ghost use Rattle.uc_decide.specs.Deciding.{Decides};
ghost use Rattle.uc_decide.specs.Asking.{IsReply, IsByEnds, HasNormalForms, IsRight};

use crate::Reply;
use std::alloc::{AllocError, Global};
use uc_fact::{Index, Stop, System};
use uc_order::Order;
use uc_rewrite::{Scan, normalise};
use uc_term::Term;

/// Whether two terms have the same normal form by the facts of a system. The left term is normalised with at most `steps`
/// steps, and then the right one with the steps that are left.
///
/// `Spent` comes exactly where `steps` steps were made on the question and a further one is possible, and `Grown` exactly where
/// fewer were made and the next one leads to a term of more than 4,096 nodes. `Equal` and `Different` have the terms to which
/// the two come, from which no step leads on. Of ground terms and facts over the order's signature these are their normal forms
/// by ground steps; where the system decides what follows from some axioms, `Equal` comes only where the equation of the two
/// follows from them, `Different` only where it doesn't, and no term equal to one of the two is less than its normal form.
pub fn ask<O: Order>(
    alloc: Global,
    system: &System,
    order: &O,
    s: &Term,
    t: &Term,
    steps: u32,
) -> Result<Reply, AllocError>
    requires few { length system.now.facts < 2 ^ 31 }
    ensures reply { IfOk result (IsReply (O.meaning order.now) (numbered system.now.facts) steps s.now t.now) }
    // what follows for ground terms over the signature: the reply has their normal forms
    ensures normal_forms { IfOk result (λ reply. IsGroundOf (O.meaning order.now) s.now → IsGroundOf (O.meaning order.now) t.now → AreOfSignature (HasSym (O.meaning order.now)) (O.meaning order.now).arity system.now.facts → HasNormalForms (O.meaning order.now) system.now.facts s.now t.now reply) }
    // and by a system that decides what follows from axioms: what the reply says of them is so
    ensures right { IfOk result (λ reply. (axioms : List Equation) → Decides (O.meaning order.now) system.now.facts axioms → IsGroundOf (O.meaning order.now) s.now → IsGroundOf (O.meaning order.now) t.now → AreOfSignature (HasSym (O.meaning order.now)) (O.meaning order.now).arity system.now.facts → IsRight (O.meaning order.now) axioms s.now t.now reply) }
{
    let index = Scan::new(system.facts.as_slice());
    ask_by(alloc, &index, order, s, t, steps)
}

/// The reply by the facts that live in an index.
fn ask_by<O: Order, I: Index>(
    alloc: Global,
    index: &I,
    order: &O,
    s: &Term,
    t: &Term,
    steps: u32,
) -> Result<Reply, AllocError>
    ensures { IfOk result (IsReply (O.meaning order.now) (I.live index.now) steps s.now t.now) }
{
    let left = normalise(alloc, s, index, order, steps)?;
    match left.stop {
        Stop::Full => {
            let others = steps - left.chain.steps.len() as u32;
            let right = normalise(alloc, t, index, order, others)?;
            match right.stop {
                Stop::Full => Ok(by_ends(left.term, right.term)),
                Stop::Steps => Ok(Reply::Spent(steps)),
                Stop::Size => Ok(Reply::Grown),
            }
        }
        Stop::Steps => Ok(Reply::Spent(steps)),
        Stop::Size => Ok(Reply::Grown),
    }
}

/// The reply by the terms to which the two sides come.
fn by_ends(left: Term, right: Term) -> Reply
    ensures { IsByEnds left right result }
{
    if left.same(&right) {
        Reply::Equal(left)
    } else {
        Reply::Different(left, right)
    }
}
