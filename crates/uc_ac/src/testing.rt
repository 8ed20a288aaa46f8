//! The tests of the two ends of a pair.

ghost use Rattle.std.specs.Prelude.{IfOk};
ghost use Rattle.uc_fact.specs.Live.{equations_of};
ghost use Rattle.uc_fact.specs.Ground.{AreOfSignature, IsJoinable};
ghost use Rattle.uc_order.specs.Laws.{HasSym};
ghost use Rattle.uc_ground.specs.Joining.{IsJoined};
ghost use Rattle.uc_ac.specs.Ends.{IsEndsAnswer};

use crate::joining::ac_join;
use std::alloc::{AllocError, Global};
use uc_fact::{Index, Joinable, Reason};
use uc_ground::ground_join;
use uc_order::Order;
use uc_term::Term;

/// Tests whether two terms are joinable. Where they are equal up to brackets and order at the associative and commutative symbols
/// that occur in them, the answer is `Joined` for `Ac`, with the facts of [`ac_join`]. Else it is that of the test for ground
/// joinability.
///
/// What is joined is joinable where the facts are over the order's signature; the other answers say nothing of it.
pub fn join_ends<O: Order, I: Index>(
    alloc: Global,
    s: &Term,
    t: &Term,
    index: &I,
    order: &O,
) -> Result<Joinable, AllocError>
    ensures answer { IfOk result (IsEndsAnswer (O.meaning order.now) (I.live index.now) s.now t.now) }
    // what follows: what is joined is joinable
    ensures joined { IfOk result (λ answer. IsJoined answer → AreOfSignature (HasSym (O.meaning order.now)) (O.meaning order.now).arity (equations_of (I.live index.now)) → IsJoinable (O.meaning order.now).greater (HasSym (O.meaning order.now)) (O.meaning order.now).arity (equations_of (I.live index.now)) s.now t.now) }
{
    match ac_join(alloc, s, t, index, order)? {
        Some(facts) => Ok(Joinable::Joined(Reason::Ac(facts))),
        None => ground_join(alloc, s, t, index, order),
    }
}
