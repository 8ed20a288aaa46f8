//! The test for ground joinability.

ghost use Rattle.std.specs.Prelude.{◌≡◌, IfOk, MatchOption};
ghost use Rattle.uc_fact.specs.Live.{equations_of};
ghost use Rattle.uc_fact.specs.Ground.{AreOfSignature, IsJoinable};
ghost use Rattle.uc_order.specs.VarOrders.{HasOnly, orders_of};
ghost use Rattle.uc_order.specs.Laws.{HasSym};
ghost use Rattle.uc_ground.specs.Orders.{first_of, others_of};
ghost use Rattle.uc_ground.specs.Joining.{AreVariables, IsLeastInstance, IsNoInstance, IsTriedUnder, IsAnswer, IsJoined};
ghost use Rattle.uc_ground.specs.Ends.{EndsAgree, EndsDiffer};

use crate::instance::least_instance;
use crate::variables::rising_variables;
use std::alloc::{AllocError, Global};
use uc_fact::{Index, Joinable, Reason};
use uc_order::{Order, var_orders};
use uc_rewrite::normalise_under;
use uc_term::{Seq, Term, VarOrder};

/// The most variables whose orders are tried.
const MOST_VARIABLES: usize = 5;

/// The most steps by which a term is normalised under an order of variables.
const MOST_STEPS: u32 = 4096;

/// Tests whether each ground instance of two terms is joined by ground steps of the facts that live in an index. The first of
/// these that holds is the answer: `Joined` for `Same`, where they are equal; `Joined` for `Instance`, where they are, either
/// way round, the two sides of one instance of a fact, the least such; `TooManyVariables`, where they have more than 5
/// variables, with their number. Else both are normalised with at most 4,096 steps under each order of their variables, in the
/// order of `var_orders`: `Joined` for `Orders`, where the ends agree under each; `Apart` with the first order under which they
/// differ, and the two ends.
///
/// What is joined is joinable where the facts are over the order's signature; the other answers say nothing of it.
pub fn ground_join<O: Order, I: Index>(
    alloc: Global,
    s: &Term,
    t: &Term,
    index: &I,
    order: &O,
) -> Result<Joinable, AllocError>
    ensures answer { IfOk result (IsAnswer (O.meaning order.now) (I.live index.now) s.now t.now) }
    // what follows: what is joined is joinable
    ensures joined { IfOk result (λ answer. IsJoined answer → AreOfSignature (HasSym (O.meaning order.now)) (O.meaning order.now).arity (equations_of (I.live index.now)) → IsJoinable (O.meaning order.now).greater (HasSym (O.meaning order.now)) (O.meaning order.now).arity (equations_of (I.live index.now)) s.now t.now) }
{
    if s.same(t) {
        return Ok(Joinable::Joined(Reason::Same));
    }
    if let Some(fact) = least_instance(alloc, s, t, index)? {
        return Ok(Joinable::Joined(Reason::Instance(fact)));
    }
    let vars = rising_variables(alloc, s, t)?;
    if vars.len() > MOST_VARIABLES {
        return Ok(Joinable::TooManyVariables(vars.len() as u32));
    }
    join_under_orders(alloc, s, t, vars.as_slice(), index, order)
}

/// Tries each order of the variables of two terms, the first one before the others are listed: terms that differ under it need
/// no list.
fn join_under_orders<O: Order, I: Index>(
    alloc: Global,
    s: &Term,
    t: &Term,
    vars: &[u32],
    index: &I,
    order: &O,
) -> Result<Joinable, AllocError>
    requires { AreVariables s.now t.now vars.now }
    ensures { IfOk result (IsTriedUnder (O.meaning order.now) (I.live index.now) s.now t.now (orders_of vars.now)) }
{
    let first = first_order(alloc, vars)?;
    match different_ends(alloc, &first, s, t, index, order)? {
        Some((left, right)) => Ok(Joinable::Apart {
            cases: first,
            left,
            right,
        }),
        None => join_under_others(alloc, s, t, vars, index, order),
    }
}

/// Tries the orders of the variables of two terms that come after the first one, under which their ends agree.
fn join_under_others<O: Order, I: Index>(
    alloc: Global,
    s: &Term,
    t: &Term,
    vars: &[u32],
    index: &I,
    order: &O,
) -> Result<Joinable, AllocError>
    requires { AreVariables s.now t.now vars.now }
    ensures { IfOk result (IsTriedUnder (O.meaning order.now) (I.live index.now) s.now t.now (others_of vars.now)) }
{
    let mut orders = var_orders(alloc, vars)?;
    let _ = orders.remove(0);
    for cases in orders {
        if let Some((left, right)) = different_ends(alloc, &cases, s, t, index, order)? {
            return Ok(Joinable::Apart { cases, left, right });
        }
    }
    Ok(Joinable::Joined(Reason::Orders))
}

/// The first order of some variables: each stands alone, the last one first.
fn first_order(alloc: Global, vars: &[u32]) -> Result<VarOrder, AllocError>
    ensures { IfOk result (λ first. first ≡ first_of vars.now) }
{
    let mut classes = Vec::new(alloc);
    for var in vars {
        let mut class = Vec::new(alloc);
        class.push(*var)?;
        classes.insert(0, Seq::from_vec(class))?;
    }
    Ok(VarOrder::from_classes(Seq::from_vec(classes)))
}

/// The ends of two terms under an order of their variables. None exactly where they agree.
fn different_ends<O: Order, I: Index>(
    alloc: Global,
    cases: &VarOrder,
    s: &Term,
    t: &Term,
    index: &I,
    order: &O,
) -> Result<Option<(Term, Term)>, AllocError>
    requires s_known { HasOnly cases.now s.now }
    requires t_known { HasOnly cases.now t.now }
    ensures { IfOk result (λ ends. MatchOption ends (EndsAgree (O.meaning order.now) (I.live index.now) cases.now s.now t.now) (λ ends. EndsDiffer (O.meaning order.now) (I.live index.now) cases.now s.now t.now ends.0 ends.1)) }
{
    let left = normalise_under(alloc, cases, s, index, order, MOST_STEPS)?.term;
    let right = normalise_under(alloc, cases, t, index, order, MOST_STEPS)?.term;
    if left.same(&right) {
        Ok(None)
    } else {
        Ok(Some((left, right)))
    }
}
