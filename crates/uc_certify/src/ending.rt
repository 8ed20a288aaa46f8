//! Why two ends are joined, with the moves under each order of their variables.

ghost use Rattle.std.specs.Prelude.{◌≡◌, map, IfOk};
ghost use Rattle.uc_fact.specs.declared.joinable.Joinable.TheVariants.{Joined};
ghost use Rattle.uc_fact.specs.declared.joinable.Reason.{Reason as AnyReason};
ghost use Rattle.uc_fact.specs.declared.joinable.Reason.TheVariants as reason;
ghost use Rattle.uc_order.specs.VarOrders.{HasOnly};
ghost use Rattle.uc_ac.specs.Ends.{IsEndsAnswer};
ghost use Rattle.uc_ground.specs.Ends.{EndsAgree};
ghost use Rattle.uc_certify.specs.Joining.{triple_of};
ghost use Rattle.uc_certify.specs.Making.{IsMadeCase, AreAllCases, SaysWhy};

use crate::moves::moves_of;
use crate::variables::rising_variables;
use std::alloc::{AllocError, Global};
use uc_ac::join_ends;
use uc_certificate::{AcTriple, Case, End};
use uc_fact::{AcFacts, Index, Joinable, Reason};
use uc_order::{Order, var_orders};
use uc_rewrite::normalise_under;
use uc_term::{Seq, Term, VarOrder};

/// The most steps by which an end is normalised under an order of variables.
const MOST_STEPS: u32 = 4096;

/// What the tests of two ends answer, of ends that they find to be joined.
pub(crate) fn end_of<O: Order, I: Index>(
    alloc: Global,
    s: &Term,
    t: &Term,
    index: &I,
    order: &O,
) -> Result<End, AllocError>
    requires { (why : AnyReason) × IsEndsAnswer (O.meaning order.now) (I.live index.now) s.now t.now (Joined why) }
    ensures { IfOk result (λ end. (why : AnyReason) → IsEndsAnswer (O.meaning order.now) (I.live index.now) s.now t.now (Joined why) → SaysWhy (O.meaning order.now) (I.live index.now) s.now t.now why end) }
{
    match join_ends(alloc, s, t, index, order)? {
        Joinable::Joined(why) => end_by(alloc, s, t, why, index, order),
        Joinable::Apart { .. } => unreachable!(),
        Joinable::TooManyVariables(_) => unreachable!(),
    }
}

/// The end of a join, for this reason.
fn end_by<O: Order, I: Index>(
    alloc: Global,
    s: &Term,
    t: &Term,
    why: Reason,
    index: &I,
    order: &O,
) -> Result<End, AllocError>
    requires { IsEndsAnswer (O.meaning order.now) (I.live index.now) s.now t.now (Joined why) }
    ensures { IfOk result (SaysWhy (O.meaning order.now) (I.live index.now) s.now t.now why) }
{
    match why {
        Reason::Same => Ok(End::Same),
        Reason::Instance(number) => Ok(End::Instance(number)),
        Reason::Orders => Ok(End::Orders(cases_of(alloc, s, t, index, order)?)),
        Reason::Ac(facts) => Ok(End::Ac(triples_of(alloc, facts.as_slice())?)),
    }
}

/// The numbers of the facts of each symbol, in order.
fn triples_of(alloc: Global, facts: &[AcFacts]) -> Result<Seq<AcTriple>, AllocError>
    ensures { IfOk result (λ triples. triples ≡ map triple_of facts.now) }
{
    let mut list = Vec::new(alloc);
    for three in facts {
        list.push(AcTriple {
            assoc: three.assoc,
            comm: three.comm,
            extended: three.extended,
        })?;
    }
    Ok(Seq::from_vec(list))
}

/// A case for each order of the variables of two ends, in the order of `var_orders`.
fn cases_of<O: Order, I: Index>(
    alloc: Global,
    s: &Term,
    t: &Term,
    index: &I,
    order: &O,
) -> Result<Seq<Case>, AllocError>
    requires { IsEndsAnswer (O.meaning order.now) (I.live index.now) s.now t.now (Joined reason.Orders) }
    ensures { IfOk result (AreAllCases (O.meaning order.now) (I.live index.now) s.now t.now) }
{
    let vars = rising_variables(alloc, s, t)?;
    let mut list = Vec::new(alloc);
    for cases in var_orders(alloc, vars.as_slice())? {
        list.push(case_of(alloc, cases, s, t, index, order)?)?;
    }
    Ok(Seq::from_vec(list))
}

/// The case of an order of variables under which two ends come to one term.
fn case_of<O: Order, I: Index>(
    alloc: Global,
    cases: VarOrder,
    s: &Term,
    t: &Term,
    index: &I,
    order: &O,
) -> Result<Case, AllocError>
    requires s_known { HasOnly cases s.now }
    requires t_known { HasOnly cases t.now }
    requires meet { EndsAgree (O.meaning order.now) (I.live index.now) cases s.now t.now }
    ensures { IfOk result (IsMadeCase (O.meaning order.now) (I.live index.now) s.now t.now cases) }
{
    let from_left = normalise_under(alloc, &cases, s, index, order, MOST_STEPS)?;
    let from_right = normalise_under(alloc, &cases, t, index, order, MOST_STEPS)?;
    Ok(Case {
        cases,
        left: moves_of(alloc, &from_left.chain)?,
        right: moves_of(alloc, &from_right.chain)?,
    })
}
