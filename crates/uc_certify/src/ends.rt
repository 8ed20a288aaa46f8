//! Why two ends are joined.

ghost use Rattle.std.specs.Prelude.{◌≡◌, ◌↔◌, IsTrue, IfOk};
ghost use Rattle.uc_fact.specs.Live.{numbered};
ghost use Rattle.uc_order.specs.Members.{Each};
ghost use Rattle.uc_order.specs.VarOrders.{HasOnly};
ghost use Rattle.uc_ground.specs.Joining.{IsInstance};
ghost use Rattle.uc_certificate.specs.Arities.{CaseKeepsArities, EndKeepsArities};
ghost use Rattle.uc_certify.specs.Joining.{IsRightCase, AreRightCases, IsRightEnd};
ghost use Rattle.uc_certify.specs.Testing.{AreBoth, HaveOrders};
ghost use Rattle.uc_certify.specs.Knowing.{IsSetOf};

use crate::ac_ends::are_right_triples;
use crate::comparison::UnderCases;
use crate::moving::{Rules, end_of_moves};
use crate::variables::rising_variables;
use std::alloc::{AllocError, Global};
use uc_certificate::{Case, End};
use uc_fact::Equation;
use uc_order::{Order, represent, var_orders};
use uc_term::{Seq, Term, VarOrder};
use uc_unify::matches_both;

/// The most variables whose orders are listed.
const MOST_VARIABLES: usize = 5;

/// Whether two ends are joined as is said.
pub(crate) fn is_right_end<O: Order>(
    alloc: Global,
    rules: &Rules,
    order: &O,
    s: &Term,
    t: &Term,
    end: &End,
) -> Result<bool, AllocError>
    requires symbols { IsSetOf rules.now.symbols.now.numbers.keys (O.meaning order.now).symbols }
    requires arities { EndKeepsArities (O.meaning order.now) end.now }
    ensures { IfOk result (λ right. IsTrue right ↔ IsRightEnd (O.meaning order.now) rules.now.facts.now s.now t.now end.now) }
{
    match end {
        End::Same => Ok(s.same(t)),
        End::Instance(number) => is_instance(alloc, rules.facts, s, t, *number),
        End::Orders(cases) => are_right_cases(alloc, rules, order, s, t, cases.as_slice()),
        End::Ac(triples) => are_right_triples(alloc, rules.facts, s, t, triples.as_slice()),
    }
}

/// Whether two terms are, either way round, the two sides of one instance of the fact of a number.
fn is_instance(
    alloc: Global,
    facts: &[Equation],
    s: &Term,
    t: &Term,
    number: u32,
) -> Result<bool, AllocError>
    ensures { IfOk result (λ fits. IsTrue fits ↔ IsInstance (numbered facts.now) s.now t.now number) }
{
    let Some(fact) = facts.get(number as usize) else {
        return Ok(false);
    };
    if are_sides(alloc, &fact.left, s, &fact.right, t)? {
        return Ok(true);
    }
    are_sides(alloc, &fact.right, s, &fact.left, t)
}

/// Whether one substitution makes the first side `s` and the second one `t`.
fn are_sides(
    alloc: Global,
    left: &Term,
    s: &Term,
    right: &Term,
    t: &Term,
) -> Result<bool, AllocError>
    ensures { IfOk result (λ fits. IsTrue fits ↔ AreBoth left.now s.now right.now t.now) }
{
    let both = matches_both(
        alloc,
        left.as_nodes(),
        s.as_nodes(),
        right.as_nodes(),
        t.as_nodes(),
    )?;
    Ok(both.is_some())
}

/// Whether the cases are all orders of the variables of two terms, in order, and each is right.
fn are_right_cases<O: Order>(
    alloc: Global,
    rules: &Rules,
    order: &O,
    s: &Term,
    t: &Term,
    cases: &[Case],
) -> Result<bool, AllocError>
    requires symbols { IsSetOf rules.now.symbols.now.numbers.keys (O.meaning order.now).symbols }
    requires arities { Each (CaseKeepsArities (O.meaning order.now)) cases.now }
    ensures { IfOk result (λ right. IsTrue right ↔ AreRightCases (O.meaning order.now) rules.now.facts.now s.now t.now cases.now) }
{
    let vars = rising_variables(alloc, s, t)?;
    if vars.len() > MOST_VARIABLES {
        return Ok(false);
    }
    let orders = var_orders(alloc, vars.as_slice())?;
    if !have_orders(cases, orders.as_slice()) {
        return Ok(false);
    }
    for case in cases {
        if !is_right_case(alloc, rules, order, s, t, case)? {
            return Ok(false);
        }
    }
    Ok(true)
}

/// Whether the cases are these orders of variables.
fn have_orders(cases: &[Case], orders: &[VarOrder]) -> bool
    ensures { IsTrue result ↔ HaveOrders cases.now orders.now }
{
    if cases.len() != orders.len() {
        return false;
    }
    for k in 0..cases.len() {
        if !are_same_classes(cases[k].cases.classes(), orders[k].classes()) {
            return false;
        }
    }
    true
}

/// Whether two lists of classes are equal.
fn are_same_classes(a: &[Seq<u32>], b: &[Seq<u32>]) -> bool
    ensures { IsTrue result ↔ (a.now ≡ b.now) }
{
    if a.len() != b.len() {
        return false;
    }
    for k in 0..a.len() {
        let same = a[k].as_slice() == b[k].as_slice();
        if !same {
            return false;
        }
    }
    true
}

/// Whether moves under an order of variables lead from the representatives of two terms to one term.
fn is_right_case<O: Order>(
    alloc: Global,
    rules: &Rules,
    order: &O,
    s: &Term,
    t: &Term,
    case: &Case,
) -> Result<bool, AllocError>
    requires symbols { IsSetOf rules.now.symbols.now.numbers.keys (O.meaning order.now).symbols }
    requires arities { CaseKeepsArities (O.meaning order.now) case.now }
    requires s_known { HasOnly case.now.cases s.now }
    requires t_known { HasOnly case.now.cases t.now }
    ensures { IfOk result (λ right. IsTrue right ↔ IsRightCase (O.meaning order.now) rules.now.facts.now s.now t.now case.now) }
{
    let cases = &case.cases;
    let comparison = UnderCases { order, cases };
    let left = represent(alloc, cases, s)?;
    let right = represent(alloc, cases, t)?;
    let from_left = end_of_moves(alloc, rules, &comparison, &left, case.left.as_slice())?;
    let Some(left_end) = from_left else {
        return Ok(false);
    };
    let from_right = end_of_moves(alloc, rules, &comparison, &right, case.right.as_slice())?;
    let Some(right_end) = from_right else {
        return Ok(false);
    };
    Ok(left_end.same(right_end))
}
