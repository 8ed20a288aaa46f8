//! The list of all total preorders of some variables.

ghost use Rattle.std.specs.Prelude.{◌≡◌, ◌≤◌, ◌<◌, ◌++◌, ◌∷◌, [], length, IfOk};
ghost use Rattle.uc_order.specs.VarOrders.{placed, orders_of};
ghost use Rattle.uc_order.specs.Places.{alone_at, joined_at};

use std::alloc::{AllocError, Global};
use uc_term::{Seq, VarOrder};

/// Each total preorder of the variables, once. The list goes by the variables in turn: a further variable stands alone
/// before the first class, at its end, alone between the first two classes, and so on up to alone after the last. There
/// are 1, 3, 13, 75 and 541 for 1 to 5 variables, and one for none, so have few variables.
pub fn var_orders(alloc: Global, vars: &[u32]) -> Result<Vec<VarOrder>, AllocError>
    ensures { IfOk result (λ all. all.items ≡ orders_of vars.now) }
{
    let mut orders = Vec::new(alloc);
    orders.push(VarOrder::new(alloc))?;
    for v in vars {
        let mut grown = Vec::new(alloc);
        for o in &orders {
            place(alloc, *v, o.classes(), &mut grown)?;
        }
        orders = grown;
    }
    Ok(orders)
}

// All orders that v makes of the order.
fn place(
    alloc: Global,
    v: u32,
    order: &[Seq<u32>],
    all: &mut Vec<VarOrder>,
) -> Result<(), AllocError>
    ensures { IfOk result (λ _. all.new.items ≡ all.old.items ++ placed v order.now) }
{
    for i in 0..order.len() {
        all.push(alone(alloc, order, i, v)?)?;
        all.push(joined(alloc, order, i, v)?)?;
    }
    all.push(alone(alloc, order, order.len(), v)?)?;
    Ok(())
}

// The order with v alone before the class of this number, or after all.
fn alone(alloc: Global, order: &[Seq<u32>], i: usize, v: u32) -> Result<VarOrder, AllocError>
    requires { i ≤ length order.now }
    ensures { IfOk result (λ o. o ≡ alone_at order.now i v) }
{
    let mut classes = Vec::new(alloc);
    copy_classes(alloc, &order[..i], &mut classes)?;
    classes.push(with(alloc, &[], v)?)?;
    copy_classes(alloc, &order[i..], &mut classes)?;
    Ok(VarOrder::from_classes(Seq::from_vec(classes)))
}

// The order with v at the end of the class of this number.
fn joined(alloc: Global, order: &[Seq<u32>], i: usize, v: u32) -> Result<VarOrder, AllocError>
    requires { i < length order.now }
    ensures { IfOk result (λ o. o ≡ joined_at order.now i v) }
{
    let mut classes = Vec::new(alloc);
    copy_classes(alloc, &order[..i], &mut classes)?;
    let class = &order[i];
    classes.push(with(alloc, class.as_slice(), v)?)?;
    copy_classes(alloc, &order[i + 1..], &mut classes)?;
    Ok(VarOrder::from_classes(Seq::from_vec(classes)))
}

// The class with v at its end.
fn with(alloc: Global, class: &[u32], v: u32) -> Result<Seq<u32>, AllocError>
    ensures { IfOk result (λ c. c ≡ class.now ++ v ∷ []) }
{
    let mut vars = Vec::new(alloc);
    vars.extend_from_slice(class)?;
    vars.push(v)?;
    Ok(Seq::from_vec(vars))
}

fn copy_class(alloc: Global, class: &[u32]) -> Result<Seq<u32>, AllocError>
    ensures { IfOk result (λ c. c ≡ class.now) }
{
    let mut vars = Vec::new(alloc);
    vars.extend_from_slice(class)?;
    Ok(Seq::from_vec(vars))
}

fn copy_classes(alloc: Global, from: &[Seq<u32>], to: &mut Vec<Seq<u32>>) -> Result<(), AllocError>
    ensures { IfOk result (λ _. to.new.items ≡ to.old.items ++ from.now) }
{
    for c in from {
        to.push(copy_class(alloc, c.as_slice())?)?;
    }
    Ok(())
}
