//! Total preorders of variables: by text, of single classes, and whether they have a term's variables.

ghost use Rattle.std.specs.Prelude.{IsTrue, ◌↔◌};
ghost use Rattle.uc_order.specs.VarOrders.{HasOnly};
ghost use Rattle.tests_rewriting.specs.Known.{IsKnown};

use std::alloc::{AllocError, Global};
use uc_order::{VarOrder, class_of};
use uc_term::{Node, Seq, Term};

fn is_known(cases: &VarOrder, n: Node) -> bool
    ensures { IsTrue result ↔ IsKnown cases.now n }
{
    match n {
        Node::Var(x) => class_of(cases, x) < cases.len(),
        Node::App(_, _) => true,
    }
}

/// Whether every variable of the term is in one of the classes.
pub fn has_only(cases: &VarOrder, t: &Term) -> bool
    ensures { IsTrue result → HasOnly cases.now t.now }
{
    let nodes = t.as_nodes();
    for n in nodes {
        if !is_known(cases, *n) {
            return false;
        }
    }
    true
}

/// An order of variables by its classes, with a bar behind each: X, Y and Z are the variables 0 to 2.
pub fn read_classes(alloc: Global, text: &[u8]) -> Result<VarOrder, AllocError> {
    let mut cases = VarOrder::new(alloc);
    let mut class = Seq::new(alloc);
    for letter in text {
        if *letter == b'|' {
            cases.push(class)?;
            class = Seq::new(alloc);
        } else {
            class.push((*letter as u32).saturating_sub(b'X' as u32))?;
        }
    }
    Ok(cases)
}

/// Adds the classes as digits, with a bar behind each.
pub fn add_classes(text: &mut Vec<u8>, cases: &VarOrder) -> Result<(), AllocError> {
    for class in cases.classes() {
        for x in class.as_slice() {
            text.push(b'0' + (*x % 10) as u8)?;
        }
        text.push(b'|')?;
    }
    Ok(())
}

/// The classes of the variables below a bound, each alone.
pub fn single_classes(alloc: Global, bound: u32) -> Result<VarOrder, AllocError> {
    let mut cases = VarOrder::new(alloc);
    for x in 0..bound {
        let mut class = Seq::new(alloc);
        class.push(x)?;
        cases.push(class)?;
    }
    Ok(cases)
}
