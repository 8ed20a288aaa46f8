//! Rows of terms with the verdicts of an order.

use crate::cases::{has_only, read_classes};
use crate::terms::{pop, push};
use std::alloc::Global;
use uc_order::{Cmp, Order, VarOrder};
use uc_term::{Term, TermFault};

/// The verdict of a letter.
pub fn verdict(letter: u8) -> Option<Cmp> {
    match letter {
        b'>' => Some(Cmp::Greater),
        b'<' => Some(Cmp::Less),
        b'=' => Some(Cmp::Equal),
        b'?' => Some(Cmp::Unknown),
        _ => None,
    }
}

fn turned(verdict: Cmp) -> Cmp {
    match verdict {
        Cmp::Greater => Cmp::Less,
        Cmp::Less => Cmp::Greater,
        same => same,
    }
}

/// Whether the two terms compare so, and so the other way round.
pub fn compare_so<O: Order>(order: &O, s: &Term, t: &Term, want: Cmp) -> bool {
    order.compare(s.as_nodes(), t.as_nodes()) == want
        && order.compare(t.as_nodes(), s.as_nodes()) == turned(want)
}

// Whether the two terms on the stack compare so.
fn holds_once<O: Order>(
    alloc: Global,
    order: &O,
    stack: &mut Vec<Term>,
    want: Cmp,
) -> Result<bool, TermFault> {
    let t = pop(alloc, stack)?;
    let s = pop(alloc, stack)?;
    Ok(compare_so(order, &s, &t, want))
}

/// Whether each verdict is that of the two terms before it, which the letters spell in postfix order.
pub fn holds<O: Order>(alloc: Global, order: &O, rows: &[u8]) -> Result<bool, TermFault> {
    let mut stack: Vec<Term> = Vec::new(alloc);
    for letter in rows {
        if let Some(want) = verdict(*letter) {
            if !holds_once(alloc, order, &mut stack, want)? {
                return Ok(false);
            }
        } else {
            push(alloc, *letter, &mut stack)?;
        }
    }
    Ok(true)
}

/// How the terms compare under an order of their variables, if it has them all.
pub fn compared_under<O: Order>(order: &O, cases: &VarOrder, s: &Term, t: &Term) -> Option<Cmp> {
    if !has_only(cases, s) || !has_only(cases, t) {
        return None;
    }
    Some(order.compare_under(cases, s.as_nodes(), t.as_nodes()))
}

fn holds_once_under<O: Order>(
    alloc: Global,
    order: &O,
    cases: &VarOrder,
    stack: &mut Vec<Term>,
    want: Cmp,
) -> Result<bool, TermFault> {
    let t = pop(alloc, stack)?;
    let s = pop(alloc, stack)?;
    Ok(compared_under(order, cases, &s, &t) == Some(want))
}

/// The same under an order of variables, by its classes.
pub fn holds_under<O: Order>(
    alloc: Global,
    order: &O,
    classes: &[u8],
    rows: &[u8],
) -> Result<bool, TermFault> {
    let cases = read_classes(alloc, classes)?;
    hold_under(alloc, order, &cases, rows)
}

fn hold_under<O: Order>(
    alloc: Global,
    order: &O,
    cases: &VarOrder,
    rows: &[u8],
) -> Result<bool, TermFault> {
    let mut stack: Vec<Term> = Vec::new(alloc);
    for letter in rows {
        if let Some(want) = verdict(*letter) {
            if !holds_once_under(alloc, order, cases, &mut stack, want)? {
                return Ok(false);
            }
        } else {
            push(alloc, *letter, &mut stack)?;
        }
    }
    Ok(true)
}
