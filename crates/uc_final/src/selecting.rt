//! The pairs that are to be tested.

ghost use Rattle.std.specs.Prelude.{◌≡◌, ◌++◌, ◌<◌, ◌^◌, length, IfOk};
ghost use Rattle.uc_machine.specs.Finals.{axioms_from, origin_if, small_ones};

use std::alloc::{AllocError, Global};
use uc_fact::{Equation, Origin};
use uc_pair::{Formed, Size};

/// Every axiom, in order, and then every overlap that isn't too large.
pub fn origins(
    alloc: Global,
    axioms: &[Equation],
    overlaps: &[Formed],
) -> Result<Vec<Origin>, AllocError>
    requires { length axioms.now < 2 ^ 31 }
    ensures { IfOk result (λ list. list.items ≡ axioms_from 0 axioms.now ++ small_ones overlaps.now) }
{
    let mut list = axiom_origins(alloc, axioms)?;
    let mut small = small_origins(alloc, overlaps)?;
    list.append(&mut small)?;
    Ok(list)
}

/// Every axiom, in order.
fn axiom_origins(alloc: Global, axioms: &[Equation]) -> Result<Vec<Origin>, AllocError>
    requires { length axioms.now < 2 ^ 31 }
    ensures { IfOk result (λ list. list.items ≡ axioms_from 0 axioms.now) }
{
    let mut list = Vec::new(alloc);
    for k in 0..axioms.len() {
        list.push(Origin::Axiom(k as u32))?;
    }
    Ok(list)
}

/// The overlaps that aren't too large.
fn small_origins(alloc: Global, overlaps: &[Formed]) -> Result<Vec<Origin>, AllocError>
    ensures { IfOk result (λ list. list.items ≡ small_ones overlaps.now) }
{
    let mut list = Vec::new(alloc);
    for formed in overlaps {
        add_small(&mut list, *formed)?;
    }
    Ok(list)
}

/// Puts an overlap at the end of the list, unless it is too large.
fn add_small(list: &mut Vec<Origin>, formed: Formed) -> Result<(), AllocError>
    ensures { IfOk result (λ _. list.new.items ≡ list.old.items ++ origin_if formed.size formed.overlap) }
{
    match formed.size {
        Size::Weight(_) | Size::Same => {
            list.push(Origin::Overlap(formed.overlap))?;
            Ok(())
        }
        Size::Large => Ok(()),
    }
}
