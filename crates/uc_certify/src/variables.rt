//! The variables of two terms.

ghost use Rattle.std.specs.Prelude.{◌≡◌, ◌≤◌, ◌+◌, ◌++◌, length, IfOk, OnOk};
ghost use Rattle.uc_term.specs.Variables.{variables};
ghost use Rattle.uc_ground.specs.Joining.{AreVariables};

use std::alloc::{AllocError, Global};
use uc_term::{MAX_NODES, Node, Term};

/// The variables of the two terms, each once, in rising order.
pub(crate) fn rising_variables(alloc: Global, s: &Term, t: &Term) -> Result<Vec<u32>, AllocError>
    ensures are { IfOk result (λ vars. AreVariables s.now t.now vars.items) }
    ensures few { IfOk result (λ vars. length vars.items ≤ MAX_NODES + MAX_NODES) }
{
    let mut vars = Vec::new(alloc);
    add_variables(&mut vars, s)?;
    add_variables(&mut vars, t)?;
    vars.sort_unstable();
    vars.dedup();
    Ok(vars)
}

/// Puts the variables of a term at the end of a list, each as often as it occurs.
fn add_variables(vars: &mut Vec<u32>, term: &Term) -> Result<(), AllocError>
    ensures all { OnOk result (vars.new.items ≡ vars.old.items ++ variables term.now) }
    ensures few { OnOk result (length vars.new.items ≤ length vars.old.items + MAX_NODES) }
{
    let nodes = term.as_nodes();
    for node in nodes {
        match *node {
            Node::Var(x) => vars.push(x)?,
            Node::App(_, _) => {}
        }
    }
    Ok(())
}
