//! Variables renumbered by their places in a list of names.

ghost use Rattle.std.specs.Prelude.{◌≡◌, ◌+◌, ◌≤◌, ◌^◌, ◌++◌, ℕ, List, length, IfOk};
ghost use Rattle.uc_term.specs.Variables.{variables, firsts_after, renumbered_by};
ghost use Rattle.uc_fact.specs.Chains.{variables_of_chain, renumbered_chain, renumbered_step};
ghost use Rattle.uc_pair.specs.Numbering.{IsNameAt, IsNumberedNode};

use std::alloc::{AllocError, Global};
use uc_fact::{Chain, Step};
use uc_term::{Node, Seq, Term};

/// The chain with each variable replaced by its place among the names. Its new variables go behind the names, by first
/// occurrence.
pub fn number_chain(alloc: Global, chain: &Chain, names: &mut Vec<u32>) -> Result<Chain, AllocError>
    requires few { length names.old.items ≤ 8192 }
    requires short { length chain.now.steps ≤ 16384 }
    ensures names { IfOk result (λ _. names.new.items ≡ names.old.items ++ firsts_after names.old.items (variables_of_chain chain.now)) }
    ensures numbered { IfOk result (λ c. c ≡ renumbered_chain names.new.items chain.now) }
{
    let start = number(alloc, &chain.start, names)?;
    let mut steps = Vec::new(alloc);
    let given = chain.steps.as_slice();
    for step in given {
        steps.push(number_step(alloc, step, names)?)?;
    }
    Ok(Chain {
        start,
        steps: Seq::from_vec(steps),
    })
}

/// The step with the variables of its term renumbered so.
fn number_step(alloc: Global, step: &Step, names: &mut Vec<u32>) -> Result<Step, AllocError>
    requires few { length names.old.items ≤ 2 ^ 27 }
    ensures names { IfOk result (λ _. names.new.items ≡ names.old.items ++ firsts_after names.old.items (variables step.now.to)) }
    ensures length { IfOk result (λ _. length names.new.items ≤ length names.old.items + 4096) }
    // more names behind change nothing
    ensures numbered { IfOk result (λ s. (rest : List ℕ) → s ≡ renumbered_step (names.new.items ++ rest) step.now) }
{
    Ok(Step {
        by: step.by,
        left_to_right: step.left_to_right,
        position: step.position,
        to: number(alloc, &step.to, names)?,
    })
}

/// The term with each variable replaced by its place among the names. Its new variables go behind the names, by first
/// occurrence.
pub fn number(alloc: Global, term: &Term, names: &mut Vec<u32>) -> Result<Term, AllocError>
    requires few { length names.old.items ≤ 2 ^ 27 }
    ensures names { IfOk result (λ _. names.new.items ≡ names.old.items ++ firsts_after names.old.items (variables term.now)) }
    ensures length { IfOk result (λ _. length names.new.items ≤ length names.old.items + 4096) }
    // more names behind change nothing
    ensures numbered { IfOk result (λ t. (rest : List ℕ) → t ≡ renumbered_by (names.new.items ++ rest) term.now) }
{
    let mut list = Vec::new(alloc);
    let nodes = term.as_nodes();
    for node in nodes {
        list.push(number_node(*node, names)?)?;
    }
    Ok(Term::from_nodes(list))
}

/// The node with its variable renumbered so.
fn number_node(node: Node, names: &mut Vec<u32>) -> Result<Node, AllocError>
    requires few { length names.old.items ≤ 2 ^ 28 }
    ensures { IfOk result (IsNumberedNode 0 node names.old.items names.new.items) }
{
    match node {
        Node::Var(x) => Ok(Node::Var(name_place(names, x)?)),
        Node::App(f, n) => Ok(Node::App(f, n)),
    }
}

/// The place of a name, which goes behind the others where it is new.
fn name_place(names: &mut Vec<u32>, x: u32) -> Result<u32, AllocError>
    requires few { length names.old.items ≤ 2 ^ 28 }
    ensures { IfOk result (IsNameAt x names.old.items names.new.items) }
{
    for place in 0..names.len() {
        if names[place] == x {
            return Ok(place as u32);
        }
    }
    let place = names.len() as u32;
    names.push(x)?;
    Ok(place)
}
