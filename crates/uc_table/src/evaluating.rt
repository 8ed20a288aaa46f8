//! The values of terms in a table.

ghost use Rattle.std.specs.Prelude.{◌≡◌, ◌<◌, ◌≤◌, ◌^◌, length, drop, IfOk};
ghost use Rattle.uc_term.specs.Tree.{nodes};
ghost use Rattle.uc_term.specs.Gathering.{HasAll};
ghost use Rattle.uc_table.specs.Algebras.{operation, value, given};
ghost use Rattle.uc_table.specs.Tables.{AreValues};
ghost use Rattle.uc_table.specs.Evaluating.{IsSized, IsNumbered, IsReadyFor, IsReady, stepped, AreNumbers};

use crate::Table;
use crate::places::place_of;
use std::alloc::{AllocError, Global};
use uc_term::{Node, Sym, Symbols, Term};

/// For each symbol of the table of symbols the number of the first of these that it is; 0 for another.
pub(crate) fn numbers_of(
    alloc: Global,
    among: &[Sym],
    symbols: &Symbols,
) -> Result<Vec<u32>, AllocError>
    requires has { HasAll symbols.now among.now }
    requires few { length among.now < 2 ^ 32 }
    ensures { IfOk result (λ numbers. AreNumbers among.now numbers.items × (length numbers.items ≡ length symbols.now)) }
{
    let mut numbers = vec![in alloc; 0; symbols.len()]?;
    let mut at = among.len();
    while at > 0 {
        at -= 1;
        numbers[among[at].0 as usize] = at as u32;
    }
    Ok(numbers)
}

/// The value of a symbol for a list of arguments.
#[inline]
fn operation(table: &Table, numbers: &[u32], f: Sym, args: &[u32]) -> u32
    requires sized { IsSized table.now }
    requires numbered { IsNumbered table.now numbers.now f (length args.now) }
    requires values { AreValues table.now.size args.now }
    ensures { result ≡ operation table.now f args.now }
{
    let number = numbers[f.0 as usize] as usize;
    let cells = table.cells.as_slice()[number].as_slice();
    cells[place_of(table.size, args)]
}

/// Replaces the values of a node's arguments, which stand on the stack from its top on, by the value of the node. The stack grows
/// towards its front.
#[inline]
fn step(
    table: &Table,
    numbers: &[u32],
    values: &[u32],
    node: Node,
    stack: &mut [u32],
    top: usize,
) -> usize
    requires sized { IsSized table.now }
    requires within { top ≤ length stack.old }
    requires room { 1 ≤ top }
    requires on_stack { AreValues table.now.size (drop top stack.old) }
    requires ready { IsReadyFor table.now numbers.now (length values.now) node (drop top stack.old) }
    ensures within { result ≤ length stack.new }
    ensures stack { drop result stack.new ≡ stepped (operation table.now) (given values.now) node (drop top stack.old) }
    ensures long { length stack.new ≡ length stack.old }
{
    match node {
        Node::Var(x) => {
            stack[top - 1] = values[x as usize];
            top - 1
        }
        Node::App(f, count) => {
            let end = top + count as usize;
            let value = operation(table, numbers, f, &stack[top..end]);
            stack[end - 1] = value;
            end - 1
        }
    }
}

/// The value of a term where each variable has the value at its number. The stack has room for as many values as the term has
/// nodes. The time is linear in the nodes.
pub(crate) fn value_of(
    table: &Table,
    numbers: &[u32],
    values: &[u32],
    term: &Term,
    stack: &mut [u32],
) -> u32
    requires sized { IsSized table.now }
    requires values { AreValues table.now.size values.now }
    requires ready { IsReady table.now numbers.now (length values.now) term.now }
    requires room { nodes term.now ≤ length stack.old }
    ensures value { result ≡ value table.now (given values.now) term.now }
    ensures long { length stack.new ≡ length stack.old }
{
    let list = term.as_nodes();
    let mut top = stack.len();
    let mut at = list.len();
    while at > 0 {
        at -= 1;
        top = step(table, numbers, values, list[at], stack, top);
    }
    stack[top]
}
