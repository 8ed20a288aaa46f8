//! Whether a table is a model of a problem.

ghost use Rattle.std.specs.Prelude.{◌≡◌, ◌≤◌, ◌^◌, max, length, true, false, IfOk, MatchOption, MatchBool, IsTrue, ◌↔◌};
ghost use Rattle.uc_term.specs.declared.equation.Equation.{Equation};
ghost use Rattle.uc_term.specs.Tree.{nodes};
ghost use Rattle.uc_term.specs.Conversion.{SomeFollows};
ghost use Rattle.uc_clause.specs.declared.clause.Sourced.{Sourced as AnySourced};
ghost use Rattle.uc_check.specs.Clauses.{equation_of, axioms_of, goals_of};
ghost use Rattle.uc_problem.specs.Holds.{Agrees, numbers_of};
ghost use Rattle.uc_table.specs.declared.answers.Tabled.TheVariants.{Model};
ghost use Rattle.uc_table.specs.Algebras.{given};
ghost use Rattle.uc_table.specs.Tables.{AreValues, IsTableOf, MOST_ASSIGNMENTS};
ghost use Rattle.uc_table.specs.Models.{Agree};
ghost use Rattle.uc_table.specs.Checks.{Checks, HasTooMany, HasFewEnough, AreFewEnough, IsFirstAt, assignment_count, variables_in, variable_count};
ghost use Rattle.uc_table.specs.Evaluating.{IsSized, IsReady};
ghost use Rattle.uc_table.specs.Against.{Keeps, KeepAll, equations_of, IsAgainst, IsReadyClause, AreReadyClauses, node_variables};

use crate::evaluating::{numbers_of, value_of};
use crate::places::{lists_of, write_place};
use crate::{Table, Tabled};
use std::alloc::{AllocError, Global};
use uc_clause::{Clause, Sourced};
use uc_problem::Problem;
use uc_term::{Node, Seq, Symbols, Term};

/// What a table of a problem's signature is to the problem. It comes first to the first clause that has more than 16,777,216
/// assignments, then to the first axiom that fails, then to the first goal that meets, the latter two with the first assignment;
/// in the order of the assignments variable 0 changes slowest. Where none of them is there, the table is a model, and no goal
/// follows from the axioms.
pub fn check_table(
    alloc: Global,
    problem: &Problem,
    table: &Table,
    symbols: &Symbols,
) -> Result<Tabled, AllocError>
    requires agrees { Agrees symbols.now problem.now }
    requires table { IsTableOf symbols.now problem.now.signature.symbols table.now }
    ensures checks { IfOk result (Checks table.now problem.now.clauses) }
    ensures refutes { IfOk result (λ said. said ≡ Model → SomeFollows (axioms_of problem.now.clauses) (goals_of problem.now.clauses) → ⊥) }
{
    let clauses = problem.clauses.as_slice();
    see_few(clauses, problem.axioms.as_slice(), problem.goals.as_slice());
    if let Some(number) = first_with_too_many(clauses, table.size) {
        return Ok(Tabled::Assignments(number));
    }
    let numbers = numbers_of(alloc, table.symbols.as_slice(), symbols)?;
    let numbers = numbers.as_slice();
    if let Some((number, values)) = first_against(alloc, table, numbers, clauses, true)? {
        return Ok(Tabled::AxiomFails(number, values));
    }
    if let Some((number, values)) = first_against(alloc, table, numbers, clauses, false)? {
        return Ok(Tabled::GoalMeets(number, values));
    }
    Ok(Tabled::Model)
}

// Tells of clauses whose numbers have 32 bits how few they are.
pub(crate) fn see_few(clauses: &[Sourced], axioms: &[u32], goals: &[u32])
    requires axioms { axioms.now ≡ numbers_of true 0 clauses.now }
    requires goals { goals.now ≡ numbers_of false 0 clauses.now }
    ensures { length clauses.now ≤ 2 ^ 32 }
{
    let _ = clauses.len();
    let _ = axioms.len();
    let _ = goals.len();
}

// The number of the first clause with more than 16,777,216 assignments.
pub(crate) fn first_with_too_many(clauses: &[Sourced], size: u32) -> Option<u32>
    requires some { 1 ≤ size }
    requires few { length clauses.now ≤ 2 ^ 32 }
    ensures { MatchOption result (AreFewEnough size clauses.now) (λ k. (s : AnySourced) × IsFirstAt (HasFewEnough size) (HasTooMany size) clauses.now k s) }
{
    for (number, sourced) in clauses.iter().enumerate() {
        if has_too_many(sourced, size) {
            return Some(number as u32);
        }
    }
    None
}

fn has_too_many(sourced: &Sourced, size: u32) -> bool
    requires { 1 ≤ size }
    ensures { MatchBool result (HasTooMany size sourced.now) (HasFewEnough size sourced.now) }
{
    lists_of(size, variable_count(&sourced.clause)).is_none()
}

// How many variables a clause has.
pub(crate) fn variable_count(clause: &Clause) -> usize
    ensures { result ≡ variable_count (equation_of clause.now) }
{
    let left = variables_in(&clause.left);
    let right = variables_in(&clause.right);
    left.max(right)
}

fn variables_in(term: &Term) -> usize
    ensures { result ≡ variables_in term.now }
{
    let mut count = 0;
    for node in term.as_nodes() {
        count = with_node(count, *node);
    }
    count
}

#[inline]
fn with_node(count: usize, node: Node) -> usize
    ensures { result ≡ max count (node_variables node) }
{
    match node {
        Node::Var(x) => count.max(x as usize + 1),
        Node::App(..) => count,
    }
}

// The first axiom, or goal, that is against the table, by its number among its own, with the first assignment.
fn first_against(
    alloc: Global,
    table: &Table,
    numbers: &[u32],
    clauses: &[Sourced],
    positive: bool,
) -> Result<Option<(u32, Seq<u32>)>, AllocError>
    requires sized { IsSized table.now }
    requires few { length clauses.now ≤ 2 ^ 32 }
    requires few_enough { AreFewEnough table.now.size clauses.now }
    requires ready { AreReadyClauses table.now numbers.now clauses.now }
    ensures { IfOk result (λ found. MatchOption found (KeepAll table.now positive (equations_of positive clauses.now)) (λ r. (e : Equation) × IsFirstAt (Keeps table.now positive) (IsAgainst table.now positive r.1) (equations_of positive clauses.now) r.0 e)) }
{
    let mut number: usize = 0;
    for sourced in clauses {
        let clause = &sourced.clause;
        if clause.positive == positive {
            if let Some(values) = clause_against(alloc, table, numbers, clause)? {
                return Ok(Some((number as u32, values)));
            }
            number += 1;
        }
    }
    Ok(None)
}

// The first assignment under which an axiom, or a goal, is against the table.
fn clause_against(
    alloc: Global,
    table: &Table,
    numbers: &[u32],
    clause: &Clause,
) -> Result<Option<Seq<u32>>, AllocError>
    requires sized { IsSized table.now }
    requires few_enough { assignment_count table.now.size (equation_of clause.now) ≤ MOST_ASSIGNMENTS }
    requires ready { IsReadyClause table.now numbers.now clause.now }
    ensures { IfOk result (λ found. MatchOption found (Keeps table.now clause.now.positive (equation_of clause.now)) (λ values. IsAgainst table.now clause.now.positive values (equation_of clause.now))) }
{
    let room = clause.left.nodes().max(clause.right.nodes()) as usize;
    let mut stack = vec![in alloc; 0; room]?;
    let mut values = vec![in alloc; 0; variable_count(clause)]?;
    let (values_now, stack_now) = (values.as_mut_slice(), stack.as_mut_slice());
    if assignment_against(table, numbers, clause, values_now, stack_now) {
        Ok(Some(Seq::from_vec(values)))
    } else {
        Ok(None)
    }
}

// Goes through the assignments up to the first under which the clause is against the table.
fn assignment_against(
    table: &Table,
    numbers: &[u32],
    clause: &Clause,
    values: &mut [u32],
    stack: &mut [u32],
) -> bool
    requires sized { IsSized table.now }
    requires few_enough { assignment_count table.now.size (equation_of clause.now) ≤ MOST_ASSIGNMENTS }
    requires ready { IsReadyClause table.now numbers.now clause.now }
    requires values { length values.old ≡ variable_count (equation_of clause.now) }
    requires left { nodes clause.now.left ≤ length stack.old }
    requires right { nodes clause.now.right ≤ length stack.old }
    ensures against { MatchBool result (IsAgainst table.now clause.now.positive values.new (equation_of clause.now)) (Keeps table.now clause.now.positive (equation_of clause.now)) }
{
    let Some(lists) = lists_of(table.size, values.len()) else {
        return false;
    };
    for place in 0..lists {
        write_place(table.size, place, values);
        if agree_under(table, numbers, clause, values, stack) != clause.positive {
            return true;
        }
    }
    false
}

// Whether the sides of a clause have one value.
#[inline]
fn agree_under(
    table: &Table,
    numbers: &[u32],
    clause: &Clause,
    values: &[u32],
    stack: &mut [u32],
) -> bool
    requires sized { IsSized table.now }
    requires values { AreValues table.now.size values.now }
    requires ready_left { IsReady table.now numbers.now (length values.now) clause.now.left }
    requires ready_right { IsReady table.now numbers.now (length values.now) clause.now.right }
    requires left { nodes clause.now.left ≤ length stack.old }
    requires right { nodes clause.now.right ≤ length stack.old }
    ensures agree { IsTrue result ↔ Agree table.now (equation_of clause.now) (given values.now) }
    ensures long { length stack.new ≡ length stack.old }
{
    let left = value_of(table, numbers, values, &clause.left, stack);
    let right = value_of(table, numbers, values, &clause.right, stack);
    left == right
}
