//! The symbols by which a problem is encoded.

ghost use Rattle.std.specs.Prelude.{◌≡◌, false, Some, IfOk};
ghost use Rattle.std.specs.List.{list_any};
ghost use Rattle.uc_term.specs.Table.{Grows};
ghost use Rattle.uc_term.specs.Gathering.{HasAll};
ghost use Rattle.uc_term.specs.Variables.{has_variable};
ghost use Rattle.uc_check.specs.Clauses.{AreFresh, HasGoalIfEncoded};
ghost use Rattle.uc_problem.specs.Holds.{Agrees, numbers_of};
ghost use Rattle.uc_problem.specs.Filling.{AddsMarks};
ghost use Rattle.uc_problem.specs.Marks.{AreMarks, IsMarked, is_open_goal, is_too_large, first_large};

use crate::{EncodeFault, Problem};
use std::alloc::{AllocError, Global};
use uc_clause::Sourced;
use uc_term::{Fresh, Symbols, Term, add_fresh};

// The most nodes that the two sides of a goal with a variable have together, where it is encoded.
const MAX_SIDES: u32 = 4095;

/// The symbols by which a problem is encoded: none where no goal has a variable; else `eq` of arity 2 and the constants `true`
/// and `false`, each under the first of its name, its name with `_1`, with `_2` and so on that no symbol of the problem has.
///
/// `GoalTooLarge` names the first goal clause with a variable whose sides have more than 4,095 nodes together.
pub fn marks(
    alloc: Global,
    problem: &Problem,
    symbols: &mut Symbols,
) -> Result<Option<Fresh>, EncodeFault>
    requires { Agrees symbols.old problem.now }
    ensures marked { IsMarked symbols.new problem.now result }
    ensures fresh { IfOk result (λ marks. AreFresh marks problem.now.clauses) }
    ensures has_goal { IfOk result (λ marks. HasGoalIfEncoded marks problem.now.clauses) }
    ensures grows { Grows symbols.old symbols.new }
    ensures adds { IfOk result (AddsMarks symbols.old symbols.new) }
{
    let clauses = problem.clauses.as_slice();
    if let Some(number) = first_too_large(clauses, problem.goals.as_slice()) {
        return Err(EncodeFault::GoalTooLarge(number));
    }
    if !has_open_goal(clauses) {
        return Ok(None);
    }
    Ok(Some(new_marks(alloc, problem, symbols)?))
}

// The encoding's symbols, under names that no symbol of the problem has.
fn new_marks(alloc: Global, problem: &Problem, symbols: &mut Symbols) -> Result<Fresh, AllocError>
    requires { HasAll symbols.old problem.now.signature.symbols }
    ensures marks { IfOk result (AreMarks symbols.new problem.now) }
    ensures grows { Grows symbols.old symbols.new }
    ensures adds { IfOk result (λ marks. AddsMarks symbols.old symbols.new (Some marks)) }
{
    let taken = problem.signature.symbols.as_slice();
    let eq = add_fresh(alloc, symbols, taken, b"eq", 2)?;
    let yes = add_fresh(alloc, symbols, taken, b"true", 0)?;
    let no = add_fresh(alloc, symbols, taken, b"false", 0)?;
    Ok(Fresh { eq, yes, no })
}

// The first of the goals, which are given by their numbers, that has a variable and is too large.
fn first_too_large(clauses: &[Sourced], goals: &[u32]) -> Option<u32>
    requires { goals.now ≡ numbers_of false 0 clauses.now }
    ensures { result ≡ first_large clauses.now goals.now }
{
    for number in goals {
        if is_too_large(&clauses[*number as usize]) {
            return Some(*number);
        }
    }
    None
}

// Whether a goal has a variable.
fn has_open_goal(clauses: &[Sourced]) -> bool
    ensures { result ≡ list_any is_open_goal clauses.now }
{
    clauses.iter().any(|sourced| is_open_goal(sourced))
}

// Whether the clause is a goal with a variable.
pub(crate) fn is_open_goal(sourced: &Sourced) -> bool
    ensures { result ≡ is_open_goal sourced.now }
{
    let clause = &sourced.clause;
    !clause.positive && (has_variable(&clause.left) || has_variable(&clause.right))
}

// Whether the clause is a goal with a variable whose sides can't be put under one symbol.
fn is_too_large(sourced: &Sourced) -> bool
    ensures { result ≡ is_too_large sourced.now }
{
    let clause = &sourced.clause;
    is_open_goal(sourced) && clause.left.nodes() + clause.right.nodes() > MAX_SIDES
}

fn has_variable(term: &Term) -> bool
    ensures { result ≡ has_variable term.now }
{
    !term.is_ground()
}
