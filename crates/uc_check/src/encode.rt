//! Encode lines: the equations by which goals with variables are written.

ghost use Rattle.std.specs.Prelude.{◌≡◌, ◌≤◌, ◌↔◌, ℕ, List, Option, IsTrue, IfOk, length};
ghost use Rattle.uc_term.specs.Tree.{Tree, app, none, more};
ghost use Rattle.uc_clause.specs.declared.clause.Sourced.{Sourced};
ghost use Rattle.uc_check.specs.declared.proof.Line.{Line};
ghost use Rattle.uc_check.specs.declared.proof.LineSource.TheVariants.{Reflexive, EncodeGoal};
ghost use Rattle.uc_check.specs.Variants.{AreVariants};
ghost use Rattle.uc_check.specs.Lines.{Tested, ReadsReflexive, ReadsRefuted, ReadsGoal};

use crate::parents::{are_earlier, is_constant, is_denial, is_open, only_parent};
use crate::variants::are_variants;
use crate::{Cause, Line};
use std::alloc::{AllocError, Global};
use uc_term::{Fresh, Node, Sym, Term, end_of, same_nodes};

/// The outcome of the tests of a line that is to read `eq(X,X) = true`.
pub(crate) fn test_reflexive(
    fresh: Option<Fresh>,
    number: usize,
    line: &Line,
    parents: &[u32],
) -> Option<Cause>
    ensures { (clauses : List Sourced) (lines : List Line) → Tested clauses fresh lines number line.now (Reflexive parents.now) result }
{
    if !are_earlier(number, parents) {
        return Some(Cause::NotEarlier);
    }
    if !reads_reflexive(fresh, line, parents) {
        return Some(Cause::NotAProblemClause);
    }
    None
}

/// The outcome of the tests of a line that is to read `eq(s,t) = false` for a goal of `s` and `t`.
pub(crate) fn test_goal(
    alloc: Global,
    fresh: Option<Fresh>,
    lines: &[Line],
    number: usize,
    line: &Line,
    parents: &[u32],
) -> Result<Option<Cause>, AllocError>
    ensures { IfOk result (λ outcome. (clauses : List Sourced) → Tested clauses fresh lines.now number line.now (EncodeGoal parents.now) outcome) }
{
    if !are_earlier(number, parents) {
        return Ok(Some(Cause::NotEarlier));
    }
    if !reads_goal(alloc, fresh, lines, line, parents)? {
        return Ok(Some(Cause::NotAProblemClause));
    }
    Ok(None)
}

/// Whether the line has no parent and reads `eq(X,X) = true`.
fn reads_reflexive(fresh: Option<Fresh>, line: &Line, parents: &[u32]) -> bool
    ensures { IsTrue result ↔ ReadsReflexive fresh parents.now line.now }
{
    match fresh {
        None => false,
        Some(marks) => {
            let nodes = [Node::App(marks.eq, 2), Node::Var(0), Node::Var(0)];
            parents.is_empty()
                && line.positive
                && same_nodes(line.left.as_nodes(), &nodes)
                && is_constant(&line.right, marks.yes)
        }
    }
}

/// Whether the line has one parent, a denial with a variable, and reads `eq(s,t) = false` for what that denies.
fn reads_goal(
    alloc: Global,
    fresh: Option<Fresh>,
    lines: &[Line],
    line: &Line,
    parents: &[u32],
) -> Result<bool, AllocError>
    ensures { IfOk result (λ reads. IsTrue reads ↔ ReadsGoal fresh lines.now parents.now line.now) }
{
    match fresh {
        None => Ok(false),
        Some(marks) => match only_parent(lines, parents) {
            None => Ok(false),
            Some(goal) => reads_refuted(alloc, marks, goal, line),
        },
    }
}

/// Whether the line reads `eq(s,t) = false` for the denial of `s = t`, which has a variable.
fn reads_refuted(alloc: Global, marks: Fresh, goal: &Line, line: &Line) -> Result<bool, AllocError>
    ensures { IfOk result (λ reads. IsTrue reads ↔ ReadsRefuted marks goal.now line.now) }
{
    if !is_denial(goal) || !is_open(goal) {
        return Ok(false);
    }
    if !line.positive || !is_constant(&line.right, marks.no) {
        return Ok(false);
    }
    is_pair(alloc, marks.eq, goal, &line.left)
}

/// Whether the term is this symbol with two arguments, which are the line's sides up to a renaming.
fn is_pair(alloc: Global, eq: Sym, goal: &Line, term: &Term) -> Result<bool, AllocError>
    ensures { IfOk result (λ same. IsTrue same ↔ ((s : Tree) × (t : Tree) × (term.now ≡ app eq (more s (more t none))) × AreVariants goal.now.left goal.now.right s t)) }
{
    let nodes = term.as_nodes();
    if !same_nodes(&nodes[..1], &[Node::App(eq, 2)]) {
        return Ok(false);
    }
    let second = end_of(nodes, 1);
    are_variants(
        alloc,
        goal.left.as_nodes(),
        goal.right.as_nodes(),
        &nodes[1..second],
        &nodes[second..],
    )
}
