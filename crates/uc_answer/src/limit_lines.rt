//! The lines of a search that a limit ended.

ghost use Rattle.std.specs.Prelude.{◌≡◌, ◌<◌, ◌++◌, ℕ, List, codes, IfOk};
ghost use Rattle.uc_term.specs.Tree.{nodes};
ghost use Rattle.uc_term.specs.Equations.{side_of};
ghost use Rattle.uc_term.specs.Positions.{IsPlaceOf};
ghost use Rattle.uc_fact.specs.declared.fact.Overlap.{Overlap as AnyOverlap};
ghost use Rattle.uc_machine.specs.declared.event.Verdict.TheVariants.{LargeOverlap};
ghost use Rattle.uc_runs.specs.Large.{IsLargeOverlap};
ghost use Rattle.uc_words.specs.declared.command.Command.{Command as AnyCommand};
ghost use Rattle.uc_answer.specs.Lines.{joined};
ghost use Rattle.uc_answer.specs.LimitLines.{budget_line, pairs_line, overlap_line, goal_line, IsLimitLine};
ghost use Rattle.uc_answer.specs.StatusLines.{status_line};
ghost use Rattle.uc_answer.specs.VerdictLines.{verdict_status};

use crate::chaining::write_number;
use crate::pair_lines::{side_of, write_overlap};
use crate::szs::status_line;
use crate::trace_lines::write_count;
use std::alloc::{AllocError, Global};
use uc_book::Book;
use uc_fact::Overlap;
use uc_machine::Verdict;
use uc_order::Order;
use uc_search::all_facts;
use uc_shelf::Shelf;
use uc_term::{Equation, Seq, Text};
use uc_words::Command;

/// Returns the two lines of a search that a limit ended: its status, and which limit.
pub fn out_lines<O: Order>(
    alloc: Global,
    command: &Command,
    name: &[u8],
    shelf: &Shelf,
    book: &Book<O>,
    verdict: Verdict,
) -> Result<Seq<Text>, AllocError>
    requires shelf { book.now.opening.shelf ≡ shelf.now }
    requires large { (overlap : AnyOverlap) → verdict ≡ LargeOverlap overlap → IsLargeOverlap book.now.state.entries overlap }
    requires out { verdict_status verdict ≡ 2 }
    ensures { IfOk result (λ lines. (line : List ℕ) × IsLimitLine command.now book.now.state verdict line × (joined lines ≡ status_line (codes "ResourceOut") name.now ++ line)) }
{
    let mut lines = Seq::new(alloc);
    lines.push(status_line(alloc, b"ResourceOut", name)?)?;
    lines.push(cause_line(alloc, command, shelf, book, verdict)?)?;
    Ok(lines)
}

/// The line of the limit that ended a search.
fn cause_line<O: Order>(
    alloc: Global,
    command: &Command,
    shelf: &Shelf,
    book: &Book<O>,
    verdict: Verdict,
) -> Result<Text, AllocError>
    requires shelf { book.now.opening.shelf ≡ shelf.now }
    requires large { (overlap : AnyOverlap) → verdict ≡ LargeOverlap overlap → IsLargeOverlap book.now.state.entries overlap }
    requires out { verdict_status verdict ≡ 2 }
    ensures { IfOk result (IsLimitLine command.now book.now.state verdict) }
{
    match verdict {
        Verdict::BudgetOut { counted } => budget_line(alloc, counted, command.budget),
        Verdict::PairsOut { waiting, new } => pairs_line(alloc, waiting, new, command.pairs),
        Verdict::LargeOverlap(overlap) => large_line(alloc, shelf, book, &overlap),
        Verdict::LargeGoal(goal) => goal_line(alloc, goal),
        Verdict::Proved(_) | Verdict::Saturated => unreachable!(),
    }
}

/// The line of an overlap of the book's facts whose pair is too large.
fn large_line<O: Order>(
    alloc: Global,
    shelf: &Shelf,
    book: &Book<O>,
    overlap: &Overlap,
) -> Result<Text, AllocError>
    requires shelf { book.now.opening.shelf ≡ shelf.now }
    requires large { IsLargeOverlap book.now.state.entries overlap.now }
    ensures { (command : AnyCommand) → IfOk result (IsLimitLine command book.now.state (LargeOverlap overlap.now)) }
{
    let facts = all_facts(alloc, shelf, book.front())?;
    let fact = facts[overlap.outer as usize];
    let outer = Equation {
        left: fact.left.copy(alloc)?,
        right: fact.right.copy(alloc)?,
    };
    overlap_line(alloc, overlap, &outer)
}

/// The line of a budget that is spent.
pub(crate) fn budget_line(alloc: Global, counted: u32, budget: u32) -> Result<Text, AllocError>
    ensures { IfOk result (λ text. text ≡ budget_line counted budget) }
{
    let mut line = Text::from_bytes(alloc, b"% budget ")?;
    write_number(&mut line, counted)?;
    line.extend(b" of ")?;
    write_number(&mut line, budget)?;
    line.extend(b"\n")?;
    Ok(line)
}

/// The line of the limit on pairs that wait.
fn pairs_line(alloc: Global, waiting: u32, new: u64, limit: u32) -> Result<Text, AllocError>
    ensures { IfOk result (λ text. text ≡ pairs_line waiting new limit) }
{
    let mut line = Text::from_bytes(alloc, b"% pairs ")?;
    write_number(&mut line, waiting)?;
    line.extend(b" plus ")?;
    write_count(&mut line, new)?;
    line.extend(b" of ")?;
    write_number(&mut line, limit)?;
    line.extend(b"\n")?;
    Ok(line)
}

/// The line of an overlap whose pair is too large, by its outer fact.
fn overlap_line(alloc: Global, overlap: &Overlap, outer: &Equation) -> Result<Text, AllocError>
    requires { overlap.now.position.0 < nodes (side_of overlap.now.outer_side outer.now) }
    ensures { IfOk result (λ text. (path : List ℕ) × IsPlaceOf (side_of overlap.now.outer_side outer.now) path overlap.now.position.0 × (text ≡ overlap_line overlap.now path)) }
{
    let path = side_of(outer, overlap.outer_side).path(alloc, overlap.position)?;
    let mut line = Text::from_bytes(alloc, b"% size overlap ")?;
    write_overlap(&mut line, overlap, path.as_slice())?;
    line.extend(b"\n")?;
    Ok(line)
}

/// The line of a goal whose next step is too large.
fn goal_line(alloc: Global, goal: u32) -> Result<Text, AllocError>
    ensures { IfOk result (λ text. text ≡ goal_line goal) }
{
    let mut line = Text::from_bytes(alloc, b"% size goal ")?;
    write_number(&mut line, goal)?;
    line.extend(b"\n")?;
    Ok(line)
}
