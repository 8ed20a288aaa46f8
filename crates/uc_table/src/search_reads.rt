//! Instances of clauses, evaluated by rows that are made once: a row has for each cell that is read its place, without what the
//! values of cells add that are read before.

ghost use Rattle.std.specs.Prelude.{◌≡◌, ℕ, ◌+◌, ◌-◌, ◌*◌, ◌^◌, ◌<◌, ◌≤◌, ◌++◌, ◌∷◌, [], List, length, drop, take, true, false, IfOk, IfSome, OnOk, MatchOption};
ghost use Rattle.uc_table.specs.declared.search_steps.Step.{Step as AnyStep};
ghost use Rattle.uc_table.specs.Tables.{AreValues};
ghost use Rattle.uc_table.specs.SearchSteps.{run, IsStep, AreSteps, IsOutcome};
ghost use Rattle.uc_table.specs.SearchReads.{places, link_of, links_of, LeavesTwo, filled, Fits, AreReadsOf, AreRowsOf, IsWay, IsAdded};

use crate::places::{lists_of, place_of};
use crate::search_steps::{Outcome, Step};
use std::alloc::{AllocError, Global};

/// Where a value that is read goes: to which of the places behind it, and how many times.
#[derive(Clone, Copy)]
pub(crate) struct Link {
    pub target: u32,
    pub stride: u32,
}

/// The rows of the first instances of a clause, one after another, how wide each is, and where each value that is read goes. The
/// last two places of a row are those of the values of both sides.
#[derive(Drop)]
pub(crate) struct Reads {
    pub width: u32,
    pub links: Vec<Link>,
    pub rows: Vec<u32>,
}

/// What a step does to a value on the stack: how deep it stands then, and how many places on; where it goes; or neither.
#[derive(Clone, Copy)]
pub(crate) enum Way {
    Further(usize, u32),
    Ends(Link),
    Never,
}

/// The most steps of a clause of which rows are kept.
const MOST_STEPS: usize = 64;

/// The most rows that are kept of a clause.
const MOST_ROWS: u32 = 65_536;

/// What a step does to the value that stands so deep on the stack.
fn way_of(step: Step, size: u32, depth: usize, target: u32) -> Way
    requires some { 1 ≤ size }
    requires shallow { depth ≤ 64 }
    requires near { target ≤ 64 }
    ensures { IsWay size step depth target result }
{
    match step {
        Step::Variable(_) => Way::Further(depth + 1, target),
        Step::Apply(_, arguments) => {
            let count = arguments as usize;
            if depth >= count {
                return Way::Further(depth - count + 1, target + 1);
            }
            match lists_of(size, count - 1 - depth) {
                Some(stride) => Way::Ends(Link { target, stride }),
                None => Way::Never,
            }
        }
        Step::Foreign => Way::Never,
    }
}

/// Where the value goes that the steps find on top of the stack, if that can be told.
fn link_of(steps: &[Step], size: u32) -> Option<Link>
    requires some { 1 ≤ size }
    requires few { length steps.now ≤ 64 }
    ensures { IfSome result (λ l. l ≡ link_of size steps.now 0) }
{
    let mut depth: usize = 0;
    let mut target: u32 = 0;
    for step in steps {
        match way_of(*step, size, depth, target) {
            Way::Further(next, behind) => {
                depth = next;
                target = behind;
            }
            Way::Ends(link) => return Some(link),
            Way::Never => return None,
        }
    }
    Some(Link {
        target: target + depth as u32,
        stride: 1,
    })
}

/// Adds where the value goes that the step at a place reads, if it reads one. False comes where that can't be told.
fn add_link(steps: &[Step], size: u32, at: usize, links: &mut Vec<Link>) -> Result<bool, AllocError>
    requires some { 1 ≤ size }
    requires few { length steps.now ≤ 64 }
    requires within { at < length steps.now }
    ensures { IfOk result (λ r. r ≡ true → links.old.items ++ links_of size (drop at steps.now) ≡ links.new.items ++ links_of size (drop (at + 1) steps.now)) }
{
    match steps[at] {
        Step::Variable(_) => Ok(true),
        Step::Apply(..) => match link_of(&steps[at + 1..], size) {
            Some(link) => {
                links.push(link)?;
                Ok(true)
            }
            None => Ok(false),
        },
        Step::Foreign => Ok(false),
    }
}

/// Where the values go that the steps read, if that can be told.
fn links_of(alloc: Global, steps: &[Step], size: u32) -> Result<Option<Vec<Link>>, AllocError>
    requires some { 1 ≤ size }
    requires few { length steps.now ≤ 64 }
    ensures { IfOk result (λ r. IfSome r (λ links. links.items ≡ links_of size steps.now)) }
{
    let mut links = Vec::new(alloc);
    for at in 0..steps.len() {
        if !add_link(steps, size, at, &mut links)? {
            return Ok(None);
        }
    }
    Ok(Some(links))
}

/// Adds the place of the cell that a step reads, if it reads one, with the value 0 for that cell: returns where the stack begins
/// then. None comes where the step can't be run.
fn add_place(
    step: Step,
    size: u32,
    assignment: u32,
    stack: &mut [u32],
    top: usize,
    row: &mut Vec<u32>,
) -> Result<Option<usize>, AllocError>
    requires some { 1 ≤ size }
    requires step { IsStep size step }
    requires room { 1 ≤ top }
    requires within { top ≤ length stack.old }
    requires live { AreValues size (drop top stack.old) }
    ensures within { IfOk result (λ r. IfSome r (λ next. (next ≤ length stack.new) × (top ≤ next + 1))) }
    ensures added { IfOk result (λ r. IfSome r (λ next. IsAdded size assignment step row.old.items row.new.items (drop top stack.old) (drop next stack.new))) }
{
    match step {
        Step::Variable(unit) => {
            stack[top - 1] = assignment / unit % size;
            Ok(Some(top - 1))
        }
        Step::Apply(first, arguments) => {
            let count = arguments as usize;
            if stack.len() - top < count {
                return Ok(None);
            }
            let place = first as usize + place_of(size, &stack[top..top + count]);
            row.push(place as u32)?;
            let rest = top + count - 1;
            stack[rest] = 0;
            Ok(Some(rest))
        }
        Step::Foreign => Ok(None),
    }
}

/// Adds the row of an instance. True comes where the steps can't be run.
fn add_row(
    steps: &[Step],
    size: u32,
    assignment: u32,
    stack: &mut [u32],
    row: &mut Vec<u32>,
) -> Result<bool, AllocError>
    requires some { 1 ≤ size }
    requires steps { AreSteps size steps.now }
    requires room { length steps.now ≤ length stack.old }
    ensures leaves { IfOk result (λ r. r ≡ false → LeavesTwo steps.now 0) }
    ensures row { IfOk result (λ r. r ≡ false → row.new.items ≡ row.old.items ++ places size assignment steps.now []) }
{
    let mut top = stack.len();
    for step in steps {
        match add_place(*step, size, assignment, stack, top, row)? {
            Some(next) => top = next,
            None => return Ok(true),
        }
    }
    if stack.len() - top != 2 {
        return Ok(true);
    }
    row.push(stack[top])?;
    row.push(stack[top + 1])?;
    Ok(false)
}

/// No rows.
fn no_reads(alloc: Global) -> Reads
    ensures { (size : ℕ) (steps : List AnyStep) → AreReadsOf size steps result }
{
    Reads {
        width: 1,
        links: Vec::new(alloc),
        rows: Vec::new(alloc),
    }
}

/// The rows of the first so many instances, if the steps can be run.
fn kept_rows(
    alloc: Global,
    steps: &[Step],
    size: u32,
    count: u32,
) -> Result<Option<Vec<u32>>, AllocError>
    requires some { 1 ≤ size }
    requires steps { AreSteps size steps.now }
    ensures { IfOk result (λ r. IfSome r (λ rows. AreRowsOf size steps.now (length (links_of size steps.now) + 2) count rows.items)) }
{
    let mut room = vec![in alloc; 0; steps.len()]?;
    let stack = room.as_mut_slice();
    let mut rows = Vec::new(alloc);
    for assignment in 0..count {
        if add_row(steps, size, assignment, stack, &mut rows)? {
            return Ok(None);
        }
    }
    Ok(Some(rows))
}

/// The rows of a clause's first instances, if they can be made.
fn kept_reads(
    alloc: Global,
    steps: &[Step],
    size: u32,
    assignments: u32,
) -> Result<Option<Reads>, AllocError>
    requires some { 1 ≤ size }
    requires few { length steps.now ≤ 64 }
    requires steps { AreSteps size steps.now }
    ensures { IfOk result (λ r. IfSome r (AreReadsOf size steps.now)) }
{
    let Some(links) = links_of(alloc, steps, size)? else {
        return Ok(None);
    };
    let Some(rows) = kept_rows(alloc, steps, size, assignments.min(MOST_ROWS))? else {
        return Ok(None);
    };
    let width = links.len() as u32 + 2;
    Ok(Some(Reads { width, links, rows }))
}

/// The rows of a clause's first instances. None are kept of a clause with more than 64 steps.
pub(crate) fn reads_of(
    alloc: Global,
    steps: &[Step],
    size: u32,
    assignments: u32,
) -> Result<Reads, AllocError>
    requires some { 1 ≤ size }
    requires steps { AreSteps size steps.now }
    ensures { IfOk result (AreReadsOf size steps.now) }
{
    if steps.len() > MOST_STEPS {
        return Ok(no_reads(alloc));
    }
    let Some(reads) = kept_reads(alloc, steps, size, assignments)? else {
        return Ok(no_reads(alloc));
    };
    Ok(reads)
}

impl Reads {
    /// The row of an instance, if it is kept.
    #[inline(always)]
    pub(crate) fn row(&self, assignment: u32) -> Option<&[u32]>
        ensures { IfSome result (λ row. (assignment * self.now.width + self.now.width ≤ length self.now.rows.items) × (row.now ≡ take self.now.width (drop (assignment * self.now.width) self.now.rows.items))) }
    {
        let from = assignment as usize * self.width as usize;
        let to = from + self.width as usize;
        if to > self.rows.len() {
            return None;
        }
        Some(&self.rows[from..to])
    }
}

/// Evaluates both sides of an instance by its row, as far as the prefix goes.
#[inline(always)]
pub(crate) fn read_row(row: &[u32], links: &[Link], prefix: &[u32], places: &mut [u32]) -> Outcome
    requires fits { Fits prefix.now row.now links.now }
    requires long { length row.now ≡ length links.now + 2 }
    requires room { length row.now ≡ length places.old }
    ensures { IsOutcome (filled prefix.now row.now links.now) result }
{
    places.copy_from_slice(row);
    let mut at = 0;
    while at < links.len() {
        let cell = places[at] as usize;
        if cell >= prefix.len() {
            return Outcome::Waits(cell as u32);
        }
        let link = links[at];
        let target = at + 1 + link.target as usize;
        places[target] += prefix[cell] * link.stride;
        at += 1;
    }
    Outcome::Sides(places[at + 1], places[at])
}
