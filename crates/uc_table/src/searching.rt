//! The search for a model of a problem, size by size.

ghost use Rattle.std.specs.Prelude.{◌≡◌, ℕ, ◌+◌, ◌<◌, ◌≤◌, ◌^◌, ◌++◌, ◌∷◌, [], length, Some, IfOk, OnOk, MatchOption};
ghost use Rattle.std.specs.List.{slice_get, concat};
ghost use Rattle.uc_term.specs.Gathering.{HasAll};
ghost use Rattle.uc_problem.specs.Holds.{Agrees};
ghost use Rattle.uc_table.specs.declared.search_instances.Form.{Form as AnyForm};
ghost use Rattle.uc_table.specs.Tables.{MOST_CELLS, AreRows, AreValues, cells_for};
ghost use Rattle.uc_table.specs.SearchSteps.{AreSteps};
ghost use Rattle.uc_table.specs.SearchState.{AreStepsOf, Ends};
ghost use Rattle.uc_table.specs.SearchSizes.{IsOfSize};
ghost use Rattle.uc_table.specs.Searching.{Holds, Searches};
ghost use Rattle.uc_table.specs.Least.{Shows};

use crate::checking::{first_with_too_many, see_few};
use crate::places::lists_of;
use crate::search_instances::{Form, enroll_all};
use crate::search_layout::lay_out;
use crate::search_size::{End, Rules, State, go_through};
use crate::search_waiting::Waiting;
use crate::{Searched, Table};
use std::alloc::{AllocError, Global};
use uc_clause::Sourced;
use uc_problem::Problem;
use uc_term::{Seq, Sym, Symbols};

/// What the search of a size comes to.
#[derive(Drop)]
enum OfSize {
    Found(Table),
    None(u32),
    Spent,
    Cells,
    Assignments,
}

/// Room for the values of the steps of each form, and for each of its rows.
fn room_of(forms: &[Form]) -> usize
    ensures { (k : ℕ) (f : AnyForm) → slice_get forms.now k ≡ Some f → length f.steps.items + 2 ≤ result }
{
    let mut room = 0;
    for form in forms {
        room = (form.steps.len() + 2).max(room);
    }
    room
}

/// Searches the tables of a size: what the search ends with, and the values of the cells.
fn search_tables(alloc: Global, rules: &Rules, budget: u32) -> Result<(End, Vec<u32>), AllocError>
    requires some { 0 < rules.now.size }
    requires cells { 0 < rules.now.cells }
    requires few { rules.now.cells ≤ MOST_CELLS }
    requires steps { AreStepsOf rules.now }
    requires forms { length rules.now.forms.items ≤ 2 ^ 32 }
    ensures { IfOk result (λ r. Ends rules.now budget r.1.items r.0) }
{
    let mut room = vec![in alloc; 0; room_of(&rules.forms)]?;
    let stack = room.as_mut_slice();
    let mut waiting = Waiting::new(alloc)?;
    if enroll_all(&mut waiting, &rules.forms, rules.size, stack)? {
        return Ok((End::None(0), Vec::new(alloc)));
    }
    let mut state = State {
        prefix: Vec::new(alloc),
        marks: Vec::new(alloc),
        waiting,
    };
    let end = go_through(&mut state, rules, stack, budget)?;
    Ok((end, state.prefix))
}

/// The rows of a table, cut from its cells in one row.
fn rows_of(
    alloc: Global,
    symbols: &Symbols,
    size: u32,
    signature: &[Sym],
    values: &[u32],
) -> Result<Vec<Seq<u32>>, AllocError>
    requires some { 1 ≤ size }
    requires has { HasAll symbols.now signature.now }
    requires values { AreValues size values.now }
    requires long { length values.now ≡ cells_for symbols.now size signature.now }
    requires few { cells_for symbols.now size signature.now ≤ MOST_CELLS }
    ensures rows { IfOk result (λ rows. AreRows symbols.now size signature.now rows.items) }
    ensures cells { IfOk result (λ rows. concat rows.items ≡ values.now) }
{
    let mut rows = Vec::new(alloc);
    let mut from: usize = 0;
    for f in signature {
        let Some(count) = lists_of(size, symbols.arity(*f) as usize) else {
            return Ok(rows);
        };
        let to = from + count as usize;
        let mut row = Vec::new(alloc);
        row.extend_from_slice(&values[from..to])?;
        rows.push(Seq::from_vec(row))?;
        from = to;
    }
    Ok(rows)
}

/// The table of these cells.
fn table_of(
    alloc: Global,
    symbols: &Symbols,
    size: u32,
    signature: &[Sym],
    values: &[u32],
) -> Result<Table, AllocError>
    requires some { 1 ≤ size }
    requires has { HasAll symbols.now signature.now }
    requires values { AreValues size values.now }
    requires long { length values.now ≡ cells_for symbols.now size signature.now }
    requires few { cells_for symbols.now size signature.now ≤ MOST_CELLS }
    ensures { IfOk result (Holds symbols.now signature.now size values.now) }
{
    let rows = rows_of(alloc, symbols, size, signature, values)?;
    let mut own = Vec::new(alloc);
    own.extend_from_slice(signature)?;
    Ok(Table {
        size,
        symbols: Seq::from_vec(own),
        cells: Seq::from_vec(rows),
    })
}

/// Searches the tables of a size for a model.
fn search_size(
    alloc: Global,
    symbols: &Symbols,
    signature: &[Sym],
    clauses: &[Sourced],
    size: u32,
    budget: u32,
) -> Result<OfSize, AllocError>
    requires some { 1 ≤ size }
    requires has { HasAll symbols.now signature.now }
    requires few { length signature.now < 2 ^ 32 }
    requires clauses { length clauses.now ≤ 2 ^ 32 }
    requires nonempty { 0 < length signature.now }
    ensures { IfOk result (IsOfSize symbols.now signature.now clauses.now size budget) }
{
    let Some(layout) = lay_out(alloc, symbols, size, signature)? else {
        return Ok(OfSize::Cells);
    };
    if first_with_too_many(clauses, size).is_some() {
        return Ok(OfSize::Assignments);
    }
    let rules = Rules {
        size,
        cells: layout.firsts[signature.len()] as usize,
        forms: layout.forms_of(alloc, symbols, signature, clauses)?,
    };
    let (end, cells) = search_tables(alloc, &rules, budget)?;
    match end {
        End::Found(_) => Ok(OfSize::Found(table_of(alloc, symbols, size, signature, &cells)?)),
        End::None(count) => Ok(OfSize::None(count)),
        End::Spent => Ok(OfSize::Spent),
    }
}

/// Searches for a model of a problem by its size, from 1 up to `size`, and at each size through the prefixes of the cells in
/// lexicographic order: cells go by symbol in the order of the signature, then by arguments, the first slowest. A prefix gives the
/// first cells a value each; it is visited where it isn't empty and its longest proper prefix isn't refuted, up to the first whole
/// table that isn't refuted. It is refuted where it fixes both sides of an instance of an axiom and they differ, or of a goal and
/// they agree.
///
/// `Found` is the table that is visited last; `Absent` says that no table up to the size is a model; `Spent` comes exactly where
/// `budget` prefixes are visited and a further one is due. `Cells` and `Assignments` come at the first size that is reached and has
/// more than 65,536 cells, or a clause with more than 16,777,216 assignments; at one size `Cells` goes first, and both before
/// `Spent`.
///
/// The instances that a cell decides wait at it: each is evaluated as far as the cells go (after the watched literals of
/// satisfiability solvers).
pub fn search(
    alloc: Global,
    problem: &Problem,
    size: u32,
    budget: u32,
    symbols: &Symbols,
) -> Result<Searched, AllocError>
    requires agrees { Agrees symbols.now problem.now }
    requires some { 1 ≤ size }
    requires most { size ≤ 8 }
    ensures searches { IfOk result (Searches symbols.now problem.now.signature.symbols problem.now.clauses budget size) }
    ensures shows { IfOk result (Shows symbols.now problem.now.signature.symbols problem.now.clauses size) }
{
    let clauses = problem.clauses.as_slice();
    let signature = problem.signature.symbols.as_slice();
    see_few(clauses, problem.axioms.as_slice(), problem.goals.as_slice());
    let mut visited = 0;
    let mut at = 1;
    while at <= size {
        match search_size(alloc, symbols, signature, clauses, at, budget - visited)? {
            OfSize::Found(table) => return Ok(Searched::Found(table)),
            OfSize::None(count) => visited += count,
            OfSize::Spent => return Ok(Searched::Spent(budget)),
            OfSize::Cells => return Ok(Searched::Cells(at)),
            OfSize::Assignments => return Ok(Searched::Assignments(at)),
        }
        at += 1;
    }
    Ok(Searched::Absent)
}
