//! The answers of a search for a finite table that is a model.

ghost use Rattle.std.specs.Prelude.{◌≡◌, ◌++◌, length, codes, IfOk};
ghost use Rattle.uc_term.specs.Gathering.{HasAll};
ghost use Rattle.uc_table.specs.declared.table.Table.{Table as AnyTable};
ghost use Rattle.uc_table.specs.declared.answers.Searched.TheVariants.{Found};
ghost use Rattle.uc_answer.specs.Lines.{joined};
ghost use Rattle.uc_answer.specs.ModelLines.{searched_status, searched_lines, none_line, stopped_lines};

use crate::answer::{Answer, DONE, NO, STOPPED, of_line};
use crate::chaining::write_number;
use crate::limit_lines::budget_line;
use crate::szs::{saturated_word, with_status};
use std::alloc::{AllocError, Global};
use uc_problem::Problem;
use uc_table::{Searched, print_table};
use uc_term::{Symbols, Text};

/// Returns the answer of a search for a model of a problem among the tables up to a size, with a budget of prefixes: the table that was found,
/// with status 0; that there is none, with status 1; or the limit that ended the search, with status 2.
pub fn searched_answer(
    alloc: Global,
    problem: &Problem,
    name: &[u8],
    size: u32,
    budget: u32,
    searched: &Searched,
    symbols: &Symbols,
) -> Result<Answer, AllocError>
    requires symbols { (table : AnyTable) → searched.now ≡ Found table → HasAll symbols.now table.symbols }
    requires rows { (table : AnyTable) → searched.now ≡ Found table → length table.cells ≡ length table.symbols }
    ensures { IfOk result (λ answer. (answer.status ≡ searched_status searched.now) × (joined answer.lines ≡ searched_lines symbols.now problem.now name.now size budget searched.now)) }
{
    match searched {
        Searched::Found(table) => {
            let text = print_table(alloc, table, symbols)?;
            let answer = of_line(alloc, DONE, text)?;
            with_status(alloc, saturated_word(problem), name, answer)
        }
        Searched::Absent => of_line(alloc, NO, none_line(alloc, size)?),
        Searched::Spent(visited) => {
            stopped_answer(alloc, name, budget_line(alloc, *visited, budget)?)
        }
        Searched::Cells(_) => {
            let line = Text::from_bytes(alloc, b"% cells past 65536\n")?;
            stopped_answer(alloc, name, line)
        }
        Searched::Assignments(_) => {
            let line = Text::from_bytes(alloc, b"% assignments past 16777216\n")?;
            stopped_answer(alloc, name, line)
        }
    }
}

// The line of a search that found no model among the tables up to a size.
fn none_line(alloc: Global, size: u32) -> Result<Text, AllocError>
    ensures { IfOk result (λ text. text ≡ none_line size) }
{
    let mut line = Text::from_bytes(alloc, b"% none up to ")?;
    write_number(&mut line, size)?;
    line.extend(b"\n")?;
    Ok(line)
}

// The answer of a search that a limit ended, whose line this is.
fn stopped_answer(alloc: Global, name: &[u8], line: Text) -> Result<Answer, AllocError>
    ensures { IfOk result (λ answer. (answer.status ≡ 2) × (joined answer.lines ≡ stopped_lines name.now line)) }
{
    with_status(alloc, b"ResourceOut", name, of_line(alloc, STOPPED, line)?)
}
