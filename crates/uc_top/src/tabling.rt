//! The command `table`.

ghost use Rattle.std.specs.Prelude.{◌≡◌, ◌≤◌, [], IfOk};
ghost use Rattle.std.specs.Option.{option_copied};
ghost use Rattle.uc_problem.specs.Holds.{Agrees};
ghost use Rattle.uc_table.specs.declared.answers.Tabled.{Tabled as AnyTabled};
ghost use Rattle.uc_table.specs.Tables.{IsTableOf};
ghost use Rattle.uc_table.specs.Checks.{Checks};
ghost use Rattle.uc_answer.specs.Lines.{joined};
ghost use Rattle.uc_answer.specs.TableLines.{tabled_line, tabled_status};
ghost use Rattle.uc_top.specs.Answers.{TableAnswers};
ghost use Rattle.uc_top.specs.FileAnswers.{FileAnswers};
ghost use Rattle.uc_top.specs.TableAnswers.{TableTextAnswers};
ghost use Rattle.uc_top.specs.Faulting.{AnswersFault};

use crate::loading::{Loaded, absent_answer, failed_answer, fetch_text, load_problem};
use std::alloc::{AllocError, Global};
use uc_answer::{Answer, table_fault_answer, tabled_answer};
use uc_clause::MAX_BYTES;
use uc_edge::{Fetched, Library};
use uc_problem::Problem;
use uc_table::{Table, check_table, read_table};
use uc_term::{Symbols, Text};

/// The answer to `table` for the problem file and the table file of these names.
pub(crate) fn table_answer<L: Library>(
    alloc: Global,
    root: Option<&Text>,
    name: &Text,
    file: &Text,
    library: &mut L,
) -> Result<Answer, AllocError>
    ensures answers { IfOk result (λ answer. TableAnswers (L.holds library.old) (L.faults library.old) (L.faults library.new) (option_copied root.entry) name.now file.now answer.status (joined answer.lines)) }
    ensures same { L.holds library.new ≡ L.holds library.old }
    ensures later { L.faults library.old ≤ L.faults library.new }
    ensures faulted { AnswersFault (L.faults library.old) (L.faults library.new) (L.failed_at library.old) (L.failed_at library.new) [] result }
{
    match load_problem(alloc, root, name, library)? {
        Loaded::Refused(answer) => Ok(answer),
        Loaded::Held(problem, symbols) => file_answer(
            alloc,
            &problem,
            file.as_bytes(),
            &symbols,
            library,
        ),
    }
}

// The answer for a problem that is loaded, and the table file of this name.
fn file_answer<L: Library>(
    alloc: Global,
    problem: &Problem,
    file: &[u8],
    symbols: &Symbols,
    library: &mut L,
) -> Result<Answer, AllocError>
    requires agrees { Agrees symbols.now problem.now }
    ensures answers { IfOk result (λ answer. FileAnswers (L.holds library.old) (L.faults library.old) (L.faults library.new) (TableTextAnswers symbols.now problem.now file.now) file.now answer.status (joined answer.lines)) }
    ensures same { L.holds library.new ≡ L.holds library.old }
    ensures later { L.faults library.old ≤ L.faults library.new }
    ensures faulted { AnswersFault (L.faults library.old) (L.faults library.new) (L.failed_at library.old) (L.failed_at library.new) [] result }
{
    match fetch_text(alloc, library, file, MAX_BYTES + 1)? {
        Fetched::Found(text) => text_answer(alloc, problem, file, text.as_bytes(), symbols),
        Fetched::Absent => absent_answer(alloc, file),
        Fetched::Failed => failed_answer(alloc, file),
    }
}

// The answer for the text of a table file of this name.
fn text_answer(
    alloc: Global,
    problem: &Problem,
    file: &[u8],
    text: &[u8],
    symbols: &Symbols,
) -> Result<Answer, AllocError>
    requires agrees { Agrees symbols.now problem.now }
    ensures { IfOk result (λ answer. TableTextAnswers symbols.now problem.now file.now text.now answer.status (joined answer.lines)) }
{
    match read_table(alloc, text, problem.signature.symbols.as_slice(), symbols) {
        Ok(table) => checked_answer(alloc, problem, &table, symbols),
        Err(fault) => table_fault_answer(alloc, file, fault),
    }
}

// What a table is to a problem.
fn checked_answer(
    alloc: Global,
    problem: &Problem,
    table: &Table,
    symbols: &Symbols,
) -> Result<Answer, AllocError>
    requires agrees { Agrees symbols.now problem.now }
    requires table { IsTableOf symbols.now problem.now.signature.symbols table.now }
    ensures { IfOk result (λ answer. (tabled : AnyTabled) × Checks table.now problem.now.clauses tabled × (answer.status ≡ tabled_status tabled) × (joined answer.lines ≡ tabled_line tabled)) }
{
    let tabled = check_table(alloc, problem, table, symbols)?;
    tabled_answer(alloc, &tabled)
}
