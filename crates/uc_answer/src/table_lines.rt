//! The answers about a finite table.

ghost use Rattle.std.specs.Prelude.{◌≡◌, ◌++◌, codes, decimal, IfOk};
ghost use Rattle.uc_tstp.specs.Printing.{further};
ghost use Rattle.uc_answer.specs.Lines.{joined};
ghost use Rattle.uc_answer.specs.TableLines.{assigned_line, tabled_line, tabled_status, table_fault_line};

use crate::answer::{Answer, DONE, NO, REFUSED, of_line};
use crate::chaining::{write_number, write_numbers};
use crate::lines::{located, word_line};
use std::alloc::{AllocError, Global};
use uc_table::{TableFault, Tabled};
use uc_term::Text;

/// Returns the answer of what a table is to a problem: a model, with status 0; one under which an axiom fails or the sides of a
/// goal meet, with status 1; or one under which a clause has too many assignments, with status 3.
pub fn tabled_answer(alloc: Global, tabled: &Tabled) -> Result<Answer, AllocError>
    ensures { IfOk result (λ answer. (answer.status ≡ tabled_status tabled.now) × (joined answer.lines ≡ tabled_line tabled.now)) }
{
    of_line(alloc, tabled_status(tabled), tabled_line(alloc, tabled)?)
}

fn tabled_status(tabled: &Tabled) -> u8
    ensures { result ≡ tabled_status tabled.now }
{
    match tabled {
        Tabled::Model => DONE,
        Tabled::AxiomFails(..) => NO,
        Tabled::GoalMeets(..) => NO,
        Tabled::Assignments(_) => REFUSED,
    }
}

fn tabled_line(alloc: Global, tabled: &Tabled) -> Result<Text, AllocError>
    ensures { IfOk result (λ text. text ≡ tabled_line tabled.now) }
{
    match tabled {
        Tabled::Model => Text::from_bytes(alloc, b"model\n"),
        Tabled::AxiomFails(axiom, values) => {
            assigned_line(alloc, b"axiom ", *axiom, b" fails", values.as_slice())
        }
        Tabled::GoalMeets(goal, values) => {
            assigned_line(alloc, b"goal ", *goal, b" meets", values.as_slice())
        }
        Tabled::Assignments(_) => Text::from_bytes(alloc, b"% table Limit assignments\n"),
    }
}

// The line of an axiom or a goal, and of an assignment.
fn assigned_line(
    alloc: Global,
    kind: &[u8],
    number: u32,
    says: &[u8],
    values: &[u32],
) -> Result<Text, AllocError>
    ensures { IfOk result (λ text. text ≡ assigned_line kind.now number says.now values.now) }
{
    let mut line = Text::from_bytes(alloc, kind)?;
    write_number(&mut line, number)?;
    line.extend(says)?;
    write_numbers(&mut line, b" ", values)?;
    line.extend(b"\n")?;
    Ok(line)
}

/// Returns the answer for a text that isn't read as a table: the line of the fault, with status 3. Fails also where the fault is
/// itself for want of memory.
pub fn table_fault_answer(
    alloc: Global,
    file: &[u8],
    fault: TableFault,
) -> Result<Answer, AllocError>
    ensures answer { IfOk result (λ answer. (answer.status ≡ 3) × (joined answer.lines ≡ table_fault_line file.now fault)) }
    ensures not_memory { IfOk result (λ _. fault ≡ TableFault.NoMemory → ⊥) }
{
    if fault == TableFault::NoMemory {
        return Err(AllocError);
    }
    of_line(alloc, REFUSED, table_fault_line(alloc, file, fault)?)
}

// The line of a refusal of a table's text; for want of memory, no bytes.
fn table_fault_line(alloc: Global, file: &[u8], fault: TableFault) -> Result<Text, AllocError>
    ensures { IfOk result (λ text. text ≡ table_fault_line file.now fault) }
{
    match fault {
        TableFault::Syntax(place) => located(alloc, file, place, b"Syntax", b""),
        TableFault::Version(place) => located(alloc, file, place, b"Version", b""),
        TableFault::TooManyCells(place) => word_line(alloc, file, place, b"Limit", b"cells"),
        TableFault::TooManyBytes(place) => word_line(alloc, file, place, b"Limit", b"bytes"),
        TableFault::NoMemory => Ok(Text::new(alloc)),
    }
}
