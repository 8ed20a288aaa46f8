//! The lines of clauses.

ghost use Rattle.std.specs.Prelude.{◌≡◌, IfOk};
ghost use Rattle.uc_term.specs.Table.{IsOf};
ghost use Rattle.uc_term.specs.Gathering.{AreOf};
ghost use Rattle.uc_problem.specs.Holds.{terms_of};
ghost use Rattle.uc_answer.specs.Lines.{joined, shown_line, shown_lines};

use std::alloc::{AllocError, Global};
use uc_clause::{Clause, Sourced, print_clause};
use uc_term::{Seq, Symbols, Text};

/// Returns the lines of clauses, in order.
pub fn shown_lines(
    alloc: Global,
    clauses: &[Sourced],
    symbols: &Symbols,
) -> Result<Seq<Text>, AllocError>
    requires { AreOf symbols.now (terms_of clauses.now) }
    ensures { IfOk result (λ lines. joined lines ≡ shown_lines symbols.now clauses.now) }
{
    let mut lines = Seq::new(alloc);
    for sourced in clauses {
        lines.push(shown_line(alloc, &sourced.clause, symbols)?)?;
    }
    Ok(lines)
}

// The line of a clause.
fn shown_line(alloc: Global, clause: &Clause, symbols: &Symbols) -> Result<Text, AllocError>
    requires left { IsOf symbols.now clause.now.left }
    requires right { IsOf symbols.now clause.now.right }
    ensures { IfOk result (λ text. text ≡ shown_line symbols.now clause.now) }
{
    let mut line = print_clause(alloc, clause, symbols)?;
    line.extend(b"\n")?;
    Ok(line)
}
