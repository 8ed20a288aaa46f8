//! The command `show`.

ghost use Rattle.std.specs.Prelude.{◌≡◌, ◌≤◌, [], IfOk};
ghost use Rattle.std.specs.Option.{option_copied};
ghost use Rattle.uc_term.specs.Gathering.{AreOf};
ghost use Rattle.uc_problem.specs.Holds.{terms_of};
ghost use Rattle.uc_answer.specs.Lines.{joined, shown_lines};
ghost use Rattle.uc_top.specs.Answers.{ShowAnswers};
ghost use Rattle.uc_top.specs.Faulting.{AnswersFault};

use crate::loading::{Loaded, load_problem};
use std::alloc::{AllocError, Global};
use uc_answer::{Answer, DONE, shown_lines};
use uc_clause::Sourced;
use uc_edge::Library;
use uc_term::{Symbols, Text};

/// The answer to `show` for the problem file of this name.
pub(crate) fn show_answer<L: Library>(
    alloc: Global,
    root: Option<&Text>,
    name: &Text,
    library: &mut L,
) -> Result<Answer, AllocError>
    ensures answers { IfOk result (λ answer. ShowAnswers (L.holds library.old) (L.faults library.old) (L.faults library.new) (option_copied root.entry) name.now answer.status (joined answer.lines)) }
    ensures same { L.holds library.new ≡ L.holds library.old }
    ensures later { L.faults library.old ≤ L.faults library.new }
    ensures faulted { AnswersFault (L.faults library.old) (L.faults library.new) (L.failed_at library.old) (L.failed_at library.new) [] result }
{
    match load_problem(alloc, root, name, library)? {
        Loaded::Refused(answer) => Ok(answer),
        Loaded::Held(problem, symbols) => clauses_answer(
            alloc,
            problem.clauses.as_slice(),
            &symbols,
        ),
    }
}

// The clauses, each on a line of its own.
fn clauses_answer(
    alloc: Global,
    clauses: &[Sourced],
    symbols: &Symbols,
) -> Result<Answer, AllocError>
    requires { AreOf symbols.now (terms_of clauses.now) }
    ensures { IfOk result (λ answer. (answer.status ≡ 0) × (joined answer.lines ≡ shown_lines symbols.now clauses.now)) }
{
    Ok(Answer {
        status: DONE,
        lines: shown_lines(alloc, clauses, symbols)?,
    })
}
