//! The command `model`.

ghost use Rattle.std.specs.Prelude.{◌≡◌, ◌≤◌, [], IfOk};
ghost use Rattle.uc_problem.specs.Holds.{Agrees};
ghost use Rattle.uc_answer.specs.Lines.{joined};
ghost use Rattle.uc_top.specs.Limits.{ModelsWithin};
ghost use Rattle.uc_top.specs.Answers.{ModelAnswers};
ghost use Rattle.uc_top.specs.ModelAnswers.{IsModelled};
ghost use Rattle.uc_top.specs.Faulting.{AnswersFault};

use crate::loading::{Loaded, load_problem};
use std::alloc::{AllocError, Global};
use uc_answer::{Answer, searched_answer};
use uc_edge::Library;
use uc_problem::Problem;
use uc_table::search;
use uc_term::{Symbols, Text};
use uc_words::Command;

/// The answer to `model` for the problem file of this name, by the command's size and budget.
pub(crate) fn model_answer<L: Library>(
    alloc: Global,
    command: &Command,
    name: &Text,
    library: &mut L,
) -> Result<Answer, AllocError>
    requires size { ModelsWithin command.now }
    ensures answers { IfOk result (λ answer. ModelAnswers (L.holds library.old) (L.faults library.old) (L.faults library.new) command.now name.now answer.status (joined answer.lines)) }
    ensures same { L.holds library.new ≡ L.holds library.old }
    ensures later { L.faults library.old ≤ L.faults library.new }
    ensures faulted { AnswersFault (L.faults library.old) (L.faults library.new) (L.failed_at library.old) (L.failed_at library.new) [] result }
{
    match load_problem(alloc, command.root.as_ref(), name, library)? {
        Loaded::Refused(answer) => Ok(answer),
        Loaded::Held(problem, symbols) => modelled_answer(
            alloc,
            command,
            name.as_bytes(),
            &problem,
            &symbols,
        ),
    }
}

// The answer for a problem that is loaded.
fn modelled_answer(
    alloc: Global,
    command: &Command,
    name: &[u8],
    problem: &Problem,
    symbols: &Symbols,
) -> Result<Answer, AllocError>
    requires size { ModelsWithin command.now }
    requires agrees { Agrees symbols.now problem.now }
    ensures { IfOk result (λ answer. IsModelled symbols.now command.now name.now problem.now answer.status (joined answer.lines)) }
{
    let (size, budget) = (command.size, command.budget);
    let searched = search(alloc, problem, size, budget, symbols)?;
    searched_answer(alloc, problem, name, size, budget, &searched, symbols)
}
