//! The commands that list a problem's axioms by an order: `order` and `pairs`.

ghost use Rattle.std.specs.Prelude.{◌≡◌, ◌≤◌, [], None, IfOk};
ghost use Rattle.uc_check.specs.Clauses.{axioms_of};
ghost use Rattle.uc_problem.specs.Holds.{Agrees};
ghost use Rattle.uc_ordering.specs.Fits.{Fits};
ghost use Rattle.uc_ordering.specs.Meaning.{meaning_of};
ghost use Rattle.uc_answer.specs.Axioms.{AreEquationsOf};
ghost use Rattle.uc_answer.specs.Lines.{joined};
ghost use Rattle.uc_top.specs.Limits.{WeighsWithin};
ghost use Rattle.uc_top.specs.ListAnswers.{AreListed, IsListed};
ghost use Rattle.uc_top.specs.Answers.{ListAnswers};
ghost use Rattle.uc_top.specs.Faulting.{AnswersFault};

use crate::axioms::{are_few, axioms_of};
use crate::loading::{Loaded, load_problem};
use std::alloc::{AllocError, Global};
use uc_answer::{Answer, DONE, all_pair_lines, choice_answer, directed_lines};
use uc_edge::Library;
use uc_order::{Order, OrderSpec};
use uc_ordering::{Chosen, choose};
use uc_problem::Problem;
use uc_term::{Equation, Seq, Symbols, Text};
use uc_words::{Command, OrderWords};

/// What is listed of a problem's axioms.
#[derive(Clone, Copy)]
pub(crate) enum Listing {
    /// How the order directs each.
    Directions,
    /// Their critical pairs, of each outer axiom with each inner one.
    CriticalPairs,
}

/// The answer to `order` or to `pairs` for the problem file of this name, by the command's order.
pub(crate) fn list_answer<L: Library>(
    alloc: Global,
    command: &Command,
    name: &Text,
    listing: Listing,
    library: &mut L,
) -> Result<Answer, AllocError>
    requires w0 { WeighsWithin command.now.order }
    ensures answers { IfOk result (λ answer. ListAnswers (L.holds library.old) (L.faults library.old) (L.faults library.new) listing command.now.order command.now.root name.now answer.status (joined answer.lines)) }
    ensures same { L.holds library.new ≡ L.holds library.old }
    ensures later { L.faults library.old ≤ L.faults library.new }
    ensures faulted { AnswersFault (L.faults library.old) (L.faults library.new) (L.failed_at library.old) (L.failed_at library.new) [] result }
{
    match load_problem(alloc, command.root.as_ref(), name, library)? {
        Loaded::Refused(answer) => Ok(answer),
        Loaded::Held(problem, symbols) => listed_answer(
            alloc,
            &problem,
            &command.order,
            listing,
            &symbols,
        ),
    }
}

// The answer for a problem that is loaded.
fn listed_answer(
    alloc: Global,
    problem: &Problem,
    words: &OrderWords,
    listing: Listing,
    symbols: &Symbols,
) -> Result<Answer, AllocError>
    requires agrees { Agrees symbols.now problem.now }
    requires w0 { WeighsWithin words.now }
    ensures { IfOk result (λ answer. IsListed listing symbols.now words.now problem.now answer.status (joined answer.lines)) }
{
    match choose(alloc, words, symbols, &problem.signature, None) {
        Ok(spec) => lines_answer(alloc, &spec, problem, listing, symbols),
        Err(fault) => choice_answer(alloc, &fault),
    }
}

// The answer by this order.
fn lines_answer(
    alloc: Global,
    spec: &OrderSpec,
    problem: &Problem,
    listing: Listing,
    symbols: &Symbols,
) -> Result<Answer, AllocError>
    requires agrees { Agrees symbols.now problem.now }
    requires fits { Fits symbols.now problem.now.signature.symbols spec.now }
    ensures { IfOk result (λ answer. (answer.status ≡ 0) × AreListed listing symbols.now (meaning_of symbols.now spec.now) (axioms_of problem.now.clauses) (joined answer.lines)) }
{
    let order = Chosen::new(alloc, spec, symbols, problem.signature.symbols.as_slice())?;
    let axioms = axioms_of(alloc, problem.clauses.as_slice())?;
    let lines = listed_lines(alloc, &order, axioms.as_slice(), listing, symbols)?;
    Ok(Answer {
        status: DONE,
        lines,
    })
}

// The lines of these axioms.
fn listed_lines<O: Order>(
    alloc: Global,
    order: &O,
    axioms: &[Equation],
    listing: Listing,
    symbols: &Symbols,
) -> Result<Seq<Text>, AllocError>
    requires { AreEquationsOf symbols.now axioms.now }
    ensures { IfOk result (λ lines. AreListed listing symbols.now (O.meaning order.now) axioms.now (joined lines)) }
{
    match listing {
        Listing::Directions => directed_lines(alloc, order, axioms, symbols),
        Listing::CriticalPairs => {
            are_few(axioms)?;
            all_pair_lines(alloc, order, axioms, symbols)
        }
    }
}
