//! The command `rewrite`.

ghost use Rattle.std.specs.Prelude.{◌≡◌, ◌≤◌, ◌<◌, ◌^◌, [], None, length, IfOk};
ghost use Rattle.uc_term.specs.Table.{IsOf};
ghost use Rattle.uc_problem.specs.Holds.{Agrees};
ghost use Rattle.uc_ordering.specs.Fits.{Fits};
ghost use Rattle.uc_rewrite.specs.declared.normal.Normal.{Normal as AnyNormal};
ghost use Rattle.uc_answer.specs.Lines.{joined};
ghost use Rattle.uc_answer.specs.ChainLines.{stop_status, AreNormalLines};
ghost use Rattle.uc_top.specs.Limits.{WeighsWithin};
ghost use Rattle.uc_top.specs.RewriteAnswers.{IsNormalFor, IsRewritten};
ghost use Rattle.uc_top.specs.Answers.{RewriteAnswers};
ghost use Rattle.uc_top.specs.Faulting.{AnswersFault};

use crate::axioms::{are_few, axioms_of};
use crate::loading::{Loaded, load_problem};
use std::alloc::{AllocError, Global};
use uc_answer::{Answer, DONE, STOPPED, chain_lines, choice_answer, read_word, word_answer};
use uc_edge::Library;
use uc_fact::Stop;
use uc_order::OrderSpec;
use uc_ordering::{Chosen, choose};
use uc_problem::Problem;
use uc_rewrite::{Scan, normalise};
use uc_term::{Symbols, Term, Text};
use uc_words::Command;

/// The answer to `rewrite` for the problem file of this name and the term that is this word, by the command's order and limit.
pub(crate) fn rewrite_answer<L: Library>(
    alloc: Global,
    command: &Command,
    name: &Text,
    word: &Text,
    library: &mut L,
) -> Result<Answer, AllocError>
    requires w0 { WeighsWithin command.now.order }
    requires short { length word.now < 2 ^ 31 }
    ensures answers { IfOk result (λ answer. RewriteAnswers (L.holds library.old) (L.faults library.old) (L.faults library.new) command.now.order command.now.limit word.now command.now.root name.now answer.status (joined answer.lines)) }
    ensures same { L.holds library.new ≡ L.holds library.old }
    ensures later { L.faults library.old ≤ L.faults library.new }
    ensures faulted { AnswersFault (L.faults library.old) (L.faults library.new) (L.failed_at library.old) (L.failed_at library.new) [] result }
{
    match load_problem(alloc, command.root.as_ref(), name, library)? {
        Loaded::Refused(answer) => Ok(answer),
        Loaded::Held(problem, mut symbols) => rewritten_answer(
            alloc,
            &problem,
            command,
            word.as_bytes(),
            &mut symbols,
        ),
    }
}

// The answer for a problem that is loaded. The order is chosen before the word is read, since what is wrong with it is told first.
fn rewritten_answer(
    alloc: Global,
    problem: &Problem,
    command: &Command,
    word: &[u8],
    symbols: &mut Symbols,
) -> Result<Answer, AllocError>
    requires agrees { Agrees symbols.old problem.now }
    requires w0 { WeighsWithin command.now.order }
    requires short { length word.now < 2 ^ 31 }
    ensures { IfOk result (λ answer. IsRewritten symbols.old command.now.order command.now.limit word.now problem.now answer.status (joined answer.lines)) }
{
    match choose(alloc, &command.order, symbols, &problem.signature, None) {
        Ok(spec) => match read_word(alloc, word, problem.signature.symbols.as_slice(), symbols) {
            Ok(term) => normal_answer(alloc, &spec, problem, &term, command.limit, symbols),
            Err(fault) => word_answer(alloc, 0, &fault),
        },
        Err(fault) => choice_answer(alloc, &fault),
    }
}

// The answer for a term.
fn normal_answer(
    alloc: Global,
    spec: &OrderSpec,
    problem: &Problem,
    term: &Term,
    limit: u32,
    symbols: &Symbols,
) -> Result<Answer, AllocError>
    requires agrees { Agrees symbols.now problem.now }
    requires fits { Fits symbols.now problem.now.signature.symbols spec.now }
    requires of_table { IsOf symbols.now term.now }
    ensures { IfOk result (λ answer. (normal : AnyNormal) × IsNormalFor symbols.now spec.now limit problem.now term.now normal × (answer.status ≡ stop_status normal.stop) × AreNormalLines symbols.now normal (joined answer.lines)) }
{
    let order = Chosen::new(alloc, spec, symbols, problem.signature.symbols.as_slice())?;
    let axioms = axioms_of(alloc, problem.clauses.as_slice())?;
    are_few(axioms.as_slice())?;
    let scan = Scan::new(axioms.as_slice());
    let normal = normalise(alloc, term, &scan, &order, limit)?;
    Ok(Answer {
        status: stop_status(normal.stop),
        lines: chain_lines(alloc, &normal, symbols)?,
    })
}

fn stop_status(stop: Stop) -> u8
    ensures { result ≡ stop_status stop }
{
    match stop {
        Stop::Full => DONE,
        Stop::Steps => STOPPED,
        Stop::Size => STOPPED,
    }
}
