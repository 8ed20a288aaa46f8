//! The command `decide` by a search.

ghost use Rattle.std.specs.Prelude.{◌≡◌, ◌≤◌, [], Some, IfOk};
ghost use Rattle.uc_edge.specs.Files.{Files};
ghost use Rattle.uc_check.specs.Clauses.{axioms_of};
ghost use Rattle.uc_problem.specs.Holds.{Agrees};
ghost use Rattle.uc_order.specs.Laws.{HasSym};
ghost use Rattle.uc_fact.specs.Ground.{AreOfSignature};
ghost use Rattle.uc_book.specs.Openings.{opening_of};
ghost use Rattle.uc_worker.specs.Ends.{IsSearchedBy};
ghost use Rattle.uc_ordering.specs.Fits.{Fits};
ghost use Rattle.uc_ordering.specs.Meaning.{meaning_of};
ghost use Rattle.uc_answer.specs.Lines.{joined};
ghost use Rattle.uc_answer.specs.QuestionWords.{AreShort};
ghost use Rattle.uc_answer.specs.VerdictLines.{opening_for};
ghost use Rattle.uc_answer.specs.RightReplies.{AreGroundQuestions};
ghost use Rattle.uc_top.specs.Limits.{WeighsWithin, WorksWithin, SearchesWithin};
ghost use Rattle.uc_top.specs.DecideAnswers.{opening_of_axioms, IsDecided};
ghost use Rattle.uc_top.specs.Answers.{DecideAnswers};
ghost use Rattle.uc_top.specs.DecideRuns.{Decided, KeepsDecision};
ghost use Rattle.uc_top.specs.DecideTold.{AreGroundOfTable, TellsEnd, IsToldBySearch};
ghost use Rattle.uc_top.specs.Faulting.{AnswersFault};

use crate::axioms::without_goals;
use crate::loading::{Loaded, load_problem};
use crate::replying::replied_answer;
use crate::searching::search_for;
use std::alloc::{AllocError, Global};
use std::sync::Wait;
use std::thread::Threads;
use uc_answer::{Answer, Question, STOPPED, choice_answer, out_lines, read_questions, word_answer};
use uc_book::Book;
use uc_edge::{Gate, Library};
use uc_machine::Verdict;
use uc_order::{Order, OrderSpec};
use uc_ordering::{Chosen, choose};
use uc_problem::{Encoded, Problem};
use uc_search::live_system;
use uc_shelf::Shelf;
use uc_term::{Symbols, Text};
use uc_words::Command;

/// The answer to `decide` for the problem file of this name and the questions that are these words, by the command's order,
/// budget, limit on pairs, workers and steps.
pub(crate) fn decide_answer<R: Threads + Wait + Sync, L: Library, G: Gate + Sync>(
    rt: &R,
    alloc: Global,
    command: &Command,
    name: &Text,
    words: &[Text],
    library: &mut L,
    gate: &G,
) -> Result<Answer, AllocError>
    requires w0 { WeighsWithin command.now.order }
    requires search { SearchesWithin command.now }
    requires short { AreShort words.now }
    ensures answers { IfOk result (λ answer. DecideAnswers (L.holds library.old) (L.faults library.old) (L.faults library.new) command.now name.now words.now answer.status (joined answer.lines)) }
    ensures promise { IfOk result (λ answer. answer.status ≤ 2 → (files : Files) → L.holds library.old ≡ Some files → KeepsDecision files command.now name.now words.now answer.status (joined answer.lines)) }
    ensures same { L.holds library.new ≡ L.holds library.old }
    ensures later { L.faults library.old ≤ L.faults library.new }
    ensures faulted { AnswersFault (L.faults library.old) (L.faults library.new) (L.failed_at library.old) (L.failed_at library.new) [] result }
{
    match load_problem(alloc, command.root.as_ref(), name, library)? {
        Loaded::Refused(answer) => Ok(answer),
        Loaded::Held(problem, mut symbols) => asked_answer(
            rt,
            alloc,
            command,
            name.as_bytes(),
            words,
            &problem,
            &mut symbols,
            gate,
        ),
    }
}

/// The answer for a problem that is loaded. The order is chosen before the questions are read, since what is wrong with it is told
/// first.
fn asked_answer<R: Threads + Wait + Sync, G: Gate + Sync>(
    rt: &R,
    alloc: Global,
    command: &Command,
    name: &[u8],
    words: &[Text],
    problem: &Problem,
    symbols: &mut Symbols,
    gate: &G,
) -> Result<Answer, AllocError>
    requires agrees { Agrees symbols.old problem.now }
    requires w0 { WeighsWithin command.now.order }
    requires search { SearchesWithin command.now }
    requires short { AreShort words.now }
    ensures answers { IfOk result (λ answer. IsDecided symbols.old command.now name.now words.now problem.now answer.status (joined answer.lines)) }
    ensures promise { IfOk result (λ answer. answer.status ≤ 2 → Decided symbols.old command.now name.now words.now problem.now answer.status (joined answer.lines)) }
{
    let known = problem.signature.symbols.as_slice();
    match choose(alloc, &command.order, symbols, &problem.signature, None) {
        Ok(spec) => match read_questions(alloc, words, known, symbols) {
            Ok(asked) => {
                let questions = asked.as_slice();
                searched_answer(
                    rt, alloc, command, name, problem, questions, &spec, symbols, gate,
                )
            }
            Err(misread) => word_answer(alloc, misread.number, &misread.fault),
        },
        Err(fault) => choice_answer(alloc, &fault),
    }
}

/// The answer by this order: the search from the problem's axioms, and what it tells of the questions.
fn searched_answer<R: Threads + Wait + Sync, G: Gate + Sync>(
    rt: &R,
    alloc: Global,
    command: &Command,
    name: &[u8],
    problem: &Problem,
    questions: &[Question],
    spec: &OrderSpec,
    symbols: &Symbols,
    gate: &G,
) -> Result<Answer, AllocError>
    requires agrees { Agrees symbols.now problem.now }
    requires fits { Fits symbols.now problem.now.signature.symbols spec.now }
    requires ground { AreGroundQuestions (meaning_of symbols.now spec.now) questions.now }
    requires search { SearchesWithin command.now }
    ensures { IfOk result (λ answer. IsToldBySearch symbols.now (meaning_of symbols.now spec.now) command.now name.now (axioms_of problem.now.clauses) questions.now (opening_of_axioms command.now problem.now) answer.status (joined answer.lines)) }
{
    let encoded = without_goals(alloc, problem)?;
    let order = Chosen::new(alloc, spec, symbols, problem.signature.symbols.as_slice())?;
    let shelf = Shelf::new(alloc)?;
    let asked = Asked {
        name,
        command,
        questions,
        symbols,
    };
    told_answer(rt, alloc, &asked, &encoded, &order, &shelf, gate)
}

/// Questions of a command about the problem of this name, and the symbols.
#[derive(Clone, Copy)]
struct Asked<'a> {
    name: &'a [u8],
    command: &'a Command,
    questions: &'a [Question],
    symbols: &'a Symbols,
}

/// The answer of a search from these axioms, without goals, by this order.
fn told_answer<R: Threads + Wait + Sync, O: Order + Sync, G: Gate + Sync>(
    rt: &R,
    alloc: Global,
    asked: &Asked,
    encoded: &Encoded,
    order: &O,
    shelf: &Shelf,
    gate: &G,
) -> Result<Answer, AllocError>
    requires no_goals { encoded.now.goals ≡ [] }
    requires over { AreOfSignature (HasSym (O.meaning order.now)) (O.meaning order.now).arity encoded.now.axioms }
    requires ground { AreGroundQuestions (O.meaning order.now) asked.now.questions.now }
    requires of_table { AreGroundOfTable asked.now.symbols.now (O.meaning order.now) }
    requires search { SearchesWithin asked.now.command.now }
    ensures { IfOk result (λ answer. IsToldBySearch asked.now.symbols.now (O.meaning order.now) asked.now.command.now asked.now.name.now encoded.now.axioms asked.now.questions.now (opening_for asked.now.command.now encoded.now) answer.status (joined answer.lines)) }
{
    let command = asked.command;
    let searched = search_for(rt, alloc, command, encoded, order, shelf, gate)?;
    closed_answer(
        rt,
        alloc,
        asked,
        order,
        shelf,
        &searched.book,
        searched.verdict,
        gate,
    )
}

/// The answer of a book without goals that has this verdict.
fn closed_answer<R: Threads + Sync, O: Order + Sync, G: Gate + Sync>(
    rt: &R,
    alloc: Global,
    asked: &Asked,
    order: &O,
    shelf: &Shelf,
    book: &Book<O>,
    verdict: Verdict,
    gate: &G,
) -> Result<Answer, AllocError>
    requires workers { WorksWithin asked.now.command.now }
    requires shelf { book.now.opening.shelf ≡ shelf.now }
    requires no_goals { book.now.opening.problem.goals ≡ [] }
    requires over { AreOfSignature (HasSym (O.meaning order.now)) (O.meaning order.now).arity book.now.opening.problem.axioms }
    requires ground { AreGroundQuestions (O.meaning order.now) asked.now.questions.now }
    requires of_table { AreGroundOfTable asked.now.symbols.now (O.meaning order.now) }
    requires searched { IsSearchedBy (O.meaning order.now) (opening_of book.now.opening) asked.now.command.now.workers verdict book.now.state }
    ensures { IfOk result (λ answer. TellsEnd asked.now.symbols.now (O.meaning order.now) asked.now.command.now asked.now.name.now book.now.opening.problem.axioms asked.now.questions.now book.now.state verdict answer.status (joined answer.lines)) }
{
    match verdict {
        Verdict::Saturated => {
            let system = live_system(alloc, shelf, book.front())?;
            replied_answer(
                rt,
                alloc,
                asked.command,
                asked.questions,
                asked.symbols,
                order,
                &system,
                gate,
            )
        }
        _ => Ok(Answer {
            status: STOPPED,
            lines: out_lines(alloc, asked.command, asked.name, shelf, book, verdict)?,
        }),
    }
}
