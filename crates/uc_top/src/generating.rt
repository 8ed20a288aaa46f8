//! The command `gen`.

ghost use Rattle.std.specs.Prelude.{◌≡◌, ◌<◌, ◌≤◌, ◌^◌, ℕ, [], ◌∷◌, length, true, IfOk};
ghost use Rattle.uc_fact.specs.Ground.{AreOfSignature};
ghost use Rattle.uc_order.specs.Laws.{HasSym};
ghost use Rattle.uc_book.specs.Openings.{opening_of};
ghost use Rattle.uc_worker.specs.Ends.{IsSearchedBy};
ghost use Rattle.uc_words.specs.declared.command.Verb.TheVariants.{Gen};
ghost use Rattle.uc_words.specs.Reads.{numbers_fit};
ghost use Rattle.uc_ordering.specs.Fits.{Fits};
ghost use Rattle.uc_answer.specs.Lines.{joined};
ghost use Rattle.uc_answer.specs.VerdictLines.{opening_for};
ghost use Rattle.uc_gen.specs.Counting.{AreLowest};
ghost use Rattle.uc_top.specs.Limits.{SearchesWithin};
ghost use Rattle.uc_top.specs.GenAnswers.{IsPosed, IsCompleted, GenAnswers};
ghost use Rattle.uc_top.specs.GenTold.{TellsCount, IsToldByCount};

use crate::axioms::{are_few, without_goals};
use crate::gen_lines::counted_answer;
use crate::searching::search_for;
use std::alloc::{AllocError, Global};
use std::sync::Wait;
use std::thread::Threads;
use uc_answer::{Answer, STOPPED, out_lines};
use uc_book::Book;
use uc_edge::Gate;
use uc_gen::{count_forms, default_order, generate};
use uc_machine::Verdict;
use uc_order::{Order, OrderSpec};
use uc_ordering::Chosen;
use uc_problem::{Encoded, Problem};
use uc_search::live_system;
use uc_shelf::Shelf;
use uc_term::{Sym, Symbols, Text};
use uc_words::{Command, number};

const NAME: &[u8] = b"gen";

/// Returns the answer to `gen` for these two words, by the command's budget, limit on pairs and workers.
pub(crate) fn gen_answer<R: Threads + Wait + Sync, G: Gate + Sync>(
    rt: &R,
    alloc: Global,
    command: &Command,
    count: &Text,
    start: &Text,
    gate: &G,
) -> Result<Answer, AllocError>
    requires words { command.now.positionals ≡ count.now ∷ start.now ∷ [] }
    requires numbers { numbers_fit Gen (count.now ∷ start.now ∷ []) ≡ true }
    requires search { SearchesWithin command.now }
    ensures { IfOk result (λ answer. GenAnswers command.now answer.status (joined answer.lines)) }
{
    let Some(n) = number(count.as_bytes()) else {
        unreachable!()
    };
    let Some(start) = number(start.as_bytes()) else {
        unreachable!()
    };
    posed_answer(rt, alloc, command, n, start, gate)
}

/// Returns the answer for so many constants and the sequence with this start.
fn posed_answer<R: Threads + Wait + Sync, G: Gate + Sync>(
    rt: &R,
    alloc: Global,
    command: &Command,
    n: u32,
    start: u32,
    gate: &G,
) -> Result<Answer, AllocError>
    requires some { 1 ≤ n }
    requires most { n ≤ 2000 }
    requires start { start < 2 ^ 31 }
    requires search { SearchesWithin command.now }
    ensures { IfOk result (λ answer. IsCompleted command.now n start answer.status (joined answer.lines)) }
{
    let mut symbols = Symbols::new(alloc);
    let problem = generate(alloc, n, start, &mut symbols)?;
    let spec = default_order(alloc, &symbols, &problem.signature)?;
    searched_answer(rt, alloc, command, &problem, &spec, &symbols, gate)
}

/// Returns the answer by this order: the search from the axioms, and what it tells.
fn searched_answer<R: Threads + Wait + Sync, G: Gate + Sync>(
    rt: &R,
    alloc: Global,
    command: &Command,
    problem: &Problem,
    spec: &OrderSpec,
    symbols: &Symbols,
    gate: &G,
) -> Result<Answer, AllocError>
    requires posed { (n : ℕ) × (start : ℕ) × IsPosed n start symbols.now problem.now spec.now }
    requires fits { Fits symbols.now problem.now.signature.symbols spec.now }
    requires search { SearchesWithin command.now }
    ensures { (n start : ℕ) → IsPosed n start symbols.now problem.now spec.now → IfOk result (λ answer. IsCompleted command.now n start answer.status (joined answer.lines)) }
{
    let encoded = without_goals(alloc, problem)?;
    let order = Chosen::new(alloc, spec, symbols, problem.signature.symbols.as_slice())?;
    let shelf = Shelf::new(alloc)?;
    match problem.signature.symbols.as_slice() {
        [_, constants @ ..] => {
            told_answer(
                rt, alloc, command, constants, &encoded, &order, &shelf, gate,
            )
        }
        _ => unreachable!(),
    }
}

/// Returns the answer of a search from these axioms, without goals, by this order.
fn told_answer<R: Threads + Wait + Sync, O: Order + Sync, G: Gate + Sync>(
    rt: &R,
    alloc: Global,
    command: &Command,
    constants: &[Sym],
    encoded: &Encoded,
    order: &O,
    shelf: &Shelf,
    gate: &G,
) -> Result<Answer, AllocError>
    requires no_goals { encoded.now.goals ≡ [] }
    requires over { AreOfSignature (HasSym (O.meaning order.now)) (O.meaning order.now).arity encoded.now.axioms }
    requires lowest { AreLowest (O.meaning order.now) constants.now }
    requires few { length constants.now ≤ 2000 }
    requires search { SearchesWithin command.now }
    ensures { IfOk result (λ answer. IsToldByCount (O.meaning order.now) command.now constants.now (opening_for command.now encoded.now) answer.status (joined answer.lines)) }
{
    let searched = search_for(rt, alloc, command, encoded, order, shelf, gate)?;
    closed_answer(
        alloc,
        command,
        constants,
        order,
        shelf,
        &searched.book,
        searched.verdict,
    )
}

/// Returns the answer of a book without goals that has this verdict.
fn closed_answer<O: Order>(
    alloc: Global,
    command: &Command,
    constants: &[Sym],
    order: &O,
    shelf: &Shelf,
    book: &Book<O>,
    verdict: Verdict,
) -> Result<Answer, AllocError>
    requires shelf { book.now.opening.shelf ≡ shelf.now }
    requires no_goals { book.now.opening.problem.goals ≡ [] }
    requires over { AreOfSignature (HasSym (O.meaning order.now)) (O.meaning order.now).arity book.now.opening.problem.axioms }
    requires lowest { AreLowest (O.meaning order.now) constants.now }
    requires few { length constants.now ≤ 2000 }
    requires searched { IsSearchedBy (O.meaning order.now) (opening_of book.now.opening) command.now.workers verdict book.now.state }
    ensures { IfOk result (λ answer. TellsCount (O.meaning order.now) command.now constants.now book.now.state verdict answer.status (joined answer.lines)) }
{
    match verdict {
        Verdict::Saturated => {
            let system = live_system(alloc, shelf, book.front())?;
            are_few(system.facts.as_slice())?;
            let forms = count_forms(alloc, &system, order, constants)?;
            counted_answer(alloc, constants.len() as u32, constants.len() as u32, forms)
        }
        _ => Ok(Answer {
            status: STOPPED,
            lines: out_lines(alloc, command, NAME, shelf, book, verdict)?,
        }),
    }
}
