//! The command `prove`.

ghost use Rattle.std.specs.Prelude.{◌≡◌, ◌≤◌, ◌<◌, length, true, Option, Some, Ok, IfOk};
ghost use Rattle.uc_term.specs.declared.fresh.Fresh.{Fresh};
ghost use Rattle.uc_term.specs.Table.{Table, Grows, IsDistinct};
ghost use Rattle.uc_edge.specs.Files.{Files};
ghost use Rattle.uc_problem.specs.Holds.{Agrees};
ghost use Rattle.uc_problem.specs.Encodes.{Encodes};
ghost use Rattle.uc_problem.specs.Filling.{AddsMarks};
ghost use Rattle.uc_problem.specs.Marks.{Marks};
ghost use Rattle.uc_ordering.specs.Choice.{IsChosen};
ghost use Rattle.uc_ordering.specs.Fits.{Fits};
ghost use Rattle.uc_answer.specs.Lines.{joined};
ghost use Rattle.uc_answer.specs.PrintableProblems.{are_seen, IsRootSeen, CanBePrinted};
ghost use Rattle.uc_answer.specs.Promises.{Keeps};
ghost use Rattle.uc_top.specs.Limits.{WeighsWithin, SearchesWithin};
ghost use Rattle.uc_top.specs.ProveAnswers.{IsProveAnswer, ProveAnswers};
ghost use Rattle.uc_top.specs.ProveRuns.{KeepsPromise};
ghost use Rattle.uc_top.specs.Faulting.{AnswersFault, input_error};

use crate::loading::load_held;
use crate::searching::search_for;
use std::alloc::{AllocError, Global};
use std::sync::Wait;
use std::thread::Threads;
use uc_answer::{
    Answer, Closed, choice_answer, large_answer, unloaded_answer, verdict_answer, with_status,
};
use uc_edge::{Gate, Library};
use uc_order::OrderSpec;
use uc_ordering::{Chosen, choose};
use uc_problem::{EncodeFault, Encoded, Problem, encode};
use uc_shelf::Shelf;
use uc_term::{Symbols, Text};
use uc_words::Command;

/// The answer to `prove` for the problem file of this name, by the command's order, budget, limit on pairs and workers.
pub(crate) fn prove_answer<R: Threads + Wait + Sync, L: Library, G: Gate + Sync>(
    rt: &R,
    alloc: Global,
    command: &Command,
    name: &Text,
    library: &mut L,
    gate: &G,
) -> Result<Answer, AllocError>
    requires w0 { WeighsWithin command.now.order }
    requires search { SearchesWithin command.now }
    requires name { are_seen name.now ≡ true }
    requires some { 0 < length name.now }
    requires root { IsRootSeen command.now.root }
    ensures answers { IfOk result (λ answer. ProveAnswers command.now name.now (L.holds library.old) (L.faults library.old) (L.faults library.new) answer.status (joined answer.lines)) }
    ensures promise { IfOk result (λ answer. answer.status ≤ 2 → (files : Files) → L.holds library.old ≡ Some files → KeepsPromise files command.now name.now answer.status (joined answer.lines)) }
    ensures same { L.holds library.new ≡ L.holds library.old }
    ensures later { L.faults library.old ≤ L.faults library.new }
    ensures faulted { AnswersFault (L.faults library.old) (L.faults library.new) (L.failed_at library.old) (L.failed_at library.new) (input_error name.now) result }
{
    match load_held(alloc, command.root.as_ref(), name, library) {
        Ok((problem, mut symbols)) => {
            let name = name.as_bytes();
            let answer = encoded_answer(rt, alloc, command, name, &problem, &mut symbols, gate);
            // The entries of the table are all different, so what was read is the only reading.
            let _ = symbols.len();
            answer
        }
        Err(fault) => unloaded_answer(alloc, name.as_bytes(), &fault),
    }
}

/// The answer for a problem that is loaded.
fn encoded_answer<R: Threads + Wait + Sync, G: Gate + Sync>(
    rt: &R,
    alloc: Global,
    command: &Command,
    name: &[u8],
    problem: &Problem,
    symbols: &mut Symbols,
    gate: &G,
) -> Result<Answer, AllocError>
    requires agrees { Agrees symbols.old problem.now }
    requires w0 { WeighsWithin command.now.order }
    requires search { SearchesWithin command.now }
    ensures answers { IfOk result (λ answer. IsProveAnswer symbols.new command.now name.now symbols.old problem.now answer.status (joined answer.lines)) }
    ensures promise { IfOk result (λ answer. answer.status ≤ 2 → CanBePrinted symbols.new name.now problem.now → Keeps symbols.new command.now name.now problem.now answer.status (joined answer.lines)) }
    ensures adds { IfOk result (λ answer. answer.status ≤ 2 → IsDistinct symbols.new → (fresh : Option Fresh) → Marks symbols.new problem.now (Ok fresh) → AddsMarks symbols.old symbols.new fresh) }
    ensures grows { Grows symbols.old symbols.new }
{
    match encode(alloc, problem, symbols) {
        Ok(encoded) => ordered_answer(rt, alloc, command, name, problem, &encoded, symbols, gate),
        Err(EncodeFault::GoalTooLarge(number)) => {
            let goal = &problem.clauses.as_slice()[number as usize];
            with_status(alloc, b"InputError", name, large_answer(alloc, goal)?)
        }
        Err(EncodeFault::NoMemory) => Err(AllocError),
    }
}

/// The answer for a problem that is encoded.
fn ordered_answer<R: Threads + Wait + Sync, G: Gate + Sync>(
    rt: &R,
    alloc: Global,
    command: &Command,
    name: &[u8],
    problem: &Problem,
    encoded: &Encoded,
    symbols: &Symbols,
    gate: &G,
) -> Result<Answer, AllocError>
    requires agrees { Agrees symbols.now problem.now }
    requires encodes { Encodes symbols.now problem.now (Ok encoded.now) }
    requires w0 { WeighsWithin command.now.order }
    requires search { SearchesWithin command.now }
    ensures answers { (loaded : Table) → AddsMarks loaded symbols.now encoded.now.fresh → IfOk result (λ answer. IsProveAnswer symbols.now command.now name.now loaded problem.now answer.status (joined answer.lines)) }
    ensures promise { IfOk result (λ answer. answer.status ≤ 2 → CanBePrinted symbols.now name.now problem.now → Keeps symbols.now command.now name.now problem.now answer.status (joined answer.lines)) }
{
    match choose(
        alloc,
        &command.order,
        symbols,
        &problem.signature,
        encoded.fresh,
    ) {
        Ok(spec) => searched_answer(
            rt, alloc, command, name, problem, encoded, &spec, symbols, gate,
        ),
        Err(fault) => choice_answer(alloc, &fault),
    }
}

/// The answer by this order: the search, and what its verdict tells.
fn searched_answer<R: Threads + Wait + Sync, G: Gate + Sync>(
    rt: &R,
    alloc: Global,
    command: &Command,
    name: &[u8],
    problem: &Problem,
    encoded: &Encoded,
    spec: &OrderSpec,
    symbols: &Symbols,
    gate: &G,
) -> Result<Answer, AllocError>
    requires agrees { Agrees symbols.now problem.now }
    requires encodes { Encodes symbols.now problem.now (Ok encoded.now) }
    requires chosen { IsChosen symbols.now problem.now.signature command.now.order encoded.now.fresh spec.now }
    requires fits { Fits symbols.now encoded.now.signature.symbols spec.now }
    requires search { SearchesWithin command.now }
    ensures answers { (loaded : Table) → AddsMarks loaded symbols.now encoded.now.fresh → IfOk result (λ answer. IsProveAnswer symbols.now command.now name.now loaded problem.now answer.status (joined answer.lines)) }
    ensures promise { IfOk result (λ answer. answer.status ≤ 2 → CanBePrinted symbols.now name.now problem.now → Keeps symbols.now command.now name.now problem.now answer.status (joined answer.lines)) }
{
    let order = Chosen::new(alloc, spec, symbols, encoded.signature.symbols.as_slice())?;
    let shelf = Shelf::new(alloc)?;
    let searched = search_for(rt, alloc, command, encoded, &order, &shelf, gate)?;
    let closed = Closed {
        name,
        command,
        problem,
        encoded,
        spec,
        symbols,
        shelf: &shelf,
    };
    verdict_answer(
        alloc,
        &closed,
        &searched.book,
        &order,
        searched.shares.as_slice(),
        searched.verdict,
    )
}
