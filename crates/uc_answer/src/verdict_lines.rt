//! The lines of the verdict of a book: a proof, a system, or the limit that ended the search.

ghost use Rattle.std.specs.Prelude.{◌≡◌, ◌<◌, ◌≤◌, ◌+◌, ◌^◌, ◌++◌, ℕ, List, IfOk, OnOk, OnErr};
ghost use Rattle.uc_fact.specs.Live.{equations_of};
ghost use Rattle.uc_shelf.specs.Entries.{live};
ghost use Rattle.uc_machine.specs.declared.event.Verdict.TheVariants.{Proved, Saturated};
ghost use Rattle.uc_worker.specs.Commits.{shares_of};
ghost use Rattle.uc_worker.specs.Hands.{hands_of};
ghost use Rattle.uc_ordering.specs.Chosen.{IsOrderOf};
ghost use Rattle.uc_system.specs.Printing.{system_text};
ghost use Rattle.uc_answer.specs.Lines.{joined};
ghost use Rattle.uc_answer.specs.PrintableProblems.{CanBePrinted};
ghost use Rattle.uc_answer.specs.StatusLines.{status_line, proved_word, saturated_word};
ghost use Rattle.uc_answer.specs.VerdictLines.{verdict_status, trace_if, saturation_text, IsProofText, VerdictAnswers, HasEnded};
ghost use Rattle.uc_answer.specs.Promises.{Certifies, Settles, Keeps};

use crate::answer::{Answer, DONE, NO, STOPPED};
use crate::certificate_lines::certified;
use crate::limit_lines::out_lines;
use crate::szs::{line_for, proved_word, saturated_word, status_line};
use crate::trace_lines::trace_lines;
use std::alloc::{AllocError, Global};
use uc_book::Book;
use uc_machine::Verdict;
use uc_order::{Order, OrderSpec};
use uc_ordering::Chosen;
use uc_problem::{Encoded, Problem};
use uc_proof::extract_from;
use uc_search::{all_facts, live_system};
use uc_shelf::Shelf;
use uc_system::print_system;
use uc_term::{Seq, Symbols, Text};
use uc_tstp::print_proof;
use uc_words::Command;

/// Holds what a command searched: the problem's name, the problem and its encoding, the order, the symbols, and the shelf of the
/// facts.
#[derive(Clone, Copy)]
pub struct Closed<'a> {
    pub name: &'a [u8],
    pub command: &'a Command,
    pub problem: &'a Problem,
    pub encoded: &'a Encoded,
    pub spec: &'a OrderSpec,
    pub symbols: &'a Symbols,
    pub shelf: &'a Shelf,
}

/// Returns the answer of `prove` for a book with this verdict: a proof, a system, with its certificate where one is asked for, or a
/// limit; with the book's history and the shares of its workers where they are asked for.
pub fn verdict_answer<O: Order>(
    alloc: Global,
    closed: &Closed,
    book: &Book<O>,
    order: &Chosen,
    shares: &[u64],
    verdict: Verdict,
) -> Result<Answer, AllocError>
    requires order { IsOrderOf closed.now.symbols.now closed.now.spec.now order.now }
    requires shelf { book.now.opening.shelf ≡ closed.now.shelf.now }
    requires problem { book.now.opening.problem ≡ closed.now.encoded.now }
    requires ended { HasEnded closed.now.symbols.now closed.now.command.now closed.now.problem.now closed.now.encoded.now closed.now.spec.now verdict book.now.state }
    requires shares { shares.now ≡ shares_of (hands_of closed.now.command.now.workers) book.now.state.history }
    ensures status { IfOk result (λ answer. answer.status ≡ verdict_status verdict) }
    ensures answers { IfOk result (λ answer. (text : List ℕ) × VerdictAnswers closed.now.symbols.now closed.now.command.now closed.now.name.now closed.now.problem.now closed.now.encoded.now closed.now.spec.now book.now.state verdict text × (joined answer.lines ≡ text ++ trace_if closed.now.command.now book.now.state)) }
    ensures promise { IfOk result (λ answer. CanBePrinted closed.now.symbols.now closed.now.name.now closed.now.problem.now → Keeps closed.now.symbols.now closed.now.command.now closed.now.name.now closed.now.problem.now (verdict_status verdict) (joined answer.lines)) }
{
    let lines = verdict_lines(alloc, closed, book, order, verdict)?;
    Ok(Answer {
        status: verdict_status(verdict),
        lines: traced(alloc, closed.command, lines, book, shares)?,
    })
}

/// The lines, with the book's history behind them where it is asked for.
fn traced<O: Order>(
    alloc: Global,
    command: &Command,
    lines: Seq<Text>,
    book: &Book<O>,
    shares: &[u64],
) -> Result<Seq<Text>, AllocError>
    requires shares { shares.now ≡ shares_of (hands_of command.now.workers) book.now.state.history }
    ensures { IfOk result (λ all. joined all ≡ joined lines ++ trace_if command.now book.now.state) }
{
    if !command.trace {
        return Ok(lines);
    }
    let mut all = lines;
    all.append(trace_lines(alloc, book.history(), shares)?)?;
    Ok(all)
}

/// The status for a verdict.
fn verdict_status(verdict: Verdict) -> u8
    ensures { result ≡ verdict_status verdict }
{
    match verdict {
        Verdict::Proved(_) => DONE,
        Verdict::Saturated => NO,
        Verdict::BudgetOut { .. } => STOPPED,
        Verdict::PairsOut { .. } => STOPPED,
        Verdict::LargeOverlap(_) => STOPPED,
        Verdict::LargeGoal(_) => STOPPED,
    }
}

/// The lines of a verdict.
fn verdict_lines<O: Order>(
    alloc: Global,
    closed: &Closed,
    book: &Book<O>,
    order: &Chosen,
    verdict: Verdict,
) -> Result<Seq<Text>, AllocError>
    requires order { IsOrderOf closed.now.symbols.now closed.now.spec.now order.now }
    requires shelf { book.now.opening.shelf ≡ closed.now.shelf.now }
    requires problem { book.now.opening.problem ≡ closed.now.encoded.now }
    requires ended { HasEnded closed.now.symbols.now closed.now.command.now closed.now.problem.now closed.now.encoded.now closed.now.spec.now verdict book.now.state }
    ensures answers { IfOk result (λ lines. VerdictAnswers closed.now.symbols.now closed.now.command.now closed.now.name.now closed.now.problem.now closed.now.encoded.now closed.now.spec.now book.now.state verdict (joined lines)) }
    ensures promise { IfOk result (λ lines. CanBePrinted closed.now.symbols.now closed.now.name.now closed.now.problem.now → Keeps closed.now.symbols.now closed.now.command.now closed.now.name.now closed.now.problem.now (verdict_status verdict) (joined lines)) }
{
    match verdict {
        Verdict::Proved(goal) => proved_lines(alloc, closed, book, goal),
        Verdict::Saturated => saturated_lines(alloc, closed, book, order),
        _ => out_lines(
            alloc,
            closed.command,
            closed.name,
            closed.shelf,
            book,
            verdict,
        ),
    }
}

/// The lines of a problem that is refuted: its status and the proof.
fn proved_lines<O: Order>(
    alloc: Global,
    closed: &Closed,
    book: &Book<O>,
    goal: u32,
) -> Result<Seq<Text>, AllocError>
    requires shelf { book.now.opening.shelf ≡ closed.now.shelf.now }
    requires problem { book.now.opening.problem ≡ closed.now.encoded.now }
    requires ended { HasEnded closed.now.symbols.now closed.now.command.now closed.now.problem.now closed.now.encoded.now closed.now.spec.now (Proved goal) book.now.state }
    ensures { IfOk result (λ lines. (text : List ℕ) × IsProofText closed.now.symbols.now closed.now.command.now closed.now.name.now closed.now.problem.now closed.now.encoded.now closed.now.spec.now book.now.state goal text × (CanBePrinted closed.now.symbols.now closed.now.name.now closed.now.problem.now → Certifies closed.now.symbols.now closed.now.problem.now text) × (joined lines ≡ status_line (proved_word closed.now.problem.now) closed.now.name.now ++ text)) }
{
    let text = proof_of(alloc, closed, book, goal)?;
    let mut lines = Seq::new(alloc);
    let word = proved_word(closed.problem);
    lines.push(status_line(alloc, word, closed.name)?)?;
    lines.append(lines_of(alloc, text.as_bytes())?)?;
    Ok(lines)
}

/// The text of the proof that the chains of a goal and those of the facts determine.
fn proof_of<O: Order>(
    alloc: Global,
    closed: &Closed,
    book: &Book<O>,
    goal: u32,
) -> Result<Text, AllocError>
    requires shelf { book.now.opening.shelf ≡ closed.now.shelf.now }
    requires problem { book.now.opening.problem ≡ closed.now.encoded.now }
    requires ended { HasEnded closed.now.symbols.now closed.now.command.now closed.now.problem.now closed.now.encoded.now closed.now.spec.now (Proved goal) book.now.state }
    ensures { IfOk result (λ text. IsProofText closed.now.symbols.now closed.now.command.now closed.now.name.now closed.now.problem.now closed.now.encoded.now closed.now.spec.now book.now.state goal text × (CanBePrinted closed.now.symbols.now closed.now.name.now closed.now.problem.now → Certifies closed.now.symbols.now closed.now.problem.now text)) }
{
    let facts = all_facts(alloc, closed.shelf, book.front())?;
    let (left, right) = book.chain(goal);
    let (problem, encoded) = (closed.problem, closed.encoded);
    are_few(encoded.sources.len(), problem.goals.len(), facts.len())?;
    let made = extract_from(alloc, facts.as_slice(), left, right, problem, encoded, goal)?;
    let files = made.files.as_slice();
    print_proof(alloc, &made.proof, closed.name, files, closed.symbols)
}

const MOST_LINES: usize = 4_294_967_296;

/// Refuses so many sources of axioms, goals and facts that the lines of a proof from them can't be numbered, and no others. A
/// problem has at most 10,000 clauses, and a search keeps at most 10,000,000 facts.
pub(crate) fn are_few(sources: usize, goals: usize, facts: usize) -> Result<(), AllocError>
    ensures few { OnOk result (sources + goals + facts + 2 < 2 ^ 32) }
    ensures refused { OnErr result (2 ^ 32 ≤ sources + goals + facts + 2) }
{
    let parts = sources.saturating_add(goals).saturating_add(facts);
    if parts.saturating_add(2) < MOST_LINES {
        Ok(())
    } else {
        Err(AllocError)
    }
}

/// The lines of a problem that is saturated: its status, the system of the facts that live, and its certificate where one is asked
/// for.
fn saturated_lines<O: Order>(
    alloc: Global,
    closed: &Closed,
    book: &Book<O>,
    order: &Chosen,
) -> Result<Seq<Text>, AllocError>
    requires order { IsOrderOf closed.now.symbols.now closed.now.spec.now order.now }
    requires shelf { book.now.opening.shelf ≡ closed.now.shelf.now }
    requires problem { book.now.opening.problem ≡ closed.now.encoded.now }
    requires ended { HasEnded closed.now.symbols.now closed.now.command.now closed.now.problem.now closed.now.encoded.now closed.now.spec.now Saturated book.now.state }
    ensures answers { IfOk result (λ lines. VerdictAnswers closed.now.symbols.now closed.now.command.now closed.now.name.now closed.now.problem.now closed.now.encoded.now closed.now.spec.now book.now.state Saturated (joined lines)) }
    ensures promise { IfOk result (λ lines. CanBePrinted closed.now.symbols.now closed.now.name.now closed.now.problem.now → Keeps closed.now.symbols.now closed.now.command.now closed.now.name.now closed.now.problem.now 1 (joined lines)) }
{
    let lines = system_lines(alloc, closed, book)?;
    certified(alloc, closed, lines, book, order)
}

/// The lines of the system of the facts that live, behind the status.
fn system_lines<O: Order>(
    alloc: Global,
    closed: &Closed,
    book: &Book<O>,
) -> Result<Seq<Text>, AllocError>
    requires shelf { book.now.opening.shelf ≡ closed.now.shelf.now }
    requires ended { HasEnded closed.now.symbols.now closed.now.command.now closed.now.problem.now closed.now.encoded.now closed.now.spec.now Saturated book.now.state }
    ensures lines { IfOk result (λ lines. joined lines ≡ status_line (saturated_word closed.now.problem.now) closed.now.name.now ++ saturation_text closed.now.symbols.now closed.now.command.now closed.now.name.now closed.now.problem.now closed.now.encoded.now closed.now.spec.now book.now.state) }
    ensures promise { IfOk result (λ _. CanBePrinted closed.now.symbols.now closed.now.name.now closed.now.problem.now → (settled : Settles closed.now.symbols.now closed.now.problem.now closed.now.spec.now (system_text closed.now.symbols.now closed.now.spec.now (equations_of (live book.now.state.entries)))) × (settled.system.facts ≡ equations_of (live book.now.state.entries))) }
{
    let text = system_of(alloc, closed, book)?;
    let mut lines = Seq::new(alloc);
    let word = saturated_word(closed.problem);
    lines.push(status_line(alloc, word, closed.name)?)?;
    lines.push(line_for(alloc, b"% SZS output start Saturation", closed.name)?)?;
    lines.append(lines_of(alloc, text.as_bytes())?)?;
    lines.push(line_for(alloc, b"% SZS output end Saturation", closed.name)?)?;
    Ok(lines)
}

/// The text of the system of the facts that live.
fn system_of<O: Order>(alloc: Global, closed: &Closed, book: &Book<O>) -> Result<Text, AllocError>
    requires shelf { book.now.opening.shelf ≡ closed.now.shelf.now }
    requires ended { HasEnded closed.now.symbols.now closed.now.command.now closed.now.problem.now closed.now.encoded.now closed.now.spec.now Saturated book.now.state }
    ensures text { IfOk result (λ text. text ≡ system_text closed.now.symbols.now closed.now.spec.now (equations_of (live book.now.state.entries))) }
    ensures promise { IfOk result (λ text. CanBePrinted closed.now.symbols.now closed.now.name.now closed.now.problem.now → (settled : Settles closed.now.symbols.now closed.now.problem.now closed.now.spec.now text) × (settled.system.facts ≡ equations_of (live book.now.state.entries))) }
{
    let system = live_system(alloc, closed.shelf, book.front())?;
    print_system(alloc, closed.spec, &system, closed.symbols)
}

/// The lines of a text, each with its line feed.
pub(crate) fn lines_of(alloc: Global, text: &[u8]) -> Result<Seq<Text>, AllocError>
    ensures { IfOk result (λ lines. joined lines ≡ text.now) }
{
    let mut lines = Seq::new(alloc);
    for line in text.split_inclusive(|b| *b == b'\n') {
        lines.push(Text::from_bytes(alloc, line)?)?;
    }
    Ok(lines)
}
