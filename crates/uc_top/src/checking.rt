//! The command `check`.

ghost use Rattle.std.specs.Prelude.{◌≡◌, ◌<◌, ◌≤◌, ◌^◌, ℕ, List, [], Some, Ok, IfOk, length};
ghost use Rattle.std.specs.Option.{option_copied};
ghost use Rattle.uc_term.specs.Table.{Table, Grows, IsDistinct};
ghost use Rattle.uc_term.specs.Conversion.{SomeFollows};
ghost use Rattle.uc_edge.specs.Files.{Files};
ghost use Rattle.uc_check.specs.Clauses.{axioms_of, goals_of, AreFresh, HasGoalIfEncoded};
ghost use Rattle.uc_problem.specs.Holds.{Agrees};
ghost use Rattle.uc_tstp.specs.Interning.{InternsProof};
ghost use Rattle.uc_tstp.specs.Reading.{IsReading};
ghost use Rattle.uc_answer.specs.Lines.{joined, proof_line};
ghost use Rattle.uc_top.specs.Answers.{checked_status, TextAnswers, ProofAnswers, ProblemAnswers, CheckAnswers};
ghost use Rattle.uc_top.specs.Runs.{HasProof};
ghost use Rattle.uc_top.specs.Faulting.{AnswersFault};

use crate::loading::{Loaded, absent_answer, failed_answer, fetch_text, load_problem};
use std::alloc::{AllocError, Global};
use uc_answer::{Answer, DONE, NO, REFUSED, checked_line, large_answer, of_line, proof_line};
use uc_check::{Checked, Proof, check};
use uc_clause::Sourced;
use uc_edge::{Fetched, Library};
use uc_problem::{EncodeFault, Problem, marks};
use uc_term::{Fresh, Symbols, Text};
use uc_tstp::{MAX_PROOF, ProofFault, read_proof};

/// The answer to `check` for the problem file and the proof file of these names.
pub(crate) fn check_answer<L: Library>(
    alloc: Global,
    root: Option<&Text>,
    name: &Text,
    proof: &Text,
    library: &mut L,
) -> Result<Answer, AllocError>
    ensures answers { IfOk result (λ answer. CheckAnswers (L.holds library.old) (L.faults library.old) (L.faults library.new) (option_copied root.entry) name.now proof.now answer.status (joined answer.lines)) }
    ensures certified { IfOk result (λ answer. answer.status ≡ 0 → (files : Files) → L.holds library.old ≡ Some files → HasProof files (option_copied root.entry) name.now proof.now) }
    ensures same { L.holds library.new ≡ L.holds library.old }
    ensures later { L.faults library.old ≤ L.faults library.new }
    ensures faulted { AnswersFault (L.faults library.old) (L.faults library.new) (L.failed_at library.old) (L.failed_at library.new) [] result }
{
    match load_problem(alloc, root, name, library)? {
        Loaded::Refused(answer) => Ok(answer),
        Loaded::Held(problem, mut symbols) => {
            let answer = problem_answer(alloc, &problem, proof, &mut symbols, library);
            // The entries of the table are all different, so what was read is the only reading.
            let _ = symbols.len();
            answer
        }
    }
}

// The answer for a problem that is loaded.
fn problem_answer<L: Library>(
    alloc: Global,
    problem: &Problem,
    proof: &Text,
    symbols: &mut Symbols,
    library: &mut L,
) -> Result<Answer, AllocError>
    requires { Agrees symbols.old problem.now }
    ensures answers { IsDistinct symbols.new → IfOk result (λ answer. ProblemAnswers (L.holds library.old) (L.faults library.old) (L.faults library.new) proof.now symbols.old problem.now answer.status (joined answer.lines)) }
    ensures follows { IfOk result (λ answer. answer.status ≡ 0 → SomeFollows (axioms_of problem.now.clauses) (goals_of problem.now.clauses)) }
    ensures grows { Grows symbols.old symbols.new }
    ensures same { L.holds library.new ≡ L.holds library.old }
    ensures later { L.faults library.old ≤ L.faults library.new }
    ensures faulted { AnswersFault (L.faults library.old) (L.faults library.new) (L.failed_at library.old) (L.failed_at library.new) [] result }
{
    let clauses = problem.clauses.as_slice();
    match marks(alloc, problem, symbols) {
        Ok(marks) => proof_answer(alloc, clauses, marks.as_ref(), proof, symbols, library),
        Err(EncodeFault::GoalTooLarge(number)) => large_answer(alloc, &clauses[number as usize]),
        Err(EncodeFault::NoMemory) => Err(AllocError),
    }
}

// The answer for the proof file of this name.
fn proof_answer<L: Library>(
    alloc: Global,
    clauses: &[Sourced],
    marks: Option<&Fresh>,
    name: &Text,
    symbols: &mut Symbols,
    library: &mut L,
) -> Result<Answer, AllocError>
    requires fresh { AreFresh (option_copied marks) clauses.now }
    requires has_goal { HasGoalIfEncoded (option_copied marks) clauses.now }
    ensures answers { IfOk result (λ answer. ProofAnswers symbols.old (L.holds library.old) (L.faults library.old) (L.faults library.new) clauses.now (option_copied marks.entry) name.now answer.status (joined answer.lines)) }
    ensures follows { IfOk result (λ answer. answer.status ≡ 0 → SomeFollows (axioms_of clauses.now) (goals_of clauses.now)) }
    ensures grows { Grows symbols.old symbols.new }
    ensures same { L.holds library.new ≡ L.holds library.old }
    ensures later { L.faults library.old ≤ L.faults library.new }
    ensures faulted { AnswersFault (L.faults library.old) (L.faults library.new) (L.failed_at library.old) (L.failed_at library.new) [] result }
{
    let file = name.as_bytes();
    match fetch_text(alloc, library, file, MAX_PROOF + 1)? {
        Fetched::Found(text) => {
            text_answer(alloc, clauses, marks, file, text.as_bytes(), symbols)
        }
        Fetched::Absent => absent_answer(alloc, file),
        Fetched::Failed => failed_answer(alloc, file),
    }
}

// The answer for the text of a proof file of this name.
fn text_answer(
    alloc: Global,
    clauses: &[Sourced],
    marks: Option<&Fresh>,
    name: &[u8],
    text: &[u8],
    symbols: &mut Symbols,
) -> Result<Answer, AllocError>
    requires fresh { AreFresh (option_copied marks) clauses.now }
    requires has_goal { HasGoalIfEncoded (option_copied marks) clauses.now }
    ensures answers { IfOk result (λ answer. TextAnswers symbols.old clauses.now (option_copied marks.entry) name.now text.now answer.status (joined answer.lines)) }
    ensures follows { IfOk result (λ answer. answer.status ≡ 0 → SomeFollows (axioms_of clauses.now) (goals_of clauses.now)) }
    ensures grows { Grows symbols.old symbols.new }
{
    match read_proof(alloc, text, symbols) {
        Ok(proof) => checked_answer(alloc, clauses, marks, &proof),
        Err(fault) => unread_answer(alloc, name, fault),
    }
}

// The answer for a proof that isn't read.
fn unread_answer(alloc: Global, name: &[u8], fault: ProofFault) -> Result<Answer, AllocError>
    ensures answer { IfOk result (λ answer. (answer.status ≡ 3) × (joined answer.lines ≡ proof_line name.now fault)) }
    ensures not_memory { IfOk result (λ _. fault ≡ ProofFault.NoMemory → ⊥) }
{
    if fault == ProofFault::NoMemory {
        return Err(AllocError);
    }
    of_line(alloc, REFUSED, proof_line(alloc, name, fault)?)
}

// The checker's answer.
fn checked_answer(
    alloc: Global,
    clauses: &[Sourced],
    marks: Option<&Fresh>,
    proof: &Proof,
) -> Result<Answer, AllocError>
    requires fresh { AreFresh (option_copied marks) clauses.now }
    requires has_goal { HasGoalIfEncoded (option_copied marks) clauses.now }
    requires few { length proof.now.lines < 2 ^ 31 }
    ensures answers { (name text : List ℕ) (table read : Table) → InternsProof text table read → IsReading read text (Ok proof.now) → IfOk result (λ answer. TextAnswers table clauses.now (option_copied marks.entry) name text answer.status (joined answer.lines)) }
    ensures follows { IfOk result (λ answer. answer.status ≡ 0 → SomeFollows (axioms_of clauses.now) (goals_of clauses.now)) }
{
    let checked = check(alloc, clauses, marks, proof)?;
    let line = checked_line(alloc, proof.lines.as_slice(), checked)?;
    of_line(alloc, checked_status(checked), line)
}

fn checked_status(checked: Checked) -> u8
    ensures { result ≡ checked_status checked }
{
    match checked {
        Checked::Accepted => DONE,
        Checked::Rejected { .. } => NO,
    }
}
