//! The status lines of `prove`, `decide` and `model`.

ghost use Rattle.std.specs.Prelude.{◌≡◌, ◌++◌, IfOk};
ghost use Rattle.uc_answer.specs.Lines.{joined, load_line};
ghost use Rattle.uc_answer.specs.Refusals.{load_status};
ghost use Rattle.uc_answer.specs.StatusLines.{line_for, status_line, proved_word, saturated_word, is_syntax, unloaded_word};

use crate::answer::Answer;
use crate::refusing::load_answer;
use std::alloc::{AllocError, Global};
use uc_clause::ClauseFault;
use uc_problem::{LoadFault, Problem};
use uc_term::{Seq, Text};

/// A line that ends with the name of the problem.
pub(crate) fn line_for(alloc: Global, words: &[u8], name: &[u8]) -> Result<Text, AllocError>
    ensures { IfOk result (λ text. text ≡ line_for words.now name.now) }
{
    let mut line = Text::from_bytes(alloc, words)?;
    line.extend(b" for ")?;
    line.extend(name)?;
    line.extend(b"\n")?;
    Ok(line)
}

/// The line that a status word of the problem's begins.
pub(crate) fn status_line(alloc: Global, word: &[u8], name: &[u8]) -> Result<Text, AllocError>
    ensures { IfOk result (λ text. text ≡ status_line word.now name.now) }
{
    let mut words = Text::from_bytes(alloc, b"% SZS status ")?;
    words.extend(word)?;
    line_for(alloc, words.as_bytes(), name)
}

/// The status word for a problem of which a goal follows.
pub(crate) fn proved_word(problem: &Problem) -> &'static [u8]
    ensures { result.now ≡ proved_word problem.now }
{
    if problem.conjecture.is_some() {
        b"Theorem"
    } else {
        b"Unsatisfiable"
    }
}

/// The status word for a problem of which no goal follows.
pub(crate) fn saturated_word(problem: &Problem) -> &'static [u8]
    ensures { result.now ≡ saturated_word problem.now }
{
    if problem.conjecture.is_some() {
        b"CounterSatisfiable"
    } else {
        b"Satisfiable"
    }
}

/// Whether it is the text of a file that is no list of clauses.
fn is_syntax(fault: &LoadFault) -> bool
    ensures { result ≡ is_syntax fault.now }
{
    matches!(
        fault,
        LoadFault::Clause {
            fault: ClauseFault::Syntax(_),
            ..
        }
    )
}

/// Puts a status line before an answer.
pub fn with_status(
    alloc: Global,
    word: &[u8],
    name: &[u8],
    answer: Answer,
) -> Result<Answer, AllocError>
    ensures { IfOk result (λ made. (made.status ≡ answer.status) × (joined made.lines ≡ status_line word.now name.now ++ joined answer.lines)) }
{
    let mut lines = Seq::new(alloc);
    lines.push(status_line(alloc, word, name)?)?;
    lines.append(answer.lines)?;
    Ok(Answer {
        status: answer.status,
        lines,
    })
}

/// Returns the answer of `prove` for a problem that isn't loaded: a status line, and the line of the refusal. Fails also where
/// the refusal is itself for want of memory.
pub fn unloaded_answer(alloc: Global, name: &[u8], fault: &LoadFault) -> Result<Answer, AllocError>
    ensures answer { IfOk result (λ answer. (answer.status ≡ load_status fault.now) × (joined answer.lines ≡ status_line (unloaded_word fault.now) name.now ++ load_line fault.now)) }
    ensures not_memory { IfOk result (λ answer. answer.status ≡ 7 → ⊥) }
{
    let answer = load_answer(alloc, fault)?;
    let word: &[u8] = if is_syntax(fault) {
        b"SyntaxError"
    } else {
        b"InputError"
    };
    with_status(alloc, word, name, answer)
}
