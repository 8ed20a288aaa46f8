//! The command `decide` by a certificate, where nothing is searched.

ghost use Rattle.std.specs.Prelude.{◌≡◌, ◌≤◌, List, [], IfOk};
ghost use Rattle.uc_term.specs.declared.equation.Equation.{Equation as AnyEquation};
ghost use Rattle.uc_term.specs.Tree.{Tree};
ghost use Rattle.uc_problem.specs.Holds.{Agrees};
ghost use Rattle.uc_order.specs.Laws.{IsGroundOf};
ghost use Rattle.uc_fact.specs.Live.{numbered};
ghost use Rattle.uc_decide.specs.declared.reply.Reply.{Reply as AnyReply};
ghost use Rattle.uc_decide.specs.Deciding.{Decides};
ghost use Rattle.uc_system.specs.Reading.{IsSystem};
ghost use Rattle.uc_ordering.specs.Meaning.{meaning_of};
ghost use Rattle.uc_certify.specs.declared.certified.Certified.TheVariants.{Yes};
ghost use Rattle.uc_answer.specs.Lines.{joined};
ghost use Rattle.uc_answer.specs.Promises.{IsOwnGround};
ghost use Rattle.uc_answer.specs.QuestionWords.{AreShort};
ghost use Rattle.uc_answer.specs.ReplyLines.{AreReplies, replies_status, reply_lines};
ghost use Rattle.uc_answer.specs.RightReplies.{AreGroundQuestions};
ghost use Rattle.uc_top.specs.Limits.{WorksWithin};
ghost use Rattle.uc_top.specs.Answers.{SystemAnswers};
ghost use Rattle.uc_top.specs.CertificateAnswers.{CertificateAnswers};
ghost use Rattle.uc_top.specs.SystemAnswers.{IsAskedCertificate};
ghost use Rattle.uc_top.specs.Faulting.{AnswersFault};

use crate::certificates::{Tested, precedence, test_certificate};
use crate::loading::{Loaded, load_problem};
use crate::replying::replied_answer;
use std::alloc::{AllocError, Global};
use std::thread::Threads;
use uc_answer::{Answer, Question, read_questions, word_answer};
use uc_certificate::Certificate;
use uc_edge::{Gate, Library};
use uc_ordering::Chosen;
use uc_problem::Problem;
use uc_term::{Symbols, Text};
use uc_words::Command;

/// The answer to `decide` for the problem file of this name and the questions that are these words, by the certificate file of this
/// name, with the command's workers and steps.
pub(crate) fn system_answer<R: Threads + Sync, L: Library, G: Gate + Sync>(
    rt: &R,
    alloc: Global,
    command: &Command,
    file: &Text,
    name: &Text,
    words: &[Text],
    library: &mut L,
    gate: &G,
) -> Result<Answer, AllocError>
    requires workers { WorksWithin command.now }
    requires short { AreShort words.now }
    ensures answers { IfOk result (λ answer. SystemAnswers (L.holds library.old) (L.faults library.old) (L.faults library.new) command.now.steps words.now file.now command.now.root name.now answer.status (joined answer.lines)) }
    ensures same { L.holds library.new ≡ L.holds library.old }
    ensures later { L.faults library.old ≤ L.faults library.new }
    ensures faulted { AnswersFault (L.faults library.old) (L.faults library.new) (L.failed_at library.old) (L.failed_at library.new) [] result }
{
    match load_problem(alloc, command.root.as_ref(), name, library)? {
        Loaded::Refused(answer) => Ok(answer),
        Loaded::Held(problem, mut symbols) => problem_answer(
            rt,
            alloc,
            command,
            file.as_bytes(),
            words,
            &problem,
            &mut symbols,
            library,
            gate,
        ),
    }
}

// The answer for a problem that is loaded. The certificate is tested before the questions are read.
fn problem_answer<R: Threads + Sync, L: Library, G: Gate + Sync>(
    rt: &R,
    alloc: Global,
    command: &Command,
    file: &[u8],
    words: &[Text],
    problem: &Problem,
    symbols: &mut Symbols,
    library: &mut L,
    gate: &G,
) -> Result<Answer, AllocError>
    requires workers { WorksWithin command.now }
    requires short { AreShort words.now }
    requires agrees { Agrees symbols.old problem.now }
    ensures answers { IfOk result (λ answer. CertificateAnswers (IsAskedCertificate command.now.steps words.now problem.now) (L.holds library.old) (L.faults library.old) (L.faults library.new) file.now symbols.old problem.now answer.status (joined answer.lines)) }
    ensures same { L.holds library.new ≡ L.holds library.old }
    ensures later { L.faults library.old ≤ L.faults library.new }
    ensures faulted { AnswersFault (L.faults library.old) (L.faults library.new) (L.failed_at library.old) (L.failed_at library.new) [] result }
{
    match test_certificate(alloc, problem, file, symbols, library)? {
        Tested::Refused(answer) => Ok(answer),
        Tested::Passed(certificate) => {
            asked_answer(
                rt,
                alloc,
                command,
                words,
                problem,
                &certificate,
                symbols,
                gate,
            )
        }
    }
}

// The answer by a certificate that passes all tests: a reply to each question over the problem's own signature.
fn asked_answer<R: Threads + Sync, G: Gate + Sync>(
    rt: &R,
    alloc: Global,
    command: &Command,
    words: &[Text],
    problem: &Problem,
    certificate: &Certificate,
    symbols: &mut Symbols,
    gate: &G,
) -> Result<Answer, AllocError>
    requires workers { WorksWithin command.now }
    requires short { AreShort words.now }
    requires agrees { Agrees symbols.old problem.now }
    requires system { IsSystem symbols.old certificate.now.text }
    requires own { (t : Tree) → IsOwnGround symbols.old problem.now t → IsGroundOf (meaning_of symbols.old certificate.now.text.spec) t }
    requires decides { (axioms : List AnyEquation) × Decides (meaning_of symbols.old certificate.now.text.spec) certificate.now.text.system.facts axioms }
    ensures { IfOk result (λ answer. IsAskedCertificate command.now.steps words.now problem.now symbols.old certificate.now Yes answer.status (joined answer.lines)) }
{
    let known = problem.signature.symbols.as_slice();
    match read_questions(alloc, words, known, symbols) {
        Ok(asked) => {
            let questions = asked.as_slice();
            told_answer(rt, alloc, command, questions, certificate, symbols, gate)
        }
        Err(misread) => word_answer(alloc, misread.number, &misread.fault),
    }
}

// The replies to questions by a certificate's facts and the order of its symbol lines.
fn told_answer<R: Threads + Sync, G: Gate + Sync>(
    rt: &R,
    alloc: Global,
    command: &Command,
    questions: &[Question],
    certificate: &Certificate,
    symbols: &Symbols,
    gate: &G,
) -> Result<Answer, AllocError>
    requires workers { WorksWithin command.now }
    requires system { IsSystem symbols.now certificate.now.text }
    requires ground { AreGroundQuestions (meaning_of symbols.now certificate.now.text.spec) questions.now }
    requires decides { (axioms : List AnyEquation) × Decides (meaning_of symbols.now certificate.now.text.spec) certificate.now.text.system.facts axioms }
    ensures { IfOk result (λ answer. (replies : List AnyReply) × AreReplies (meaning_of symbols.now certificate.now.text.spec) (numbered certificate.now.text.system.facts) command.now.steps questions.now replies × (answer.status ≡ replies_status replies) × (joined answer.lines ≡ reply_lines symbols.now replies)) }
{
    let text = &certificate.text;
    let order = Chosen::new(alloc, &text.spec, symbols, precedence(&text.spec))?;
    replied_answer(
        rt,
        alloc,
        command,
        questions,
        symbols,
        &order,
        &text.system,
        gate,
    )
}
