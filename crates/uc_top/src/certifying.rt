//! The command `certify`.

ghost use Rattle.std.specs.Prelude.{◌≡◌, ◌≤◌, [], IfOk};
ghost use Rattle.std.specs.Option.{option_copied};
ghost use Rattle.uc_problem.specs.Holds.{Agrees};
ghost use Rattle.uc_answer.specs.Lines.{joined};
ghost use Rattle.uc_top.specs.Answers.{CertifyAnswers};
ghost use Rattle.uc_top.specs.CertificateAnswers.{CertificateAnswers};
ghost use Rattle.uc_top.specs.CertifyAnswers.{IsCertifiedAnswer};
ghost use Rattle.uc_top.specs.Faulting.{AnswersFault};

use crate::certificates::{Tested, test_certificate};
use crate::loading::{Loaded, load_problem};
use std::alloc::{AllocError, Global};
use uc_answer::{Answer, certified_answer};
use uc_certify::Certified;
use uc_edge::Library;
use uc_problem::Problem;
use uc_term::{Symbols, Text};

/// The answer to `certify` for the problem file and the certificate file of these names.
pub(crate) fn certify_answer<L: Library>(
    alloc: Global,
    root: Option<&Text>,
    name: &Text,
    file: &Text,
    library: &mut L,
) -> Result<Answer, AllocError>
    ensures answers { IfOk result (λ answer. CertifyAnswers (L.holds library.old) (L.faults library.old) (L.faults library.new) (option_copied root.entry) name.now file.now answer.status (joined answer.lines)) }
    ensures same { L.holds library.new ≡ L.holds library.old }
    ensures later { L.faults library.old ≤ L.faults library.new }
    ensures faulted { AnswersFault (L.faults library.old) (L.faults library.new) (L.failed_at library.old) (L.failed_at library.new) [] result }
{
    match load_problem(alloc, root, name, library)? {
        Loaded::Refused(answer) => Ok(answer),
        Loaded::Held(problem, mut symbols) => problem_answer(
            alloc,
            &problem,
            file.as_bytes(),
            &mut symbols,
            library,
        ),
    }
}

// The answer for a problem that is loaded.
fn problem_answer<L: Library>(
    alloc: Global,
    problem: &Problem,
    file: &[u8],
    symbols: &mut Symbols,
    library: &mut L,
) -> Result<Answer, AllocError>
    requires agrees { Agrees symbols.old problem.now }
    ensures answers { IfOk result (λ answer. CertificateAnswers IsCertifiedAnswer (L.holds library.old) (L.faults library.old) (L.faults library.new) file.now symbols.old problem.now answer.status (joined answer.lines)) }
    ensures same { L.holds library.new ≡ L.holds library.old }
    ensures later { L.faults library.old ≤ L.faults library.new }
    ensures faulted { AnswersFault (L.faults library.old) (L.faults library.new) (L.failed_at library.old) (L.failed_at library.new) [] result }
{
    match test_certificate(alloc, problem, file, symbols, library)? {
        Tested::Refused(answer) => Ok(answer),
        Tested::Passed(certificate) => certified_answer(alloc, &certificate, Certified::Yes),
    }
}
