//! The certificate file beside a problem's, for the commands that are given one.

ghost use Rattle.std.specs.Prelude.{◌≡◌, ◌≤◌, ◌<◌, ◌^◌, length, slice_get, Some, IfOk};
ghost use Rattle.uc_term.specs.declared.equation.Equation.{Equation as AnyEquation};
ghost use Rattle.uc_term.specs.Equations.{side_of};
ghost use Rattle.uc_term.specs.Table.{IsOf};
ghost use Rattle.uc_term.specs.Tree.{nodes};
ghost use Rattle.uc_fact.specs.declared.fact.Overlap.{Overlap as AnyOverlap};
ghost use Rattle.uc_problem.specs.Holds.{Agrees};
ghost use Rattle.uc_system.specs.Reading.{IsSystem, precedence_of};
ghost use Rattle.uc_ordering.specs.Meaning.{meaning_of};
ghost use Rattle.uc_certificate.specs.Having.{JoinsHave};
ghost use Rattle.uc_certificate.specs.Reads.{AreFew};
ghost use Rattle.uc_certify.specs.declared.certified.Certified.TheVariants.{Large};
ghost use Rattle.uc_certify.specs.Certifying.{IsCertified};
ghost use Rattle.uc_top.specs.CertificateTested.{IsTestedAs, IsTestedText, IsTestedFile, IsTested, IsTestFaulted};

use crate::axioms::are_few;
use crate::loading::{absent_answer, failed_answer, fetch_text};
use std::alloc::{AllocError, Global};
use uc_answer::{Answer, cert_fault_answer, certified_answer, large_answer};
use uc_certificate::{Certificate, read_certificate};
use uc_certify::{Certified, check_certificate};
use uc_clause::Sourced;
use uc_edge::{Fetched, Library};
use uc_order::OrderSpec;
use uc_ordering::Chosen;
use uc_problem::{EncodeFault, Encoded, Problem, encode};
use uc_term::{Sym, Symbols};
use uc_tstp::MAX_PROOF;

/// What a certificate file is to a problem.
#[derive(Drop)]
pub(crate) enum Tested {
    /// It is refused by this answer: the problem can't be encoded, the file isn't there or has no certificate, or a test fails.
    Refused(Answer),
    /// It has this certificate, which passes all tests.
    Passed(Certificate),
}

/// What the certificate file of this name is to a problem that is loaded. Nothing is searched. The table grows by the encoding's symbols and
/// by those of the certificate.
pub(crate) fn test_certificate<L: Library>(
    alloc: Global,
    problem: &Problem,
    file: &[u8],
    symbols: &mut Symbols,
    library: &mut L,
) -> Result<Tested, AllocError>
    requires agrees { Agrees symbols.old problem.now }
    ensures tested { IfOk result (IsTested symbols.old problem.now (L.holds library.old) (L.faults library.old) (L.faults library.new) file.now symbols.new) }
    ensures same { L.holds library.new ≡ L.holds library.old }
    ensures later { L.faults library.old ≤ L.faults library.new }
    ensures faulted { IsTestFaulted (L.faults library.old) (L.faults library.new) (L.failed_at library.old) (L.failed_at library.new) result }
{
    let clauses = problem.clauses.as_slice();
    match encode(alloc, problem, symbols) {
        Ok(encoded) => {
            // The entries of the table are all different, so the encoding is the only one.
            let _ = symbols.len();
            test_file(alloc, clauses, &encoded, file, symbols, library)
        }
        Err(EncodeFault::GoalTooLarge(number)) => {
            let answer = large_answer(alloc, &clauses[number as usize])?;
            Ok(Tested::Refused(answer))
        }
        Err(EncodeFault::NoMemory) => Err(AllocError),
    }
}

// What the file is to a problem that is encoded.
fn test_file<L: Library>(
    alloc: Global,
    clauses: &[Sourced],
    encoded: &Encoded,
    file: &[u8],
    symbols: &mut Symbols,
    library: &mut L,
) -> Result<Tested, AllocError>
    ensures tested { IfOk result (IsTestedFile symbols.old clauses.now encoded.now (L.holds library.old) (L.faults library.old) (L.faults library.new) file.now symbols.new) }
    ensures same { L.holds library.new ≡ L.holds library.old }
    ensures later { L.faults library.old ≤ L.faults library.new }
    ensures faulted { IsTestFaulted (L.faults library.old) (L.faults library.new) (L.failed_at library.old) (L.failed_at library.new) result }
{
    match fetch_text(alloc, library, file, MAX_PROOF + 1)? {
        Fetched::Found(text) => test_text(alloc, clauses, encoded, file, text.as_bytes(), symbols),
        Fetched::Absent => {
            let answer = absent_answer(alloc, file)?;
            Ok(Tested::Refused(answer))
        }
        Fetched::Failed => {
            let answer = failed_answer(alloc, file)?;
            Ok(Tested::Refused(answer))
        }
    }
}

// What the file's text is to it.
fn test_text(
    alloc: Global,
    clauses: &[Sourced],
    encoded: &Encoded,
    file: &[u8],
    text: &[u8],
    symbols: &mut Symbols,
) -> Result<Tested, AllocError>
    ensures { IfOk result (IsTestedText symbols.old clauses.now encoded.now file.now text.now symbols.new) }
{
    let read = read_certificate(alloc, text, symbols);
    // The entries of the table are all different, so what was read is the only reading.
    let _ = symbols.len();
    match read {
        Ok(certificate) => {
            let outcome = outcome_of(alloc, clauses, encoded, &certificate, symbols)?;
            tested_as(alloc, certificate, outcome)
        }
        Err(fault) => {
            let answer = cert_fault_answer(alloc, file, fault)?;
            Ok(Tested::Refused(answer))
        }
    }
}

// What a certificate is to an encoded problem of these clauses, by the order of its own symbol lines.
fn outcome_of(
    alloc: Global,
    clauses: &[Sourced],
    encoded: &Encoded,
    certificate: &Certificate,
    symbols: &Symbols,
) -> Result<Certified, AllocError>
    requires system { IsSystem symbols.now certificate.now.text }
    requires terms { JoinsHave (IsOf symbols.now) certificate.now.joins }
    requires few { AreFew certificate.now }
    requires few_facts { length certificate.now.text.system.facts < 2 ^ 31 }
    ensures { IfOk result (IsCertified (meaning_of symbols.now certificate.now.text.spec) clauses.now encoded.now certificate.now) }
{
    let spec = &certificate.text.spec;
    let order = Chosen::new(alloc, spec, symbols, precedence(spec))?;
    are_few(encoded.axioms.as_slice())?;
    check_certificate(alloc, clauses, encoded, certificate, &order)
}

// The certificate, where this is what it is to the problem and all tests are passed; else the answer that names the first that fails.
fn tested_as(
    alloc: Global,
    certificate: Certificate,
    outcome: Certified,
) -> Result<Tested, AllocError>
    requires large { (overlap : AnyOverlap) → outcome ≡ Large overlap → (outer : AnyEquation) × (slice_get certificate.text.system.facts overlap.outer ≡ Some outer) × (overlap.position.0 < nodes (side_of overlap.outer_side outer)) }
    ensures { IfOk result (IsTestedAs certificate outcome) }
{
    match outcome {
        Certified::Yes => Ok(Tested::Passed(certificate)),
        _ => {
            let answer = certified_answer(alloc, &certificate, outcome)?;
            Ok(Tested::Refused(answer))
        }
    }
}

/// The symbols of a description of an order, the least first.
pub(crate) fn precedence(spec: &OrderSpec) -> &[Sym]
    ensures { result.now ≡ precedence_of spec.now }
{
    match spec {
        OrderSpec::Kbo { precedence, .. } => precedence.as_slice(),
        OrderSpec::Lpo { precedence } => precedence.as_slice(),
    }
}
