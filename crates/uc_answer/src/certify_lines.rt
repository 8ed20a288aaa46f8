//! The answers about a certificate of saturation.

ghost use Rattle.std.specs.Prelude.{◌≡◌, ◌<◌, ◌++◌, ℕ, List, codes, decimal, slice_get, Some, IfOk};
ghost use Rattle.uc_term.specs.declared.equation.Equation.{Equation as AnyEquation};
ghost use Rattle.uc_term.specs.Equations.{side_of};
ghost use Rattle.uc_term.specs.Positions.{IsPlaceOf};
ghost use Rattle.uc_term.specs.Tree.{nodes};
ghost use Rattle.uc_fact.specs.declared.fact.Overlap.{Overlap as AnyOverlap};
ghost use Rattle.uc_certify.specs.declared.certified.Certified.TheVariants.{Large};
ghost use Rattle.uc_answer.specs.Lines.{joined};
ghost use Rattle.uc_answer.specs.PairLines.{overlap_words};
ghost use Rattle.uc_answer.specs.CertifyLines.{refused_line, wrong_line, IsCertifiedLine, certified_status, cert_fault_line};

use crate::answer::{Answer, DONE, NO, REFUSED, of_line};
use crate::chaining::write_number;
use crate::lines::{cause_word, limit_line, located, name_or_dash};
use crate::pair_lines::{side_of, write_overlap};
use std::alloc::{AllocError, Global};
use uc_certificate::{CertFault, Certificate};
use uc_certify::Certified;
use uc_check::{Cause, Line};
use uc_fact::Overlap;
use uc_term::{Equation, Text};

/// Returns the answer of what a certificate is to a problem: `certified`, with status 0; or the first of its tests that fails, with
/// status 1.
pub fn certified_answer(
    alloc: Global,
    certificate: &Certificate,
    certified: Certified,
) -> Result<Answer, AllocError>
    requires large { (overlap : AnyOverlap) → certified ≡ Large overlap → (outer : AnyEquation) × (slice_get certificate.now.text.system.facts overlap.outer ≡ Some outer) × (overlap.position.0 < nodes (side_of overlap.outer_side outer)) }
    ensures { IfOk result (λ answer. (answer.status ≡ certified_status certified) × IsCertifiedLine certificate.now.lines.lines certificate.now.text.system.facts certified (joined answer.lines)) }
{
    let line = certified_line(alloc, certificate, certified)?;
    of_line(alloc, certified_status(certified), line)
}

fn certified_status(certified: Certified) -> u8
    ensures { result ≡ certified_status certified }
{
    match certified {
        Certified::Yes => DONE,
        Certified::Symbols => NO,
        Certified::Line(..) => NO,
        Certified::Fact(_) => NO,
        Certified::Join(_) => NO,
        Certified::Large(_) => NO,
    }
}

fn certified_line(
    alloc: Global,
    certificate: &Certificate,
    certified: Certified,
) -> Result<Text, AllocError>
    requires large { (overlap : AnyOverlap) → certified ≡ Large overlap → (outer : AnyEquation) × (slice_get certificate.now.text.system.facts overlap.outer ≡ Some outer) × (overlap.position.0 < nodes (side_of overlap.outer_side outer)) }
    ensures { IfOk result (IsCertifiedLine certificate.now.lines.lines certificate.now.text.system.facts certified) }
{
    match certified {
        Certified::Yes => Text::from_bytes(alloc, b"certified\n"),
        Certified::Symbols => refused_line(alloc, b"symbols"),
        Certified::Line(number, cause) => {
            let lines = certificate.lines.lines.as_slice();
            refused_line(alloc, wrong_line(alloc, lines, number, cause)?.as_bytes())
        }
        Certified::Fact(number) => {
            refused_line(alloc, numbered(alloc, b"fact ", number)?.as_bytes())
        }
        Certified::Join(number) => {
            refused_line(alloc, numbered(alloc, b"join ", number)?.as_bytes())
        }
        Certified::Large(overlap) => large_line(alloc, certificate, &overlap),
    }
}

// The line of a certificate that is refused for this.
fn refused_line(alloc: Global, why: &[u8]) -> Result<Text, AllocError>
    ensures { IfOk result (λ text. text ≡ refused_line why.now) }
{
    let mut line = Text::from_bytes(alloc, b"refused ")?;
    line.extend(why)?;
    line.extend(b"\n")?;
    Ok(line)
}

// What is counted, with its number.
fn numbered(alloc: Global, what: &[u8], number: u32) -> Result<Text, AllocError>
    ensures { IfOk result (λ text. text ≡ what.now ++ decimal number) }
{
    let mut text = Text::from_bytes(alloc, what)?;
    write_number(&mut text, number)?;
    Ok(text)
}

// A line of the derivation and the test that it fails.
fn wrong_line(alloc: Global, lines: &[Line], number: u32, cause: Cause) -> Result<Text, AllocError>
    ensures { IfOk result (λ text. text ≡ wrong_line lines.now number cause) }
{
    let mut text = Text::from_bytes(alloc, b"line ")?;
    text.extend(name_or_dash(lines, Some(number)))?;
    text.extend(b" ")?;
    text.extend(cause_word(cause))?;
    Ok(text)
}

// The line of a certificate with an overlap whose pair is too large.
fn large_line(
    alloc: Global,
    certificate: &Certificate,
    overlap: &Overlap,
) -> Result<Text, AllocError>
    requires large { (outer : AnyEquation) × (slice_get certificate.now.text.system.facts overlap.now.outer ≡ Some outer) × (overlap.now.position.0 < nodes (side_of overlap.now.outer_side outer)) }
    ensures { IfOk result (IsCertifiedLine certificate.now.lines.lines certificate.now.text.system.facts (Large overlap.now)) }
{
    let outer = &certificate.text.system.facts.as_slice()[overlap.outer as usize];
    let why = large_overlap(alloc, overlap, outer)?;
    refused_line(alloc, why.as_bytes())
}

// An overlap whose pair is too large, by its outer fact.
fn large_overlap(alloc: Global, overlap: &Overlap, outer: &Equation) -> Result<Text, AllocError>
    requires { overlap.now.position.0 < nodes (side_of overlap.now.outer_side outer.now) }
    ensures { IfOk result (λ text. (path : List ℕ) × IsPlaceOf (side_of overlap.now.outer_side outer.now) path overlap.now.position.0 × (text ≡ codes "large " ++ overlap_words overlap.now path)) }
{
    let path = side_of(outer, overlap.outer_side).path(alloc, overlap.position)?;
    let mut text = Text::from_bytes(alloc, b"large ")?;
    write_overlap(&mut text, overlap, path.as_slice())?;
    Ok(text)
}

/// Returns the answer for a text that isn't read as a certificate: the line of the fault, with status 3. Fails also where the fault is
/// itself for want of memory.
pub fn cert_fault_answer(alloc: Global, file: &[u8], fault: CertFault) -> Result<Answer, AllocError>
    ensures answer { IfOk result (λ answer. (answer.status ≡ 3) × (joined answer.lines ≡ cert_fault_line file.now fault)) }
    ensures not_memory { IfOk result (λ _. fault ≡ CertFault.NoMemory → ⊥) }
{
    if fault == CertFault::NoMemory {
        return Err(AllocError);
    }
    of_line(alloc, REFUSED, cert_fault_line(alloc, file, fault)?)
}

// The line of a refusal of a certificate's text; for want of memory, no bytes.
fn cert_fault_line(alloc: Global, file: &[u8], fault: CertFault) -> Result<Text, AllocError>
    ensures { IfOk result (λ text. text ≡ cert_fault_line file.now fault) }
{
    match fault {
        CertFault::Syntax(place) => located(alloc, file, place, b"Syntax", b""),
        CertFault::Version(place) => located(alloc, file, place, b"Version", b""),
        CertFault::Limit(what, place) => limit_line(alloc, file, place, what),
        CertFault::UnknownRule(place) => located(alloc, file, place, b"UnknownRule", b""),
        CertFault::UnknownName(place) => located(alloc, file, place, b"UnknownName", b""),
        CertFault::RepeatedName(place) => located(alloc, file, place, b"RepeatedName", b""),
        CertFault::NoMemory => Ok(Text::new(alloc)),
    }
}
