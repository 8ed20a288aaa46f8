//! The certificate of a system that is printed.

ghost use Rattle.std.specs.Prelude.{◌≡◌, ◌<◌, ◌≤◌, ◌^◌, ◌++◌, ℕ, List, IfOk, OnOk, OnErr};
ghost use Rattle.uc_shelf.specs.Entries.{born};
ghost use Rattle.uc_machine.specs.declared.event.Verdict.TheVariants.{Saturated};
ghost use Rattle.uc_proof.specs.Extracted.{AreDerivedFacts};
ghost use Rattle.uc_ordering.specs.Chosen.{IsOrderOf};
ghost use Rattle.uc_answer.specs.Lines.{joined};
ghost use Rattle.uc_answer.specs.CertificateLines.{live_numbers, IsReadBack, HasFewLines, IsReadBackIf};
ghost use Rattle.uc_answer.specs.VerdictLines.{HasEnded};

use crate::verdict_lines::{Closed, are_few, lines_of};
use std::alloc::{AllocError, Global};
use uc_book::Book;
use uc_certificate::print_certificate;
use uc_certify::make_certificate;
use uc_order::Order;
use uc_ordering::Chosen;
use uc_proof::{Extracted, extract_facts_from};
use uc_search::{all_facts, live_numbers, live_system};
use uc_term::{Seq, Text};

/// Returns the lines, with the certificate of the facts that live behind them where the command asks for one.
pub(crate) fn certified<O: Order>(
    alloc: Global,
    closed: &Closed,
    lines: Seq<Text>,
    book: &Book<O>,
    order: &Chosen,
) -> Result<Seq<Text>, AllocError>
    requires order { IsOrderOf closed.now.symbols.now closed.now.spec.now order.now }
    requires shelf { book.now.opening.shelf ≡ closed.now.shelf.now }
    requires problem { book.now.opening.problem ≡ closed.now.encoded.now }
    requires ended { HasEnded closed.now.symbols.now closed.now.command.now closed.now.problem.now closed.now.encoded.now closed.now.spec.now Saturated book.now.state }
    ensures { IfOk result (λ all. (text : List ℕ) × IsReadBackIf closed.now.symbols.now closed.now.problem.now closed.now.encoded.now closed.now.spec.now book.now.state closed.now.command.now.certificate text × (joined all ≡ joined lines ++ text)) }
{
    if !closed.command.certificate {
        return Ok(lines);
    }
    let text = certificate_text(alloc, closed, book, order)?;
    let mut all = lines;
    all.append(lines_of(alloc, text.as_bytes())?)?;
    Ok(all)
}

/// Returns the text of the certificate of the facts that live.
fn certificate_text<O: Order>(
    alloc: Global,
    closed: &Closed,
    book: &Book<O>,
    order: &Chosen,
) -> Result<Text, AllocError>
    requires order { IsOrderOf closed.now.symbols.now closed.now.spec.now order.now }
    requires shelf { book.now.opening.shelf ≡ closed.now.shelf.now }
    requires problem { book.now.opening.problem ≡ closed.now.encoded.now }
    requires ended { HasEnded closed.now.symbols.now closed.now.command.now closed.now.problem.now closed.now.encoded.now closed.now.spec.now Saturated book.now.state }
    ensures read_back { IfOk result (IsReadBack closed.now.symbols.now closed.now.problem.now closed.now.encoded.now closed.now.spec.now book.now.state) }
    ensures few { IfOk result (λ _. HasFewLines closed.now.symbols.now closed.now.problem.now closed.now.encoded.now closed.now.spec.now book.now.state) }
{
    let (derivation, numbers) = derived(alloc, closed, book)?;
    let system = live_system(alloc, closed.shelf, book.front())?;
    have_numbers(system.facts.len())?;
    let axioms = closed.encoded.axioms.as_slice();
    let Extracted { proof, files } = derivation;
    let certificate = make_certificate(alloc, closed.spec, &system, axioms, proof, numbers, order)?;
    print_certificate(alloc, &certificate, files.as_slice(), closed.symbols)
}

/// Returns the derivation of the facts that live, and for each the number of its line.
fn derived<O: Order>(
    alloc: Global,
    closed: &Closed,
    book: &Book<O>,
) -> Result<(Extracted, Seq<u32>), AllocError>
    requires shelf { book.now.opening.shelf ≡ closed.now.shelf.now }
    requires ended { HasEnded closed.now.symbols.now closed.now.command.now closed.now.problem.now closed.now.encoded.now closed.now.spec.now Saturated book.now.state }
    ensures derived { IfOk result (λ made. AreDerivedFacts closed.now.problem.now closed.now.encoded.now (born book.now.state.entries) (live_numbers book.now.state) made.0.proof.lines made.0.files made.1) }
    ensures few { IfOk result (λ _. HasFewLines closed.now.symbols.now closed.now.problem.now closed.now.encoded.now closed.now.spec.now book.now.state) }
{
    let facts = all_facts(alloc, closed.shelf, book.front())?;
    let live = live_numbers(alloc, closed.shelf, book.front())?;
    let (problem, encoded) = (closed.problem, closed.encoded);
    are_few(encoded.sources.len(), problem.goals.len(), facts.len())?;
    extract_facts_from(alloc, facts.as_slice(), live.as_slice(), problem, encoded)
}

const MOST_FACTS: usize = 2_147_483_648;

/// Refuses so many facts that a certificate can't number their overlaps, and no others. A search keeps at most 10,000,000 facts.
fn have_numbers(facts: usize) -> Result<(), AllocError>
    ensures few { OnOk result (facts < 2 ^ 31) }
    ensures refused { OnErr result (2 ^ 31 ≤ facts) }
{
    if facts < MOST_FACTS {
        Ok(())
    } else {
        Err(AllocError)
    }
}
