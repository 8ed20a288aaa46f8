//! Reading a certificate.

ghost use Rattle.std.specs.Prelude.{◌≡◌, ◌≤◌, length, IfOk};
ghost use Rattle.uc_term.specs.Table.{Grows, IsOf};
ghost use Rattle.uc_system.specs.Reading.{IsSystem};
ghost use Rattle.uc_certificate.specs.declared.certificate.Certificate.{Certificate as Read};
ghost use Rattle.uc_certificate.specs.Having.{JoinsHave};
ghost use Rattle.uc_certificate.specs.Interning.{InternsRest, InternsCertificate};
ghost use Rattle.uc_certificate.specs.Reading.{IsReading};
ghost use Rattle.uc_certificate.specs.Reads.{AreFew, ReadsRest};

use crate::fact_names::facts;
use crate::headings::{DERIVATION_LINE, END_LINE, JOINS_LINE, heading, the_line};
use crate::parts::{derivation, join_lines, system};
use crate::{CertFault, Certificate};
use std::alloc::Global;
use uc_clause::{Place, What};
use uc_system::SystemText;
use uc_term::Symbols;
use uc_tstp::MAX_PROOF;

/// Reads the certificate that stands in a text.
///
/// ```text
/// % certificate 1
/// the text of a system
/// % derivation
/// file, encode and chain lines of a proof
/// % facts NAME NAME ..    the name of a line for each fact, in order
/// % joins
/// join lines
/// % end
/// ```
///
/// Each line with `%` is exactly so, with its line feed. What stands in front of the first line that begins with `% certificate `
/// is skipped, the derivation ends at the first line that is `% facts` or begins so with a space behind it, the joins end at the
/// first line `% end` behind them, and what follows isn't read.
///
/// `Limit` stands at the first byte where the text has more than 268,435,456. Then the parts go in text order. A line with `%` that
/// departs is `Syntax` at its first byte, and so is the facts' line where it has another number of names than there are facts; at
/// the end of the text, where the line is missing. `Version` stands at another number in the first line. The lines of the system
/// are refused as by `read_system`, the kind of its `Limit` told apart. The lines of the derivation are refused as those of a
/// proof, a refutation is `Syntax` at its first token behind what is wrong within it, and last comes `UnknownName`. So does a name
/// of a fact that no line has. In the joins, a byte that begins no token is `Syntax` first. Then the first token with which no join
/// line goes on is refused: as `Limit` at the first token of a term that passes 4,096 nodes and at a functor with a 256th argument,
/// else as `Syntax`, also at an Upper other than `X` and a number from 1 to 8,192 without a leading zero, unless its term passes a
/// limit in front of it.
///
/// Symbols are interned as they come; after a refusal the table may have grown, and only grown.
pub fn read_certificate(
    alloc: Global,
    bytes: &[u8],
    symbols: &mut Symbols,
) -> Result<Certificate, CertFault>
    ensures reading { IsReading symbols.new bytes.now result }
    ensures system { IfOk result (λ (certificate : Read). IsSystem symbols.new certificate.text) }
    ensures terms { IfOk result (λ (certificate : Read). JoinsHave (IsOf symbols.new) certificate.joins) }
    ensures few { IfOk result AreFew }
    ensures interns { IfOk result (λ _. InternsCertificate bytes.now symbols.old symbols.new) }
    ensures grows { Grows symbols.old symbols.new }
{
    if bytes.len() > MAX_PROOF {
        return Err(CertFault::Limit(What::Bytes, Place { line: 1, column: 1 }));
    }
    let at = heading(bytes)?;
    let (text, at) = system(alloc, bytes, at, symbols)?;
    rest_of_certificate(alloc, bytes, text, at, symbols)
}

// Reads what stands behind the text of a system.
fn rest_of_certificate(
    alloc: Global,
    bytes: &[u8],
    text: SystemText,
    at: usize,
    symbols: &mut Symbols,
) -> Result<Certificate, CertFault>
    requires small { length bytes.now ≤ 268435456 }
    requires at { at ≤ length bytes.now }
    ensures reads { ReadsRest symbols.new bytes.now text at result }
    ensures text { IfOk result (λ (certificate : Read). certificate.text ≡ text) }
    ensures terms { IfOk result (λ (certificate : Read). JoinsHave (IsOf symbols.new) certificate.joins) }
    ensures few { IfOk result AreFew }
    ensures interns { IfOk result (λ _. InternsRest bytes.now at symbols.old symbols.new) }
    ensures grows { Grows symbols.old symbols.new }
{
    let at = the_line(bytes, DERIVATION_LINE, at)?;
    let (lines, at) = derivation(alloc, bytes, at, symbols)?;
    let count = text.system.facts.len();
    let (facts, at) = facts(alloc, bytes, lines.lines.as_slice(), count, at)?;
    let at = the_line(bytes, JOINS_LINE, at)?;
    let (joins, at) = join_lines(alloc, bytes, at, symbols)?;
    the_line(bytes, END_LINE, at)?;
    Ok(Certificate {
        text,
        lines,
        facts,
        joins,
    })
}
