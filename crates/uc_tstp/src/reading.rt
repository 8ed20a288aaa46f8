//! Reading a proof.

ghost use Rattle.std.specs.Prelude.{◌≡◌, ◌<◌, ◌^◌, length, IfOk};
ghost use Rattle.uc_term.specs.Table.{Table, Grows};
ghost use Rattle.uc_clause.specs.Tokens.{AreTokens};
ghost use Rattle.uc_tstp.specs.Interning.{InternsInside, InternsProof};
ghost use Rattle.uc_tstp.specs.Drafts.{AreLines};
ghost use Rattle.uc_tstp.specs.Faults.{StandsIn, BeginsLine};
ghost use Rattle.uc_tstp.specs.Reading.{inside, IsReadingInside, IsReadingOfLines, IsReading};
ghost use Rattle.uc_tstp.specs.declared.scope.Scope.{Scope};

use crate::drafts::LineDraft;
use crate::lines::lines_in;
use crate::names::Names;
use crate::refusal::{line_fault, name_fault, token_fault};
use crate::resolving::resolved;
use crate::{Frame, MAX_PROOF, ProofFault, Scope, frame_of};
use std::alloc::Global;
use uc_check::Proof;
use uc_clause::{Place, Token, What, tokens};
use uc_term::{Seq, Symbols};

/// Reads the proof that stands in a text between a start line and the first end line behind it.
///
/// The refusals come in this order: `Limit` at the first byte where the text has more than 268,435,456; `Syntax` behind the
/// last byte where there is no start line; `Truncated` where no end line stands behind it; `Syntax` at the end line where it
/// has another name; `Syntax` at the first byte between the two that begins no token. Then the first token with which no
/// proof goes on: `UnknownRule` at a word in place of an inference rule, `RepeatedName` at the name of an earlier line,
/// `Limit` at a term's 4,097th node and at a functor with a 256th argument, else `Syntax`. At last `UnknownName` at the first
/// name that no line has, line by line, in a chain its steps before its parents.
///
/// Symbols are interned when their arguments are closed; after a refusal the table may have grown, and only grown.
pub fn read_proof(alloc: Global, bytes: &[u8], symbols: &mut Symbols) -> Result<Proof, ProofFault>
    ensures reading { IsReading symbols.new bytes.now result }
    ensures few { IfOk result (λ proof. length proof.lines < 2 ^ 31) }
    ensures grows { Grows symbols.old symbols.new }
    ensures interns { IfOk result (λ _. InternsProof bytes.now symbols.old symbols.new) }
{
    let frame = frame_of(bytes)?;
    read_inside(alloc, bytes, frame, Scope::Proof, symbols)
}

/// Reads the lines of a proof that are a whole text, with no start or end line.
///
/// The refusals are those of `read_proof` between the two lines: `Limit` at the first byte where the text has more than
/// 268,435,456; `Syntax` at the first byte that begins no token; then those of the lines, where the end of the text counts as
/// a last token behind its last byte.
pub fn read_lines(alloc: Global, bytes: &[u8], symbols: &mut Symbols) -> Result<Proof, ProofFault>
    ensures reading { IsReadingOfLines symbols.new bytes.now result }
    ensures few { IfOk result (λ proof. length proof.lines < 2 ^ 31) }
    ensures grows { Grows symbols.old symbols.new }
{
    if bytes.len() > MAX_PROOF {
        return Err(ProofFault::Limit(What::Bytes, Place { line: 1, column: 1 }));
    }
    let frame = Frame {
        from: 0,
        to: bytes.len(),
    };
    read_inside(alloc, bytes, frame, Scope::Proof, symbols)
}

/// Reads the lines in a frame of a text of at most 268,435,456 bytes, which begins with a line of the text: those of a proof, or
/// those of a derivation.
///
/// The refusals are those of `read_lines` behind the one of a long text, with their places in the whole text; the end of the
/// frame counts as a last token. In a derivation a refutation is `Syntax` at its first token, behind what is wrong within it.
pub fn read_inside(
    alloc: Global,
    bytes: &[u8],
    frame: Frame,
    which: Scope,
    symbols: &mut Symbols,
) -> Result<Proof, ProofFault>
    requires frame { StandsIn bytes.now frame }
    requires begins { BeginsLine bytes.now frame }
    ensures reading { IsReadingInside which symbols.new bytes.now frame result }
    ensures few { IfOk result (λ proof. length proof.lines < 2 ^ 31) }
    ensures grows { Grows symbols.old symbols.new }
    ensures interns { IfOk result (λ _. InternsInside which bytes.now frame symbols.old symbols.new) }
{
    match tokens(alloc, &bytes[frame.from..frame.to]) {
        Ok(list) => proof_in(alloc, bytes, frame, which, list.as_slice(), symbols),
        Err(fault) => Err(token_fault(bytes, frame, fault)),
    }
}

// Reads the lines that the tokens of the frame are.
fn proof_in(
    alloc: Global,
    bytes: &[u8],
    frame: Frame,
    which: Scope,
    tokens: &[Token],
    symbols: &mut Symbols,
) -> Result<Proof, ProofFault>
    requires frame { StandsIn bytes.now frame }
    requires tokens { AreTokens (inside bytes.now frame) tokens.now }
    ensures reading { IsReadingInside which symbols.new bytes.now frame result }
    ensures few { IfOk result (λ proof. length proof.lines < 2 ^ 31) }
    ensures grows { Grows symbols.old symbols.new }
    ensures interns { IfOk result (λ _. InternsInside which bytes.now frame symbols.old symbols.new) }
{
    match lines_in(alloc, &bytes[frame.from..frame.to], tokens, which, symbols) {
        Ok((names, drafts)) => proof_of(alloc, bytes, frame, tokens, &names, drafts),
        Err(stop) => Err(line_fault(bytes, frame, tokens, stop)),
    }
}

// The proof of lines of these names.
fn proof_of(
    alloc: Global,
    bytes: &[u8],
    frame: Frame,
    tokens: &[Token],
    names: &Names,
    drafts: Seq<LineDraft>,
) -> Result<Proof, ProofFault>
    requires frame { StandsIn bytes.now frame }
    requires tokens { AreTokens (inside bytes.now frame) tokens.now }
    ensures reading { (which : Scope) (old table : Table) → AreLines (inside bytes.now frame) tokens.now which old table names.now drafts → IsReadingInside which table bytes.now frame result }
    ensures few { IfOk result (λ proof. length proof.lines ≡ length drafts) }
{
    match resolved(alloc, &bytes[frame.from..frame.to], tokens, names, drafts) {
        Ok(lines) => Ok(Proof { lines }),
        Err(unresolved) => Err(name_fault(bytes, frame, tokens, unresolved)),
    }
}
