//! The parts of a certificate that are read among its lines: the text of a system, the lines of a derivation, and join lines.

ghost use Rattle.std.specs.Prelude.{◌≡◌, ◌+◌, ◌<◌, ◌≤◌, ◌^◌, length, drop, slice_get, IfOk};
ghost use Rattle.std.specs.List.{prefix_len};
ghost use Rattle.uc_term.specs.Table.{Grows, IsOf};
ghost use Rattle.uc_clause.specs.Bytes.{in_line};
ghost use Rattle.uc_clause.specs.Distinct.{AreDistinct};
ghost use Rattle.uc_clause.specs.Tokens.{AreTokens, IsRefused, place_of};
ghost use Rattle.uc_tstp.specs.Printing.{names_in};
ghost use Rattle.uc_tstp.specs.Reading.{inside, first_byte};
ghost use Rattle.uc_tstp.specs.Faults.{StandsIn, BeginsLine};
ghost use Rattle.uc_clause.specs.Interning.{Interns};
ghost use Rattle.uc_tstp.specs.declared.scope.Scope.{Scope};
ghost use Rattle.uc_tstp.specs.Interning.{InternsInside};
ghost use Rattle.uc_system.specs.Interning.{InternsSystem};
ghost use Rattle.uc_system.specs.Reading.{IsSystem};
ghost use Rattle.uc_certificate.specs.Interning.{with_joins};
ghost use Rattle.uc_certificate.specs.JoinLines as join_rules;
ghost use Rattle.uc_certificate.specs.Having.{JoinsHave};
ghost use Rattle.uc_certificate.specs.declared.border.Border.TheVariants as border;
ghost use Rattle.uc_certificate.specs.Headings.{FirstLine, is_border};
ghost use Rattle.uc_certificate.specs.Faults.{token_fault, stop_fault};
ghost use Rattle.uc_certificate.specs.Reading.{frame_of, lines_down, limit_in, system_fault, proof_fault, join_fault};
ghost use Rattle.uc_certificate.specs.Reading as rules;
ghost use Rattle.uc_certificate.specs.Reads.{GivesIn, IsStart};

use crate::border::Border;
use crate::headings::{find, line_len};
use crate::joins::joins;
use crate::{CertFault, Join};
use std::alloc::Global;
use uc_check::Proof;
use uc_clause::{Place, Stop, Token, TokenFault, What, Why, place_behind, tokens};
use uc_system::{Cursor, SystemFault, SystemText, system_at};
use uc_term::{Seq, Symbols};
use uc_tstp::{Frame, ProofFault, Scope, read_inside};

// The place of a byte.
fn place_of(text: &[u8], at: usize) -> Place
    requires small { length text.now < 2 ^ 31 }
    requires at { at ≤ length text.now }
    ensures { result ≡ place_of text.now at }
{
    place_behind(text.split_at(at).0)
}

// What stands behind so many lines.
fn lines_down(count: u32, text: &[u8]) -> &[u8]
    ensures { result.now ≡ lines_down count text.now }
{
    let mut rest = text;
    for _ in 0..count {
        rest = behind_line(rest);
    }
    rest
}

// What stands behind the first line.
fn behind_line(text: &[u8]) -> &[u8]
    ensures { result.now ≡ drop (prefix_len in_line text.now + 1) text.now }
{
    let end = line_len(text);
    if end < text.len() {
        text.split_at(end + 1).1
    } else {
        text.split_at(text.len()).1
    }
}

// What is too large in a system's text.
fn limit_in(text: &[u8], place: Place) -> What
    ensures { result ≡ limit_in text.now place }
{
    if lines_down(place.line.saturating_sub(1), text).starts_with(b"%") {
        What::Arity
    } else {
        What::Nodes
    }
}

fn system_fault(text: &[u8], fault: SystemFault) -> CertFault
    ensures { result ≡ system_fault text.now fault }
{
    match fault {
        SystemFault::Syntax(place) => CertFault::Syntax(place),
        SystemFault::Version(place) => CertFault::Version(place),
        SystemFault::Limit(place) => CertFault::Limit(limit_in(text, place), place),
        SystemFault::NoMemory => CertFault::NoMemory,
    }
}

/// Reads the text of a system.
pub(crate) fn system(
    alloc: Global,
    text: &[u8],
    at: usize,
    symbols: &mut Symbols,
) -> Result<(SystemText, usize), CertFault>
    requires small { length text.now < 2 ^ 31 }
    requires at { at ≤ length text.now }
    ensures reads { GivesIn (λ table. rules.system table text.now) symbols.new text.now at result }
    ensures system { IfOk result (λ r. IsSystem symbols.new r.0) }
    ensures interns { IfOk result (λ _. InternsSystem (drop at text.now) symbols.old symbols.new) }
    ensures grows { Grows symbols.old symbols.new }
{
    let start = Cursor {
        from: at,
        number: place_of(text, at).line,
    };
    match system_at(alloc, text, start, symbols) {
        Ok((said, end)) => Ok((said, end.from)),
        Err(fault) => Err(system_fault(text, fault)),
    }
}

fn proof_fault(text: &[u8], fault: ProofFault) -> CertFault
    requires { length text.now < 2 ^ 31 }
    ensures { result ≡ proof_fault text.now fault }
{
    match fault {
        ProofFault::Syntax(place) => CertFault::Syntax(place),
        ProofFault::UnknownRule(place) => CertFault::UnknownRule(place),
        ProofFault::UnknownName(place) => CertFault::UnknownName(place),
        ProofFault::Truncated => CertFault::Syntax(place_of(text, text.len())),
        ProofFault::RepeatedName(place) => CertFault::RepeatedName(place),
        ProofFault::Limit(what, place) => CertFault::Limit(what, place),
        ProofFault::NoMemory => CertFault::NoMemory,
    }
}

/// Reads the lines of a derivation, up to the line of the facts or the end of the text.
pub(crate) fn derivation(
    alloc: Global,
    text: &[u8],
    at: usize,
    symbols: &mut Symbols,
) -> Result<(Proof, usize), CertFault>
    requires small { length text.now ≤ 268435456 }
    requires at { at ≤ length text.now }
    requires start { IsStart text.now at }
    ensures reads { GivesIn (λ table. rules.derivation table text.now) symbols.new text.now at result }
    ensures few { IfOk result (λ r. length r.0.lines < 2 ^ 31) }
    ensures distinct { IfOk result (λ r. AreDistinct (names_in r.0.lines)) }
    ensures interns { IfOk result (λ r. InternsInside Scope.Derivation text.now (frame_of at r.1) symbols.old symbols.new) }
    ensures grows { Grows symbols.old symbols.new }
{
    let to = find(Border::Facts, text, at);
    let frame = Frame { from: at, to };
    match read_inside(alloc, text, frame, Scope::Derivation, symbols) {
        Ok(proof) => Ok((proof, to)),
        Err(fault) => Err(proof_fault(text, fault)),
    }
}

// Where the tokens of a frame stop.
fn token_fault(text: &[u8], frame: Frame, fault: TokenFault) -> CertFault
    requires frame { StandsIn text.now frame }
    requires refused { IsRefused (inside text.now frame) fault }
    ensures { result ≡ token_fault text.now frame fault }
{
    match fault {
        TokenFault::Syntax(place) => {
            let front = place_of(text, frame.from);
            CertFault::Syntax(Place {
                line: front.line - 1 + place.line,
                column: place.column,
            })
        }
        TokenFault::NoMemory => CertFault::NoMemory,
    }
}

// The first byte of the token of this number, or the end of the text.
fn first_byte(text: &[u8], tokens: &[Token], at: usize) -> usize
    requires { AreTokens text.now tokens.now }
    ensures value { result ≡ first_byte (length text.now) (slice_get tokens.now at) }
    ensures within { result ≤ length text.now }
{
    if at < tokens.len() {
        tokens[at].from as usize
    } else {
        text.len()
    }
}

fn join_fault(why: Why, place: Place) -> CertFault
    ensures { result ≡ join_fault why place }
{
    match why {
        Why::Nodes => CertFault::Limit(What::Nodes, place),
        Why::Arity => CertFault::Limit(What::Arity, place),
        _ => CertFault::Syntax(place),
    }
}

// Where the join lines of a frame stop.
fn stop_fault(text: &[u8], frame: Frame, tokens: &[Token], stop: Stop) -> CertFault
    requires frame { StandsIn text.now frame }
    requires tokens { AreTokens (inside text.now frame) tokens.now }
    ensures { result ≡ stop_fault text.now frame tokens.now stop }
{
    match stop {
        Stop::At(why, at) => {
            let first = first_byte(&text[frame.from..frame.to], tokens, at);
            join_fault(why, place_of(text, frame.from + first))
        }
        Stop::NoMemory => CertFault::NoMemory,
    }
}

/// Reads join lines, up to the last line or the end of the text.
pub(crate) fn join_lines(
    alloc: Global,
    text: &[u8],
    at: usize,
    symbols: &mut Symbols,
) -> Result<(Seq<Join>, usize), CertFault>
    requires small { length text.now ≤ 268435456 }
    requires at { at ≤ length text.now }
    requires start { IsStart text.now at }
    ensures reads { GivesIn (λ table. rules.join_lines table text.now) symbols.new text.now at result }
    ensures terms { IfOk result (λ r. JoinsHave (IsOf symbols.new) r.0) }
    ensures few { IfOk result (λ r. length r.0 < 2 ^ 31) }
    ensures interns { IfOk result (λ r. Interns join_rules.joins with_joins (inside text.now (frame_of at r.1)) symbols.old symbols.new) }
    ensures grows { Grows symbols.old symbols.new }
{
    let to = find(Border::End, text, at);
    let frame = Frame { from: at, to };
    match tokens(alloc, &text[at..to]) {
        Ok(list) => joins_in(alloc, text, frame, list.as_slice(), symbols),
        Err(fault) => Err(token_fault(text, frame, fault)),
    }
}

// Reads the join lines that the tokens of a frame are.
fn joins_in(
    alloc: Global,
    text: &[u8],
    frame: Frame,
    tokens: &[Token],
    symbols: &mut Symbols,
) -> Result<(Seq<Join>, usize), CertFault>
    requires frame { StandsIn text.now frame }
    requires tokens { AreTokens (inside text.now frame) tokens.now }
    requires few { length tokens.now < 2 ^ 31 }
    ensures reads { FirstLine text.now (is_border border.End) frame.from frame.to → GivesIn (λ table. rules.join_lines table text.now) symbols.new text.now frame.from result }
    ensures terms { IfOk result (λ r. JoinsHave (IsOf symbols.new) r.0) }
    ensures few { IfOk result (λ r. length r.0 < 2 ^ 31) }
    ensures end { IfOk result (λ r. r.1 ≡ frame.to) }
    ensures interns { IfOk result (λ _. Interns join_rules.joins with_joins (inside text.now frame) symbols.old symbols.new) }
    ensures grows { Grows symbols.old symbols.new }
{
    match joins(alloc, &text[frame.from..frame.to], tokens, symbols) {
        Ok((list, _)) => Ok((list, frame.to)),
        Err(stop) => Err(stop_fault(text, frame, tokens, stop)),
    }
}
