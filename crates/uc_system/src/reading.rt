//! Reading a system.

ghost use Rattle.std.specs.Prelude.{◌≡◌, ◌<◌, ◌^◌, length, drop, IfOk};
ghost use Rattle.uc_term.specs.Table.{Table, Grows};
ghost use Rattle.uc_system.specs.Symbols.{weights_in};
ghost use Rattle.uc_system.specs.Places.{IsAt};
ghost use Rattle.uc_ordering.specs.Meaning.{meaning_of};
ghost use Rattle.uc_system.specs.Reading.{IsReading, SaysSystem, IsSystem, precedence_of, system_lines, system_body, spec_of};
ghost use Rattle.uc_system.specs.Reads.{GivesIn};
ghost use Rattle.uc_system.specs.Interning.{InternsSymbols, InternsSystem};

use crate::facts::facts_at;
use crate::header::{Header, Kind, header_at};
use crate::lines::{Cursor, departs};
use crate::symbols::{Ranked, symbols_at, symbols_fault};
use crate::{SystemFault, SystemText};
use std::alloc::{AllocError, Global};
use uc_fact::System;
use uc_order::OrderSpec;
use uc_term::{Seq, Symbols};

/// Reads a text of fewer than 2^31 bytes that is a system: the description of an order, and facts.
///
/// ```text
/// % system 1
/// % order kbo W0        or  % order lpo
/// % symbol NAME ARITY WEIGHT   (without the weight for lpo), the least first
/// cnf(sK, plain, EQUATION).    K from 1
/// % end
/// ```
///
/// Every line is exactly so, each with its line feed, and nothing stands behind the last. The first line is `% system 2` where
/// a symbol weighs 0.
///
/// The first line that departs is refused at its first byte as `Syntax`, and so is the place behind the last byte where a line
/// is missing. So are a symbol that stands twice, one of a fact that has no line, a weight of a variable outside 1 to
/// 1,000,000, and a weight that is over 1,000,000, or a constant's and below the variable's, or 0 where the symbol isn't both
/// unary and last. A text without a constant is refused behind the symbols' lines. That the first line doesn't say what the
/// weights are is `Syntax` there, behind what is wrong with the lines up to where that is known; another number in it is
/// `Version`, at the number. `Limit` stands at an arity over 255, and at the first byte of the first term of more than 4,096
/// nodes in a line that departs in nothing else.
///
/// The symbols' lines are interned in order, and the facts add no symbol; after a refusal the table may have grown, and only grown.
pub fn read_system(
    alloc: Global,
    bytes: &[u8],
    symbols: &mut Symbols,
) -> Result<SystemText, SystemFault>
    requires { length bytes.now < 2 ^ 31 }
    ensures reading { IsReading symbols.new bytes.now result }
    ensures says { IfOk result (λ said. SaysSystem symbols.new bytes.now (precedence_of said.spec) (meaning_of symbols.new said.spec) said.system.facts) }
    ensures system { IfOk result (IsSystem symbols.new) }
    ensures grows { Grows symbols.old symbols.new }
    ensures interns { IfOk result (λ _. InternsSystem bytes.now symbols.old symbols.new) }
{
    let start = Cursor { from: 0, number: 1 };
    let (text, end) = system_at(alloc, bytes, start, symbols)?;
    if end.from < bytes.len() {
        return Err(departs(end.number));
    }
    Ok(text)
}

/// Reads the lines of a system from here on: the system, and where the line behind its last one begins. What stands there isn't
/// looked at.
///
/// The refusals are those of `read_system`, with the number of the line that is asked for.
pub fn system_at(
    alloc: Global,
    bytes: &[u8],
    at: Cursor,
    symbols: &mut Symbols,
) -> Result<(SystemText, Cursor), SystemFault>
    requires small { length bytes.now < 2 ^ 31 }
    requires at { IsAt bytes.now at }
    ensures reads { GivesIn system_lines symbols.new bytes.now at result }
    ensures grows { Grows symbols.old symbols.new }
    ensures interns { IfOk result (λ _. InternsSystem (drop at.from bytes.now) symbols.old symbols.new) }
{
    let (header, at) = header_at(bytes, at)?;
    body_at(alloc, bytes, header, at, symbols)
}

// Reads what stands behind the first two lines.
fn body_at(
    alloc: Global,
    bytes: &[u8],
    header: Header,
    at: Cursor,
    symbols: &mut Symbols,
) -> Result<(SystemText, Cursor), SystemFault>
    requires small { length bytes.now < 2 ^ 31 }
    requires at { IsAt bytes.now at }
    ensures reads { GivesIn (λ (table : Table). system_body table header) symbols.new bytes.now at result }
    ensures grows { Grows symbols.old symbols.new }
    ensures interns { IfOk result (λ _. InternsSymbols header.kind (drop at.from bytes.now) symbols.old symbols.new) }
{
    let (ranks, at) = symbols_at(alloc, bytes, header, at, symbols)?;
    if let Some(fault) = symbols_fault(header, ranks.ranked.as_slice(), at.number, symbols) {
        return Err(fault);
    }
    let (facts, at) = facts_at(alloc, bytes, &ranks.known, at, symbols)?;
    let spec = spec_of(alloc, header.kind, ranks.ranked.as_slice())?;
    let system = System { facts };
    Ok((SystemText { spec, system }, at))
}

// The description of an order that the symbols' lines make.
fn spec_of(alloc: Global, kind: Kind, ranked: &[Ranked]) -> Result<OrderSpec, AllocError>
    ensures { IfOk result (λ spec. spec ≡ spec_of kind ranked.now) }
{
    let mut precedence = Seq::new(alloc);
    for s in ranked {
        precedence.push(s.symbol)?;
    }
    let Kind::Weighing(w0) = kind else {
        return Ok(OrderSpec::Lpo { precedence });
    };
    let weights = weights_of(alloc, ranked)?;
    Ok(OrderSpec::Kbo {
        w0,
        weights,
        precedence,
    })
}

fn weights_of(alloc: Global, ranked: &[Ranked]) -> Result<Seq<u32>, AllocError>
    ensures { IfOk result (λ weights. weights ≡ weights_in ranked.now) }
{
    let mut weights = Seq::new(alloc);
    for s in ranked {
        weights.push(s.weight)?;
    }
    Ok(weights)
}
