//! Printing a system.

ghost use Rattle.std.specs.List.{list_any};
ghost use Rattle.std.specs.Prelude.{◌≡◌, ◌+◌, ◌<◌, ◌^◌, ◌==◌, ◌++◌, length, decimal, Ok, IfOk, OnOk};
ghost use Rattle.uc_term.specs.Table.{Has};
ghost use Rattle.uc_order.specs.Members.{Each};
ghost use Rattle.uc_system.specs.Reading.{ReadsSystem};
ghost use Rattle.uc_system.specs.Header.{heading_line};
ghost use Rattle.uc_system.specs.Printing.{system_text, is_light, order_line, symbols_text, weighed_text, bare_text, bare_line, facts_text, ended, IsSpecOf, IsEquationOf};
ghost use Rattle.uc_system.specs.Facts.{fact_line};
ghost use Rattle.uc_system.specs.Printable.{IsPrintableSystem};

use itoa::Buffer;
use std::alloc::{AllocError, Global};
use uc_clause::{print_equation, print_word};
use uc_fact::System;
use uc_order::OrderSpec;
use uc_term::{Equation, Sym, Symbols, Text};

/// A system as a text, in the form that `read_system` reads.
///
/// Names stand bare where they are lower-case words and else in quotes, variable `n` is `X` and `n + 1`, and terms have no
/// spaces. The symbols of the description have to be the table's, each with a weight where the order has weights.
///
/// The text is read again as the very same description and system where: the description is one of an order of its own
/// symbols, as `Fits` says; a token can spell each of their names, and none has more than 255 arguments; and the facts are over
/// these symbols, with the variables of each numbered by first occurrence.
pub fn print_system(
    alloc: Global,
    spec: &OrderSpec,
    system: &System,
    symbols: &Symbols,
) -> Result<Text, AllocError>
    requires spec { IsSpecOf symbols.now spec.now }
    requires facts { Each (IsEquationOf symbols.now) system.now.facts }
    ensures text { IfOk result (λ text. text ≡ system_text symbols.now spec.now system.now.facts) }
    ensures read_back { IsPrintableSystem symbols.now spec.now system.now.facts → IfOk result (λ text. ReadsSystem symbols.now text (Ok (record { spec = spec.now; system = system.now }))) }
{
    let facts = system.facts.as_slice();
    see_few(facts);
    let mut out = Text::new(alloc);
    write_system(alloc, &mut out, spec, facts, symbols)?;
    Ok(out)
}

// Tells of facts how few they are.
fn see_few(facts: &[Equation])
    ensures { length facts.now + 1 < 2 ^ 64 }
{
    let _ = facts.len();
}

fn write_system(
    alloc: Global,
    out: &mut Text,
    spec: &OrderSpec,
    facts: &[Equation],
    symbols: &Symbols,
) -> Result<(), AllocError>
    requires spec { IsSpecOf symbols.now spec.now }
    requires facts { Each (IsEquationOf symbols.now) facts.now }
    ensures { OnOk result (out.new ≡ out.old ++ system_text symbols.now spec.now facts.now) }
{
    out.extend(heading_line(is_light(spec)))?;
    out.push(b'\n')?;
    write_order(out, spec)?;
    out.push(b'\n')?;
    write_symbols(alloc, out, spec, symbols)?;
    write_facts(alloc, out, facts, symbols)?;
    out.extend(b"% end\n")
}

// Whether some symbol weighs 0.
fn is_light(spec: &OrderSpec) -> bool
    ensures { result ≡ is_light spec.now }
{
    match spec {
        OrderSpec::Kbo { weights, .. } => has_zero(weights.as_slice()),
        OrderSpec::Lpo { .. } => false,
    }
}

fn has_zero(weights: &[u32]) -> bool
    ensures { result ≡ list_any (λ w. w == 0) weights.now }
{
    weights.iter().any(|w| *w == 0)
}

fn heading_line(light: bool) -> &'static [u8]
    ensures { result.now ≡ heading_line light }
{
    if light { b"% system 2" } else { b"% system 1" }
}

fn write_order(out: &mut Text, spec: &OrderSpec) -> Result<(), AllocError>
    ensures { OnOk result (out.new ≡ out.old ++ order_line spec.now) }
{
    match spec {
        OrderSpec::Kbo { w0, .. } => {
            out.extend(b"% order kbo ")?;
            write_number(out, u64::from(*w0))
        }
        OrderSpec::Lpo { .. } => out.extend(b"% order lpo"),
    }
}

fn write_number(out: &mut Text, number: u64) -> Result<(), AllocError>
    ensures { OnOk result (out.new ≡ out.old ++ decimal number) }
{
    let mut buffer = Buffer::new();
    out.extend(buffer.format(number).as_bytes())
}

fn write_symbols(
    alloc: Global,
    out: &mut Text,
    spec: &OrderSpec,
    symbols: &Symbols,
) -> Result<(), AllocError>
    requires { IsSpecOf symbols.now spec.now }
    ensures { OnOk result (out.new ≡ out.old ++ symbols_text symbols.now spec.now) }
{
    match spec {
        OrderSpec::Kbo {
            weights,
            precedence,
            ..
        } => {
            let (weights, precedence) = (weights.as_slice(), precedence.as_slice());
            write_weighed(alloc, out, precedence, weights, symbols)
        }
        OrderSpec::Lpo { precedence } => write_bare(alloc, out, precedence.as_slice(), symbols),
    }
}

// The lines of symbols with their weights.
fn write_weighed(
    alloc: Global,
    out: &mut Text,
    precedence: &[Sym],
    weights: &[u32],
    symbols: &Symbols,
) -> Result<(), AllocError>
    requires of_table { Each (Has symbols.now) precedence.now }
    requires as_many { length weights.now ≡ length precedence.now }
    ensures { OnOk result (out.new ≡ out.old ++ weighed_text symbols.now precedence.now weights.now) }
{
    for (number, symbol) in precedence.iter().enumerate() {
        write_symbol(alloc, out, *symbol, symbols)?;
        out.push(b' ')?;
        write_number(out, u64::from(weights[number]))?;
        out.push(b'\n')?;
    }
    Ok(())
}

// The lines of symbols without weights.
fn write_bare(
    alloc: Global,
    out: &mut Text,
    precedence: &[Sym],
    symbols: &Symbols,
) -> Result<(), AllocError>
    requires { Each (Has symbols.now) precedence.now }
    ensures { OnOk result (out.new ≡ out.old ++ bare_text symbols.now precedence.now) }
{
    for symbol in precedence {
        write_symbol(alloc, out, *symbol, symbols)?;
        out.push(b'\n')?;
    }
    Ok(())
}

// A symbol's line up to its arity.
fn write_symbol(
    alloc: Global,
    out: &mut Text,
    symbol: Sym,
    symbols: &Symbols,
) -> Result<(), AllocError>
    requires { Has symbols.now symbol }
    ensures { OnOk result (out.new ≡ out.old ++ bare_line symbols.now symbol) }
{
    out.extend(b"% symbol ")?;
    let name = print_word(alloc, symbols.name(symbol))?;
    out.extend(name.as_bytes())?;
    out.push(b' ')?;
    write_number(out, u64::from(symbols.arity(symbol)))
}

fn write_facts(
    alloc: Global,
    out: &mut Text,
    facts: &[Equation],
    symbols: &Symbols,
) -> Result<(), AllocError>
    requires { Each (IsEquationOf symbols.now) facts.now }
    ensures { OnOk result (out.new ≡ out.old ++ facts_text symbols.now 1 facts.now) }
{
    for (number, fact) in facts.iter().enumerate() {
        write_fact(alloc, out, number as u64 + 1, fact, symbols)?;
        out.push(b'\n')?;
    }
    Ok(())
}

// The line of the fact of this number.
fn write_fact(
    alloc: Global,
    out: &mut Text,
    number: u64,
    fact: &Equation,
    symbols: &Symbols,
) -> Result<(), AllocError>
    requires { IsEquationOf symbols.now fact.now }
    ensures { OnOk result (out.new ≡ out.old ++ fact_line symbols.now number fact.now) }
{
    out.extend(b"cnf(s")?;
    write_number(out, number)?;
    out.extend(b", plain, ")?;
    let text = print_equation(alloc, true, &fact.left, &fact.right, symbols)?;
    out.extend(text.as_bytes())?;
    out.extend(b").")
}
