//! The lines that tell how an order directs equations.

ghost use Rattle.std.specs.Prelude.{◌≡◌, IfOk};
ghost use Rattle.uc_term.specs.Table.{IsOf};
ghost use Rattle.uc_answer.specs.Lines.{joined};
ghost use Rattle.uc_answer.specs.Directions.{Compares, way_word, directed_line, AreDirected};
ghost use Rattle.uc_answer.specs.Axioms.{AreEquationsOf};

use itoa::Buffer;
use std::alloc::{AllocError, Global};
use uc_clause::print_equation;
use uc_order::{Cmp, Order};
use uc_term::{Equation, Seq, Symbols, Text};

// The word for a way.
fn way_word(cmp: Cmp) -> &'static [u8]
    ensures { result.now ≡ way_word cmp }
{
    match cmp {
        Cmp::Greater => b"lr",
        Cmp::Less => b"rl",
        Cmp::Equal => b"same",
        Cmp::Unknown => b"none",
    }
}

// How the sides of an equation compare.
fn compared<O: Order>(order: &O, equation: &Equation) -> Cmp
    ensures { Compares (O.meaning order.now) equation.now.left equation.now.right result }
{
    order.compare(equation.left.as_nodes(), equation.right.as_nodes())
}

// The line of the equation of a number, whose sides compare so.
fn directed_line(
    alloc: Global,
    number: usize,
    cmp: Cmp,
    equation: &Equation,
    symbols: &Symbols,
) -> Result<Text, AllocError>
    requires left { IsOf symbols.now equation.now.left }
    requires right { IsOf symbols.now equation.now.right }
    ensures { IfOk result (λ text. text ≡ directed_line symbols.now number cmp equation.now) }
{
    let mut buffer = Buffer::new();
    let mut line = Text::from_bytes(alloc, buffer.format(number).as_bytes())?;
    line.extend(b" ")?;
    line.extend(way_word(cmp))?;
    line.extend(b" ")?;
    let said = print_equation(alloc, true, &equation.left, &equation.right, symbols)?;
    line.extend(said.as_bytes())?;
    line.extend(b"\n")?;
    Ok(line)
}

/// Returns a line for each equation, numbered from 0: how the order directs it.
pub fn directed_lines<O: Order>(
    alloc: Global,
    order: &O,
    equations: &[Equation],
    symbols: &Symbols,
) -> Result<Seq<Text>, AllocError>
    requires { AreEquationsOf symbols.now equations.now }
    ensures { IfOk result (λ lines. AreDirected symbols.now (O.meaning order.now) 0 equations.now (joined lines)) }
{
    let mut lines = Seq::new(alloc);
    for number in 0..equations.len() {
        let equation = &equations[number];
        let cmp = compared(order, equation);
        lines.push(directed_line(alloc, number, cmp, equation, symbols)?)?;
    }
    Ok(lines)
}
