//! Printing a table.

ghost use Rattle.std.specs.Prelude.{◌≡◌, ◌≤◌, ◌++◌, length, decimal, Ok, IfOk, OnOk};
ghost use Rattle.uc_term.specs.Table.{Has};
ghost use Rattle.uc_term.specs.Gathering.{HasAll};
ghost use Rattle.uc_table.specs.Printable.{IsPrintableTable};
ghost use Rattle.uc_table.specs.Reading.{table_of};
ghost use Rattle.uc_table.specs.Printing.{table_text, rows_text, symbol_line, values_line, spaced};

use crate::Table;
use itoa::Buffer;
use std::alloc::{AllocError, Global};
use uc_clause::print_word;
use uc_term::{Seq, Sym, Symbols, Text};

/// A table as a text, in the form that `read_table` reads. The symbols of the table have to be those of the table of symbols,
/// each with a list of cells. Names stand bare where they are lower-case words and else in quotes.
///
/// A text of at most 16,777,216 bytes is read again as the very same table where it is one of its own symbols, as `IsTableOf`
/// says; a token can spell each of their names, and none has more than 255 arguments; and it has at most 65,536 cells.
pub fn print_table(alloc: Global, table: &Table, symbols: &Symbols) -> Result<Text, AllocError>
    requires has { HasAll symbols.now table.now.symbols }
    requires rows { length table.now.cells ≡ length table.now.symbols }
    ensures text { IfOk result (λ text. text ≡ table_text symbols.now table.now) }
    ensures read_back { IsPrintableTable symbols.now table.now → IfOk result (λ text. length text ≤ 16777216 → table_of symbols.now table.now.symbols text ≡ Ok table.now) }
{
    let mut out = Text::new(alloc);
    write_table(alloc, &mut out, table, symbols)?;
    Ok(out)
}

fn write_table(
    alloc: Global,
    out: &mut Text,
    table: &Table,
    symbols: &Symbols,
) -> Result<(), AllocError>
    requires has { HasAll symbols.now table.now.symbols }
    requires rows { length table.now.cells ≡ length table.now.symbols }
    ensures { OnOk result (out.new ≡ out.old ++ table_text symbols.now table.now) }
{
    out.extend(b"% table 1\n% size ")?;
    write_number(out, table.size)?;
    out.push(b'\n')?;
    let cells = table.cells.as_slice();
    write_rows(alloc, out, table.symbols.as_slice(), cells, symbols)?;
    out.extend(b"% end\n")
}

fn write_number(out: &mut Text, number: u32) -> Result<(), AllocError>
    ensures { OnOk result (out.new ≡ out.old ++ decimal number) }
{
    let mut buffer = Buffer::new();
    out.extend(buffer.format(number).as_bytes())
}

// The two lines of each symbol.
fn write_rows(
    alloc: Global,
    out: &mut Text,
    fs: &[Sym],
    rows: &[Seq<u32>],
    symbols: &Symbols,
) -> Result<(), AllocError>
    requires has { HasAll symbols.now fs.now }
    requires rows { length rows.now ≡ length fs.now }
    ensures { OnOk result (out.new ≡ out.old ++ rows_text symbols.now fs.now rows.now) }
{
    for (number, f) in fs.iter().enumerate() {
        let line = symbol_line(alloc, *f, symbols)?;
        out.extend(line.as_bytes())?;
        out.push(b'\n')?;
        write_values(out, rows[number].as_slice())?;
        out.push(b'\n')?;
    }
    Ok(())
}

// The line of a symbol, without its line feed.
pub(crate) fn symbol_line(alloc: Global, f: Sym, symbols: &Symbols) -> Result<Text, AllocError>
    requires { Has symbols.now f }
    ensures { IfOk result (λ line. line ≡ symbol_line symbols.now f) }
{
    let mut line = Text::from_bytes(alloc, b"% symbol ")?;
    let name = print_word(alloc, symbols.name(f))?;
    line.extend(name.as_bytes())?;
    line.push(b' ')?;
    write_number(&mut line, symbols.arity(f))?;
    Ok(line)
}

// Values, with a space between any two.
fn write_values(out: &mut Text, values: &[u32]) -> Result<(), AllocError>
    ensures { OnOk result (out.new ≡ out.old ++ values_line values.now) }
{
    match values {
        [] => Ok(()),
        [first, rest @ ..] => {
            write_number(out, *first)?;
            write_spaced(out, rest)
        }
    }
}

// Values, with a space before each of them.
fn write_spaced(out: &mut Text, values: &[u32]) -> Result<(), AllocError>
    ensures { OnOk result (out.new ≡ out.old ++ spaced values.now) }
{
    for value in values {
        out.push(b' ')?;
        write_number(out, *value)?;
    }
    Ok(())
}
