//! Reading a table.

ghost use Rattle.std.specs.Prelude.{◌≡◌, ◌+◌, ◌-◌, ◌<◌, ◌≤◌, ◌^◌, ◌==◌, ◌&&◌, length, false, true, min, [], Some, IfOk, MatchOption};
ghost use Rattle.uc_clause.specs.Bytes.{is_digits};
ghost use Rattle.uc_term.specs.Table.{Has};
ghost use Rattle.uc_term.specs.Gathering.{HasAll};
ghost use Rattle.std.specs.Str.Parse.{digits_value};
ghost use Rattle.uc_table.specs.Tables.{IsTableOf, MOST_CELLS};
ghost use Rattle.uc_table.specs.Printing.{table_text, end_line};
ghost use Rattle.uc_table.specs.Lines.{exactly, pick};
ghost use Rattle.uc_table.specs.Places.{IsAt};
ghost use Rattle.uc_table.specs.Reads.{Gives, Passes};
ghost use Rattle.uc_table.specs.Reading.{is_other_version, version_fault, version_line, header_lines, size_of, digit_of, checked_size, values_of, row_of, is_value, row_at, rows_after, table_lines, IsReading};

use crate::lines::{Cursor, departs, line_at, place_in};
use crate::places::lists_of;
use crate::printing::symbol_line;
use crate::{MAX_CELLS, MAX_SIZE, Table, TableFault};
use std::alloc::{AllocError, Global};
use uc_clause::MAX_BYTES;
use uc_term::{Seq, Sym, Symbols};

/// Reads a text of at most 16,777,216 bytes that is a table of these symbols, in this order:
///
/// ```text
/// % table 1
/// % size N
/// % symbol NAME ARITY        for each symbol, with its values in the next line
/// V V ..
/// % end
/// ```
///
/// N is 1 to 8, and each V is below N. Every line is exactly so, each with its line feed, and nothing stands behind the last: so
/// the text is the one that `print_table` prints of the table.
///
/// The first line that departs is refused at its first byte as `Syntax`, and so is the place behind the last byte where a line is
/// missing. Another number in the first line is `Version`, at the number. `TooManyCells` stands at the first symbol's line with
/// which there are more than 65,536 cells, and `TooManyBytes` at the first byte of a text that is too long.
pub fn read_table(
    alloc: Global,
    bytes: &[u8],
    signature: &[Sym],
    symbols: &Symbols,
) -> Result<Table, TableFault>
    requires has { HasAll symbols.now signature.now }
    ensures reading { IsReading symbols.now signature.now bytes.now result }
    ensures table { IfOk result (IsTableOf symbols.now signature.now) }
    ensures printed { IfOk result (λ table. bytes.now ≡ table_text symbols.now table) }
{
    if bytes.len() > MAX_BYTES {
        return Err(TableFault::TooManyBytes(place_in(1, 0)));
    }
    let (table, end) = table_at(alloc, bytes, signature, symbols)?;
    if end.from < bytes.len() {
        return Err(departs(end.number));
    }
    Ok(table)
}

// Reads the lines of a table.
fn table_at(
    alloc: Global,
    bytes: &[u8],
    signature: &[Sym],
    symbols: &Symbols,
) -> Result<(Table, Cursor), TableFault>
    requires small { length bytes.now < 2 ^ 31 }
    requires has { HasAll symbols.now signature.now }
    ensures { Gives (table_lines symbols.now signature.now) bytes.now (record { from = 0; number = 1 }) result }
{
    let start = Cursor { from: 0, number: 1 };
    let (size, at) = header_at(bytes, start)?;
    let (cells, at) = rows_at(alloc, bytes, at, size, signature, symbols)?;
    let end = exactly_at(bytes, at, b"% end")?;
    let symbols = Seq::from_vec(Vec::from_slice(alloc, signature)?);
    Ok((
        Table {
            size,
            symbols,
            cells,
        },
        end,
    ))
}

// Reads the first two lines: the size.
fn header_at(bytes: &[u8], at: Cursor) -> Result<(u32, Cursor), TableFault>
    requires small { length bytes.now < 2 ^ 31 }
    requires at { IsAt bytes.now at }
    ensures { Gives header_lines bytes.now at result }
{
    let at = version_at(bytes, at)?;
    size_at(bytes, at)
}

// Reads the first line.
fn version_at(bytes: &[u8], at: Cursor) -> Result<Cursor, TableFault>
    requires small { length bytes.now < 2 ^ 31 }
    requires at { IsAt bytes.now at }
    ensures { Passes version_line bytes.now at result }
{
    let Some((line, next)) = line_at(bytes, at) else {
        return Err(departs(at.number));
    };
    if line == b"% table 1".as_slice() {
        Ok(next)
    } else {
        Err(version_fault(line, at.number))
    }
}

const TABLE: &[u8] = b"% table ";

// The fault of a first line of this number that is another one.
fn version_fault(line: &[u8], number: u32) -> TableFault
    ensures { result ≡ version_fault number line.now }
{
    if !line.starts_with(TABLE) {
        return departs(number);
    }
    let (_, digits) = line.split_at(TABLE.len());
    if is_other_version(digits) {
        TableFault::Version(place_in(number, TABLE.len()))
    } else {
        departs(number)
    }
}

// Whether these are digits of another number than 1.
fn is_other_version(digits: &[u8]) -> bool
    ensures { result ≡ is_other_version digits.now }
{
    match number(digits) {
        Some(n) => n != 1,
        None => false,
    }
}

// The number that one or more digits write, or the greatest `u32` where it is greater.
fn number(digits: &[u8]) -> Option<u32>
    ensures { MatchOption result (is_digits digits.now ≡ false) (λ n. (is_digits digits.now ≡ true) × (n ≡ min (digits_value 10 digits.now) (2 ^ 32 - 1))) }
{
    if digits.is_empty() {
        return None;
    }
    let mut value: u32 = 0;
    for digit in digits {
        if !digit.is_ascii_digit() {
            return None;
        }
        value = value
            .saturating_mul(10)
            .saturating_add(u32::from(*digit - b'0'));
    }
    Some(value)
}

// Reads the second line.
fn size_at(bytes: &[u8], at: Cursor) -> Result<(u32, Cursor), TableFault>
    requires small { length bytes.now < 2 ^ 31 }
    requires at { IsAt bytes.now at }
    ensures { Gives (pick size_of) bytes.now at result }
{
    let Some((line, next)) = line_at(bytes, at) else {
        return Err(departs(at.number));
    };
    match size_of(line) {
        Some(size) => Ok((size, next)),
        None => Err(departs(at.number)),
    }
}

const SIZE: &[u8] = b"% size ";

// The size in a line.
fn size_of(line: &[u8]) -> Option<u32>
    ensures { result ≡ size_of line.now }
{
    if !line.starts_with(SIZE) {
        return None;
    }
    let (_, digits) = line.split_at(SIZE.len());
    checked_size(digit_of(digits)?)
}

// The number that a digit writes alone.
fn digit_of(digits: &[u8]) -> Option<u32>
    ensures { result ≡ digit_of digits.now }
{
    match digits {
        [digit] if digit.is_ascii_digit() => Some(u32::from(*digit - b'0')),
        _ => None,
    }
}

fn checked_size(size: u32) -> Option<u32>
    ensures { result ≡ checked_size (Some size) }
{
    if 1 <= size && size <= MAX_SIZE {
        Some(size)
    } else {
        None
    }
}

// Reads a line that has to be exactly this one.
fn exactly_at(bytes: &[u8], at: Cursor, wanted: &[u8]) -> Result<Cursor, TableFault>
    requires small { length bytes.now < 2 ^ 31 }
    requires at { IsAt bytes.now at }
    ensures { Passes (exactly wanted.now) bytes.now at result }
{
    let Some((line, next)) = line_at(bytes, at) else {
        return Err(departs(at.number));
    };
    if line == wanted {
        Ok(next)
    } else {
        Err(departs(at.number))
    }
}

// Reads the two lines of each symbol.
fn rows_at(
    alloc: Global,
    bytes: &[u8],
    at: Cursor,
    size: u32,
    signature: &[Sym],
    symbols: &Symbols,
) -> Result<(Seq<Seq<u32>>, Cursor), TableFault>
    requires small { length bytes.now < 2 ^ 31 }
    requires at { IsAt bytes.now at }
    requires some { 1 ≤ size }
    requires has { HasAll symbols.now signature.now }
    ensures { Gives (rows_after symbols.now size [] signature.now) bytes.now at result }
{
    let mut rows = Seq::new(alloc);
    let mut cells: usize = 0;
    let mut here = at;
    for f in signature {
        let (row, next) = row_at(alloc, bytes, here, size, cells, *f, symbols)?;
        cells += row.len();
        rows.push(row)?;
        here = next;
    }
    Ok((rows, here))
}

// Reads the two lines of a symbol, behind so many cells of others.
fn row_at(
    alloc: Global,
    bytes: &[u8],
    at: Cursor,
    size: u32,
    cells: usize,
    f: Sym,
    symbols: &Symbols,
) -> Result<(Seq<u32>, Cursor), TableFault>
    requires small { length bytes.now < 2 ^ 31 }
    requires at { IsAt bytes.now at }
    requires some { 1 ≤ size }
    requires few { cells ≤ MOST_CELLS }
    requires has { Has symbols.now f }
    ensures gives { Gives (row_at symbols.now size cells f) bytes.now at result }
    ensures few { IfOk result (λ r. cells + length r.0 ≤ MOST_CELLS) }
{
    let line = symbol_line(alloc, f, symbols)?;
    let next = exactly_at(bytes, at, line.as_bytes())?;
    match cells_with(cells, size, symbols.arity(f)) {
        Some(count) => values_at(alloc, bytes, next, size, count),
        None => Err(TableFault::TooManyCells(place_in(at.number, 0))),
    }
}

// How many cells a symbol has, for each list of so many arguments one. None exactly where there are more than 65,536 with those
// before.
fn cells_with(before: usize, size: u32, arity: u32) -> Option<u32>
    requires some { 1 ≤ size }
    requires few { before ≤ MOST_CELLS }
    ensures { MatchOption result (MOST_CELLS < before + size ^ arity) (λ n. (n ≡ size ^ arity) × (before + n ≤ MOST_CELLS)) }
{
    let count = lists_of(size, arity as usize)?;
    if before + count as usize > MAX_CELLS {
        return None;
    }
    Some(count)
}

// Reads a line of so many values.
fn values_at(
    alloc: Global,
    bytes: &[u8],
    at: Cursor,
    size: u32,
    count: u32,
) -> Result<(Seq<u32>, Cursor), TableFault>
    requires small { length bytes.now < 2 ^ 31 }
    requires at { IsAt bytes.now at }
    ensures gives { Gives (pick (row_of size count)) bytes.now at result }
    ensures many { IfOk result (λ r. length r.0 ≡ count) }
{
    let Some((line, next)) = line_at(bytes, at) else {
        return Err(departs(at.number));
    };
    match row_of(alloc, size, count, line)? {
        Some(row) => Ok((row, next)),
        None => Err(departs(at.number)),
    }
}

// The values in a line, if they are so many.
fn row_of(alloc: Global, size: u32, count: u32, line: &[u8]) -> Result<Option<Seq<u32>>, AllocError>
    ensures { IfOk result (λ row. row ≡ row_of size count line.now) }
{
    let Some(values) = values_of(alloc, size, line)? else {
        return Ok(None);
    };
    if values.len() == count as usize {
        Ok(Some(values))
    } else {
        Ok(None)
    }
}

// The values in a line, with a space between any two.
fn values_of(alloc: Global, size: u32, line: &[u8]) -> Result<Option<Seq<u32>>, AllocError>
    ensures { IfOk result (λ values. values ≡ values_of size line.now) }
{
    let mut values = Seq::new(alloc);
    let mut at: usize = 0;
    while line.len() - at > 1 {
        if !is_spaced(size, line[at], line[at + 1]) {
            return Ok(None);
        }
        values.push(u32::from(line[at] - b'0'))?;
        at += 2;
    }
    if at == line.len() || !is_value(size, line[at]) {
        return Ok(None);
    }
    values.push(u32::from(line[at] - b'0'))?;
    Ok(Some(values))
}

// Whether these are a digit that writes a value, and a space.
fn is_spaced(size: u32, byte: u8, next: u8) -> bool
    ensures { result ≡ (is_value size byte && (next == 32)) }
{
    is_value(size, byte) && next == b' '
}

// Whether a byte is a digit that writes a value.
fn is_value(size: u32, byte: u8) -> bool
    ensures { result ≡ is_value size byte }
{
    byte.is_ascii_digit() && u32::from(byte - b'0') < size
}
