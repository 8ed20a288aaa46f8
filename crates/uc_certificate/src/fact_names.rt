//! The line that names, for each fact, the line that derives it.

ghost use Rattle.std.specs.Prelude.{◌≡◌, ◌+◌, ◌<◌, ◌≤◌, ◌^◌, length, position, bytes_eq, IfOk, IfErr, MatchOption};
ghost use Rattle.std.specs.List.{list_all, prefix_len};
ghost use Rattle.uc_clause.specs.Distinct.{AreDistinct};
ghost use Rattle.uc_clause.specs.Bytes as of_bytes;
ghost use Rattle.uc_clause.specs.Tokens.{place_of};
ghost use Rattle.uc_tstp.specs.Printing.{names_in};
ghost use Rattle.uc_certificate.specs.Headings.{facts};
ghost use Rattle.uc_certificate.specs.FactNames.{in_name, names_of, IsNoSplit, IsSplit, HasNoNames, HasNames, NumbersOf, NoNumbersOf};
ghost use Rattle.uc_certificate.specs.Reads.{Gives};

use crate::CertFault;
use crate::headings::{FACTS, departs, whole_line};
use indexmap::IndexSet;
use std::alloc::{AllocError, Global};
use uc_check::Line;
use uc_clause::place_behind;
use uc_term::Seq;

// How many bytes stand before the first space, or before the end.
fn name_len(text: &[u8]) -> usize
    ensures longest { result ≡ prefix_len in_name text.now }
    ensures within { result ≤ length text.now }
{
    text.iter().take_while(|byte| **byte != b' ').count()
}

// What stands between the first space, with which the text begins, and the next one; and the rest.
fn split_name(text: &[u8]) -> Option<(&[u8], &[u8])>
    ensures { MatchOption result (IsNoSplit text.now) (λ r. IsSplit text.now r.0.now r.1.now) }
{
    let [b' ', names @ ..] = text else {
        return None;
    };
    Some(names.split_at(name_len(names)))
}

fn is_lower(byte: u8) -> bool
    ensures { result ≡ of_bytes.is_lower byte }
{
    b'a' <= byte && byte <= b'z'
}

fn is_word(byte: u8) -> bool
    ensures { result ≡ of_bytes.is_word byte }
{
    is_lower(byte)
        || (b'A' <= byte && byte <= b'Z')
        || (b'0' <= byte && byte <= b'9')
        || byte == b'_'
}

fn are_words(bytes: &[u8]) -> bool
    ensures { result ≡ list_all of_bytes.is_word bytes.now }
{
    bytes.iter().all(|byte| is_word(*byte))
}

// Whether it is a name of a line.
fn is_name(word: &[u8]) -> bool
    ensures { result ≡ of_bytes.is_name word.now }
{
    match word {
        [first, rest @ ..] => is_lower(*first) && are_words(rest),
        [] => false,
    }
}

// How many names a line names lines by; none where it is no facts' line.
fn count_names(line: &[u8]) -> Option<usize>
    ensures { MatchOption result (HasNoNames line.now) (HasNames line.now) }
{
    let mut rest = line.strip_prefix(FACTS)?;
    let mut count = 0;
    'names: while let Some((name, behind)) = split_name(rest) {
        if !is_name(name) {
            return None;
        }
        count = count + 1;
        rest = behind;
    }
    if rest.is_empty() { Some(count) } else { None }
}

// The names of lines, among which the place of a name is the number of its line.
fn names_of(alloc: Global, lines: &[Line]) -> Result<IndexSet<Vec<u8>>, AllocError>
    requires { AreDistinct (names_in lines.now) }
    ensures { IfOk result (λ names. names_of names.keys ≡ names_in lines.now) }
{
    let mut names = IndexSet::new(alloc);
    for line in lines {
        let name = Vec::from_slice(alloc, line.name.as_bytes())?;
        names.insert(name)?;
    }
    Ok(names)
}

// The number of the line of this name, if there is one.
fn number_of(names: &IndexSet<Vec<u8>>, name: &[u8]) -> Option<u32>
    requires { length (names_of names.now.keys) < 2 ^ 31 }
    ensures { result ≡ position (bytes_eq name.now) (names_of names.now.keys) }
{
    match names.get_index_of(name) {
        Some(number) => Some(number as u32),
        None => None,
    }
}

// The fault that no line has the name that begins so many bytes behind the first byte of a line.
fn unknown(text: &[u8], at: usize) -> CertFault
    requires small { length text.now < 2 ^ 31 }
    requires at { at ≤ length text.now }
    ensures { result ≡ CertFault.UnknownName (place_of text.now at) }
{
    CertFault::UnknownName(place_behind(text.split_at(at).0))
}

// The numbers of the lines that a facts' line names.
fn numbers_in(
    alloc: Global,
    text: &[u8],
    at: usize,
    line: &[u8],
    names: &IndexSet<Vec<u8>>,
) -> Result<Seq<u32>, CertFault>
    requires small { length text.now < 2 ^ 31 }
    requires stands { at + length line.now < length text.now }
    requires few { length (names_of names.now.keys) < 2 ^ 31 }
    ensures numbers { IfOk result (NumbersOf (names_of names.now.keys) line.now) }
    ensures unknown { IfErr result (NoNumbersOf text.now at (names_of names.now.keys) line.now) }
    ensures few { IfOk result (λ numbers. length numbers ≤ length line.now) }
{
    let mut numbers = Seq::new(alloc);
    let Some(first) = line.strip_prefix(FACTS) else {
        return Ok(numbers);
    };
    let mut rest = first;
    'names: while let Some((name, behind)) = split_name(rest) {
        let Some(number) = number_of(names, name) else {
            return Err(unknown(text, at + (line.len() - rest.len()) + 1));
        };
        numbers.push(number)?;
        rest = behind;
    }
    Ok(numbers)
}

/// Reads the line that names lines, one for each of so many facts.
pub(crate) fn facts(
    alloc: Global,
    text: &[u8],
    lines: &[Line],
    count: usize,
    at: usize,
) -> Result<(Seq<u32>, usize), CertFault>
    requires small { length text.now < 2 ^ 31 }
    requires at { at ≤ length text.now }
    requires distinct { AreDistinct (names_in lines.now) }
    requires few { length lines.now < 2 ^ 31 }
    ensures reads { Gives (facts text.now (names_in lines.now) count) text.now at result }
    ensures few { IfOk result (λ r. length r.0 < 2 ^ 31) }
{
    let Some(line) = whole_line(text, at) else {
        return Err(departs(text, at));
    };
    let Some(many) = count_names(line) else {
        return Err(departs(text, at));
    };
    if many != count {
        return Err(departs(text, at));
    }
    let names = names_of(alloc, lines)?;
    let numbers = numbers_in(alloc, text, at, line, &names)?;
    Ok((numbers, at + line.len() + 1))
}
