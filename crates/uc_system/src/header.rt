//! The first two lines of a system's text.

ghost use Rattle.std.specs.Prelude.{◌≡◌, ◌<◌, ◌^◌, length};
ghost use Rattle.uc_system.specs.Header.{heading_of, is_other_version, version_line, weighing_of, kind_of, is_light_path, header_lines};
ghost use Rattle.uc_system.specs.Lines.{pick};
ghost use Rattle.uc_system.specs.Places.{IsAt};
ghost use Rattle.uc_system.specs.Reads.{Gives};

use crate::SystemFault;
use crate::lines::{Cursor, departs, line_at, place_in};
use crate::numerals::{number, numeral};

/// The order whose name stands in the second line: the Knuth-Bendix order with the weight of a variable, or the
/// lexicographic path order.
#[derive(Clone, Copy, PartialEq, Eq, Debug)]
pub(crate) enum Kind {
    Weighing(u32),
    Paths,
}

/// What the first two lines say: the number of the first, whether it says that some symbol weighs 0, and the order.
#[derive(Clone, Copy, PartialEq, Eq, Debug)]
pub(crate) struct Header {
    pub(crate) first: u32,
    pub(crate) light: bool,
    pub(crate) kind: Kind,
}

/// What a first line says: that no symbol weighs 0, that one does, that the text is in another version, or nothing.
#[derive(Clone, Copy, PartialEq, Eq, Debug)]
pub(crate) enum Heading {
    Heavy,
    Light,
    OtherVersion,
    NoHeading,
}

const SYSTEM: &[u8] = b"% system ";

/// The most that a variable or a symbol weighs.
pub(crate) const MOST_WEIGHT: u32 = 1_000_000;

// What a first line says.
fn heading_of(line: &[u8]) -> Heading
    ensures { result ≡ heading_of line.now }
{
    if line == b"% system 1".as_slice() {
        return Heading::Heavy;
    }
    if line == b"% system 2".as_slice() {
        return Heading::Light;
    }
    if !line.starts_with(SYSTEM) {
        return Heading::NoHeading;
    }
    let (_, digits) = line.split_at(SYSTEM.len());
    if is_other_version(digits) {
        Heading::OtherVersion
    } else {
        Heading::NoHeading
    }
}

// Whether these are digits of another number than 1 and 2.
fn is_other_version(digits: &[u8]) -> bool
    ensures { result ≡ is_other_version digits.now }
{
    match number(digits) {
        Some(n) => n != 1 && n != 2,
        None => false,
    }
}

// Reads the first line: whether it says that some symbol weighs 0.
fn version_at(bytes: &[u8], at: Cursor) -> Result<(bool, Cursor), SystemFault>
    requires small { length bytes.now < 2 ^ 31 }
    requires at { IsAt bytes.now at }
    ensures { Gives version_line bytes.now at result }
{
    let Some((line, next)) = line_at(bytes, at) else {
        return Err(departs(at.number));
    };
    match heading_of(line) {
        Heading::Heavy => Ok((false, next)),
        Heading::Light => Ok((true, next)),
        Heading::OtherVersion => Err(SystemFault::Version(place_in(at.number, SYSTEM.len()))),
        Heading::NoHeading => Err(departs(at.number)),
    }
}

const WEIGHING: &[u8] = b"% order kbo ";

const PATHS: &[u8] = b"% order lpo";

// The order with this weight of a variable.
fn weighing_of(digits: &[u8]) -> Option<Kind>
    ensures { result ≡ weighing_of digits.now }
{
    let weight = numeral(digits)?;
    if 1 <= weight && weight <= MOST_WEIGHT {
        Some(Kind::Weighing(weight))
    } else {
        None
    }
}

// The order whose name stands in a line.
fn kind_of(line: &[u8]) -> Option<Kind>
    ensures { result ≡ kind_of line.now }
{
    if line == PATHS {
        return Some(Kind::Paths);
    }
    if !line.starts_with(WEIGHING) {
        return None;
    }
    let (_, digits) = line.split_at(WEIGHING.len());
    weighing_of(digits)
}

// Reads the second line.
fn kind_at(bytes: &[u8], at: Cursor) -> Result<(Kind, Cursor), SystemFault>
    requires small { length bytes.now < 2 ^ 31 }
    requires at { IsAt bytes.now at }
    ensures { Gives (pick kind_of) bytes.now at result }
{
    let Some((line, next)) = line_at(bytes, at) else {
        return Err(departs(at.number));
    };
    match kind_of(line) {
        Some(kind) => Ok((kind, next)),
        None => Err(departs(at.number)),
    }
}

// Whether a symbol is said to weigh 0 where no symbol has a weight.
fn is_light_path(light: bool, kind: Kind) -> bool
    ensures { result ≡ is_light_path light kind }
{
    match kind {
        Kind::Weighing(_) => false,
        Kind::Paths => light,
    }
}

// Reads both lines.
pub(crate) fn header_at(bytes: &[u8], at: Cursor) -> Result<(Header, Cursor), SystemFault>
    requires small { length bytes.now < 2 ^ 31 }
    requires at { IsAt bytes.now at }
    ensures { Gives header_lines bytes.now at result }
{
    let first = at.number;
    let (light, at) = version_at(bytes, at)?;
    let (kind, at) = kind_at(bytes, at)?;
    if is_light_path(light, kind) {
        return Err(departs(first));
    }
    Ok((Header { first, light, kind }, at))
}
