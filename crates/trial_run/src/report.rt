//! What is printed of a case that ends otherwise than it says.

use crate::trial::Difference;
use std::io;
use std::io::Print;

/// A place in a file of cases.
#[derive(Clone, Copy)]
pub struct Place<'a> {
    pub file: &'a str,
    pub line: usize,
}

/// Prints what is wrong at a place.
pub fn report(rt: &impl Print, place: Place, wrong: &str) -> io::Result<()> {
    let Place { file, line } = place;
    println!(rt; "{file}:{line}: {wrong}")
}

/// Prints how the case at a place ends otherwise: both statuses, and the first line in which the two texts differ.
pub fn report_difference(rt: &impl Print, place: Place, difference: &Difference) -> io::Result<()> {
    let Place { file, line } = place;
    let Difference { wanted, given } = difference;
    let (number, old, new) = first_difference(wanted.text.as_bytes(), given.text.as_bytes());
    println!(rt;
        "{file}:{line}: status {} for {}, line {number} is {:?} for {:?}",
        given.status,
        wanted.status,
        shown(new),
        shown(old)
    )
}

// The number of the first line in which two texts differ, and that line of each; of a text that has no such line, nothing.
fn first_difference<'a>(wanted: &'a [u8], given: &'a [u8]) -> (usize, &'a [u8], &'a [u8]) {
    let mut number = 1usize;
    let mut others = given.split(|byte| *byte == b'\n');
    for line in wanted.split(|byte| *byte == b'\n') {
        let other = others.next().unwrap_or(b"");
        if line != other {
            return (number, line, other);
        }
        number = number.saturating_add(1);
    }
    (number, b"", others.next().unwrap_or(b""))
}

fn shown(line: &[u8]) -> &str {
    str::from_utf8(line).unwrap_or("no text")
}
