//! Tries the program as one call on cases that stand in files: each says the words, the files that the library holds, the calls
//! that fail, and the status and the text that are to come. Prints each case that ends otherwise, and how many there were.
//!
//! The words of the command line name the files of cases; docs/CASES.md tells how they are written.
#![tactic(auto)]

mod case;
mod line;
mod report;
mod sheet;
mod suite;
mod trial;

use std::io::Print;
use std::{env, fs, io};
use suite::{Tally, try_all};

fn main(rt: HostRuntime) -> io::Result<()> {
    let mut tally = Tally::default();
    for name in env::args(&rt)?.skip(1) {
        let text = fs::read_to_string(&rt, name.as_str())?;
        try_all(&rt, &name, &text, &mut tally)?;
    }
    println!(rt; "{} cases, {} failed", tally.cases, tally.failed)
}
