//! All cases of a file, one behind the other.

use crate::case::{Answer, Case};
use crate::line::Line;
use crate::report::{Place, report, report_difference};
use crate::sheet::Sheet;
use crate::trial::{run_once, try_case};
use std::io;
use std::io::Print;
use std::sync::Wait;
use std::thread::Threads;
use uc_term::Text;

/// The cases that were tried, and those of them that ended otherwise than they say.
#[derive(Clone, Copy, Default)]
pub struct Tally {
    pub cases: u32,
    pub failed: u32,
}

impl Tally {
    fn pass(&mut self) {
        self.cases = self.cases.saturating_add(1);
    }

    fn fail(&mut self) {
        self.cases = self.cases.saturating_add(1);
        self.failed = self.failed.saturating_add(1);
    }
}

/// Tries each case of a file.
pub fn try_all<R: Threads + Wait + Sync + Print + AllocGlobal>(
    rt: &R,
    file: &str,
    text: &str,
    tally: &mut Tally,
) -> io::Result<()> {
    let mut sheet = Sheet::new(rt.alloc());
    let mut case = Place { file, line: 0 };
    let mut place = Place { file, line: 0 };
    for line in text.lines() {
        place.line = place.line.saturating_add(1);
        let line = Line::of(line);
        if ends_case(&line) {
            try_next(rt, case, &mut sheet, tally)?;
            case = place;
        }
        if !sheet.read(rt.alloc(), &line)? {
            tally.fail();
            report(rt, place, "what stands here has no meaning")?;
        }
    }
    try_next(rt, case, &mut sheet, tally)
}

// Whether no more is said of a case that was being read.
fn ends_case(line: &Line) -> bool {
    match line {
        Line::Word(word, _) => matches!(word.as_bytes(), b"run" | b"library" | b"text"),
        _ => false,
    }
}

// Tries the case that was read, if there is one.
fn try_next<R: Threads + Wait + Sync + Print + AllocGlobal>(
    rt: &R,
    place: Place,
    sheet: &mut Sheet,
    tally: &mut Tally,
) -> io::Result<()> {
    if !sheet.close(rt.alloc())? {
        tally.fail();
        report(rt, place, "what stands last has no meaning")?;
    }
    match sheet.take_case() {
        Some(case) => try_one(rt, place, sheet, &case, tally),
        None => Ok(()),
    }
}

fn try_one<R: Threads + Wait + Sync + Print + AllocGlobal>(
    rt: &R,
    place: Place,
    sheet: &mut Sheet,
    case: &Case,
    tally: &mut Tally,
) -> io::Result<()> {
    let Some(status) = case.status else {
        tally.fail();
        return report(rt, place, "no status is said");
    };
    match &case.answer {
        Answer::Kept(name) => keep(rt, place, sheet, case, status, name, tally),
        Answer::Text(text) => {
            match try_case(rt, rt.alloc(), case, status, text, sheet.library())? {
                None => {
                    tally.pass();
                    Ok(())
                }
                Some(difference) => {
                    tally.fail();
                    report_difference(rt, place, &difference)
                }
            }
        }
    }
}

// Runs the case, and has the library hold what is written.
fn keep<R: Threads + Wait + Sync + Print + AllocGlobal>(
    rt: &R,
    place: Place,
    sheet: &mut Sheet,
    case: &Case,
    status: u8,
    name: &Text,
    tally: &mut Tally,
) -> io::Result<()> {
    let told = run_once(rt, rt.alloc(), case, sheet.library())?;
    sheet.hold(name.copy(rt.alloc())?, told.text)?;
    if told.status == status {
        tally.pass();
        Ok(())
    } else {
        tally.fail();
        report(rt, place, "the status is another")
    }
}
