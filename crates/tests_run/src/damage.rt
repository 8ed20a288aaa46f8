//! Problems that are cut, or have one byte changed: each is shown, or refused at a place.

use crate::given::status_of;
use std::alloc::{AllocError, Global};
use std::sync::Wait;
use std::test::Fail;
use std::thread::Threads;
use uc_edge::MemorySink;
use uc_term::Text;

const INCLUDED: &str = "cnf(k1, axiom, a = b).\ncnf(k2, axiom, b = c).\n";

// The problems that are damaged, and the file that they include.
const PROBLEMS: [&str; 19] = [
    "cnf(ax, axiom, f(a) = b).\ncnf(g, negated_conjecture, f(a) != b).\n",
    "include('inc.ax',[k2]).\n",
    "include('inc.ax',[k2,k3]).\n",
    "include('inc.ax').\ninclude('inc.ax').\n",
    "include('no.ax').\n",
    "cnf(c1, axiom, p(a) | q(b)).",
    "cnf(c1, axiom, p(a)).",
    "cnf(c1, axiom, f(a) = f(a,b)).",
    "cnf(c1, conjecture, a = b).",
    "fof(ax, axiom, ! [X] : f(X) = X).\nfof(c, conjecture, ! [Y] : f(f(Y)) = Y).\n",
    "fof('Big one', hypothesis, ( ! [X,Y] : ( ! [X] : ( ~ ( f(X,'a') = Y ) ) ) ), file('x',y), [z]).\n",
    "fof(c, conjecture, a = b).\nfof(d, conjecture, a = b).\n",
    "cnf(c1, axiom, a = 7).",
    "cnf(c1, axiom, a = b)",
    "cnf(ax, axiom, f(b) = a).\ncnf(g, negated_conjecture, f(X) != a).\n",
    "cnf(ax, axiom, f(b) = c).\ncnf(g, negated_conjecture, f(X) != a).\n",
    "cnf('Big one', hypothesis, ( ~ ( f(X,'a') = Y ) ), file('x',y), [z]).\n",
    "cnf(ax1, axiom, f(a) = b).\ncnf(ax2, axiom, f(b) = a).\ncnf(goal, negated_conjecture, f(f(a)) != a).\n",
    "cnf(left_identity, axiom, m(e,X) = X).\ncnf(left_inverse, axiom, m(i(X),X) = e).\ncnf(associativity, axiom, m(m(X,Y),Z) = m(X,m(Y,Z))).\ncnf(goal, negated_conjecture, m(a,b) != m(b,a)).\n",
];

// The bytes that are put in.
const BYTES: &[u8] = b"()[],.=!~'\"|%*/\\$-_X0a \t\n\0\x7f\xc8\xff";

// What may stand behind the place in a refusal.
const KINDS: [&str; 10] = [
    "Syntax\n",
    "NotUnit\n",
    "NotEquality\n",
    "BadRole ",
    "Unsupported ",
    "Limit ",
    "TooDeep\n",
    "NoSuchName ",
    "ArityClash ",
    "Absent ",
];

// Whether the text is one line: a refusal of a file of a problem at a place.
fn is_refusal(text: &str) -> bool {
    let Some(line) = text.strip_prefix("% ") else {
        return false;
    };
    let Some((place, kind)) = line.split_once(' ') else {
        return false;
    };
    place.split(':').count() == 3
        && KINDS.iter().any(|k| kind.starts_with(k))
        && text
            .split_once('\n')
            .is_some_and(|(_, rest)| rest.is_empty())
}

fn is_told(status: u8, text: &[u8]) -> bool {
    match str::from_utf8(text) {
        Ok(text) => match status {
            0 => true,
            3 => is_refusal(text),
            _ => false,
        },
        Err(_) => false,
    }
}

// Whether `show` is answered as it should be for a problem of this text and the file that it includes.
fn is_answered<R: Threads + Wait + Sync>(
    rt: &R,
    alloc: Global,
    problem: &[u8],
    included: &[u8],
) -> Result<bool, AllocError> {
    let files = vec![in alloc;
        (
            Text::from_bytes(alloc, b"p")?,
            Text::from_bytes(alloc, problem)?
        ),
        (
            Text::from_bytes(alloc, b"inc.ax")?,
            Text::from_bytes(alloc, included)?
        ),
    ]?;
    let mut sink = MemorySink::new(alloc, Vec::new(alloc))?;
    let status = status_of(rt, alloc, &["show", "p"], files, &mut sink)?;
    Ok(is_told(status, sink.bytes()))
}

// Whether it is so for the text of a problem, or of the file that one includes.
fn is_text_answered<R: Threads + Wait + Sync>(
    rt: &R,
    alloc: Global,
    text: &[u8],
    is_included: bool,
) -> Result<bool, AllocError> {
    if is_included {
        is_answered(rt, alloc, b"include('inc.ax',[k2]).", text)
    } else {
        is_answered(rt, alloc, text, INCLUDED.as_bytes())
    }
}

// Whether it is so for each byte of the text that is put in at this place.
fn all_answered_at<R: Threads + Wait + Sync>(
    rt: &R,
    alloc: Global,
    text: &[u8],
    at: usize,
    is_included: bool,
) -> Result<bool, AllocError> {
    let mut damaged = Vec::from_slice(alloc, text)?;
    for byte in BYTES {
        if let Some(place) = damaged.get_mut(at) {
            *place = *byte;
        }
        if !is_text_answered(rt, alloc, &damaged, is_included)? {
            return Ok(false);
        }
    }
    Ok(true)
}

// The first place at which a cut, or a byte that is put in, isn't answered as it should be.
fn first_unanswered<R: Threads + Wait + Sync>(
    rt: &R,
    alloc: Global,
    text: &[u8],
    is_included: bool,
) -> Result<Option<usize>, AllocError> {
    for at in 0..text.len() {
        if !is_text_answered(rt, alloc, &text[..at], is_included)?
            || !all_answered_at(rt, alloc, text, at, is_included)?
        {
            return Ok(Some(at));
        }
    }
    Ok(None)
}

#[test]
fn damaged_problems_are_answered(rt: HostRuntime) -> Result<(), Fail> {
    for problem in PROBLEMS {
        let found = first_unanswered(&rt, rt.alloc(), problem.as_bytes(), false)?;
        assert_eq!(rt; found, None, "{problem}");
    }
    let found = first_unanswered(&rt, rt.alloc(), INCLUDED.as_bytes(), true)?;
    assert_eq!(rt; found, None, "{INCLUDED}");
    Ok(())
}
