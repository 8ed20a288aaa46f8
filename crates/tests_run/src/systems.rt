//! Saturated systems that are printed: the completed group, whose rules may stand in any order, and systems that are read and printed
//! again.

use crate::given::{status_of, text};
use std::alloc::{AllocError, Global};
use std::sync::Wait;
use std::test::Fail;
use std::thread::Threads;
use uc_edge::MemorySink;
use uc_system::{SystemFault, print_system, read_system};
use uc_term::{Symbols, Text};

const LEAST: &str = "cnf(p, axiom, f(X) = X).\n";

const LIGHT: &str = "cnf(d, axiom, i(i(X)) = X).\n";

const UNSOLVED: &str = "cnf(ax, axiom, f(b) = c).\ncnf(g, negated_conjecture, f(X) != a).\n";

const ASSOCIATIVE: &str =
    "cnf(as, axiom, m(m(X,Y),Z) = m(X,m(Y,Z))).\ncnf(g, negated_conjecture, m(a,b) != c).\n";

const GROUP: &str = "cnf(left_identity, axiom, m(e,X) = X).
cnf(left_inverse, axiom, m(i(X),X) = e).
cnf(associativity, axiom, m(m(X,Y),Z) = m(X,m(Y,Z))).
cnf(goal, negated_conjecture, m(a,b) != m(b,a)).
";

const GROUP_WORDS: &[&str] = &["prove", "--order", "lpo", "--precedence", "i", "grp.p"];

const GROUP_HEAD: &str = "% SZS status Satisfiable for grp.p
% SZS output start Saturation for grp.p
% system 1
% order lpo
% symbol e 0
% symbol a 0
% symbol b 0
% symbol m 2
% symbol i 1
";

const GROUP_END: &str = "% SZS output end Saturation for grp.p\n";

// The ten rules that complete the axioms of a group.
const GROUP_RULES: [&str; 10] = [
    ", plain, m(e,X1) = X1).\n",
    ", plain, m(X1,e) = X1).\n",
    ", plain, m(i(X1),X1) = e).\n",
    ", plain, m(X1,i(X1)) = e).\n",
    ", plain, m(i(X1),m(X1,X2)) = X2).\n",
    ", plain, m(X1,m(i(X1),X2)) = X2).\n",
    ", plain, m(m(X1,X2),X3) = m(X1,m(X2,X3))).\n",
    ", plain, i(m(X1,X2)) = m(i(X2),i(X1))).\n",
    ", plain, i(i(X1)) = X1).\n",
    ", plain, i(e) = e).\n",
];

// The lines between these two texts, up to the line `% end`.
fn facts_in<'a>(text: &'a str, front: &str, back: &str) -> Option<&'a str> {
    let (facts, end) = text.strip_prefix(front)?.split_once("% end\n")?;
    if end == back { Some(facts) } else { None }
}

// Whether it is a system of these ten rules, in whatever order.
fn is_group_completed(answer: &[u8]) -> bool {
    let Ok(text) = str::from_utf8(answer) else {
        return false;
    };
    let Some(facts) = facts_in(text, GROUP_HEAD, GROUP_END) else {
        return false;
    };
    facts.split('\n').count() == 11
        && GROUP_RULES
            .iter()
            .all(|rule| facts.split_once(*rule).is_some())
}

// What the words, of which the last names the problem, are answered.
fn answer_of<R: Threads + Wait + Sync>(
    rt: &R,
    alloc: Global,
    words: &[&str],
    problem: &str,
) -> Result<(u8, Text), AllocError> {
    let name = text(alloc, words.last().copied().unwrap_or(""))?;
    let files = vec![in alloc; (name, text(alloc, problem)?)]?;
    let mut sink = MemorySink::new(alloc, Vec::new(alloc))?;
    let status = status_of(rt, alloc, words, files, &mut sink)?;
    Ok((status, Text::from_bytes(alloc, sink.bytes())?))
}

#[test]
fn groups_are_completed(rt: HostRuntime) -> Result<(), Fail> {
    let (status, answer) = answer_of(&rt, rt.alloc(), GROUP_WORDS, GROUP)?;
    assert_eq!(rt; status, 1);
    assert!(rt; is_group_completed(answer.as_bytes()));
    Ok(())
}

// Words and a problem that they saturate.
const SATURATED: &[(&[&str], &str)] = &[
    (&["prove", "r8.p"], LEAST),
    (&["prove", "e.p"], ""),
    (&["prove", "--weights", "i=0", "iv.p"], LIGHT),
    (&["prove", "rb.p"], UNSOLVED),
    (&["prove", "--trace", "--order=lpo", "as.p"], ASSOCIATIVE),
];

// What stands between the lines that enclose a system.
fn system_in(text: &str) -> Option<&str> {
    let (_, behind) = text.split_once("% SZS output start Saturation for ")?;
    let (_, lines) = behind.split_once("\n")?;
    let (system, _) = lines.split_once("% SZS output end Saturation for ")?;
    Some(system)
}

// The text of the system that the text says.
fn again(alloc: Global, bytes: &[u8]) -> Result<Text, SystemFault> {
    if bytes.len() > 1_000_000 {
        return Err(SystemFault::NoMemory);
    }
    let mut symbols = Symbols::new(alloc);
    let read = read_system(alloc, bytes, &mut symbols)?;
    Ok(print_system(alloc, &read.spec, &read.system, &symbols)?)
}

// Whether the answer has a system, which is read and printed again as it was.
fn has_system(alloc: Global, answer: &[u8]) -> bool {
    let Ok(text) = str::from_utf8(answer) else {
        return false;
    };
    let Some(system) = system_in(text) else {
        return false;
    };
    match again(alloc, system.as_bytes()) {
        Ok(printed) => printed.as_bytes() == system.as_bytes(),
        Err(_) => false,
    }
}

#[test]
fn systems_are_read_again(rt: HostRuntime) -> Result<(), Fail> {
    for (words, problem) in SATURATED {
        let (status, answer) = answer_of(&rt, rt.alloc(), words, problem)?;
        assert_eq!(rt; status, 1, "{words:?}");
        assert!(rt; has_system(rt.alloc(), answer.as_bytes()), "{words:?}");
    }
    Ok(())
}
