ghost use Rattle.std.specs.Prelude.{IfOk, IfSome};
ghost use Rattle.uc_problem.specs.Holds.{Agrees};

use std::alloc::{AllocError, Global};
use std::test::Fail;
use uc_clause::{ClauseFault, Place};
use uc_edge::{Fetched, Library, MemoryLibrary};
use uc_problem::{EncodeFault, Encoded, LoadFault, Problem, Source, encode, load, marks};
use uc_term::{Equation, Fresh, Node, Sym, Symbols, Term, Text};

const FILES: [(&str, &str); 9] = [
    ("p/inc.ax", "cnf(k1, axiom, a = b).\ncnf(k2, axiom, b = c)."),
    ("r/more.ax", "cnf(k3, axiom, f(a) = b)."),
    (
        "p/good.p",
        "include('inc.ax',[k2]). include('more.ax').\ncnf(g, negated_conjecture, a != c).",
    ),
    ("p/open.p", "cnf(g, negated_conjecture, f(X) != Y)."),
    ("p/clash.p", "cnf(c1, axiom, f(a) = f(a,b))."),
    ("p/absent.p", "\ninclude('no.ax')."),
    ("p/names.p", "include('inc.ax',[k2,k3])."),
    ("p/deep.p", "include('deep.p')."),
    ("p/bad.p", "cnf(c, axiom, a = b)"),
];

fn text(alloc: Global, text: &str) -> Result<Text, AllocError> {
    Text::from_bytes(alloc, text.as_bytes())
}

fn library(alloc: Global, failing: &[u32]) -> Result<MemoryLibrary, AllocError> {
    let mut files = Vec::new(alloc);
    for (name, bytes) in FILES {
        files.push((text(alloc, name)?, text(alloc, bytes)?))?;
    }
    MemoryLibrary::new(alloc, files, Vec::from_slice(alloc, failing)?)
}

// what loading came to: a letter, and for a problem how many axioms, goals and symbols there are and whether one was added, for
// a refusal its place and the arities
type Told = (char, u64, u64, u64, u64);

fn told_problem(problem: &Problem) -> Told {
    (
        'p',
        problem.axioms.len() as u64,
        problem.goals.len() as u64,
        problem.signature.symbols.len() as u64,
        u64::from(problem.signature.least_is_fresh),
    )
}

fn at(letter: char, place: Place) -> Told {
    (letter, u64::from(place.line), u64::from(place.column), 0, 0)
}

fn told_fault(fault: &LoadFault) -> Told {
    match fault {
        LoadFault::Absent { from: None, .. } => ('-', 0, 0, 0, 0),
        LoadFault::Absent {
            from: Some(from),
            ..
        } => at('-', from.1),
        LoadFault::ReadFault { .. } => ('!', 0, 0, 0, 0),
        LoadFault::TooDeep { place, .. } => at('d', *place),
        LoadFault::NoSuchName { place, .. } => at('n', *place),
        LoadFault::ArityClash {
            place,
            first,
            second,
            ..
        } => (
            'a',
            u64::from(place.line),
            u64::from(place.column),
            u64::from(*first),
            u64::from(*second),
        ),
        LoadFault::Limit { place, .. } => at('l', *place),
        LoadFault::Clause {
            fault: ClauseFault::Syntax(place),
            ..
        } => at('s', *place),
        LoadFault::Clause { .. } => ('c', 0, 0, 0, 0),
        LoadFault::NoMemory => ('m', 0, 0, 0, 0),
    }
}

fn told(alloc: Global, name: &str, failing: u32) -> Result<Told, AllocError> {
    let mut library = library(alloc, &[failing])?;
    let mut symbols = Symbols::new(alloc);
    match load(
        alloc,
        &mut library,
        Some(b"r"),
        name.as_bytes(),
        &mut symbols,
    ) {
        Ok(problem) => Ok(told_problem(&problem)),
        Err(fault) => Ok(told_fault(&fault)),
    }
}

// one row a problem: its name, which fetch fails, and what it comes to
const PROBLEMS: &[(&str, u32, Told)] = &[
    ("p/good.p", 0, ('p', 2, 1, 4, 0)),
    ("p/good.p", 1, ('!', 0, 0, 0, 0)),
    ("p/good.p", 3, ('!', 0, 0, 0, 0)),
    ("p/open.p", 0, ('p', 0, 1, 2, 1)),
    ("p/clash.p", 0, ('a', 1, 23, 1, 2)),
    ("p/absent.p", 0, ('-', 2, 1, 0, 0)),
    ("p/names.p", 0, ('n', 1, 22, 0, 0)),
    ("p/deep.p", 0, ('d', 1, 1, 0, 0)),
    ("p/bad.p", 0, ('s', 1, 21, 0, 0)),
    ("good.p", 0, ('-', 0, 0, 0, 0)),
];

#[test]
fn problems(rt: HostRuntime) -> Result<(), Fail> {
    for (name, failing, wanted) in PROBLEMS {
        assert!(rt;
            told(rt.alloc(), name, *failing)? == *wanted,
            "{name} {failing}"
        );
    }
    Ok(())
}

fn failed_at(loaded: &Result<Problem, LoadFault>) -> &[u8] {
    match loaded {
        Err(LoadFault::ReadFault { file }) => file.as_bytes(),
        _ => b"",
    }
}

// one row a fetch that fails: the file that is named, whatever the next fetch would find; the next call fails too, and it isn't one
// of loading
const FAILING: &[(u32, u32, &str)] = &[
    (1, 2, "p/good.p"),
    (2, 3, "p/inc.ax"),
    (3, 4, "p/more.ax"),
    (4, 5, "r/more.ax"),
];

#[test]
fn files_that_fail(rt: HostRuntime) -> Result<(), Fail> {
    for (call, next, wanted) in FAILING {
        let mut library = library(rt.alloc(), &[*call, *next])?;
        assert!(rt; fails_at(rt.alloc(), &mut library, wanted), "{wanted}");
        assert!(rt;
            fails_next(rt.alloc(), &mut library)?,
            "the call behind {wanted}"
        );
    }
    Ok(())
}

fn fails_next(alloc: Global, library: &mut MemoryLibrary) -> Result<bool, AllocError> {
    let next = library.fetch(alloc, "r/more.ax", 1)?;
    Ok(matches!(next, Fetched::Failed))
}

fn fails_at(alloc: Global, library: &mut MemoryLibrary, name: &str) -> bool {
    let mut symbols = Symbols::new(alloc);
    let loaded = load(alloc, library, Some(b"r"), b"p/good.p", &mut symbols);
    failed_at(&loaded) == name.as_bytes()
}

// a problem with one goal: so many `f` round a term, and the other side
fn goal(alloc: Global, nested: usize, inner: &str, other: &str) -> Result<Text, AllocError> {
    let mut bytes = text(alloc, "cnf(g, negated_conjecture, ")?;
    for _ in 0..nested {
        bytes.extend(b"f(")?;
    }
    bytes.extend(inner.as_bytes())?;
    for _ in 0..nested {
        bytes.extend(b")")?;
    }
    bytes.extend(b" != ")?;
    bytes.extend(other.as_bytes())?;
    bytes.extend(b").")?;
    Ok(bytes)
}

/// The problem of a library with this file alone, if it can be read.
pub fn problem_in(
    alloc: Global,
    bytes: Text,
    symbols: &mut Symbols,
) -> Result<Option<Problem>, AllocError>
    ensures { IfOk result (λ found. IfSome found (λ problem. Agrees symbols.new problem)) }
{
    let files = vec![in alloc; (text(alloc, "g.p")?, bytes)]?;
    let mut library = MemoryLibrary::new(alloc, files, Vec::new(alloc))?;
    Ok(load(alloc, &mut library, None, b"g.p", symbols).ok())
}

fn marked(alloc: Global, bytes: Text, eq: &str, no: &str) -> Result<char, AllocError> {
    let mut symbols = Symbols::new(alloc);
    match problem_in(alloc, bytes, &mut symbols)? {
        Some(problem) => marked_in(alloc, &problem, &mut symbols, eq, no),
        None => Ok('!'),
    }
}

// what `marks` came to: no symbols, those of these names or others, or a goal that is too large
fn marked_in(
    alloc: Global,
    problem: &Problem,
    symbols: &mut Symbols,
    eq: &str,
    no: &str,
) -> Result<char, AllocError>
    requires { Agrees symbols.old problem.now }
{
    match marks(alloc, problem, symbols) {
        Ok(None) => Ok('-'),
        Ok(Some(marks)) => Ok(if are_named(marks, symbols, eq, no) {
            'y'
        } else {
            'n'
        }),
        Err(EncodeFault::GoalTooLarge(0)) => Ok('l'),
        Err(_) => Ok('!'),
    }
}

fn are_named(marks: Fresh, symbols: &Symbols, eq: &str, no: &str) -> bool {
    symbols.find(eq.as_bytes(), 2) == Some(marks.eq)
        && symbols.find(b"true", 0) == Some(marks.yes)
        && symbols.find(no.as_bytes(), 0) == Some(marks.no)
}

// one row a goal: its sides, two of the names, and what comes
type Marked = (
    usize,
    &'static str,
    &'static str,
    &'static str,
    &'static str,
    char,
);

const MARKED: &[Marked] = &[
    (1, "a", "b", "", "", '-'),
    (1, "X", "b", "eq", "false", 'y'),
    (1, "a", "X", "eq", "false", 'y'),
    (1, "X", "eq(false,eq_1)", "eq_2", "false_1", 'y'),
    (4093, "X", "Y", "eq", "false", 'y'),
    (4094, "X", "Y", "", "", 'l'),
    (4094, "a", "b", "", "", '-'),
];

#[test]
fn symbols_of_the_encoding(rt: HostRuntime) -> Result<(), Fail> {
    for row in MARKED {
        assert!(rt;
            is_marked(rt.alloc(), row)?,
            "{} {} {}",
            row.0,
            row.1,
            row.2
        );
    }
    Ok(())
}

fn is_marked(alloc: Global, row: &Marked) -> Result<bool, AllocError> {
    let bytes = goal(alloc, row.0, row.1, row.2)?;
    Ok(marked(alloc, bytes, row.3, row.4)? == row.5)
}

fn name(symbols: &Symbols, sym: Sym) -> &[u8] {
    if (sym.0 as usize) < symbols.len() {
        symbols.name(sym)
    } else {
        b"?"
    }
}

// the nodes of a term as text, in prefix order
fn tell_term(
    alloc: Global,
    told: &mut Text,
    term: &Term,
    symbols: &Symbols,
) -> Result<(), AllocError> {
    for node in term.as_nodes() {
        match *node {
            Node::Var(number) => told.extend(format!(in alloc; "X{number}")?.as_bytes())?,
            Node::App(sym, _) => told.extend(name(symbols, sym))?,
        }
        told.extend(b" ")?;
    }
    Ok(())
}

// equations as text
fn told_equations(
    alloc: Global,
    equations: &[Equation],
    symbols: &Symbols,
) -> Result<Text, AllocError> {
    let mut told = Text::new(alloc);
    for equation in equations {
        tell_term(alloc, &mut told, &equation.left, symbols)?;
        told.extend(b"= ")?;
        tell_term(alloc, &mut told, &equation.right, symbols)?;
        told.extend(b". ")?;
    }
    Ok(told)
}

fn told_names(alloc: Global, names: &[Sym], symbols: &Symbols) -> Result<Text, AllocError> {
    let mut told = Text::new(alloc);
    for sym in names {
        told.extend(name(symbols, *sym))?;
        told.extend(b" ")?;
    }
    Ok(told)
}

// the encoding of the problem of this text
fn encoded(
    alloc: Global,
    bytes: &str,
    symbols: &mut Symbols,
) -> Result<Option<Encoded>, AllocError> {
    match problem_in(alloc, text(alloc, bytes)?, symbols)? {
        Some(problem) => Ok(encode(alloc, &problem, symbols).ok()),
        None => Ok(None),
    }
}

// the axioms, goals and symbols of the encoding of the problem of this text
fn told_encoding(alloc: Global, bytes: &str) -> Result<(Text, Text, Text), AllocError> {
    let mut symbols = Symbols::new(alloc);
    match encoded(alloc, bytes, &mut symbols)? {
        Some(encoded) => told_parts(alloc, &encoded, &symbols),
        None => Ok((Text::new(alloc), Text::new(alloc), Text::new(alloc))),
    }
}

fn told_parts(
    alloc: Global,
    encoded: &Encoded,
    symbols: &Symbols,
) -> Result<(Text, Text, Text), AllocError> {
    let axioms = told_equations(alloc, encoded.axioms.as_slice(), symbols)?;
    let goals = told_equations(alloc, encoded.goals.as_slice(), symbols)?;
    let names = told_names(alloc, encoded.signature.symbols.as_slice(), symbols)?;
    Ok((axioms, goals, names))
}

// one row a problem: its text, and the axioms, goals and symbols of its encoding
const ENCODED: &[(&str, &str, &str, &str)] = &[
    (
        "cnf(ax, axiom, f(b) = a). cnf(g, negated_conjecture, f(X) != a).",
        "f b = a . eq X0 X0 = true . eq f X0 a = false . ",
        "true = false . ",
        "f b a true false eq ",
    ),
    (
        "cnf(g, negated_conjecture, a != b). cnf(ax, axiom, f(X) = a).",
        "f X0 = a . ",
        "a = b . ",
        "a b f ",
    ),
    (
        "cnf(g, negated_conjecture, X != a). cnf(ax, axiom, f(X) = a). cnf(g, negated_conjecture, a != b). cnf(g, negated_conjecture, f(Y) != Y).",
        "f X0 = a . eq X0 X0 = true . eq X0 a = false . eq f X0 X0 = false . ",
        "a = b . true = false . ",
        "a f b true false eq ",
    ),
];

#[test]
fn encoded_problems(rt: HostRuntime) -> Result<(), Fail> {
    for (bytes, axioms, goals, names) in ENCODED {
        assert!(rt;
            encodes_to(rt.alloc(), bytes, axioms, goals, names)?,
            "{bytes}"
        );
    }
    Ok(())
}

fn encodes_to(
    alloc: Global,
    bytes: &str,
    axioms: &str,
    goals: &str,
    names: &str,
) -> Result<bool, AllocError> {
    let told = told_encoding(alloc, bytes)?;
    Ok(
        told.0.as_bytes() == axioms.as_bytes()
            && told.1.as_bytes() == goals.as_bytes()
            && told.2.as_bytes() == names.as_bytes(),
    )
}

// where the axioms and the goals of an encoded problem come from
#[test]
fn sources_of_the_encoding(rt: HostRuntime) -> Result<(), Fail> {
    let mut symbols = Symbols::new(rt.alloc());
    let told = encoded(rt.alloc(), TWO_GOALS, &mut symbols)?;
    assert!(rt; are_sources(told.as_ref(), SOURCES, GOAL_CLAUSES));
    Ok(())
}

const TWO_GOALS: &str =
    "cnf(g, negated_conjecture, X != a). cnf(ax, axiom, f(X) = a). cnf(g, negated_conjecture, a != b).";

const SOURCES: &[Source] = &[Source::Clause(1), Source::Reflexive, Source::Goal(0)];

const GOAL_CLAUSES: &[Option<u32>] = &[Some(2), None];

fn are_sources(encoded: Option<&Encoded>, axioms: &[Source], goals: &[Option<u32>]) -> bool {
    encoded.is_some_and(|encoded| {
        encoded.sources.as_slice() == axioms && encoded.goal_clauses.as_slice() == goals
    })
}
