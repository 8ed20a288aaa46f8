ghost use Rattle.std.specs.Prelude.{◌≡◌, ◌≤◌, IfOk};
ghost use Rattle.uc_problem.specs.Holds.{Agrees};
ghost use Rattle.uc_ordering.specs.Premises.{IsSignature, AreMarks};

use crate::problems::problem_in;
use std::alloc::{AllocError, Global};
use std::test::Fail;
use uc_order::OrderSpec;
use uc_ordering::{ChoiceFault, choose};
use uc_problem::{Problem, marks};
use uc_term::{Fresh, Seq, Signature, Sym, Symbols, Text};
use uc_words::OrderWords;

fn text(alloc: Global, text: &str) -> Result<Text, AllocError> {
    Text::from_bytes(alloc, text.as_bytes())
}

// The options of a row: whether it is the path order, the precedence, and the weights.
type Options = (
    bool,
    &'static [&'static str],
    &'static [(&'static str, u32)],
);

fn words(alloc: Global, options: Options) -> Result<OrderWords, AllocError>
    ensures { IfOk result (λ words. words.w0 ≡ 2) }
{
    let mut precedence = Vec::new(alloc);
    for name in options.1 {
        precedence.push(text(alloc, *name)?)?;
    }
    let mut weights = Vec::new(alloc);
    for (name, weight) in options.2 {
        weights.push((text(alloc, *name)?, *weight))?;
    }
    Ok(OrderWords {
        lpo: options.0,
        precedence: Seq::from_vec(precedence),
        weights: Seq::from_vec(weights),
        w0: 2,
    })
}

fn name(symbols: &Symbols, sym: Sym) -> &[u8] {
    if (sym.0 as usize) < symbols.len() {
        symbols.name(sym)
    } else {
        b"?"
    }
}

// The precedence, each symbol with its weight where it has one.
fn told_spec(alloc: Global, spec: &OrderSpec, symbols: &Symbols) -> Result<Text, AllocError> {
    let (precedence, weights) = match spec {
        OrderSpec::Kbo {
            precedence,
            weights,
            ..
        } => (precedence.as_slice(), weights.as_slice()),
        OrderSpec::Lpo { precedence } => (precedence.as_slice(), [].as_slice()),
    };
    let mut told = Text::new(alloc);
    for (place, sym) in precedence.iter().enumerate() {
        told.extend(name(symbols, *sym))?;
        if place < weights.len() {
            let weight = weights[place];
            told.extend(format!(in alloc; "={weight}")?.as_bytes())?;
        }
        told.extend(b" ")?;
    }
    Ok(told)
}

fn told_fault(alloc: Global, fault: &ChoiceFault) -> Result<Text, AllocError> {
    let (mut told, name) = match fault {
        ChoiceFault::UnknownSymbol(name) => (text(alloc, "unknown ")?, name),
        ChoiceFault::NotTotal(name) => (text(alloc, "twice ")?, name),
        ChoiceFault::BadWeight(name, _) => (text(alloc, "bad ")?, name),
        ChoiceFault::NoMemory => return Err(AllocError),
    };
    told.extend(name.as_bytes())?;
    Ok(told)
}

fn told_choice(
    alloc: Global,
    options: Options,
    symbols: &Symbols,
    signature: &Signature,
    fresh: Option<Fresh>,
) -> Result<Text, AllocError>
    requires signature { IsSignature symbols.now signature.now }
    requires marks { AreMarks symbols.now signature.now fresh }
{
    let words = words(alloc, options)?;
    match choose(alloc, &words, symbols, signature, fresh) {
        Ok(spec) => told_spec(alloc, &spec, symbols),
        Err(fault) => told_fault(alloc, &fault),
    }
}

// The order that the options name for the problem of this text, encoded.
fn told(alloc: Global, problem: &str, options: Options) -> Result<Text, AllocError> {
    let mut symbols = Symbols::new(alloc);
    match problem_in(alloc, text(alloc, problem)?, &mut symbols)? {
        Some(problem) => told_by(alloc, &problem, options, &mut symbols),
        None => text(alloc, "no problem"),
    }
}

fn told_by(
    alloc: Global,
    problem: &Problem,
    options: Options,
    symbols: &mut Symbols,
) -> Result<Text, AllocError>
    requires { Agrees symbols.old problem.now }
{
    match marks(alloc, problem, symbols) {
        Ok(fresh) => told_choice(alloc, options, symbols, &problem.signature, fresh),
        Err(_) => text(alloc, "no encoding"),
    }
}

const GROUND: &str = "cnf(ax, axiom, m(i(a),b) = i(b)).";

const OPEN: &str = "cnf(ax, axiom, i(a) = b). cnf(g, negated_conjecture, i(X) != a).";

const NO_CONSTANT: &str = "cnf(ax, axiom, i(X) = X).";

// One row a choice: the problem, the options, and the order or why there is none. Every variable weighs 2.
const CHOICES: &[(&str, Options, &str)] = &[
    (GROUND, (false, &[], &[]), "a=2 b=2 i=2 m=2 "),
    (GROUND, (true, &[], &[]), "a b i m "),
    (GROUND, (true, &["m", "a"], &[]), "b i m a "),
    (
        GROUND,
        (false, &["m", "i"], &[("i", 0), ("a", 7)]),
        "a=7 b=2 m=2 i=0 ",
    ),
    (NO_CONSTANT, (false, &[], &[]), "least=2 i=2 "),
    (
        OPEN,
        (false, &[], &[("a", 5)]),
        "a=5 b=2 i=2 true=5 false=5 eq=2 ",
    ),
    (
        OPEN,
        (false, &[], &[("i", 0), ("b", 3)]),
        "a=2 b=3 true=3 false=3 eq=2 i=0 ",
    ),
    (OPEN, (true, &["a"], &[]), "b i a true false eq "),
    (OPEN, (true, &[], &[("i", 0)]), "a b i true false eq "),
    (GROUND, (false, &["c", "a", "a"], &[("a", 1)]), "unknown c"),
    (NO_CONSTANT, (true, &["least"], &[]), "unknown least"),
    (OPEN, (true, &["eq"], &[]), "unknown eq"),
    (GROUND, (false, &["a", "b", "b", "a"], &[]), "twice a"),
    (GROUND, (false, &[], &[("m", 0), ("a", 1)]), "bad m"),
    (GROUND, (false, &[], &[("b", 2), ("a", 1)]), "bad a"),
    (GROUND, (false, &["i", "m"], &[("i", 0)]), "bad i"),
];

#[test]
fn choices(rt: HostRuntime) -> Result<(), Fail> {
    for (problem, options, wanted) in CHOICES {
        assert!(rt; is_told(rt.alloc(), problem, *options, wanted)?, "{wanted}");
    }
    Ok(())
}

fn is_told(
    alloc: Global,
    problem: &str,
    options: Options,
    wanted: &str,
) -> Result<bool, AllocError> {
    let told = told(alloc, problem, options)?;
    Ok(told.as_bytes() == wanted.as_bytes())
}
