//! The generated problem.

ghost use Rattle.std.specs.Prelude.{◌≡◌, ◌<◌, ◌≤◌, ◌%◌, ◌^◌, length, IfOk};
ghost use Rattle.uc_term.specs.Table.{Grows, IsDistinct, IsInterned};
ghost use Rattle.uc_ordering.specs.Premises.{IsSignature};
ghost use Rattle.uc_gen.specs.Sequence.{drawn};
ghost use Rattle.uc_gen.specs.Generated.{IsGenerated, AreConstants, with_symbols, with_constants, constant_name, constant_at, first_axioms, first_numbers, signature_of};

use crate::axiom::{axiom, named};
use crate::sequence::{drawn, next};
use std::alloc::{AllocError, Global};
use uc_clause::Sourced;
use uc_problem::Problem;
use uc_term::{Seq, Signature, Sym, Symbols};

/// Returns the generated problem of so many constants, by the sequence with this start: as many axioms `f(ci) = cj`, named `g0`,
/// `g1` and so on in a file named `gen`, whose `i` and `j` are the next two numbers of the sequence by their remainders. It has
/// no goals. Its signature is `f` and all the constants in order, those that occur in no axiom among them.
///
/// The table gets these symbols in this order, but for those that it has; on an error it may have got some of them.
pub fn generate(
    alloc: Global,
    n: u32,
    start: u32,
    symbols: &mut Symbols,
) -> Result<Problem, AllocError>
    requires some { 1 ≤ n }
    requires most { n ≤ 2000 }
    requires start { start < 2 ^ 31 }
    ensures generated { IfOk result (IsGenerated symbols.new n start) }
    ensures interns { IfOk result (λ _. symbols.new ≡ with_symbols symbols.old n) }
    ensures distinct { IfOk result (λ _. IsDistinct symbols.new) }
    ensures signature { IfOk result (λ problem. IsSignature symbols.new problem.signature) }
    ensures grows { Grows symbols.old symbols.new }
{
    let function = symbols.intern(alloc, b"f", 1)?;
    let constants = constants(alloc, n, symbols)?;
    let clauses = axioms(alloc, start, function, constants.as_slice())?;
    let axioms = first_numbers(alloc, n)?;
    let signature = signature_of(alloc, function, constants.as_slice())?;
    // The entries of the table are all different, so these are the symbols of their names.
    let _ = symbols.len();
    Ok(Problem {
        clauses,
        axioms,
        goals: Seq::new(alloc),
        signature,
        conjecture: None,
    })
}

/// Returns the first so many constants.
fn constants(alloc: Global, n: u32, symbols: &mut Symbols) -> Result<Vec<Sym>, AllocError>
    requires { n ≤ 2000 }
    ensures are { IfOk result (λ constants. AreConstants symbols.new n constants.items) }
    ensures interns { IfOk result (λ _. symbols.new ≡ with_constants symbols.old n) }
    ensures grows { Grows symbols.old symbols.new }
{
    let mut constants = Vec::new(alloc);
    for number in 0..n {
        let sym = constant(alloc, number, symbols)?;
        constants.push(sym)?;
    }
    Ok(constants)
}

/// Returns the constant of this number.
#[inline]
fn constant(alloc: Global, number: u32, symbols: &mut Symbols) -> Result<Sym, AllocError>
    ensures interned { IfOk result (IsInterned symbols.old symbols.new (constant_name number) 0) }
    ensures grows { Grows symbols.old symbols.new }
{
    let name = named(alloc, b"c", number)?;
    symbols.intern(alloc, name.as_bytes(), 0)
}

/// Returns as many axioms as there are constants.
fn axioms(
    alloc: Global,
    start: u32,
    function: Sym,
    constants: &[Sym],
) -> Result<Seq<Sourced>, AllocError>
    requires some { 1 ≤ length constants.now }
    requires most { length constants.now ≤ 2000 }
    requires start { start < 2 ^ 31 }
    ensures { IfOk result (λ axioms. axioms ≡ first_axioms constants.now start function (length constants.now)) }
{
    let count = constants.len() as u32;
    let mut state = start;
    let mut axioms = Seq::new(alloc);
    for number in 0..count {
        let first = next(state);
        let second = next(first);
        let from = drawn_constant(constants, first);
        let to = drawn_constant(constants, second);
        let taken = axiom(alloc, number, function, from, to)?;
        axioms.push(taken)?;
        state = second;
    }
    Ok(axioms)
}

/// Returns the constant that the number drawn in a state stands for.
fn drawn_constant(constants: &[Sym], state: u32) -> Sym
    requires { 1 ≤ length constants.now }
    ensures { result ≡ constant_at constants.now (drawn state % length constants.now) }
{
    constants[drawn(state) as usize % constants.len()]
}

/// Returns 0 and the numbers after it, so many.
fn first_numbers(alloc: Global, count: u32) -> Result<Seq<u32>, AllocError>
    ensures { IfOk result (λ numbers. numbers ≡ first_numbers count) }
{
    let mut numbers = Seq::new(alloc);
    for number in 0..count {
        numbers.push(number)?;
    }
    Ok(numbers)
}

/// Returns the signature of the function and the constants.
fn signature_of(alloc: Global, function: Sym, constants: &[Sym]) -> Result<Signature, AllocError>
    requires { 1 ≤ length constants.now }
    ensures { IfOk result (λ signature. signature ≡ signature_of function constants.now) }
{
    let mut symbols = Seq::new(alloc);
    symbols.push(function)?;
    symbols.append(Seq::from_vec(Vec::from_slice(alloc, constants)?))?;
    Ok(Signature {
        symbols,
        least: constants[0],
        least_is_fresh: false,
    })
}
