//! Terms all of whose variables are bound.

ghost use Rattle.std.specs.Prelude.{◌≡◌, ◌+◌, ℕ, Bool, IfOk, IfErr, MatchBool, MatchOption};
ghost use Rattle.uc_clause.specs.Tokens.{AreTokens};
ghost use Rattle.uc_clause.specs.Rules as clause;
ghost use Rattle.uc_clause.specs.Terms as clauses;
ghost use Rattle.uc_clause.specs.Parse.{Parse};
ghost use Rattle.uc_clause.specs.declared.grammar.stop.Stop.{Stop};
ghost use Rattle.uc_fof.specs.declared.stop.Halt.{Halt};
ghost use Rattle.uc_fof.specs.Rules.{Stops};
ghost use Rattle.uc_fof.specs.Terms.{Term};
ghost use Rattle.uc_fof.specs.Given.{Passes, IsFree, AreBound, IsFirstFree, Full, Reaches};

use crate::bound::Bound;
use crate::{Halt, Reason};
use std::alloc::Global;
use uc_clause::{
    MAX_ARITY, Stop, Terminal, Token, Variables, Why, spelling_at, stands_at, term_at,
};
use uc_term::Symbols;

// Whether the token of a number is a variable that isn't bound.
fn is_free(bytes: &[u8], tokens: &[Token], bound: &Bound, at: usize) -> bool
    requires { AreTokens bytes.now tokens.now }
    ensures { MatchBool result (IsFree bytes.now tokens.now bound.now at) (IsFree bytes.now tokens.now bound.now at → ⊥) }
{
    stands_at(bytes, tokens, at, Terminal::Upper) && !bound.contains(spelling_at(bytes, tokens, at))
}

// The first variable that isn't bound, from a token on and before another.
fn free_in(bytes: &[u8], tokens: &[Token], bound: &Bound, from: usize, to: usize) -> Option<usize>
    requires { AreTokens bytes.now tokens.now }
    ensures { MatchOption result (AreBound bytes.now tokens.now bound.now from to) (IsFirstFree bytes.now tokens.now bound.now from to) }
{
    let mut at = from;
    'tokens: while at < to {
        if is_free(bytes, tokens, bound, at) {
            return Some(at);
        }
        at += 1;
    }
    None
}

// The stop that is want of memory, as it is known to be.
fn memory_of(stop: Stop) -> Halt
    requires { stop ≡ Stop.NoMemory }
    ensures { result ≡ Halt.NoMemory }
{
    match stop {
        Stop::NoMemory => Halt::NoMemory,
        Stop::At(_, _) => unreachable!(),
    }
}

// The comma that announces the 256th argument of a functor.
fn last_comma(
    alloc: Global,
    bytes: &[u8],
    tokens: &[Token],
    functor: usize,
    symbols: &mut Symbols,
) -> Result<usize, Halt>
    requires tokens { AreTokens bytes.now tokens.now }
    requires full { (used : ℕ) × (comma : ℕ) × Full bytes.now tokens.now 1 used (functor + 2) comma }
    ensures found { IfOk result (λ comma. (used : ℕ) × Full bytes.now tokens.now 1 used (functor + 2) comma) }
    ensures memory { IfErr result (λ e. e ≡ Halt.NoMemory) }
{
    let mut at = functor + 2;
    let mut number = 1;
    'arguments: loop {
        let mut variables = Variables::new(alloc);
        let end = match term_at(alloc, bytes, tokens, at, &mut variables, symbols) {
            Ok((_, end)) => end,
            Err(stop) => return Err(memory_of(stop)),
        };
        if number >= MAX_ARITY {
            return Ok(end);
        }
        at = end + 1;
        number += 1;
    }
}

// The number of the token that a term stops with, which for the limit on arguments isn't the functor that it names.
fn reach_of(
    alloc: Global,
    bytes: &[u8],
    tokens: &[Token],
    why: Why,
    at: usize,
    symbols: &mut Symbols,
) -> Result<usize, Halt>
    requires tokens { AreTokens bytes.now tokens.now }
    requires reaches { (r : ℕ) × Reaches bytes.now tokens.now why at r }
    ensures reaches { IfOk result (Reaches bytes.now tokens.now why at) }
    ensures memory { IfErr result (λ e. e ≡ Halt.NoMemory) }
{
    match why {
        Why::Arity => last_comma(alloc, bytes, tokens, at, symbols),
        _ => Ok(at),
    }
}

// Stops at the first variable that isn't bound, where a term that stops has one before the token that it stops with.
fn first_stop(
    bytes: &[u8],
    tokens: &[Token],
    conjecture: bool,
    bound: &Bound,
    from: usize,
    to: usize,
    why: Why,
    at: usize,
) -> Halt
    requires tokens { AreTokens bytes.now tokens.now }
    requires stops { clauses.Term bytes.now tokens.now 0 from (clause.stop why at) }
    requires reaches { Reaches bytes.now tokens.now why at to }
    ensures { Stops (Term bytes.now tokens.now conjecture bound.now 0 from) result }
{
    match free_in(bytes, tokens, bound, from, to) {
        Some(free) => Halt::At(Reason::Unread, free),
        None => Halt::At(Reason::Inside(conjecture, why), at),
    }
}

// Stops where a term stops whose variables needn't be bound, or before.
fn stopped_at(
    alloc: Global,
    bytes: &[u8],
    tokens: &[Token],
    conjecture: bool,
    bound: &Bound,
    from: usize,
    why: Why,
    at: usize,
    symbols: &mut Symbols,
) -> Halt
    requires tokens { AreTokens bytes.now tokens.now }
    requires stops { clauses.Term bytes.now tokens.now 0 from (clause.stop why at) }
    ensures { Stops (Term bytes.now tokens.now conjecture bound.now 0 from) result }
{
    match reach_of(alloc, bytes, tokens, why, at, symbols) {
        Ok(to) => first_stop(bytes, tokens, conjecture, bound, from, to, why, at),
        Err(halt) => halt,
    }
}

// The same, or want of memory.
fn halted(
    alloc: Global,
    bytes: &[u8],
    tokens: &[Token],
    conjecture: bool,
    bound: &Bound,
    from: usize,
    stop: Stop,
    symbols: &mut Symbols,
) -> Halt
    requires tokens { AreTokens bytes.now tokens.now }
    requires stops { clause.Stops (clauses.Term bytes.now tokens.now 0 from) stop }
    ensures { Stops (Term bytes.now tokens.now conjecture bound.now 0 from) result }
{
    match stop {
        Stop::At(why, at) => {
            stopped_at(
                alloc, bytes, tokens, conjecture, bound, from, why, at, symbols,
            )
        }
        Stop::NoMemory => Halt::NoMemory,
    }
}

// Ends behind a term, or stops at its first variable that isn't bound.
fn ended(
    bytes: &[u8],
    tokens: &[Token],
    bound: &Bound,
    from: usize,
    end: usize,
) -> Result<usize, Halt>
    requires tokens { AreTokens bytes.now tokens.now }
    requires reads { (p : Parse) × clauses.Term bytes.now tokens.now 0 from (clause.read p end) }
    ensures { (conjecture : Bool) → Passes (Term bytes.now tokens.now conjecture bound.now 0 from) result }
{
    match free_in(bytes, tokens, bound, from, end) {
        Some(free) => Err(Halt::At(Reason::Unread, free)),
        None => Ok(end),
    }
}

// Goes over the term that begins at a token, and gives the number of the token behind it.
pub(crate) fn term_end(
    alloc: Global,
    bytes: &[u8],
    tokens: &[Token],
    conjecture: bool,
    bound: &Bound,
    from: usize,
    symbols: &mut Symbols,
) -> Result<usize, Halt>
    requires { AreTokens bytes.now tokens.now }
    ensures { Passes (Term bytes.now tokens.now conjecture bound.now 0 from) result }
{
    let mut variables = Variables::new(alloc);
    match term_at(alloc, bytes, tokens, from, &mut variables, symbols) {
        Ok((_, end)) => ended(bytes, tokens, bound, from, end),
        Err(stop) => { Err(halted(alloc, bytes, tokens, conjecture, bound, from, stop, symbols)) }
    }
}
