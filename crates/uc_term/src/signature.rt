//! Signatures.

ghost use Rattle.std.specs.Prelude.{◌≡◌, ℕ, ◌<◌, ◌^◌, length, IfOk, IfErr, OnErr, MatchOption, None, Some};
ghost use Rattle.uc_term.specs.Table.{Grows, AddsAtMost};
ghost use Rattle.uc_term.specs.Signatures.{IsSignatureOf, IsSignatureFault, first_constant};
ghost use Rattle.uc_term.specs.Gathering.{AreOf, HasAll};

use crate::fresh_symbol::add_fresh;
use crate::gather::gather;
use crate::{Seq, Sym, Symbols, Term, TermFault};
use std::alloc::Global;

/// A signature: its symbols in order, the first constant among them, and whether that constant was added since no other is
/// there; then it stands last.
#[derive(Drop, Debug)]
pub struct Signature {
    pub symbols: Seq<Sym>,
    pub least: Sym,
    pub least_is_fresh: bool,
}

impl Signature {
    /// The signature of the terms: their symbols by first occurrence. Where none of them is a constant, a fresh one is added
    /// last: `least`, or the first of `least_1`, `least_2` and so on whose name no symbol of the terms has.
    ///
    /// `ArityClash` comes at the first occurrence whose name stood before with another number of arguments, and `TooMany` at
    /// that of the 60,001st symbol, whichever comes first. For these and for want of memory the table stays as it was.
    pub fn of(alloc: Global, symbols: &mut Symbols, terms: &[Term]) -> Result<Signature, TermFault>
        requires of { AreOf symbols.old terms.now }
        requires few { length terms.now < 2 ^ 32 }
        ensures ok { IfOk result (IsSignatureOf symbols.new terms.now) }
        ensures err { IfErr result (IsSignatureFault symbols.old terms.now) }
        ensures kept { OnErr result (symbols.new ≡ symbols.old) }
        ensures only { IfOk result (λ signature. AddsAtMost symbols.old symbols.new signature.least) }
        ensures grows { Grows symbols.old symbols.new }
    {
        let mut seen = gather(alloc, symbols, terms)?;
        if let Some(least) = constant_among(symbols, seen.as_slice()) {
            return Ok(Signature {
                symbols: Seq::from_vec(seen),
                least,
                least_is_fresh: false,
            });
        }
        // room is made first, so that nothing fails once the table has the new symbol
        seen.reserve(1)?;
        let least = add_fresh(alloc, symbols, seen.as_slice(), b"least", 0)?;
        seen.push(least)?;
        Ok(Signature {
            symbols: Seq::from_vec(seen),
            least,
            least_is_fresh: true,
        })
    }
}

/// The first of the symbols that is a constant.
fn constant_among(symbols: &Symbols, among: &[Sym]) -> Option<Sym>
    requires { HasAll symbols.now among.now }
    ensures { result ≡ first_constant symbols.now among.now }
{
    for f in among {
        if symbols.arity(*f) == 0 {
            return Some(*f);
        }
    }
    None
}
