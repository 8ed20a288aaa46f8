//! The order that options and defaults name.

ghost use Rattle.std.specs.Prelude.{◌≡◌, ◌≤◌, ℕ, List, [], ◌∷◌, None, length, find, IfOk, IfErr, IfSome, OnOk};
ghost use Rattle.uc_term.specs.Table.{Has};
ghost use Rattle.uc_ordering.specs.Choice.{IsChosen, IsChoiceFault, all_symbols, chosen, first_bad, own_precedence, spec_of, with_behind, below_marks, marks_at, ends_in_zero};
ghost use Rattle.uc_ordering.specs.Numbers.{symbol_in, is_bad_in, IsBadAmong};
ghost use Rattle.uc_ordering.specs.Fits.{Fits};
ghost use Rattle.uc_ordering.specs.Options.{AreRead};
ghost use Rattle.uc_ordering.specs.Premises.{IsSignature, AreMarks};

use crate::ChoiceFault;
use crate::numbers::Numbers;
use crate::options::{Options, read_options};
use crate::precedence::precedence_of;
use crate::weights::{heaviest, is_bad, weights_of};
use std::alloc::{AllocError, Global};
use uc_order::OrderSpec;
use uc_term::{Fresh, Seq, Signature, Sym, Symbols};
use uc_words::OrderWords;

/// The order that the options and the defaults name for a problem's signature; with the encoding's symbols, where the problem
/// is encoded.
///
/// The default is the Knuth-Bendix order in which every variable and every symbol weighs `w0`. The precedence, the least
/// first, goes by the number of arguments and then by first occurrence; the symbols that are named stand above all that
/// aren't, in the order given. The encoding's `true`, `false` and `eq` stand above all others in this order, but below a
/// symbol of weight 0; `true` and `false` weigh as much as the heaviest constant, and `eq` weighs `w0`.
///
/// `UnknownSymbol` is the first name that no symbol of the problem has; the constant that was added to the signature and the
/// encoding's symbols can't be named. `NotTotal` is the first name that stands twice in one option. `BadWeight` is the first
/// weight that is over 1,000,000, or a constant's and below `w0`, or 0 where the symbol isn't both unary and last in the
/// precedence of the problem's own symbols. They are tested in this order, and each goes through the precedence before the
/// weights.
pub fn choose(
    alloc: Global,
    words: &OrderWords,
    symbols: &Symbols,
    signature: &Signature,
    fresh: Option<Fresh>,
) -> Result<OrderSpec, ChoiceFault>
    requires w0_some { 1 ≤ words.now.w0 }
    requires w0_most { words.now.w0 ≤ 1000000 }
    requires signature { IsSignature symbols.now signature.now }
    requires marks { AreMarks symbols.now signature.now fresh }
    ensures ok { IfOk result (IsChosen symbols.now signature.now words.now fresh) }
    ensures err { IfErr result (IsChoiceFault symbols.now signature.now words.now) }
    ensures fits { IfOk result (Fits symbols.now (all_symbols signature.now fresh)) }
{
    let options = read_options(alloc, words, symbols, signature)?;
    choose_by(alloc, words, symbols, signature, &options, fresh)
}

// Chooses the order once the names are looked up.
fn choose_by(
    alloc: Global,
    words: &OrderWords,
    symbols: &Symbols,
    signature: &Signature,
    options: &Options,
    fresh: Option<Fresh>,
) -> Result<OrderSpec, ChoiceFault>
    requires signature { IsSignature symbols.now signature.now }
    requires options { AreRead symbols.now signature.now words.now options.now }
    ensures ok { IfOk result (IsChosen symbols.now signature.now words.now fresh) }
    ensures err { IfErr result (IsChoiceFault symbols.now signature.now words.now) }
{
    let precedence = tested_precedence(alloc, words, symbols, signature, options)?;
    Ok(describe(alloc, words, symbols, signature, options, precedence, fresh)?)
}

// Makes the signature's precedence, and tests the weights that are given against it.
fn tested_precedence(
    alloc: Global,
    words: &OrderWords,
    symbols: &Symbols,
    signature: &Signature,
    options: &Options,
) -> Result<Vec<Sym>, ChoiceFault>
    requires signature { IsSignature symbols.now signature.now }
    requires options { AreRead symbols.now signature.now words.now options.now }
    ensures ok { IfOk result (λ list. list.items ≡ own_precedence symbols.now signature.now words.now) }
    ensures fit { OnOk result (first_bad symbols.now signature.now words.now ≡ None) }
    ensures err { IfErr result (IsChoiceFault symbols.now signature.now words.now) }
{
    let all = signature.symbols.as_slice();
    let named = options.named.as_slice();
    let precedence = precedence_of(alloc, symbols, &options.names, all, named)?;
    check_weights(
        alloc,
        symbols,
        &options.by_name,
        words,
        precedence.as_slice(),
    )?;
    Ok(precedence)
}

// Puts together the order of this precedence, with the encoding's symbols where there are some.
fn describe(
    alloc: Global,
    words: &OrderWords,
    symbols: &Symbols,
    signature: &Signature,
    options: &Options,
    precedence: Vec<Sym>,
    fresh: Option<Fresh>,
) -> Result<OrderSpec, AllocError>
    requires signature { IsSignature symbols.now signature.now }
    requires options { AreRead symbols.now signature.now words.now options.now }
    requires precedence { precedence.items ≡ own_precedence symbols.now signature.now words.now }
    ensures { IfOk result (λ spec. spec ≡ chosen symbols.now signature.now words.now fresh) }
{
    let w0 = words.w0;
    let weights = weights_of(alloc, symbols, &options.given, w0, precedence.as_slice())?;
    match fresh {
        None => Ok(spec_of(words, weights, precedence)),
        Some(marks) => {
            let all = signature.symbols.as_slice();
            let heaviest = heaviest(symbols, &options.given, w0, all);
            with_marks(alloc, words, heaviest, &weights, &precedence, marks)
        }
    }
}

// Tests the weights that are given.
fn check_weights(
    alloc: Global,
    symbols: &Symbols,
    by_name: &Numbers,
    words: &OrderWords,
    precedence: &[Sym],
) -> Result<(), ChoiceFault>
    requires { (name : List ℕ) → IfSome (symbol_in by_name.now.map.entries name) (Has symbols.now) }
    ensures ok { OnOk result (find (is_bad_in symbols.now words.now.w0 by_name.now.map.entries precedence.now) words.now.weights ≡ None) }
    ensures err { IfErr result (IsBadAmong symbols.now words.now.w0 by_name.now.map.entries precedence.now words.now.weights) }
{
    for (name, weight) in words.weights.as_slice() {
        if let Some(number) = by_name.get(name.as_bytes()) {
            if is_bad(symbols, words.w0, precedence, Sym(number), *weight) {
                return Err(ChoiceFault::BadWeight(name.copy(alloc)?, *weight));
            }
        }
    }
    Ok(())
}

// The order of the kind that the options name.
fn spec_of(words: &OrderWords, weights: Vec<u32>, precedence: Vec<Sym>) -> OrderSpec
    ensures { result ≡ spec_of words.now.lpo words.now.w0 weights.items precedence.items }
{
    let precedence = Seq::from_vec(precedence);
    if words.lpo {
        OrderSpec::Lpo { precedence }
    } else {
        OrderSpec::Kbo {
            w0: words.w0,
            weights: Seq::from_vec(weights),
            precedence,
        }
    }
}

// The order with the encoding's symbols among those of the signature.
fn with_marks(
    alloc: Global,
    words: &OrderWords,
    heaviest: u32,
    weights: &[u32],
    precedence: &[Sym],
    marks: Fresh,
) -> Result<OrderSpec, AllocError>
    requires { length weights.now ≡ length precedence.now }
    ensures { IfOk result (λ spec. spec ≡ spec_of words.now.lpo words.now.w0 (with_behind (marks_at words.now.lpo weights.now) weights.now (heaviest ∷ heaviest ∷ words.now.w0 ∷ [])) (with_behind (marks_at words.now.lpo weights.now) precedence.now (marks.yes ∷ marks.no ∷ marks.eq ∷ []))) }
{
    let place = marks_at(words.lpo, weights);
    let weights = with_behind(alloc, place, weights, &[heaviest, heaviest, words.w0])?;
    let precedence = with_behind(alloc, place, precedence, &[marks.yes, marks.no, marks.eq])?;
    Ok(spec_of(words, weights, precedence))
}

// How many symbols with these weights stand below the encoding's; in a path order, which has no weights, all do.
fn marks_at(lpo: bool, weights: &[u32]) -> usize
    ensures value { result ≡ marks_at lpo weights.now }
    ensures within { result ≤ length weights.now }
{
    if lpo {
        weights.len()
    } else {
        below_marks(weights)
    }
}

// How many symbols with these weights stand below the encoding's.
fn below_marks(weights: &[u32]) -> usize
    ensures value { result ≡ below_marks weights.now }
    ensures within { result ≤ length weights.now }
{
    if ends_in_zero(weights) {
        weights.len().saturating_sub(1)
    } else {
        weights.len()
    }
}

fn ends_in_zero(weights: &[u32]) -> bool
    ensures { result ≡ ends_in_zero weights.now }
{
    match weights.last() {
        Some(weight) => *weight == 0,
        None => false,
    }
}

fn with_behind<T: Copy>(
    alloc: Global,
    first: usize,
    list: &[T],
    more: &[T],
) -> Result<Vec<T>, AllocError>
    requires { first ≤ length list.now }
    ensures { IfOk result (λ all. all.items ≡ with_behind first list.now more.now) }
{
    let mut all = Vec::from_slice(alloc, &list[..first])?;
    all.extend_from_slice(more)?;
    all.extend_from_slice(&list[first..])?;
    Ok(all)
}
