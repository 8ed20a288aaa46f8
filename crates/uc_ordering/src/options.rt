//! The names and the weights that the options have, put to the tests.

ghost use Rattle.std.specs.Prelude.{◌≡◌, ◌++◌, ℕ, List, None, map, find, filter_map, bytes_eq, if◌then◌else◌, Some, is_none, is_some, option_map, IfOk, IfErr, OnOk};
ghost use Rattle.std.specs.List.{list_any};
ghost use Rattle.uc_term.specs.Table.{Has};
ghost use Rattle.uc_term.specs.Signatures.{first_named};
ghost use Rattle.uc_order.specs.Members.{Each};
ghost use Rattle.uc_ordering.specs.Choice.{IsChoiceFault, first_again, first_or, own_symbols, weighed_names};
ghost use Rattle.uc_ordering.specs.Numbers.{number_in, symbol_in, IsLacking, IsAgain};
ghost use Rattle.uc_ordering.specs.Options.{AreRead};
ghost use Rattle.uc_ordering.specs.Premises.{IsSignature};
ghost use Rattle.uc_ordering.specs.Weights.{weight_given};

use crate::ChoiceFault;
use crate::numbers::Numbers;
use std::alloc::{AllocError, Global};
use uc_term::{Signature, Sym, Symbols, Text};
use uc_words::OrderWords;

/// What the options say of a problem's symbols.
#[derive(Drop)]
pub(crate) struct Options {
    /// The problem's symbols, by their names.
    pub(crate) by_name: Numbers,
    /// The symbols that the precedence names.
    pub(crate) named: Vec<Sym>,
    /// The names of the precedence.
    pub(crate) names: Numbers,
    /// The weights, by the names that they are given to.
    pub(crate) given: Numbers,
}

/// Looks up the names that the options have, and refuses the first that no symbol has, or else that stands twice in one option.
pub(crate) fn read_options(
    alloc: Global,
    words: &OrderWords,
    symbols: &Symbols,
    signature: &Signature,
) -> Result<Options, ChoiceFault>
    requires { IsSignature symbols.now signature.now }
    ensures ok { IfOk result (AreRead symbols.now signature.now words.now) }
    ensures err { IfErr result (IsChoiceFault symbols.now signature.now words.now) }
{
    let by_name = symbols_by_name(alloc, symbols, own_symbols(signature))?;
    let named = known_symbols(alloc, words, &by_name)?;
    let (names, given) = names_once(alloc, words)?;
    Ok(Options {
        by_name,
        named,
        names,
        given,
    })
}

// The symbols of the problem itself.
fn own_symbols(signature: &Signature) -> &[Sym]
    ensures { result.now ≡ own_symbols signature.now }
{
    let all = signature.symbols.as_slice();
    if signature.least_is_fresh {
        &all[..all.len().saturating_sub(1)]
    } else {
        all
    }
}

// The numbers of the symbols by their names.
fn symbols_by_name(alloc: Global, symbols: &Symbols, own: &[Sym]) -> Result<Numbers, AllocError>
    requires { Each (Has symbols.now) own.now }
    ensures { IfOk result (λ m. (name : List ℕ) → symbol_in m.map.entries name ≡ first_named symbols.now name own.now) }
{
    let mut by_name = Numbers::new(alloc);
    // the first symbol of a name is put last
    let mut place = own.len();
    while place > 0 {
        place -= 1;
        let f = own[place];
        by_name.put(alloc, symbols.name(f), f.0)?;
    }
    Ok(by_name)
}

// Returns the symbols that the precedence names, and refuses the first name of the options that no symbol has.
fn known_symbols(
    alloc: Global,
    words: &OrderWords,
    by_name: &Numbers,
) -> Result<Vec<Sym>, ChoiceFault>
    ensures ok { IfOk result (λ list. list.items ≡ filter_map (symbol_in by_name.now.map.entries) words.now.precedence) }
    ensures known { OnOk result (find (λ name. is_none (symbol_in by_name.now.map.entries name)) (words.now.precedence ++ weighed_names words.now) ≡ None) }
    ensures err { IfErr result (IsLacking by_name.now.map.entries (words.now.precedence ++ weighed_names words.now)) }
{
    let named = symbols_named(alloc, by_name, words.precedence.as_slice())?;
    check_known(alloc, by_name, words.weights.as_slice())?;
    Ok(named)
}

// The symbols that have the names; or the first name that none has.
fn symbols_named(alloc: Global, by_name: &Numbers, names: &[Text]) -> Result<Vec<Sym>, ChoiceFault>
    ensures ok { IfOk result (λ list. list.items ≡ filter_map (symbol_in by_name.now.map.entries) names.now) }
    ensures known { OnOk result (find (λ name. is_none (symbol_in by_name.now.map.entries name)) names.now ≡ None) }
    ensures err { IfErr result (IsLacking by_name.now.map.entries names.now) }
{
    let mut list = Vec::new(alloc);
    for name in names {
        match by_name.get(name.as_bytes()) {
            Some(number) => list.push(Sym(number))?,
            None => return Err(ChoiceFault::UnknownSymbol(name.copy(alloc)?)),
        }
    }
    Ok(list)
}

// Tests that each name that is given a weight is a symbol's.
fn check_known(alloc: Global, by_name: &Numbers, weights: &[(Text, u32)]) -> Result<(), ChoiceFault>
    ensures known { OnOk result (find (λ name. is_none (symbol_in by_name.now.map.entries name)) (map (λ p. p.0) weights.now) ≡ None) }
    ensures err { IfErr result (IsLacking by_name.now.map.entries (map (λ p. p.0) weights.now)) }
{
    for (name, _) in weights {
        if by_name.get(name.as_bytes()).is_none() {
            return Err(ChoiceFault::UnknownSymbol(name.copy(alloc)?));
        }
    }
    Ok(())
}

// Returns the names of the precedence and the weights by name, and refuses the first name that stands twice in one option.
fn names_once(alloc: Global, words: &OrderWords) -> Result<(Numbers, Numbers), ChoiceFault>
    ensures names { IfOk result (λ m. (name : List ℕ) → is_some (number_in m.0.map.entries name) ≡ list_any (bytes_eq name) words.now.precedence) }
    ensures given { IfOk result (λ m. (name : List ℕ) → number_in m.1.map.entries name ≡ weight_given words.now.weights name) }
    ensures once { OnOk result (first_or (first_again words.now.precedence) (first_again (weighed_names words.now)) ≡ None) }
    ensures err { IfErr result (IsAgain (first_or (first_again words.now.precedence) (first_again (weighed_names words.now)))) }
{
    let names = set_of(alloc, words.precedence.as_slice())?;
    let given = weights_by_name(alloc, words.weights.as_slice())?;
    Ok((names, given))
}

// The names as a set; or the first that stands again further on.
fn set_of(alloc: Global, names: &[Text]) -> Result<Numbers, ChoiceFault>
    ensures ok { IfOk result (λ m. (name : List ℕ) → is_some (number_in m.map.entries name) ≡ list_any (bytes_eq name) names.now) }
    ensures once { OnOk result (first_again names.now ≡ None) }
    ensures err { IfErr result (IsAgain (first_again names.now)) }
{
    let mut set = Numbers::new(alloc);
    put_names(alloc, names, &mut set)?;
    Ok(set)
}

// Puts the names into an empty set, and refuses the first that stands again further on.
fn put_names(alloc: Global, names: &[Text], set: &mut Numbers) -> Result<(), ChoiceFault>
    requires { (name : List ℕ) → number_in set.old.map.entries name ≡ None }
    ensures ok { OnOk result ((name : List ℕ) → is_some (number_in set.new.map.entries name) ≡ list_any (bytes_eq name) names.now) }
    ensures once { OnOk result (first_again names.now ≡ None) }
    ensures err { IfErr result (IsAgain (first_again names.now)) }
{
    let mut again = None;
    let mut place = names.len();
    while place > 0 {
        place -= 1;
        let was = set.put(alloc, names[place].as_bytes(), 0)?;
        again = earlier(was, place, again);
    }
    match again {
        Some(place) => Err(ChoiceFault::NotTotal(names[place].copy(alloc)?)),
        None => Ok(()),
    }
}

// The weights by the names that they are given to; or the first name that stands again further on.
fn weights_by_name(alloc: Global, weights: &[(Text, u32)]) -> Result<Numbers, ChoiceFault>
    ensures ok { IfOk result (λ m. (name : List ℕ) → number_in m.map.entries name ≡ weight_given weights.now name) }
    ensures once { OnOk result (first_again (map (λ p. p.0) weights.now) ≡ None) }
    ensures err { IfErr result (IsAgain (first_again (map (λ p. p.0) weights.now))) }
{
    let mut given = Numbers::new(alloc);
    put_weights(alloc, weights, &mut given)?;
    Ok(given)
}

// Puts the weights into an empty map, and refuses the first name that stands again further on.
fn put_weights(
    alloc: Global,
    weights: &[(Text, u32)],
    given: &mut Numbers,
) -> Result<(), ChoiceFault>
    requires { (name : List ℕ) → number_in given.old.map.entries name ≡ None }
    ensures ok { OnOk result ((name : List ℕ) → number_in given.new.map.entries name ≡ weight_given weights.now name) }
    ensures once { OnOk result (first_again (map (λ p. p.0) weights.now) ≡ None) }
    ensures err { IfErr result (IsAgain (first_again (map (λ p. p.0) weights.now))) }
{
    let mut again = None;
    let mut place = weights.len();
    while place > 0 {
        place -= 1;
        let was = given.put(alloc, weights[place].0.as_bytes(), weights[place].1)?;
        again = earlier(was, place, again);
    }
    match again {
        Some(place) => Err(ChoiceFault::NotTotal(weights[place].0.copy(alloc)?)),
        None => Ok(()),
    }
}

// The place, where it was there already; else the later one.
#[inline]
fn earlier(was: bool, place: usize, later: Option<usize>) -> Option<usize>
    ensures { result ≡ (if was then Some place else later) }
{
    if was { Some(place) } else { later }
}
