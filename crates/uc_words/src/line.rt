//! The words after the command, sorted into options and positionals for `clap`.

ghost use Rattle.std.specs.Prelude.{◌≡◌, [], map, drop, true, false, codes, string_bytes, IfOk, OnOk};
ghost use Rattle.uc_words.specs.Application.{option_word};
ghost use Rattle.uc_words.specs.Lines.{line_of, turn, item, given_value, is_value, with_value, with_word};
ghost use Rattle.uc_words.specs.Sorted.{IsFormOf, Grows, Turns, GivesAs, sorted_words, behind};
ghost use Rattle.uc_words.specs.Table.{allows, is_flag};
ghost use Rattle.uc_words.specs.declared.line.Expects.TheVariants.{Item};

use crate::application::key_name;
use crate::form::{Form, form_of};
use crate::table::{Key, is_flag};
use crate::{Verb, WordsFault};
use std::alloc::{AllocError, Global};

/// The options, each in one word as `--name=value` or `--name`, and the positionals, in order.
#[derive(Debug, Drop)]
pub struct Sorted {
    pub options: Vec<String>,
    pub positionals: Vec<String>,
}

/// What may come next.
#[derive(Clone, Copy, Debug, PartialEq, Eq)]
pub enum Expects {
    /// An item.
    Item,
    /// The value of an option.
    Value(Key),
    /// A positional, since the word that ends the options has been.
    Positional,
}

// Whether a word of its own may be a value.
fn is_value(word: &[u8]) -> bool
    ensures { result ≡ is_value word.now }
{
    !word.is_empty() && word[0] != b'-'
}

// An option in one word.
fn option_word(alloc: Global, key: Key, value: &str) -> Result<String, AllocError>
    ensures { IfOk result (λ word. string_bytes word ≡ option_word key value.now) }
{
    let mut word = String::from_str(alloc, "--")?;
    word.push_str(key_name(key))?;
    if !is_flag(key) {
        word.push_str("=")?;
        word.push_str(value)?;
    }
    Ok(word)
}

// One option more.
fn give(alloc: Global, sorted: &mut Sorted, key: Key, value: &str) -> Result<(), AllocError>
    ensures { OnOk result (Grows sorted.old sorted.new (with_value key value.now)) }
{
    sorted
        .options
        .push(option_word(alloc, key, value)?)
        .map_err(AllocError::from)
}

// One positional more.
fn append(alloc: Global, sorted: &mut Sorted, word: &str) -> Result<(), AllocError>
    ensures { OnOk result (Grows sorted.old sorted.new (with_word word.now)) }
{
    sorted
        .positionals
        .push(String::from_str(alloc, word)?)
        .map_err(AllocError::from)
}

// Takes the next word, and says what may come then.
fn take_word(
    alloc: Global,
    verb: Verb,
    expects: Expects,
    word: &str,
    sorted: &mut Sorted,
) -> Result<Expects, WordsFault>
    ensures { Turns sorted.old sorted.new (turn verb expects word.now) result }
{
    match expects {
        Expects::Item => take_item(alloc, verb, form_of(verb, word.as_bytes()), word, sorted),
        Expects::Value(key) => {
            if !is_value(word.as_bytes()) {
                return Err(WordsFault::Usage);
            }
            give(alloc, sorted, key, word)?;
            Ok(Expects::Item)
        }
        Expects::Positional => {
            if word.is_empty() {
                return Err(WordsFault::Usage);
            }
            append(alloc, sorted, word)?;
            Ok(Expects::Positional)
        }
    }
}

// Takes the word that begins an item.
fn take_item(
    alloc: Global,
    verb: Verb,
    form: Form,
    word: &str,
    sorted: &mut Sorted,
) -> Result<Expects, WordsFault>
    requires { IsFormOf verb word.now form }
    ensures { Turns sorted.old sorted.new (item form word.now) result }
{
    match form {
        Form::Plain => {
            append(alloc, sorted, word)?;
            Ok(Expects::Item)
        }
        Form::Ends => Ok(Expects::Positional),
        Form::Flag(key) => {
            give(alloc, sorted, key, "")?;
            Ok(Expects::Item)
        }
        Form::Takes(key) => Ok(Expects::Value(key)),
        Form::Has(key, at) => take_value(alloc, key, at, word, sorted),
        Form::Formless => Err(WordsFault::Usage),
    }
}

// Takes an option whose value stands in the same word, from this place on.
fn take_value(
    alloc: Global,
    key: Key,
    at: usize,
    word: &str,
    sorted: &mut Sorted,
) -> Result<Expects, WordsFault>
    requires { word.now ≡ option_word key (drop at word.now) }
    ensures { Turns sorted.old sorted.new (given_value key (drop at word.now)) result }
{
    if word.len() <= at {
        return Err(WordsFault::Usage);
    }
    let option = String::from_str(alloc, word)?;
    sorted.options.push(option).map_err(AllocError::from)?;
    Ok(Expects::Item)
}

/// Sorts the words after the command.
pub fn sort(alloc: Global, verb: Verb, words: &[String]) -> Result<Sorted, WordsFault>
    ensures { GivesAs sorted_words (behind ([], []) (line_of verb Item (map string_bytes words.now))) result }
{
    let mut sorted = Sorted {
        options: Vec::new(alloc),
        positionals: Vec::new(alloc),
    };
    let mut expects = Expects::Item;
    for word in words {
        expects = take_word(alloc, verb, expects, word.as_str(), &mut sorted)?;
    }
    match expects {
        Expects::Value(_) => Err(WordsFault::Usage),
        Expects::Item => Ok(sorted),
        Expects::Positional => Ok(sorted),
    }
}
