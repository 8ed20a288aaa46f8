// From the words to the command.

ghost use Rattle.std.specs.Prelude.{◌≡◌, ◌&&◌, ◌∷◌, ◌++◌, true, false, codes, IfOk, map, string_bytes, option_copied};
ghost use Rattle.std.specs.List.{list_all};
ghost use Rattle.uc_words.specs.Application.{canonical_of, verb_name};
ghost use Rattle.uc_words.specs.Lines.{Gives, Line, is_once, value, stands};
ghost use Rattle.uc_words.specs.Names.{AreNames, AreWeights, Told};
ghost use Rattle.uc_words.specs.Reads.{is_printable, is_clean, is_within, limited, order_named, is_alone, guides_search, system_fits, AreOptional, IsOrder, numbers_fit, is_fit, says, IsCommand, Reads};
ghost use Rattle.uc_words.specs.Shown.{AreMatches, IsCanonical, AreFlags, IsFaultOf, IsMatch, StandFor, given_of, line_of, positionals_of};
ghost use Rattle.uc_words.specs.Sorted.{GivesAs};
ghost use Rattle.uc_words.specs.Table.{is_flag};
ghost use Rattle.uc_words.specs.declared.command.Command.{Command};
ghost use Rattle.uc_words.specs.declared.command.Verb.{Verb};
ghost use Rattle.uc_words.specs.declared.table.Key.TheVariants.{Precedence, Weights};

use crate::application::{application, key_name, verb_name};
use crate::digits::number;
use crate::line::{Sorted, sort};
use crate::names::{names, weights};
use crate::table::{Key, fits, verb_named};
use crate::{Command, OrderWords, Verb, WordsFault};
use clap::ArgMatches;
use clap::error::ErrorKind;
use std::alloc::{AllocError, Global};
use uc_term::{Seq, Text};

// A word is shorter than this.
const TOO_LONG: usize = 2_147_483_648;

// Whether a word is short enough, and all of it is printable.
fn is_clean(word: &[u8]) -> bool
    ensures { result ≡ is_clean word.now }
{
    word.len() < TOO_LONG && is_printed(word)
}

fn is_printed(word: &[u8]) -> bool
    ensures { result ≡ list_all is_printable word.now }
{
    word.iter().all(|b| is_printable(*b))
}

fn is_printable(byte: u8) -> bool
    ensures { result ≡ is_printable byte }
{
    32 <= byte && byte <= 126
}

// Whether there is a number and it is within these limits.
fn is_within(number: Option<u32>, low: u32, high: u32) -> bool
    ensures { result ≡ is_within low high number }
{
    match number {
        Some(n) => low <= n && n <= high,
        None => false,
    }
}

// The number of an option within its limits; the default where the option isn't given.
fn limited(word: Option<&str>, low: u32, high: u32, default: u32) -> Result<u32, WordsFault>
    ensures { Gives (limited low high default (option_copied word.entry)) result }
{
    match word {
        Some(word) => {
            let read = number(word.as_bytes());
            if !is_within(read, low, high) {
                return Err(WordsFault::Usage);
            }
            read.ok_or(WordsFault::Usage)
        }
        None => Ok(default),
    }
}

// Whether the order is the lexicographic path order.
fn is_lpo(word: Option<&str>) -> Result<bool, WordsFault>
    ensures { Gives (order_named (option_copied word.entry)) result }
{
    match word {
        Some(word) => {
            if word == "kbo" {
                Ok(false)
            } else if word == "lpo" {
                Ok(true)
            } else {
                Err(WordsFault::Usage)
            }
        }
        None => Ok(false),
    }
}

// The value of an option, where clap found it.
fn value<'a>(key: Key, found: &ArgMatches<'a>) -> Option<&'a str>
    requires { is_flag key ≡ false }
    ensures { option_copied result ≡ value key (given_of found.now) }
{
    found.get_str(key_name(key))
}

// Whether clap found an option.
fn stands(key: Key, found: &ArgMatches<'_>) -> bool
    requires { is_flag key ≡ false }
    ensures { result ≡ stands key (given_of found.now) }
{
    value(key, found).is_some()
}

// Whether clap found a flag.
fn is_set(key: Key, found: &ArgMatches<'_>) -> bool
    requires flags { AreFlags found.now }
    requires flag { is_flag key ≡ true }
    ensures { result ≡ stands key (given_of found.now) }
{
    found.get_flag(key_name(key))
}

// Copies of words.
fn copies(alloc: Global, words: &[&str]) -> Result<Seq<Text>, AllocError>
    ensures { IfOk result (λ texts. texts ≡ map (λ word. word.now) words.now) }
{
    let mut texts = Seq::new(alloc);
    for word in words {
        texts.push(Text::from_bytes(alloc, word.as_bytes())?)?;
    }
    Ok(texts)
}

// The positionals that clap found.
fn positionals_of(alloc: Global, found: &ArgMatches<'_>) -> Result<Seq<Text>, AllocError>
    ensures { IfOk result (λ texts. texts ≡ positionals_of found.now) }
{
    match found.get_raw("words") {
        Some(words) => copies(alloc, words),
        None => Ok(Seq::new(alloc)),
    }
}

// The names of the precedence; none where it isn't given.
fn precedence_of(alloc: Global, found: &ArgMatches<'_>) -> Result<Seq<Text>, WordsFault>
    ensures { Told (AreOptional AreNames (value Precedence (given_of found.now))) result }
{
    match value(Key::Precedence, found) {
        Some(text) => names(alloc, text.as_bytes()),
        None => Ok(Seq::new(alloc)),
    }
}

// The names with their weights; none where they aren't given.
fn weights_of(alloc: Global, found: &ArgMatches<'_>) -> Result<Seq<(Text, u32)>, WordsFault>
    ensures { Told (AreOptional AreWeights (value Weights (given_of found.now))) result }
{
    match value(Key::Weights, found) {
        Some(text) => weights(alloc, text.as_bytes()),
        None => Ok(Seq::new(alloc)),
    }
}

// Whether neither weights nor `w0` stand beside the lexicographic path order.
fn is_alone(lpo: bool, found: &ArgMatches<'_>) -> bool
    ensures { result ≡ is_alone lpo (given_of found.now) }
{
    !(lpo && (stands(Key::Weights, found) || stands(Key::W0, found)))
}

// Whether an option stands that only a search reads.
fn guides_search(found: &ArgMatches<'_>) -> bool
    ensures { result ≡ guides_search (given_of found.now) }
{
    stands(Key::Order, found)
        || stands(Key::Precedence, found)
        || stands(Key::Weights, found)
        || stands(Key::W0, found)
        || stands(Key::Budget, found)
        || stands(Key::Pairs, found)
}

// Whether no option of a search stands beside a certificate.
fn system_fits(found: &ArgMatches<'_>) -> bool
    ensures { result ≡ system_fits (given_of found.now) }
{
    !(stands(Key::System, found) && guides_search(found))
}

// The options on the order.
fn order_words(alloc: Global, found: &ArgMatches<'_>) -> Result<OrderWords, WordsFault>
    ensures { Told (IsOrder (given_of found.now)) result }
{
    let lpo = is_lpo(value(Key::Order, found))?;
    if !is_alone(lpo, found) {
        return Err(WordsFault::Usage);
    }
    let w0 = limited(value(Key::W0, found), 1, 1_000_000, 1)?;
    let precedence = precedence_of(alloc, found)?;
    let weights = weights_of(alloc, found)?;
    Ok(OrderWords {
        lpo,
        precedence,
        weights,
        w0,
    })
}

// Whether the positionals of `gen` are its two numbers.
fn numbers_fit(verb: Verb, positionals: &[Text]) -> bool
    ensures { result ≡ numbers_fit verb positionals.now }
{
    if verb != Verb::Gen {
        return true;
    }
    match positionals {
        [constants, start] => {
            is_within(number(constants.as_bytes()), 1, 2000)
                && is_within(number(start.as_bytes()), 0, 2_147_483_647)
        }
        _ => false,
    }
}

// Whether the positionals are such as the command takes.
fn is_fit(verb: Verb, found: &ArgMatches<'_>, positionals: &[Text]) -> bool
    requires once { is_once (given_of found.now) ≡ true }
    requires positionals { positionals.now ≡ positionals_of found.now }
    ensures { result ≡ is_fit verb (line_of found.now) }
{
    fits(verb, positionals.len()) && numbers_fit(verb, positionals)
}

// A copy of the value of an option, where it was given.
fn optional_text(alloc: Global, text: Option<&str>) -> Result<Option<Text>, WordsFault>
    ensures { Gives (Some (option_copied text.entry)) result }
{
    match text {
        Some(text) => Ok(Some(Text::from_bytes(alloc, text.as_bytes())?)),
        None => Ok(None),
    }
}

// The command that clap's matches stand for.
fn command(alloc: Global, verb: Verb, found: &ArgMatches<'_>) -> Result<Command, WordsFault>
    requires { AreFlags found.now }
    ensures { Told (IsCommand verb (line_of found.now)) result }
{
    let positionals = positionals_of(alloc, found)?;
    if !is_fit(verb, found, positionals.as_slice()) || !system_fits(found) {
        return Err(WordsFault::Usage);
    }
    let budget = limited(value(Key::Budget, found), 0, 10_000_000, 100_000)?;
    let pairs = limited(value(Key::Pairs, found), 1, 8_000_000, 1_000_000)?;
    let workers = limited(value(Key::Workers, found), 1, 64, 1)?;
    let steps = limited(value(Key::Steps, found), 0, 10_000_000, 100_000)?;
    let limit = limited(value(Key::Limit, found), 0, 10_000_000, 4_096)?;
    let size = limited(value(Key::Size, found), 1, 8, 4)?;
    let root = optional_text(alloc, value(Key::Root, found))?;
    let system = optional_text(alloc, value(Key::System, found))?;
    let order = order_words(alloc, found)?;
    Ok(Command {
        verb,
        positionals,
        root,
        system,
        order,
        budget,
        pairs,
        workers,
        steps,
        limit,
        size,
        trace: is_set(Key::Trace, found),
        certificate: is_set(Key::Certificate, found),
    })
}

// The command that clap found, with its matches.
fn found(alloc: Global, matches: &ArgMatches<'_>) -> Result<Command, WordsFault>
    requires { IsMatch matches.now }
    ensures { (v : Verb) (line : Line) → AreMatches v line matches.now → Told (IsCommand v line) result }
{
    let Some((name, found)) = matches.subcommand() else {
        return Err(WordsFault::Usage);
    };
    let Some(verb) = verb_named(name.as_bytes()) else {
        return Err(WordsFault::Usage);
    };
    command(alloc, verb, found)
}

// Why clap has no matches.
fn fault(kind: ErrorKind) -> WordsFault
    ensures { IsFaultOf kind result }
{
    if kind == ErrorKind::OutOfMemory {
        WordsFault::NoMemory
    } else {
        WordsFault::Usage
    }
}

// The command that clap reads in the words that stand for a line.
fn parsed(alloc: Global, words: &[String]) -> Result<Command, WordsFault>
    requires { IsCanonical (map string_bytes words.now) }
    ensures { (v : Verb) (line : Line) → StandFor v line (map string_bytes words.now) → Told (IsCommand v line) result }
{
    let program = application(alloc)?;
    match program.try_get_matches_from(words) {
        Ok(matches) => found(alloc, &matches),
        Err(error) => Err(fault(error.kind())),
    }
}

// The words that stand for the items of the line: the command, its options each in one word, and the positionals after
// `--`.
fn canonical(alloc: Global, words: &[String]) -> Result<Vec<String>, WordsFault>
    ensures { GivesAs (λ words. map string_bytes words.items) (canonical_of (says (map string_bytes words.now))) result }
{
    let Some((name, others)) = words.split_first() else {
        return Err(WordsFault::Usage);
    };
    let Some(verb) = verb_named(name.as_bytes()) else {
        return Err(WordsFault::Usage);
    };
    match sort(alloc, verb, others) {
        Ok(sorted) => Ok(told_words(alloc, verb, sorted)?),
        Err(fault) => Err(fault),
    }
}

// The words of a command.
fn told_words(alloc: Global, verb: Verb, sorted: Sorted) -> Result<Vec<String>, AllocError>
    ensures { IfOk result (λ words. map string_bytes words.items ≡ verb_name verb ∷ (map string_bytes sorted.options.items ++ codes "--" ∷ map string_bytes sorted.positionals.items)) }
{
    let Sorted {
        mut options,
        mut positionals,
    } = sorted;
    let mut words = Vec::new(alloc);
    words.push(String::from_str(alloc, verb_name(verb))?)?;
    words.append(&mut options)?;
    words.push(String::from_str(alloc, "--")?)?;
    words.append(&mut positionals)?;
    Ok(words)
}

// Whether all words are so.
fn are_clean(words: &[String]) -> bool
    ensures { result ≡ list_all (λ word. is_clean (string_bytes word)) words.now }
{
    words.iter().all(|word| is_clean(word.as_bytes()))
}

/// Reads the words after the program's name.
///
/// The first word is the command. Items follow in any order: options as `--name value` or `--name=value`, the flags
/// `--trace` and `--certificate`, and positionals; after a word `--` all words are positionals. `Usage` comes exactly where the words have
/// no reading: an item that the command doesn't have, an option that stands twice, an option of a search beside `--system`, a value that is missing, empty or not
/// allowed, a value that is a word of its own and begins with a dash, too few or too many positionals, an empty one, or
/// a word with a byte outside 32 to 126 or with 2^31 bytes or more.
pub fn read_words(alloc: Global, words: &[String]) -> Result<Command, WordsFault>
    ensures reads { Told (Reads (map string_bytes words.now)) result }
    ensures only { IfOk result (λ command. (other : Command) → Reads (map string_bytes words.now) other → other ≡ command) }
{
    if !are_clean(words) {
        return Err(WordsFault::Usage);
    }
    match canonical(alloc, words) {
        Ok(words) => parsed(alloc, words.as_slice()),
        Err(fault) => Err(fault),
    }
}
