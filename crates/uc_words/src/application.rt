// The command line as it is declared to `clap`.

ghost use Rattle.std.specs.Prelude.{◌≡◌, IfOk, false};
ghost use Rattle.clap.specs.Words.{app_of, rule_of};
ghost use Rattle.clap.specs.declared.builder.command.Command.TheViews.{out-Command as fields_of};
ghost use Rattle.uc_words.specs.Application.{verb_name, key_name, all_verbs, all_keys, option_rule, words_rule, with_option, command_app, application};

use crate::Verb;
use crate::table::{Key, allows, is_flag};
use clap::{Arg, ArgAction};
use std::alloc::{AllocError, Global};

const VERBS: [Verb; 11] = [
    Verb::Prove,
    Verb::Check,
    Verb::Decide,
    Verb::Show,
    Verb::Rewrite,
    Verb::Order,
    Verb::Pairs,
    Verb::Gen,
    Verb::Table,
    Verb::Model,
    Verb::Certify,
];

const KEYS: [Key; 14] = [
    Key::Root,
    Key::Order,
    Key::Precedence,
    Key::Weights,
    Key::W0,
    Key::Budget,
    Key::Pairs,
    Key::Workers,
    Key::Steps,
    Key::System,
    Key::Limit,
    Key::Size,
    Key::Trace,
    Key::Certificate,
];

/// The name of a command.
pub fn verb_name<'a>(verb: Verb) -> &'a str
    ensures { result.now ≡ verb_name verb }
{
    match verb {
        Verb::Prove => "prove",
        Verb::Check => "check",
        Verb::Decide => "decide",
        Verb::Show => "show",
        Verb::Rewrite => "rewrite",
        Verb::Order => "order",
        Verb::Pairs => "pairs",
        Verb::Gen => "gen",
        Verb::Table => "table",
        Verb::Model => "model",
        Verb::Certify => "certify",
    }
}

/// The name of an option or flag.
pub fn key_name<'a>(key: Key) -> &'a str
    ensures { result.now ≡ key_name key }
{
    match key {
        Key::Root => "root",
        Key::Order => "order",
        Key::Precedence => "precedence",
        Key::Weights => "weights",
        Key::W0 => "w0",
        Key::Budget => "budget",
        Key::Pairs => "pairs",
        Key::Workers => "workers",
        Key::Steps => "steps",
        Key::System => "system",
        Key::Limit => "limit",
        Key::Size => "size",
        Key::Trace => "trace",
        Key::Certificate => "certificate",
    }
}

// An option or flag.
fn option<'a>(alloc: Global, key: Key) -> Arg<'a>
    ensures rule { rule_of result ≡ option_rule key }
    ensures local { result.global ≡ false }
{
    let action = if is_flag(key) {
        ArgAction::SetTrue
    } else {
        ArgAction::Set
    };
    Arg::new(alloc, key_name(key))
        .long(key_name(key))
        .action(action)
}

// The positionals.
fn words<'a>(alloc: Global) -> Arg<'a>
    ensures rule { rule_of result ≡ words_rule }
    ensures local { result.global ≡ false }
{
    Arg::new(alloc, "words")
        .action(ArgAction::Set)
        .num_args(1..)
        .required(true)
}

// The command with one option more, where it has that option.
fn with_option<'a>(
    alloc: Global,
    command: clap::Command<'a>,
    verb: Verb,
    key: Key,
) -> Result<clap::Command<'a>, AllocError>
    requires { (fields_of command).has_globals ≡ false }
    ensures { IfOk result (λ c. (app_of c ≡ with_option verb (app_of command.entry) key) × ((fields_of c).has_globals ≡ false)) }
{
    if allows(verb, key) {
        command.arg(option(alloc, key))
    } else {
        Ok(command)
    }
}

// One of the commands, with its options and the positionals.
fn command<'a>(alloc: Global, verb: Verb) -> Result<clap::Command<'a>, AllocError>
    ensures { IfOk result (λ c. (app_of c ≡ command_app verb) × ((fields_of c).has_globals ≡ false)) }
{
    let mut command = clap::Command::new(alloc, verb_name(verb));
    for key in KEYS {
        command = with_option(alloc, command, verb, key)?;
    }
    command.arg(words(alloc))
}

/// The program with its commands, which asks for no program name and has no help.
pub fn application<'a>(alloc: Global) -> Result<clap::Command<'a>, AllocError>
    ensures { IfOk result (λ c. app_of c ≡ application) }
{
    let mut program = clap::Command::new(alloc, "uc")
        .no_binary_name(true)
        .disable_help_flag(true)
        .disable_help_subcommand(true);
    for verb in VERBS {
        program = program.subcommand(command(alloc, verb)?)?;
    }
    Ok(program)
}
