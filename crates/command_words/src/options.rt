//! The options of each command, read by `clap`.

ghost use Rattle.std.specs.Prelude.{◌≡◌, false, true, is_some, map, string_bytes, IfOk, IfErr, Option};
ghost use Rattle.clap.specs.Words.{HasMatchesOf, app_of, found_of, kind_of, one_of, rows_of, rule_of};
ghost use Rattle.command_words.specs.Options.{IsFlag, IsRead, alone_rule, asked_of, flag_rule, number_at, number_rule};
ghost use Rattle.command_words.specs.Options.{options_of, plain_app, rule_as};
ghost use Rattle.command_words.specs.Settings.{flag_name};
ghost use Rattle.command_words.specs.declared.settings.Setting.{Setting};

use crate::choices::{CommandName, chosen, taken};
use crate::commands;
use crate::settings::{Flag, Kind, Setting};
use clap::error::ErrorKind;
use clap::{Arg, ArgAction, ArgMatches, Command, Error};
use fc_values::{Memory, number};
use std::alloc::{AllocError, Global};

// A flag of this name.
fn flag_argument<'a>(alloc: Global, name: &'a str) -> Arg<'a>
    ensures rule { rule_of result ≡ flag_rule name.entry.now }
    ensures local { result.global ≡ false }
{
    Arg::new(alloc, name).long(name).action(ArgAction::SetTrue)
}

// An option of this name with a number.
fn numbered<'a>(alloc: Global, name: &'a str) -> Arg<'a>
    ensures rule { rule_of result ≡ number_rule name.entry.now }
    ensures local { result.global ≡ false }
{
    Arg::new(alloc, name).long(name).action(ArgAction::Set)
}

// A number that stands alone.
fn alone<'a>(alloc: Global, name: &'a str) -> Arg<'a>
    ensures rule { rule_of result ≡ alone_rule name.entry.now }
    ensures local { result.global ≡ false }
{
    Arg::new(alloc, name).action(ArgAction::Set)
}

// How `clap` sees what a command can take, by this name.
fn argument<'a>(alloc: Global, kind: Kind, name: &'a str) -> Arg<'a>
    ensures rule { rule_of result ≡ rule_as kind name.entry.now }
    ensures local { result.global ≡ false }
{
    match kind {
        Kind::Flag(_) => flag_argument(alloc, name),
        Kind::Option(_) => numbered(alloc, name),
        Kind::Alone => alone(alloc, name),
    }
}

// The command of a word, without options.
fn plain<'a>(alloc: Global, word: &'a str) -> Command<'a>
    ensures { app_of result ≡ plain_app word.entry.now }
{
    Command::new(alloc, word)
        .disable_help_flag(true)
        .disable_version_flag(true)
}

// The same with all that it takes.
fn options<'a>(alloc: Global, name: CommandName, word: &'a str) -> Result<Command<'a>, AllocError>
    ensures { IfOk result (λ c. app_of c ≡ options_of name word.entry.now) }
{
    let kinds = taken(name);
    let mut command = plain(alloc, word);
    'kinds: for kind in kinds {
        let argument = argument(alloc, *kind, kind.id());
        command = command.arg(argument)?;
    }
    Ok(command)
}

// The words begin with the command's. They ask for a command, so the parse fails for memory alone.
fn matches<'a>(
    alloc: Global,
    name: CommandName,
    word: &'a str,
    words: &'a [String],
) -> Result<ArgMatches<'a>, Error>
    requires { is_some (asked_of name (map string_bytes words.now)) ≡ true }
    ensures matches { IfOk result
        (HasMatchesOf (options_of name word.entry.now) (map string_bytes words.entry.now)) }
    ensures memory { IfErr result (λ e. kind_of e ≡ ErrorKind.OutOfMemory) }
{
    options(alloc, name, word)?.try_get_matches_from(words)
}

// The number of an option, if there is one.
fn number_in(matches: &ArgMatches, id: &str) -> Option<u32>
    ensures { result ≡ number_at id.now (rows_of (found_of matches.now)) }
{
    let text = matches.get_str(id)?;
    number(text.as_bytes())
}

// A flag that `clap` has read.
fn flag_in(matches: &ArgMatches, flag: Flag) -> Option<Setting>
    ensures { (s : Option Setting) → IsFlag (one_of (flag_name flag) (rows_of (found_of matches.now))) flag s
        → result ≡ s }
{
    if matches.get_flag(flag.name()) {
        Some(Setting::Flag(flag))
    } else {
        None
    }
}

// What `clap` has read of one kind.
fn setting_in(matches: &ArgMatches, kind: Kind) -> Option<Setting>
    ensures { (s : Option Setting) → IsRead (rows_of (found_of matches.now)) kind s → result ≡ s }
{
    match kind {
        Kind::Flag(flag) => flag_in(matches, flag),
        Kind::Option(option) => match number_in(matches, option.name()) {
            Some(number) => Some(Setting::Option(option, number)),
            None => None,
        },
        Kind::Alone => match number_in(matches, "alone") {
            Some(number) => Some(Setting::Alone(number)),
            None => None,
        },
    }
}

/// The command that words ask for, if they ask for one, with the values that `clap` reads. The command's word is the
/// first.
pub fn command_by_clap(
    alloc: Global,
    name: CommandName,
    word: &str,
    words: &[String],
) -> Result<Option<commands::Command>, Memory>
    requires { is_some (asked_of name (map string_bytes words.now)) ≡ true }
    ensures { IfOk result (λ c. c ≡ asked_of name (map string_bytes words.now)) }
{
    match matches(alloc, name, word, words) {
        Ok(matches) => Ok(chosen(name, |kind| setting_in(&matches, kind))),
        Err(_) => Err(Memory),
    }
}
