//! The command that the words ask for.

ghost use Rattle.std.specs.Prelude.{◌≡◌, IfOk, map, string_bytes};
ghost use Rattle.command_words.specs.Words.{WordsAskForCommands, command_of};

use crate::choices::{command_of_settings, named};
use crate::commands::Command;
use crate::options::command_by_clap;
use crate::settings::settings;
use fc_values::Memory;
use std::alloc::Global;

/// The command that the words ask for, if they ask for one, by our own reading alone: the first word is the program's
/// name. A library that is to be small takes this one, which needs no `clap`.
pub fn read_command(alloc: Global, words: &[String]) -> Result<Option<Command>, Memory>
    ensures { IfOk result (λ command. command ≡ command_of (map string_bytes words.now)) }
{
    let [_, asked @ ..] = words else {
        return Ok(None);
    };
    let [word, further @ ..] = asked else {
        return Ok(None);
    };
    let Some(name) = named(word.as_str()) else {
        return Ok(None);
    };
    let Some(settings) = settings(alloc, further)? else {
        return Ok(None);
    };
    Ok(command_of_settings(name, settings.as_slice()))
}

/// The same, as `clap` reads the words that ask for a command.
pub fn command(alloc: Global, words: &[String]) -> Result<Option<Command>, Memory>
    ensures { IfOk result (λ command. command ≡ command_of (map string_bytes words.now)) }
{
    let [_, asked @ ..] = words else {
        return Ok(None);
    };
    let [word, ..] = asked else {
        return Ok(None);
    };
    let Some(name) = named(word.as_str()) else {
        return Ok(None);
    };
    if read_command(alloc, words)?.is_none() {
        return Ok(None);
    }
    command_by_clap(alloc, name, word.as_str(), asked)
}

/// What words ask for is a command: there is a worker at least, and a scenario has three devices at least.
pub fn words_ask_for_commands()
    ensures { WordsAskForCommands }
{}
