//! The commands' names, and the settings that each of them takes.

ghost use Rattle.std.specs.Prelude.{◌≡◌, is_some, option_and_then};
ghost use Rattle.std.specs.List.{list_all};
ghost use Rattle.command_words.specs.Settings.{number_in};
ghost use Rattle.command_words.specs.Words.{Finds, allows, check_with, command_from, command_with, gen_with, is_enough};
ghost use Rattle.command_words.specs.Words.{name_of, taken, takes, worked_by};
ghost use Rattle.command_words.specs.declared.settings.Kind.TheVariants as kinds;

use crate::commands::{
    ChangesOptions, CheckOptions, Command, GenOptions, MailOptions, Quiet, ReplayOptions,
    RunOptions, Threaded, Work, start_asked, start_from,
};
use crate::settings::{Flag, Kind, Numbered, Setting, are_once, found};

/// The name of a command.
#[derive(Clone, Copy, Debug, PartialEq, Eq)]
pub enum CommandName {
    Check,
    Stable,
    Run,
    Replay,
    Format,
    Gen,
    Trace,
    Mail,
}

/// The command that a word names.
pub fn named(word: &str) -> Option<CommandName>
    ensures { result ≡ name_of word.now }
{
    if word == "check" {
        return Some(CommandName::Check);
    }
    if word == "stable" {
        return Some(CommandName::Stable);
    }
    if word == "run" {
        return Some(CommandName::Run);
    }
    if word == "replay" {
        return Some(CommandName::Replay);
    }
    if word == "format" {
        return Some(CommandName::Format);
    }
    if word == "gen" {
        return Some(CommandName::Gen);
    }
    if word == "trace" {
        return Some(CommandName::Trace);
    }
    if word == "mail" {
        return Some(CommandName::Mail);
    }
    None
}

/// What a command takes.
pub fn taken(name: CommandName) -> &'static [Kind]
    ensures { result.now ≡ taken name }
{
    match name {
        CommandName::Check => &[
            Kind::Flag(Flag::Facts),
            Kind::Flag(Flag::Settle),
            Kind::Flag(Flag::FromTable),
            Kind::Flag(Flag::Changes),
        ],
        CommandName::Run => &[
            Kind::Option(Numbered::Workers),
            Kind::Flag(Flag::Log),
            Kind::Flag(Flag::Table),
        ],
        CommandName::Replay => &[Kind::Flag(Flag::Rounds), Kind::Flag(Flag::Table)],
        CommandName::Gen => &[
            Kind::Alone,
            Kind::Option(Numbered::Devices),
            Kind::Option(Numbered::Workers),
        ],
        CommandName::Mail => &[Kind::Option(Numbered::Number)],
        CommandName::Stable | CommandName::Format | CommandName::Trace => &[],
    }
}

// Whether the number of a setting is great enough.
fn is_enough(setting: Setting) -> bool
    ensures { result ≡ is_enough setting }
{
    match setting {
        Setting::Option(Numbered::Workers, count) => 1 <= count,
        Setting::Option(Numbered::Devices, count) => 3 <= count,
        _ => true,
    }
}

// Whether a command takes a kind.
fn takes(name: CommandName, kind: Kind) -> bool
    ensures { result ≡ takes name kind }
{
    taken(name).iter().any(|other| other.id() == kind.id())
}

// Whether a command takes a setting.
fn allowed(name: CommandName, setting: Setting) -> bool
    ensures { result ≡ allows name setting }
{
    takes(name, setting.kind()) && is_enough(setting)
}

// The `check` of its flags: `--from-table` and `--changes` stand beside `--settle` only.
fn check_with(facts: bool, settle: bool, from_table: bool, changes: bool) -> Option<Command>
    ensures { result ≡ check_with facts settle from_table changes }
{
    if (from_table || changes) && !settle {
        return None;
    }
    if changes {
        return Some(Command::Quiet(Quiet::Changes(ChangesOptions {
            facts,
            start: start_from(from_table),
        })));
    }
    Some(Command::Quiet(Quiet::Check(CheckOptions {
        facts,
        settle: start_asked(settle, from_table),
    })))
}

// The command of some work, by 4 workers if nothing else is chosen.
fn worked_by(workers: Option<u32>, work: Work) -> Command
    ensures { result ≡ worked_by workers work }
{
    Command::Threaded(Threaded {
        workers: workers.unwrap_or(4),
        work,
    })
}

// The scenario of a number, on 64 devices if nothing else is chosen.
fn gen_with(number: Option<u32>, devices: Option<u32>, workers: Option<u32>) -> Option<Command>
    ensures { result ≡ gen_with number devices workers }
{
    let options = GenOptions {
        number: number?,
        devices: devices.unwrap_or(64),
    };
    Some(worked_by(workers, Work::Gen(options)))
}

// Whether a flag is found.
fn has<F: Fn(Kind) -> Option<Setting>>(find: &F, flag: Flag) -> bool
    requires { F.IsAlwaysCallable find.now }
    ensures { (look : _) → Finds (F.post find.now) look → result ≡ is_some (look (kinds.Flag flag)) }
{
    find(Kind::Flag(flag)).is_some()
}

// The number that is found.
fn number<F: Fn(Kind) -> Option<Setting>>(find: &F, kind: Kind) -> Option<u32>
    requires { F.IsAlwaysCallable find.now }
    ensures { (look : _) → Finds (F.post find.now) look → result ≡ option_and_then number_in (look kind) }
{
    match find(kind) {
        Some(setting) => setting.number(),
        None => None,
    }
}

/// The command with the settings that are found, and the defaults for the rest.
pub fn chosen<F: Fn(Kind) -> Option<Setting>>(name: CommandName, find: F) -> Option<Command>
    requires { F.IsAlwaysCallable find }
    ensures { (look : _) → Finds (F.post find) look → result ≡ command_with name look }
{
    match name {
        CommandName::Check => check_with(
            has(&find, Flag::Facts),
            has(&find, Flag::Settle),
            has(&find, Flag::FromTable),
            has(&find, Flag::Changes),
        ),
        CommandName::Stable => Some(Command::Quiet(Quiet::Stable)),
        CommandName::Run => {
            let options = RunOptions {
                log: has(&find, Flag::Log),
                table: has(&find, Flag::Table),
            };
            let workers = number(&find, Kind::Option(Numbered::Workers));
            Some(worked_by(workers, Work::Run(options)))
        }
        CommandName::Replay => Some(Command::Quiet(Quiet::Replay(ReplayOptions {
            rounds: has(&find, Flag::Rounds),
            table: has(&find, Flag::Table),
        }))),
        CommandName::Format => Some(Command::Quiet(Quiet::Format)),
        CommandName::Gen => gen_with(
            number(&find, Kind::Alone),
            number(&find, Kind::Option(Numbered::Devices)),
            number(&find, Kind::Option(Numbered::Workers)),
        ),
        CommandName::Trace => Some(Command::Quiet(Quiet::Trace)),
        CommandName::Mail => Some(Command::Quiet(Quiet::Mail(MailOptions {
            number: number(&find, Kind::Option(Numbered::Number)),
        }))),
    }
}

// Whether a command takes each of the settings.
fn takes_all(name: CommandName, settings: &[Setting]) -> bool
    ensures { result ≡ list_all (allows name) settings.now }
{
    settings.iter().all(|setting| allowed(name, *setting))
}

/// The command of a name with its settings, if it takes them and nothing is set twice.
pub fn command_of_settings(name: CommandName, settings: &[Setting]) -> Option<Command>
    ensures { result ≡ command_from name settings.now }
{
    if takes_all(name, settings) && are_once(settings) {
        chosen(name, |kind| found(settings, kind))
    } else {
        None
    }
}
