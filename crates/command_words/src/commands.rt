//! The commands, and the limits of their numbers.

ghost use Rattle.std.specs.Prelude.{◌≡◌};
ghost use Rattle.command_words.specs.Commands.{limit_of, limit_name, start_asked, start_from};

use fc_values::{MOST_SCENARIO_DEVICES, MOST_WORKERS};

/// From which exports settle rounds are counted: any, or those of the scene's table and copies in flight.
#[derive(Clone, Copy, Debug, PartialEq, Eq)]
pub enum Start {
    Any,
    Table,
}

/// The options of `check`.
#[derive(Clone, Copy, Debug, PartialEq, Eq)]
pub struct CheckOptions {
    /// Whether the facts of each node are written.
    pub facts: bool,
    /// From which exports the rounds that each device needs are counted, where they are asked for.
    pub settle: Option<Start>,
}

/// The options of `check` where the network changes.
#[derive(Clone, Copy, Debug, PartialEq, Eq)]
pub struct ChangesOptions {
    /// Whether the facts of each node are written.
    pub facts: bool,
    /// From which exports the rounds that each device needs are counted.
    pub start: Start,
}

/// The options of `replay`: what is written after the values.
#[derive(Clone, Copy, Debug, PartialEq, Eq)]
pub struct ReplayOptions {
    /// The number of rounds.
    pub rounds: bool,
    /// The table of exports.
    pub table: bool,
}

/// The options of `mail`.
#[derive(Clone, Copy, Debug, PartialEq, Eq)]
pub struct MailOptions {
    /// The number that drives the run, where no log is given.
    pub number: Option<u32>,
}

/// The options of `run`: what is written after what a script shows.
#[derive(Clone, Copy, Debug, PartialEq, Eq)]
pub struct RunOptions {
    /// The log.
    pub log: bool,
    /// The table of exports.
    pub table: bool,
}

/// The options of `gen`.
#[derive(Clone, Copy, Debug, PartialEq, Eq)]
pub struct GenOptions {
    /// The number of the scenario.
    pub number: u32,
    /// How many devices it has.
    pub devices: u32,
}

/// A command that no thread works for.
#[derive(Clone, Copy, Debug, PartialEq, Eq)]
pub enum Quiet {
    /// The verdict, and where they are asked for the facts of each node and the rounds that each device needs.
    Check(CheckOptions),
    /// The verdict, the facts where they are asked for, and between which values each device stays while the network
    /// changes.
    Changes(ChangesOptions),
    /// The stabilised field.
    Stable,
    /// The values after a log, and its rounds and table where they are asked for.
    Replay(ReplayOptions),
    /// The canonical text of a program.
    Format,
    /// The walks.
    Trace,
    /// The values after a log of mail lines, or after the run that is driven by a number.
    Mail(MailOptions),
}

/// What workers do.
#[derive(Clone, Copy, Debug, PartialEq, Eq)]
pub enum Work {
    /// A script's run, and its log and table where they are asked for.
    Run(RunOptions),
    /// The summary of the scenario of a number.
    Gen(GenOptions),
}

/// A command that so many workers work for.
#[derive(Clone, Copy, Debug, PartialEq, Eq)]
pub struct Threaded {
    pub workers: u32,
    pub work: Work,
}

/// A command with its options.
#[derive(Clone, Copy, Debug, PartialEq, Eq)]
pub enum Command {
    Quiet(Quiet),
    Threaded(Threaded),
}

/// What a number of the words may pass.
#[derive(Clone, Copy, Debug, PartialEq, Eq)]
pub enum Limit {
    /// Too many workers.
    Workers,
    /// Too many devices of `gen`.
    Devices,
}

impl Limit {
    ghost use Rattle.std.specs.Prelude.{◌≡◌};
    ghost use Rattle.command_words.specs.Commands.{limit_name};

    /// The name in texts.
    pub fn name(self) -> &'static str
        ensures { result.now ≡ limit_name self }
    {
        match self {
            Limit::Workers => "workers",
            Limit::Devices => "devices",
        }
    }
}

/// The start from which rounds are counted.
pub fn start_from(from_table: bool) -> Start
    ensures { result ≡ start_from from_table }
{
    if from_table { Start::Table } else { Start::Any }
}

/// The same of settle rounds, where they are asked for.
pub fn start_asked(settle: bool, from_table: bool) -> Option<Start>
    ensures { result ≡ start_asked settle from_table }
{
    if settle {
        Some(start_from(from_table))
    } else {
        None
    }
}

/// The first limit that a number of the command passes, with this number.
pub fn passed_limit(command: Threaded) -> Option<(Limit, u32)>
    ensures { result ≡ limit_of command }
{
    if MOST_WORKERS < command.workers {
        return Some((Limit::Workers, command.workers));
    }
    match command.work {
        Work::Gen(options) if MOST_SCENARIO_DEVICES < options.devices => {
            Some((Limit::Devices, options.devices))
        }
        _ => None,
    }
}
