//! The words of a command line, and the command that they ask for.
#![tactic(auto)]

mod choices;
mod commands;
mod options;
mod settings;
mod words;

pub use commands::{
    ChangesOptions, CheckOptions, Command, GenOptions, Limit, MailOptions, Quiet, ReplayOptions,
    RunOptions, Start, Threaded, Work, passed_limit,
};
pub use words::{command, read_command, words_ask_for_commands};
