//! `replay`: the text and the book of a log.
#![tactic(auto)]

mod laws;
mod logs;
mod replays;
mod texts;

pub use laws::{replay_owes, written_logs_replay};
pub use replays::replay;
