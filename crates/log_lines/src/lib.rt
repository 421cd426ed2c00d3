//! The lines of logs: read, and written; and laws of both, which compute nothing.
#![tactic(auto)]

mod laws;
mod reading;
mod writing;

pub use laws::{logs_have_entries, logs_read_back, readings_agree};
pub use reading::{Log, read_log};
pub use writing::entries;
