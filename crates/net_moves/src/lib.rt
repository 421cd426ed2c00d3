//! The networks that logs lead through, and rounds of logs with edits.
#![tactic(auto)]

mod laws;

pub use laws::{plain_rounds_are, runs_move};
