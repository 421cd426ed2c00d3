//! The lines of changes: what may happen while a network runs.
#![tactic(auto)]

mod lines;
mod texts;
mod words;

pub use texts::read_changes;
