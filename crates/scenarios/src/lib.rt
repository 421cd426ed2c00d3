//! What is made from a number: rubbish tables, and scenarios on rings; and what is said of every scenario.
#![tactic(auto)]

mod draws;
mod laws;
mod rings;
mod tables;
mod words;

pub use laws::{rings_are_networks, rings_are_typed, rings_stabilise, some_rubbish};
pub use rings::scenario;
pub use tables::rubbish;
pub use words::{generator, next_word};
