//! Limited rise: how many firings and rounds it takes, and the laws of solutions and stages with it.
#![tactic(auto)]

mod counts;
mod laws;

pub use counts::{rounds, turns};
pub use laws::{rise_is_no_limit, rise_takes_turns};
