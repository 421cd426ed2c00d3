//! Levels of cores while the network changes.
#![tactic(auto)]

mod rounds;

pub use rounds::{ChangingLevels, rounds_raise_changing_levels};
