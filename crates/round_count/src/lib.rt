//! Rounds of a log: stretches, one after another, in each of which every device begins a firing and later ends it.
#![tactic(auto)]

mod counting;
mod laws;

pub use counting::{after_last_edit, rounds};
pub use laws::{rounds_come, rounds_grow, some_greatest};
