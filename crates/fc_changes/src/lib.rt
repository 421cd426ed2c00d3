//! `check --settle --changes`: between which values each device stays while the network changes as lines allow, and
//! after how many rounds.
#![tactic(auto)]

mod checks;
mod laws;
mod lines;
mod starts;
mod texts;

pub use checks::check_changes;
pub use laws::changes_owe;
