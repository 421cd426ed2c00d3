//! A lock whose turns are written, one entry each, in a list that the locked value keeps.
#![tactic(auto)]

mod kinds;
mod lock;
pub mod notes;
mod views;
mod waiting;

pub use lock::{Logged, Pass, TurnLock};
pub use waiting::Urgency;
