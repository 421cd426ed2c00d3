//! `trace`: the verdict's line, and behind a yes a walk for each device.
#![tactic(auto)]

mod laws;
mod traces;
mod writing;

pub use laws::trace_owes;
pub use traces::traced;
