//! Mail logs that are made from a number: they lead to a mail core, and each round covers and leaves nothing in
//! transit.
#![tactic(auto)]

mod driving;
mod laws;

pub use driving::drive;
pub use laws::{driven_logs_lead, driven_rounds_cover};
