//! Cheapest walks between the devices of a network, and walks as evidence that can be checked on its own.
#![tactic(auto)]

mod checks;
mod gathers;
mod laws;
mod lookups;
mod settles;
mod sums;
mod traces;
mod types;

pub use checks::check_walks;
pub use gathers::gather;
pub use laws::{claims_are_least, fixed_values_are_least, traced_claims_hold, walks_are_one};
pub use traces::trace;
pub use types::{Add, Costs, Evidence, WalkStep};
