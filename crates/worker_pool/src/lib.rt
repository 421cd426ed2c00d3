//! Rounds of firings by workers, which are threads that share a table of exports.
#![tactic(auto)]

mod bell;
mod crews;
mod fan;
mod mixes;
mod naps;
mod plans;
mod rounds;
mod shorts;
mod workers;

pub use mixes::run_mixed;
pub use rounds::run_rounds;
