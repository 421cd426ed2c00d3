//! Ranges: between which integers the values of each node of a program lie.
#![tactic(auto)]

mod builtins;
mod by_place;
mod gathering;
mod intervals;
mod laws;

pub use builtins::builtin_range;
pub use by_place::Ranges;
pub use gathering::ranges;
pub use intervals::Range;
pub use laws::solutions_lie_in_ranges;
