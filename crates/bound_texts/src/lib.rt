//! The lines of bounds: between which values each device stays while the network changes, and after how many rounds.
#![tactic(auto)]

mod laws;
mod lines;
mod writing;

pub use laws::known_bounds_read_as_values;
pub use lines::{BoundLine, bound_lines};
