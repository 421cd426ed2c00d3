//! The firing of a device over bounds in place of values.
#![tactic(auto)]

mod arguments;
mod evaluation;
mod firing;
mod laws;
mod seating;
mod seats;

pub use firing::{ExportBound, any_export_bound, fire_bounds};
pub use laws::firings_land;
pub use seating::may_be;
pub use seats::{NearSeat, OwnSeat, Seats};
