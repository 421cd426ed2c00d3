//! Patterns: which `rep` and `share` stabilise, by the forms of their bodies; and the definitions of levels and
//! verdict.
#![tactic(auto)]

mod facts;
mod faults;
mod forms;
mod judging;
mod kinds;
mod laws;
mod listing;

pub use faults::PatternFault;
pub use judging::pattern;
pub use kinds::Pattern;
pub use laws::{levels_of_bodies, patterns_have_shapes, reasons_have_no_shape};
pub use listing::patterns;
