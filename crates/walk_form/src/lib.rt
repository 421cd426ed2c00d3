//! The walk form of a program, and what walks cost where it has it.
#![tactic(auto)]

mod alone;
mod faults;
mod forms;
mod gathering;
mod integers;
mod laws;

pub use faults::CostFault;
pub use forms::{Adds, Span, WalkForm, walk_form};
pub use gathering::costs;
pub use laws::{forms_have_costs, one_costs, solutions_are_least};
