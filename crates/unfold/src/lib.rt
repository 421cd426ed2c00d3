//! Unfolding: `main` with its calls replaced by the bodies of the functions.
#![tactic(auto)]

mod count;
mod counting;
mod faults;
mod laws;
mod names;
mod putting;
mod scopes;
mod unfolding;
mod writing;

pub use counting::count_nodes;
pub use faults::UnfoldFault;
pub use laws::{nodes_are_counted, programs_unfold, unfolding_is_program};
pub use unfolding::unfold;
