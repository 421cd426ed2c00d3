//! Alignment: a node sees the exports that took the same branches, and fields over their devices; what the variable of
//! a `share` hears of these exports, and what an `nbr` gives.
#![tactic(auto)]

mod branches;
mod environments;
mod hearing;

pub use branches::same_branch;
pub use environments::{Env, NearRef};
pub use hearing::{own_or, slot_value};
