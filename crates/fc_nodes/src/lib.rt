//! Programs as lists of nodes, with their types.
#![tactic(auto)]

mod layouts;
mod nodes;
mod program;
mod uses;
mod verdicts;

pub use layouts::{Layout, slot_of};
pub use nodes::{Node, Op, is_deep, is_evolving, is_if, is_let, is_nbr, is_own, is_share};
pub use program::{Unfolded, ceiling_of, least_weight};
pub use verdicts::{Reason, Verdict};
