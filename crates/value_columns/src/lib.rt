//! Values as columns of words: what operators and hoods make of them, with no memory taken for a value of its own.
#![tactic(auto)]

mod choices;
mod copies;
mod gaps;
mod hoods;
mod leaves;
mod locals;
mod order;
mod pointwise;
mod restriction;
mod widths;

pub use copies::spread;
pub use gaps::close_gap;
pub use hoods::{all_hood, any_hood, greatest_hood, least_hood, sum_hood};
pub use locals::{leaf_at, push_rows, push_value, value_at};
pub use pointwise::apply_operator;
pub use restriction::choose_rows;
pub use widths::width;
