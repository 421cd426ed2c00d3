//! What may happen while a network runs, and the first line of it that is refused.
#![tactic(auto)]

mod hands;
mod judging;
mod types;
mod values;

pub use judging::judge_changes;
pub use types::{
    Change, ChangeFault, ChangeLine, MOST_PAIRS, Possible, Range, RefusedChange, Weights,
};
