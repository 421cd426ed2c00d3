//! Last bounds: with which table rounds within an envelope end, and after how many rounds each device has the bound that
//! it has there.
#![tactic(auto)]

mod changes;
mod ends;
mod lasts;
mod laws;

pub use lasts::{LastBound, last_bounds};
pub use laws::{one_list, some_list};
