//! `check`: the verdict's line, after a yes the facts of each node, and after how many rounds the devices of the network
//! settle, where they are asked for.
#![tactic(auto)]

mod checks;
mod laws;
mod settles;

pub use checks::check;
pub use laws::check_owes;
