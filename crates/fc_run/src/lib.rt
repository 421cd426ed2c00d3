//! `run`: the text, the book and the stretches of the log of a script.
#![tactic(auto)]

mod laws;
mod runs;
mod scripts;

pub use laws::run_owes;
pub use runs::run;
