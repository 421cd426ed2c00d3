//! `gen`: the scenario of a number, a script run over it, and its summary.
#![tactic(auto)]

mod counts;
mod generating;
mod laws;
mod summaries;

pub use generating::generate;
pub use laws::gen_owes;
