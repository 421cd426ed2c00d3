//! The stabilised field of a program on a network, without running it.
#![tactic(auto)]

mod faults;
mod fields;
mod firing;
mod guesses;
mod joining;
mod outside;
mod rounds;
mod sameness;
mod stabilised;
mod terms;
mod whole;

pub use faults::StableFault;
pub use stabilised::stable;
