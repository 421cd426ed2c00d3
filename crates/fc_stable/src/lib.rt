//! `stable`: the one field that solves a program on the network of a scene, or the verdict's no.
#![tactic(auto)]

mod fields;
mod laws;

pub use fields::stable;
pub use laws::stable_owes;
