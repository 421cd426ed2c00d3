//! The firing of a device: its copy is evaluated, and gives an export.
#![tactic(auto)]

mod builtins;
mod drafts;
mod evaluation;
mod firing;
mod laws;
mod scratch;

pub use firing::{Fired, evaluate, fire, publish};
pub use laws::{nodes_have_outcomes, one_export, rules_agree, slots_stand_for_trees};
pub use scratch::Scratch;
