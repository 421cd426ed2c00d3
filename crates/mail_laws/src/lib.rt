//! Laws of convergence over message links. They take no memory and compute nothing.
#![tactic(auto)]

mod laws;

pub use laws::{mail_rounds_raise_levels, mail_stabilises, yes_stabilises_mail};
