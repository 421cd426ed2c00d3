//! `format`: the canonical text of a program.
#![tactic(auto)]

mod formats;
mod laws;

pub use formats::format;
pub use laws::format_owes;
