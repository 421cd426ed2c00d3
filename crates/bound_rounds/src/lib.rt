//! Rounds over tables of bounds of exports, within an envelope.
#![tactic(auto)]

mod drafts;
mod laws;
mod rounds;

pub use laws::rounds_are_local;
pub use rounds::{RoundKind, Table, round, table_of};
