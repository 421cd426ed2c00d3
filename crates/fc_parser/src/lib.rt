//! The program that a list of tokens spells.
#![tactic(auto)]

mod declarations;
mod expressions;
mod faults;
mod forms;
mod laws;
mod limits;
mod parsing;
mod pieces;
mod places;
mod printing;
mod refused;
mod types;

pub use faults::ParseFault;
pub use laws::{derived_is_printable, few_declarations, one_meaning};
pub use limits::{MOST_BRACKETS, MOST_TOKENS};
pub use parsing::parse;
pub use printing::round_trip;
