//! The tokens of a program's text.
#![tactic(auto)]

mod bytes;
mod kinds;
mod laws;
mod lexing;
mod pieces;
mod tokens;

pub use fc_values::Word;
pub use laws::{names_are_read, one_reading, reads_back, spans_rise};
pub use lexing::lex;
pub use tokens::{Kind, LexFault, Mark, Token};
