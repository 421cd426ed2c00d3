//! A closed term of a program as a program of its own.
#![tactic(auto)]

mod laws;
mod lowering;
mod matching;
mod parts;

pub use laws::parts_solve;
pub use matching::is_part;
pub use parts::part;
