//! Laws of convergence: what rounds do to exports and to copies in flight. They take no memory and compute nothing.
#![tactic(auto)]

mod ranks;
mod rounds;
mod stabilising;

pub use ranks::ranks_are_low;
pub use rounds::{Levels, rounds_raise_levels};
pub use stabilising::{
    analysed_programs_stabilise, settled, solutions_are_one, solutions_raise_levels, stabilises,
    yes_analyses, yes_raises_levels, yes_stabilises,
};
