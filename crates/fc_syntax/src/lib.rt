//! The syntax of programs, and their canonical text.
#![tactic(auto)]

mod pieces;
mod printer;
mod tree;
mod words;

pub use printer::{print, write_type};
pub use tree::{Decl, Expr, Param, Program};
pub use words::{builtin_strength, builtin_word};
