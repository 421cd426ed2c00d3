//! A program that is analysed: the verdict on it, and after how many rounds at most its nodes have the values of its
//! solution.
#![tactic(auto)]

mod added;
mod analyses;
mod levels;
mod scopes;
mod walk;

pub use analyses::Analysis;
