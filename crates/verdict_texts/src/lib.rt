//! The text of a verdict: its line, and after a yes the facts of each node, where they are asked for.
#![tactic(auto)]

mod verdict;

pub use verdict::verdict_text;
