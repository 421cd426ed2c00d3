//! A guess at the stabilised field: the exports that devices would have once a program has stabilised. Nothing is
//! claimed of it, so no function says what it gives: who takes a guess tests it.
#![tactic(auto)]

mod builtins;
mod columns;
mod evaluation;
mod exports;
mod groups;
mod nodes;
mod orders;
mod work;

pub use evaluation::candidate;
