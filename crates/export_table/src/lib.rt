//! A book under a lock, which threads use through passes: each turn is one entry of the book's log.
#![tactic(auto)]

mod agenda;
mod firing;
mod held;
mod item;
mod shared;

pub use firing::{Firing, Gate, OpenGate, Pause, Rest};
pub use held::Held;
pub use item::Item;
pub use shared::Shared;
