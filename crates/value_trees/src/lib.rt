//! Exports and copies against a program: which of them are well-typed, and their kept values.
#![tactic(auto)]

mod copies;
mod exports;
mod fitting;
mod items;
mod laws;
mod published;
mod reading;
mod walks;

pub use copies::{Near, Snap};
pub use exports::kept;
pub use fitting::snap_fits;
pub use items::Item;
pub use laws::{lists_have_exports, plain_lists_misfit_as_values};
pub use published::Published;
pub use reading::{KeptFault, from_items, from_kept};
pub use walks::{fits_main, well_typed};
