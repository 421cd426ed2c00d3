//! The envelope of a scene and lines of changes.
#![tactic(auto)]

mod devices;
mod laws;
mod links;
mod of_changes;

pub use laws::{ends_stay, lines_may_happen, one_envelope, scenes_lie, some_envelope};
pub use of_changes::envelope_of_changes;
