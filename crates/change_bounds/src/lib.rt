//! What a scene and lines of changes say: of devices, of their inputs and of pairs.
#![tactic(auto)]

mod devices;
mod inputs;
mod pairs;

pub use devices::devices_said;
pub use inputs::inputs_said;
pub use pairs::{PairBound, pairs_said};
