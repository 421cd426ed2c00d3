//! Envelopes: which networks may be while devices, inputs and links change.
#![tactic(auto)]

mod drawn;
mod of_network;
mod places;
mod types;

pub use drawn::Envelope;
pub use of_network::exact_envelope;
pub use types::{DeviceBound, LinkBound};
