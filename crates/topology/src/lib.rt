//! Networks: devices with their inputs, links between them, and their changes.
#![tactic(auto)]

mod copies;
mod drafts;
mod edits;
mod inputs;
mod laws;
mod makes;
mod nearby;
mod networks;
mod places;
mod types;

pub use copies::copy_device;
pub use drafts::Draft;
pub use inputs::input_fault;
pub use laws::{changes_keep_networks, neighbours_are_mutual, order_keeps_devices};
pub use networks::Network;
pub use types::{Device, GREATEST_NUMBER, JoinFault, Link, MOST_DEVICES, MakeFault, NetFault};
