//! Devices, links, and why a network refuses a change.

use fc_values::Local;

/// How many devices a network has at most.
pub const MOST_DEVICES: usize = 1024;

/// The greatest number that a device may have.
pub const GREATEST_NUMBER: u32 = 65_535;

/// A device: its number, and its inputs in declared order.
#[derive(Drop)]
pub struct Device {
    pub id: u32,
    pub inputs: Vec<Local>,
}

/// A link between two devices, the lesser one first, with its weight.
#[derive(Clone, Copy, Debug, PartialEq, Eq)]
pub struct Link {
    pub a: u32,
    pub b: u32,
    pub weight: u32,
}

/// Why a network refuses a change. Only a core answers `InFlight`.
#[derive(Clone, Copy, Debug, PartialEq, Eq)]
pub enum NetFault {
    Twice,
    NoDevice,
    SelfLink,
    Degree,
    Weight,
    NoLink,
    NoInput,
    InputType,
    InputRange,
    Devices,
    InFlight,
    Last,
}

/// Why there is no network of some devices: the first one that is refused, by its index; how many they are, where that
/// is none or too many; or want of memory.
#[derive(Clone, Copy, Debug, PartialEq, Eq)]
pub enum MakeFault {
    Net(u32, NetFault),
    Devices(usize),
    Memory,
}

/// Why a device can't join, or want of memory.
#[derive(Clone, Copy, Debug, PartialEq, Eq)]
pub enum JoinFault {
    Net(NetFault),
    Memory,
}
