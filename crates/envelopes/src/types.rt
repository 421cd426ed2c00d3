//! Devices and links of an envelope.

use value_bounds::LocalBound;

/// A device that may be there: its number, bounds of its inputs in declared order, and whether it is always there.
#[derive(Drop)]
pub struct DeviceBound {
    pub id: u32,
    pub inputs: Vec<LocalBound>,
    pub sure: bool,
}

/// A link that may be there, the lesser device first: the least and the greatest weight, and whether it is always there.
#[derive(Clone, Copy, Debug, PartialEq, Eq)]
pub struct LinkBound {
    pub a: u32,
    pub b: u32,
    pub least: u32,
    pub greatest: u32,
    pub sure: bool,
}
