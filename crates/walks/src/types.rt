//! Costs, and walks as evidence.

/// A step from a device to a neighbour, with its cost.
#[derive(Clone, Copy, Debug, PartialEq, Eq)]
pub struct WalkStep {
    pub from: u32,
    pub to: u32,
    pub cost: u32,
}

/// The ceiling at which costs are stopped, what it costs to start at each device, by rising number, and the steps.
#[derive(Drop)]
pub struct Costs {
    pub ceiling: u32,
    pub start: Vec<(u32, u32)>,
    pub steps: Vec<WalkStep>,
}

/// A device, its value, and a walk to it with that cost.
#[derive(Drop)]
pub struct Evidence {
    pub device: u32,
    pub value: u32,
    pub walk: Vec<u32>,
}

/// What a step adds: the number given for the device to which it leads, or the weight of the link.
#[derive(Drop)]
pub enum Add {
    Each(Vec<(u32, u32)>),
    Weights,
}
