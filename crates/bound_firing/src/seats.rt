//! What a node may see: seats of exports.

use value_bounds::LocalBound;

/// The device's own seat: whether its export is there for sure, and the bounds of the kept places' slots.
#[derive(Clone, Copy)]
pub struct OwnSeat<'a> {
    pub sure: bool,
    pub slots: &'a [LocalBound],
}

/// A neighbour that may be aligned: its number, the least and the greatest weight of its link, whether it is aligned for
/// sure, and the bounds of its slots.
#[derive(Clone, Copy)]
pub struct NearSeat<'a> {
    pub device: u32,
    pub least: u32,
    pub greatest: u32,
    pub sure: bool,
    pub slots: &'a [LocalBound],
}

/// What a node may see: the device's own export, if there may be one, and those of neighbours.
#[derive(Drop)]
pub struct Seats<'a> {
    pub own: Option<OwnSeat<'a>>,
    pub near: Vec<NearSeat<'a>>,
}
