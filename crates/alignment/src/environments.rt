//! The exports that a node sees.

ghost use Rattle.std.specs.Prelude.{◌≤◌, length};
ghost use Rattle.fc_values.specs.declared.limits.TheConstants.{MOST_LINKS};

use fc_values::{MOST_LINKS, Slot};
use smallvec::SmallVec;

/// An aligned neighbour: its number, the weight of its link, and its slots.
#[derive(Clone, Copy, Default)]
pub struct NearRef<'a> {
    pub device: u32,
    pub weight: u32,
    pub slots: &'a [Slot],
}

/// The exports that a node sees: the device's own, if it has one, and those of the aligned neighbours in rising order,
/// of whom there are no more than a device has links.
#[derive(Drop)]
pub struct Env<'a> {
    pub own: Option<&'a [Slot]>,
    pub near: SmallVec<NearRef<'a>, MOST_LINKS>,
    pub ghost few: { length near.items ≤ MOST_LINKS },
}
