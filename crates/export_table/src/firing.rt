//! Firings that a table began, and gates between their begin and their end.

use firing_core::Room;
use std::marker::Model;
use value_trees::Snap;

/// What comes back where no device may begin: the room, and whether each device has begun all its firings. If not, some
/// may begin later.
#[derive(Drop)]
pub struct Rest {
    pub room: Room,
    pub is_over: bool,
}

/// What comes back of a turn that begins nothing: a rest where no device may begin, or nothing for want of memory, which
/// is that an export can't be shared once more. Either way the log has an idle entry more.
#[derive(Drop)]
pub enum Pause {
    Rests(Rest),
    Starved,
}

/// A firing that a table began: its device, the place of its begin in the log, and the copy that the begin took. Only
/// `Shared::next` makes one.
#[derive(Drop)]
pub struct Firing {
    device: u32,
    place: u64,
    snap: Snap,
}

impl Model for Firing {
    ghost use Rattle.std.specs.Coded.{codes};
    ghost use Rattle.fc_values.specs.contracts.values.Local as local;
    ghost use Rattle.export_table.specs.Firings.{FiringValue};

    ghost Value = { FiringValue };

    ghost coded = { Prim.hlevel (codes, local.the_row.coded) };

    ghost view = { λ f. record { device = f.device; place = f.place; snap = f.snap } };
}

impl Firing {
    ghost use Rattle.std.specs.Prelude.{◌≡◌};

    pub(crate) fn new(device: u32, place: u64, snap: Snap) -> Firing
        ensures device { result.device ≡ device }
        ensures place { result.place ≡ place }
        ensures snap { result.snap ≡ snap }
    {
        Firing {
            device,
            place,
            snap,
        }
    }

    /// The device.
    pub fn device(&self) -> u32
        ensures { result ≡ self.now.device }
    {
        self.device
    }

    /// The place of its begin in the log.
    pub fn place(&self) -> u64
        ensures { result ≡ self.now.place }
    {
        self.place
    }

    /// The copy that its begin took.
    pub fn snap(&self) -> &Snap
        ensures { result.now ≡ self.now.snap }
    {
        &self.snap
    }

    /// The copy itself.
    pub fn into_snap(self) -> Snap
        ensures { result ≡ self.snap }
    {
        let Firing {
            device: _,
            place: _,
            snap,
        } = self;
        snap
    }
}

/// What a worker calls between the begin and the end of a firing, outside the lock. No contract speaks of it.
pub trait Gate {
    fn between(&self, firing: &Firing);
}

/// The gate that does nothing.
pub struct OpenGate;

impl Gate for OpenGate {
    fn between(&self, _: &Firing) {}
}
