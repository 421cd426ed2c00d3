//! What a text is read to, and why it is refused.

use fc_values::{Export, Memory};
use std::alloc::{AllocError, AllocFailed};
use topology::{NetFault, Network};
use value_trees::Snap;

/// Where in a scene a fault lies: `/` and a member's name or an index, repeated. The scene itself has the empty path.
#[derive(Drop)]
pub struct Path {
    pub text: Vec<u8>,
}

/// Why a text is no scene: the text is no JSON; at a path something has another shape, networks have a fault to name,
/// or no export has this kept list, with the place of its first misfit; there are too many devices, with their
/// number.
#[derive(Drop)]
pub enum JsonFault {
    Json,
    Shape(Path),
    Net(Path, NetFault),
    Kept(Path, u32),
    Devices(usize),
    Memory,
}

impl From<Memory> for JsonFault {
    ghost use Rattle.std.specs.Prelude.{◌≡◌};
    ghost use Rattle.net_json.specs.declared.types.JsonFault.TheVariants as fault;

    ghost from_gives = { λ _ e. e ≡ fault.Memory };

    fn from(_: Memory) -> Self {
        JsonFault::Memory
    }
}

impl From<AllocError> for JsonFault {
    ghost use Rattle.std.specs.Prelude.{◌≡◌};
    ghost use Rattle.net_json.specs.declared.types.JsonFault.TheVariants as fault;

    ghost from_gives = { λ _ e. e ≡ fault.Memory };

    fn from(_: AllocError) -> Self {
        JsonFault::Memory
    }
}

impl<T: Drop> From<AllocFailed<T>> for JsonFault {
    ghost use Rattle.std.specs.Prelude.{◌≡◌};
    ghost use Rattle.net_json.specs.declared.types.JsonFault.TheVariants as fault;

    ghost from_gives = { λ _ e. e ≡ fault.Memory };

    fn from(_: AllocFailed<T>) -> Self {
        JsonFault::Memory
    }
}

/// A network, a table of exports and copies in flight, the last two by rising devices.
#[derive(Drop)]
pub struct Scene {
    pub net: Network,
    pub table: Vec<(u32, Export)>,
    pub pending: Vec<Snap>,
}
