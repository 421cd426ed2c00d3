//! What the aligned exports have in a slot.

ghost use Rattle.std.specs.Prelude.{◌≡◌, ◌<◌, length};
ghost use Rattle.fc_values.specs.Values.{local_of};
ghost use Rattle.fc_values.specs.Exports.{slot_at, slots_of};
ghost use Rattle.alignment.specs.Slots.{OwnHas};
ghost use Rattle.alignment.specs.References.{flat_of};
ghost use Rattle.alignment.specs.Hearing.{own_slot_or};

use crate::environments::Env;
use fc_values::{Local, Slot};

/// What the device's own export has in a slot, or a fallback where it has no export.
pub fn own_or<'b>(env: &'b Env<'_>, slot: u32, fallback: &'b Local) -> &'b Local
    requires { OwnHas slot (flat_of env.now).own }
    ensures { local_of result.now ≡ own_slot_or slot (local_of fallback.now) (flat_of env.now).own }
{
    match env.own {
        Some(slots) => slot_value(slots, slot),
        None => fallback,
    }
}

/// The value in a slot.
pub fn slot_value(slots: &[Slot], slot: u32) -> &Local
    requires { slot < length (slots_of slots.now) }
    ensures { local_of result.now ≡ (slot_at slot (slots_of slots.now)).1 }
{
    &slots[slot as usize].value
}
