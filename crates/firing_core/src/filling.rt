//! A slot for each device of a network, in the order of the devices.

ghost use Rattle.std.specs.Prelude.{◌≡◌, ◌<◌, ◌≤◌, vec_len, vec_capacity, IfOk, OnOk, replicate, length, None};
ghost use Rattle.std.specs.List.{insert};
ghost use Rattle.fc_values.specs.Fields.{Rises};
ghost use Rattle.topology.specs.Networks.{numbers, IsNetwork};
ghost use Rattle.firing_core.specs.CoreViews.{device_slot};
ghost use Rattle.firing_core.specs.Starts.{export_in, flight_in, owners, named, AllLive};

use fc_values::{Export, Memory};
use std::alloc::Global;
use topology::Network;
use value_trees::{Published, Snap};

/// `count` empty slots.
pub(crate) fn no_slots<T: Drop>(alloc: Global, count: usize) -> Result<Vec<Option<T>>, Memory>
    ensures { IfOk result (λ v. v.items ≡ replicate count None) }
{
    let mut slots = Vec::new(alloc);
    for _ in 0..count {
        slots.push(None)?;
    }
    Ok(slots)
}

/// Puts an empty slot at a place, where there is memory for it.
pub(crate) fn open_slot<T: Drop>(slots: &mut Vec<Option<T>>, place: usize)
    requires place { place ≤ vec_len slots.old }
    requires room { vec_len slots.old < vec_capacity slots.old }
    ensures { slots.new.items ≡ insert slots.old.items place None }
{
    let _ = slots.insert(place, None);
}

/// The exports of a table, each in the slot of its device.
pub(crate) fn export_slots(
    alloc: Global,
    net: &Network,
    table: Vec<(u32, Export)>,
) -> Result<Vec<Option<Published>>, Memory>
    requires rising { Rises (owners table.items) }
    requires there { AllLive net.now (owners table.items) }
    ensures slots { IfOk result (λ v. device_slot (numbers net.now.devices) v.items ≡ export_in table.items) }
    ensures many { IfOk result (λ v. length v.items ≡ length net.now.devices) }
    ensures network { OnOk result (IsNetwork net.now) }
{
    let mut slots = no_slots(alloc, net.devices().len())?;
    for (device, export) in table {
        let Some(place) = net.place(device) else {
            continue;
        };
        slots[place] = Some(Published::new(alloc, export)?);
    }
    Ok(slots)
}

/// Copies in flight, each in the slot of the device that it names.
pub(crate) fn flight_slots(
    alloc: Global,
    net: &Network,
    pending: Vec<Snap>,
) -> Result<Vec<Option<Snap>>, Memory>
    requires rising { Rises (named pending.items) }
    requires there { AllLive net.now (named pending.items) }
    ensures slots { IfOk result (λ v. device_slot (numbers net.now.devices) v.items ≡ flight_in pending.items) }
    ensures many { IfOk result (λ v. length v.items ≡ length net.now.devices) }
{
    let mut slots = no_slots(alloc, net.devices().len())?;
    for snap in pending {
        let Some(place) = net.place(snap.device) else {
            continue;
        };
        slots[place] = Some(snap);
    }
    Ok(slots)
}
