//! The firing of a device from a table of exports.

ghost use Rattle.std.specs.Prelude.{◌≡◌, ◌<◌, IfOk, length, slice_index};
ghost use Rattle.std.specs.Option.{option_copied};
ghost use Rattle.fc_nodes.specs.Program.{unfolding_of};
ghost use Rattle.topology.specs.Networks.{numbers};
ghost use Rattle.firing_core.specs.CoreViews.{device_slot};
ghost use Rattle.stable_field.specs.Tables.{AreExportSlots, IsFiring, heard_from};

use device_eval::{Scratch, publish};
use fc_nodes::Unfolded;
use fc_values::{Memory, copy_locals};
use firing_core::faultless_steps;
use std::alloc::Global;
use topology::Network;
use value_trees::{Near, Published, Snap};

/// A table of exports: a slot for each device, in the order of the network.
pub type ExportTable = Vec<Option<Published>>;

/// The export of the device at a place that fires and sees a table.
pub fn fired(
    alloc: Global,
    scratch: &mut Scratch,
    program: &Unfolded,
    net: &Network,
    table: &ExportTable,
    place: usize,
) -> Result<Published, Memory>
    requires declared { net.now.declared ≡ program.now.declared }
    requires table { AreExportSlots (unfolding_of program.now) net.now table.now.items }
    requires within { place < length net.now.devices }
    ensures { IfOk result (IsFiring (unfolding_of program.now) net.now table.now.items
        (slice_index (numbers net.now.devices) place)) }
{
    let _program = program.declared();
    faultless_steps();
    let device = &net.devices()[place];
    let inputs = copy_locals(alloc, &device.inputs)?;
    let own = shared(&table[place])?;
    let near = heard(alloc, net, net.neighbours(device.id), table)?;
    let snap = Snap {
        device: device.id,
        inputs,
        own,
        near,
    };
    Ok(publish(alloc, scratch, program, &snap)?)
}

// A share of an export, if there is one.
fn shared(slot: &Option<Published>) -> Result<Option<Published>, Memory>
    ensures { IfOk result (λ s. s ≡ slot.now) }
{
    match slot {
        Some(export) => Ok(Some(export.share()?)),
        None => Ok(None),
    }
}

// Those of some neighbours that have an export in a table, with it.
fn heard(
    alloc: Global,
    net: &Network,
    neighbours: &[(u32, u32)],
    table: &ExportTable,
) -> Result<Vec<Near>, Memory>
    requires { length table.now.items ≡ length net.now.devices }
    ensures { IfOk result (λ v. v.items ≡ heard_from (numbers net.now.devices) table.now.items neighbours.now) }
{
    let mut near = Vec::with_capacity(alloc, neighbours.len())?;
    for (device, weight) in neighbours {
        if let Some(export) = held(net, table, *device) {
            let export = export.share()?;
            near.push(Near {
                device: *device,
                weight: *weight,
                export,
            })?;
        }
    }
    Ok(near)
}

// The export of a device in a table, if it has one.
fn held<'t>(net: &Network, table: &'t ExportTable, device: u32) -> Option<&'t Published>
    requires { length table.now.items ≡ length net.now.devices }
    ensures { option_copied result ≡ device_slot (numbers net.now.devices) table.now.items device }
{
    let place = net.place(device)?;
    table[place].as_ref()
}
