//! The devices of an envelope.

ghost use Rattle.std.specs.Prelude.{◌≡◌, map, option_map, IfOk};
ghost use Rattle.std.specs.Option.{option_copied};
ghost use Rattle.std.specs.Ordering.{nat_cmp};
ghost use Rattle.std.specs.BTreeMap.{IsOrdered};
ghost use Rattle.fc_values.specs.Types.{input_of};
ghost use Rattle.value_bounds.specs.References.{local_bound_in, local_bounds_in};
ghost use Rattle.envelopes.specs.Code.{maybe_device_of};
ghost use Rattle.change_envelopes.specs.Written.{devices_by, row_by, told_bound};

use envelopes::DeviceBound;
use fc_values::{InputDecl, Memory};
use std::alloc::Global;
use std::collections::BTreeMap;
use value_bounds::{LocalBound, copy_bound};

/// The devices at hand, by rising number, with the bounds of their inputs.
pub(crate) fn written_devices(
    alloc: Global,
    inputs: &[InputDecl],
    devices: &BTreeMap<u32, bool>,
    bounds: &BTreeMap<(u32, usize), LocalBound>,
) -> Result<Vec<DeviceBound>, Memory>
    ensures devices { IfOk result (λ v. map maybe_device_of v.items
        ≡ devices_by (row_by bounds.now (map input_of inputs.now)) devices.now.entries) }
    ensures rising { IsOrdered nat_cmp devices.now }
{
    let mut written = Vec::with_capacity(alloc, devices.len())?;
    for (id, stays) in devices {
        written.push(DeviceBound {
            id: *id,
            inputs: written_inputs(alloc, inputs, bounds, *id)?,
            sure: *stays,
        })?;
    }
    Ok(written)
}

// The bounds of the inputs of a device.
fn written_inputs(
    alloc: Global,
    inputs: &[InputDecl],
    bounds: &BTreeMap<(u32, usize), LocalBound>,
    device: u32,
) -> Result<Vec<LocalBound>, Memory>
    ensures { IfOk result (λ v. local_bounds_in v.items ≡ row_by bounds.now (map input_of inputs.now) device) }
{
    let mut row = Vec::with_capacity(alloc, inputs.len())?;
    for i in 0..inputs.len() {
        row.push(written_bound(alloc, bounds.get(&(device, i)))?)?;
    }
    Ok(row)
}

// Where nothing is said, each value is possible.
fn written_bound(alloc: Global, said: Option<&LocalBound>) -> Result<LocalBound, Memory>
    ensures { IfOk result (λ b.
        local_bound_in b ≡ told_bound (option_map local_bound_in (option_copied said.entry))) }
{
    match said {
        Some(bound) => copy_bound(alloc, bound),
        None => Ok(LocalBound::Unbounded),
    }
}
