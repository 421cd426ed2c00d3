//! Which devices are at hand, and which of them stay.

ghost use Rattle.std.specs.Prelude.{◌≡◌, ℕ, true, map, IfOk, OnOk, Some, None, if◌then◌else◌};
ghost use Rattle.std.specs.Ordering.{nat_cmp};
ghost use Rattle.std.specs.BTreeMap.{get};
ghost use Rattle.topology.specs.Networks.{lives};
ghost use Rattle.changes.specs.Code.{change_in, line_in};
ghost use Rattle.changes.specs.Hand.{said};
ghost use Rattle.change_bounds.specs.Tables.{noted, presence};

use changes::{Change, ChangeLine};
use fc_values::Memory;
use std::alloc::Global;
use std::collections::BTreeMap;
use topology::Network;

/// The devices at hand, each with whether it stays.
pub fn devices_said(
    alloc: Global,
    network: &Network,
    lines: &[ChangeLine],
) -> Result<BTreeMap<u32, bool>, Memory>
    ensures { IfOk result (λ m. (d : ℕ) → get nat_cmp m d ≡ presence network.now (said (map line_in lines.now)) d) }
{
    let mut table = scene_devices(alloc, network)?;
    for line in lines {
        if let Some(change) = &line.change {
            note(&mut table, change)?;
        }
    }
    Ok(table)
}

// The devices of a scene stay where no line speaks of them.
fn scene_devices(alloc: Global, network: &Network) -> Result<BTreeMap<u32, bool>, Memory>
    ensures { IfOk result (λ m. (d : ℕ) → get nat_cmp m d ≡ (if lives network.now d then Some true else None)) }
{
    let mut table = BTreeMap::new(alloc);
    for device in network.devices() {
        table.insert(device.id, true)?;
    }
    Ok(table)
}

// A device that comes is at hand. One that leaves doesn't stay.
fn note(table: &mut BTreeMap<u32, bool>, change: &Change) -> Result<(), Memory>
    ensures { OnOk result ((d : ℕ) →
        get nat_cmp table.new d ≡ noted (get nat_cmp table.old d) d (change_in change.now)) }
{
    match change {
        Change::Join(device, _) => {
            if table.get(device).is_none() {
                table.insert(*device, false)?;
            }
        }
        Change::Leave(device) => {
            if table.get(device).is_some() {
                table.insert(*device, false)?;
            }
        }
        _ => {}
    }
    Ok(())
}
