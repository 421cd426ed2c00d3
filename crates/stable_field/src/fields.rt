//! The values of a table's exports.

ghost use Rattle.std.specs.Prelude.{ℕ, ◌≡◌, ◌<◌, [], ◌∷◌, ◌++◌, IfOk, OnOk, length, map, Some, None};
ghost use Rattle.std.specs.Prelude.{slice_index_or as get_or};
ghost use Rattle.fc_values.specs.declared.exports.Export.{Export};
ghost use Rattle.fc_values.specs.Values.{LocalValue, local_of};
ghost use Rattle.fc_values.specs.Fields.{entry_of};
ghost use Rattle.topology.specs.Networks.{numbers};
ghost use Rattle.stable_field.specs.Tables.{AllHave};

use fc_values::{Local, Memory, copy};
use std::alloc::Global;
use topology::Network;
use value_trees::Published;

/// The value of each device's export, by rising devices.
pub fn values(
    alloc: Global,
    net: &Network,
    table: &[Option<Published>],
) -> Result<Vec<(u32, Local)>, Memory>
    ensures { IfOk result (λ v. (F : ℕ → LocalValue) → AllHave F (numbers net.now.devices) table.now
        → map entry_of v.items ≡ map (λ (d : ℕ). (d, F d)) (numbers net.now.devices)) }
{
    let devices = net.devices();
    let mut list = Vec::with_capacity(alloc, devices.len())?;
    if table.len() != devices.len() {
        return Ok(list);
    }
    for place in 0..devices.len() {
        add_value(alloc, devices[place].id, table, place, &mut list)?;
    }
    Ok(list)
}

// Adds the value of the export at a place, if there is one.
fn add_value(
    alloc: Global,
    device: u32,
    table: &[Option<Published>],
    place: usize,
    list: &mut Vec<(u32, Local)>,
) -> Result<(), Memory>
    requires { place < length table.now }
    ensures { OnOk result ((e : Export) → get_or table.now place None ≡ Some e
        → map entry_of list.new.items ≡ map entry_of list.old.items ++ (device, local_of e.value) ∷ []) }
{
    match &table[place] {
        Some(export) => {
            let value = copy(alloc, &export.get().value)?;
            list.push((device, value))?;
            Ok(())
        }
        None => Ok(()),
    }
}
