//! The values of a core's devices, and of a field.

ghost use Rattle.std.specs.Prelude.{◌≡◌, ◌++◌, IfOk, OnOk, OnErr, option_map, map};
ghost use Rattle.fc_values.specs.Fields.{Rises, devices, entry_of};
ghost use Rattle.fc_values.specs.Values.{local_of};
ghost use Rattle.firing_core.specs.CoreViews.{core_of};
ghost use Rattle.report.specs.Texts.{device_line, export_value, field_text, held_text, values_text};

use crate::writing::{write_number, write_value};
use fc_values::{Local, Memory};
use firing_core::Core;
use std::alloc::Global;

// Appends what a device holds.
fn write_held(alloc: Global, out: &mut Vec<u8>, held: Option<&Local>) -> Result<(), Memory>
    ensures { OnOk result (out.new.items ≡ out.old.items ++ held_text (option_map (λ v. local_of v.now) held.entry)) }
{
    match held {
        Some(value) => write_value(alloc, out, value)?,
        None => out.push(b'-')?,
    }
    Ok(())
}

// Appends the line of a device.
fn write_line(
    alloc: Global,
    out: &mut Vec<u8>,
    device: u32,
    held: Option<&Local>,
) -> Result<(), Memory>
    ensures { OnOk result (
        out.new.items ≡ out.old.items ++ device_line device (option_map (λ v. local_of v.now) held.entry)) }
{
    write_number(alloc, out, device)?;
    out.push(b' ')?;
    write_held(alloc, out, held)?;
    out.push(b'\n')?;
    Ok(())
}

// The value of a device's export.
fn held(core: &Core, device: u32) -> Option<&Local>
    ensures { option_map (λ v. local_of v.now) result ≡ option_map export_value ((core_of core.now).exports device) }
{
    match core.export(device) {
        Some(export) => Some(&export.value),
        None => None,
    }
}

// The lines of a core's devices.
fn value_lines(alloc: Global, core: &Core) -> Result<Vec<u8>, Memory>
    ensures { IfOk result (λ v. v.items ≡ values_text (core_of core.now)) }
{
    let mut lines = Vec::new(alloc);
    for device in core.net().devices() {
        write_line(alloc, &mut lines, device.id, held(core, device.id))?;
    }
    Ok(lines)
}

/// Appends a line for each device of a core's network, with the value of its export; or leaves `out` as it was.
pub fn values(alloc: Global, out: &mut Vec<u8>, core: &Core) -> Result<(), Memory>
    ensures ok { OnOk result (out.new.items ≡ out.old.items ++ values_text (core_of core.now)) }
    ensures err { OnErr result (out.new.items ≡ out.old.items) }
{
    let lines = value_lines(alloc, core)?;
    out.extend_from_slice(&lines)?;
    Ok(())
}

// The lines of a field's devices.
fn field_lines(alloc: Global, f: &[(u32, Local)]) -> Result<Vec<u8>, Memory>
    ensures { IfOk result (λ v. v.items ≡ field_text (map entry_of f.now)) }
{
    let mut lines = Vec::new(alloc);
    for (device, value) in f {
        write_line(alloc, &mut lines, *device, Some(value))?;
    }
    Ok(lines)
}

/// Appends a line for each device of a field, with its value; or leaves `out` as it was.
pub fn field(alloc: Global, out: &mut Vec<u8>, f: &[(u32, Local)]) -> Result<(), Memory>
    requires { Rises (devices (map entry_of f.now)) }
    ensures ok { OnOk result (out.new.items ≡ out.old.items ++ field_text (map entry_of f.now)) }
    ensures err { OnErr result (out.new.items ≡ out.old.items) }
{
    let lines = field_lines(alloc, f)?;
    out.extend_from_slice(&lines)?;
    Ok(())
}
