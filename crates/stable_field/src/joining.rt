//! A builtin of two local values, at all devices.

ghost use Rattle.std.specs.Prelude.{◌≡◌, IfOk, map};
ghost use Rattle.fc_values.specs.Values.{LocalValue, local_of};
ghost use Rattle.fc_values.specs.Fields.{ValueLocal, entry_of, value_of};
ghost use Rattle.stable_field.specs.Columns.{HasLocal, HaveLocal, joined_entries, joined_value};

use fc_values::{Builtin, Local, Memory, Value, apply, copy};
use std::alloc::Global;

/// The values of a builtin at devices at which its arguments have these values.
pub fn joined(
    alloc: Global,
    builtin: Builtin,
    ceiling: u32,
    first: &[(u32, Local)],
    second: &[(u32, Local)],
) -> Result<Vec<(u32, Local)>, Memory>
    requires { HaveLocal builtin ceiling (map entry_of first.now) (map entry_of second.now) }
    ensures { IfOk result (λ v. map entry_of v.items
        ≡ joined_entries builtin ceiling (map entry_of first.now) (map entry_of second.now)) }
{
    let many = first.len().min(second.len());
    let mut list = Vec::with_capacity(alloc, many)?;
    for place in 0..many {
        let one = &first[place];
        let two = &second[place];
        let value = joined_at(alloc, builtin, ceiling, one.0, &one.1, &two.1)?;
        list.push((one.0, value))?;
    }
    Ok(list)
}

// The value of a builtin at a device.
fn joined_at(
    alloc: Global,
    builtin: Builtin,
    ceiling: u32,
    device: u32,
    first: &Local,
    second: &Local,
) -> Result<Local, Memory>
    requires { HasLocal builtin ceiling device (local_of first.now) (local_of second.now) }
    ensures { IfOk result (λ v. local_of v
        ≡ joined_value builtin ceiling device (local_of first.now) (local_of second.now)) }
{
    let mut args = Vec::with_capacity(alloc, 2)?;
    args.push(Value::Local(copy(alloc, first)?))?;
    args.push(Value::Local(copy(alloc, second)?))?;
    let value = apply(alloc, builtin, args.as_slice(), device, ceiling)?;
    Ok(local(value))
}

// A local value out of a value.
fn local(value: Value) -> Local
    requires { (v : LocalValue) × (value_of value ≡ ValueLocal v) }
    ensures { value_of value ≡ ValueLocal (local_of result) }
{
    match value {
        Value::Local(v) => v,
        Value::Field(_) => unreachable!(),
    }
}
