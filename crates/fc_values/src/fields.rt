//! Operators on fields, at each of their devices.

ghost use Rattle.std.specs.Prelude.{◌≡◌, IfOk, IsSome, MatchOption, None, Some, true};
ghost use Rattle.fc_values.specs.Builtins.{are_over, field_devices, field_over, local_value};
ghost use Rattle.fc_values.specs.Fields.{devices, entries_of, rises, value_of, values_of};
ghost use Rattle.fc_values.specs.Positions.{HasPosition, HavePosition, argument_nth, arguments_nth, value_over};
ghost use Rattle.fc_values.specs.Values.{local_of};

use crate::Memory;
use crate::builtins::Builtin;
use crate::operators::apply_local;
use crate::values::{FieldVal, Local, Value};
use std::alloc::Global;

/// The first field among some values.
pub fn first_field(args: &[Value]) -> Option<&FieldVal>
    ensures { MatchOption result (field_devices (values_of args.now) ≡ None)
        (λ field. field_devices (values_of args.now) ≡ Some (devices (entries_of field.now))) }
{
    for arg in args {
        if let Value::Field(field) = arg {
            return Some(field);
        }
    }
    None
}

// An argument at a position of its entries.
fn nth(arg: &Value, position: usize) -> &Local
    requires { HasPosition position (value_of arg.now) }
    ensures { local_of result.now ≡ argument_nth position (value_of arg.now) }
{
    match arg {
        Value::Local(value) => value,
        Value::Field(field) => &field.entries[position].1,
    }
}

/// The value of an operator on the arguments at a position of their entries.
pub fn apply_at(
    alloc: Global,
    builtin: Builtin,
    args: &[Value],
    position: usize,
    ceiling: u32,
) -> Result<Local, Memory>
    requires have { HavePosition position (values_of args.now) }
    requires has_value { IsSome (local_value builtin ceiling (arguments_nth position (values_of args.now))) }
    ensures { IfOk result (λ v. local_value builtin ceiling (arguments_nth position (values_of args.now))
        ≡ Some (local_of v)) }
{
    match args {
        [a] => apply_local(alloc, builtin, &[nth(a, position)], ceiling),
        [a, b] => {
            let row = [nth(a, position), nth(b, position)];
            apply_local(alloc, builtin, &row, ceiling)
        }
        [a, b, c] => {
            let row = [nth(a, position), nth(b, position), nth(c, position)];
            apply_local(alloc, builtin, &row, ceiling)
        }
        _ => unreachable!(),
    }
}

/// An operator at each device of the fields among its arguments, of which one is given.
pub fn apply_over(
    alloc: Global,
    builtin: Builtin,
    args: &[Value],
    field: &FieldVal,
    ceiling: u32,
) -> Result<FieldVal, Memory>
    requires rising { rises (devices (entries_of field.now)) ≡ true }
    requires over { are_over (devices (entries_of field.now)) (values_of args.now) ≡ true }
    requires has_value { IsSome (field_over (value_over builtin ceiling (values_of args.now))
        (devices (entries_of field.now))) }
    ensures { IfOk result (λ f. field_over (value_over builtin ceiling (values_of args.now))
        (devices (entries_of field.now)) ≡ Some (entries_of f)) }
{
    let mut entries = Vec::with_capacity(alloc, field.entries.len())?;
    for (position, entry) in field.entries.iter().enumerate() {
        let value = apply_at(alloc, builtin, args, position, ceiling)?;
        entries.push((entry.0, value))?;
    }
    Ok(FieldVal { entries })
}
