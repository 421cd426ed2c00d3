//! Folds of a field over the devices other than the firing one.

ghost use Rattle.std.specs.Prelude.{◌≡◌, ◌∷◌, [], IfOk, IsSome, Some, min, option_map};
ghost use Rattle.fc_values.specs.Builtins.{all_of, any_of, greatest_of, hood_value, least_of, others, sum_of};
ghost use Rattle.fc_values.specs.Fields.{entries_of, values_of, ValueField, ValueLocal};
ghost use Rattle.fc_values.specs.Rows.{AreFieldAndLocal, IsField};
ghost use Rattle.fc_values.specs.Values.{local_of};

use crate::Memory;
use crate::builtins::Builtin;
use crate::operators::{add_cut, greater, integer, lesser, truth};
use crate::values::{FieldVal, Local, Value, copy};
use std::alloc::Global;

/// The value of a hood at a device.
#[tactic(auto, using(crate::proofs::Folds::hoods_fit))]
pub fn apply_hood(
    alloc: Global,
    builtin: Builtin,
    args: &[Value],
    device: u32,
    ceiling: u32,
) -> Result<Local, Memory>
    requires { IsSome (hood_value builtin ceiling device (values_of args.now)) }
    ensures { IfOk result (λ v. hood_value builtin ceiling device (values_of args.now) ≡ Some (local_of v)) }
{
    match builtin {
        Builtin::MinHoodLoc => {
            let (field, local) = field_and_local(args);
            copy(alloc, least(field, local, device))
        }
        Builtin::MaxHoodLoc => {
            let (field, local) = field_and_local(args);
            copy(alloc, greatest(field, local, device))
        }
        Builtin::SumHood => Ok(Local::Int(sum(only_field(args), device, ceiling))),
        Builtin::AnyHood => Ok(Local::Bool(any(only_field(args), device))),
        Builtin::AllHood => Ok(Local::Bool(all(only_field(args), device))),
        _ => unreachable!(),
    }
}

fn field_and_local(args: &[Value]) -> (&FieldVal, &Local)
    requires { AreFieldAndLocal (values_of args.now) }
    ensures { values_of args.now ≡ ValueField (entries_of result.0.now) ∷ ValueLocal (local_of result.1.now) ∷ [] }
{
    match args {
        [Value::Field(field), Value::Local(local)] => (field, local),
        _ => unreachable!(),
    }
}

fn only_field(args: &[Value]) -> &FieldVal
    requires { IsField (values_of args.now) }
    ensures { values_of args.now ≡ ValueField (entries_of result.now) ∷ [] }
{
    match args {
        [Value::Field(field)] => field,
        _ => unreachable!(),
    }
}

fn least<'a>(field: &'a FieldVal, local: &'a Local, device: u32) -> &'a Local
    ensures { local_of result.now ≡ least_of (local_of local.now) (others device (entries_of field.now)) }
{
    let mut best = local;
    for (other, value) in &field.entries {
        if *other != device {
            best = lesser(best, value);
        }
    }
    best
}

fn greatest<'a>(field: &'a FieldVal, local: &'a Local, device: u32) -> &'a Local
    ensures { local_of result.now ≡ greatest_of (local_of local.now) (others device (entries_of field.now)) }
{
    let mut best = local;
    for (other, value) in &field.entries {
        if *other != device {
            best = greater(best, value);
        }
    }
    best
}

fn sum(field: &FieldVal, device: u32, ceiling: u32) -> u32
    requires { IsSome (sum_of (others device (entries_of field.now))) }
    ensures { option_map (λ sum. min ceiling sum) (sum_of (others device (entries_of field.now))) ≡ Some result }
{
    let mut total = 0;
    for (other, value) in &field.entries {
        if *other != device {
            total = add_cut(total, integer(value), ceiling);
        }
    }
    total
}

fn any(field: &FieldVal, device: u32) -> bool
    requires { IsSome (any_of (others device (entries_of field.now))) }
    ensures { any_of (others device (entries_of field.now)) ≡ Some result }
{
    for (other, value) in &field.entries {
        if *other != device && truth(value) {
            return true;
        }
    }
    false
}

fn all(field: &FieldVal, device: u32) -> bool
    requires { IsSome (all_of (others device (entries_of field.now))) }
    ensures { all_of (others device (entries_of field.now)) ≡ Some result }
{
    for (other, value) in &field.entries {
        if *other != device && !truth(value) {
            return false;
        }
    }
    true
}
