//! The builtins.

ghost use Rattle.std.specs.Prelude.{◌≡◌, IfOk, IsSome, Some};
ghost use Rattle.fc_values.specs.Fields.{value_of, values_of};
ghost use Rattle.fc_values.specs.Builtins.{builtin_value, is_hood as hood_of};

use crate::Memory;
use crate::fields::{apply_at, apply_over, first_field};
use crate::hoods::apply_hood;
use crate::values::Value;
use std::alloc::Global;

/// An operator, or a fold of a field (the five hoods).
#[derive(Clone, Copy, Debug, PartialEq, Eq)]
pub enum Builtin {
    Add,
    Sub,
    Mul,
    Min,
    Max,
    Less,
    Equal,
    And,
    Or,
    Not,
    Mux,
    Pair,
    Fst,
    Snd,
    MinHoodLoc,
    MaxHoodLoc,
    SumHood,
    AnyHood,
    AllHood,
    Rise,
}

/// The value of a builtin at a device. Hoods leave that device out.
pub fn apply(
    alloc: Global,
    builtin: Builtin,
    args: &[Value],
    device: u32,
    ceiling: u32,
) -> Result<Value, Memory>
    requires { IsSome (builtin_value builtin ceiling device (values_of args.now)) }
    ensures { IfOk result (λ v. builtin_value builtin ceiling device (values_of args.now) ≡ Some (value_of v)) }
{
    if is_hood(builtin) {
        return Ok(Value::Local(apply_hood(alloc, builtin, args, device, ceiling)?));
    }
    match first_field(args) {
        None => Ok(Value::Local(apply_at(alloc, builtin, args, 0, ceiling)?)),
        Some(field) => Ok(Value::Field(apply_over(alloc, builtin, args, field, ceiling)?)),
    }
}

fn is_hood(builtin: Builtin) -> bool
    ensures { result ≡ hood_of builtin }
{
    match builtin {
        Builtin::MinHoodLoc
        | Builtin::MaxHoodLoc
        | Builtin::SumHood
        | Builtin::AnyHood
        | Builtin::AllHood => true,
        _ => false,
    }
}
