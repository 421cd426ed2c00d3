//! Whether values are those of the declared inputs, and weights in the declared range.

ghost use Rattle.std.specs.Prelude.{◌≡◌, ◌≤◌, length, map};
ghost use Rattle.fc_values.specs.Types.{input_of, declarations_of};
ghost use Rattle.fc_values.specs.Values.{local_of};
ghost use Rattle.topology.specs.Inputs.{input_fault, inputs_fault};
ghost use Rattle.topology.specs.Changes.{nth_fault, in_metric};

use crate::types::NetFault;
use fc_values::{Declared, InputDecl, InputTy, Local};

/// Why a value doesn't fit an input of a type.
pub fn input_fault(ty: InputTy, value: &Local) -> Option<NetFault>
    ensures { result ≡ input_fault ty (local_of value.now) }
{
    match (ty, value) {
        (InputTy::Truth, Local::Bool(_)) => None,
        (InputTy::Whole(least, greatest), Local::Int(n)) => {
            if least <= *n && *n <= greatest {
                None
            } else {
                Some(NetFault::InputRange)
            }
        }
        _ => Some(NetFault::InputType),
    }
}

/// The fault of the first value that doesn't fit its input.
pub(crate) fn inputs_fault(inputs: &[InputDecl], values: &[Local]) -> Option<NetFault>
    requires { length inputs.now ≡ length values.now }
    ensures { result ≡ inputs_fault (map input_of inputs.now) (map local_of values.now) }
{
    for (i, input) in inputs.iter().enumerate() {
        if let Some(fault) = input_fault(input.ty, &values[i]) {
            return Some(fault);
        }
    }
    None
}

/// The fault of a value for the input of a number.
pub(crate) fn nth_fault(inputs: &[InputDecl], number: u32, value: &Local) -> Option<NetFault>
    ensures { result ≡ nth_fault (map input_of inputs.now) number (local_of value.now) }
{
    match inputs.get(number as usize) {
        Some(input) => input_fault(input.ty, value),
        None => Some(NetFault::NoInput),
    }
}

/// Whether a weight is in the declared range.
pub(crate) fn in_metric(declared: &Declared, weight: u32) -> bool
    ensures { result ≡ in_metric (declarations_of declared.now) weight }
{
    declared.metric.0 <= weight && weight <= declared.metric.1
}
