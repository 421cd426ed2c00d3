//! Whether values and weights are those that a scene allows.

ghost use Rattle.std.specs.Prelude.{◌≡◌, length, map};
ghost use Rattle.fc_values.specs.Types.{declarations_of, input_of};
ghost use Rattle.topology.specs.Changes.{in_metric};
ghost use Rattle.changes.specs.Faults.{in_metric_all, nth_possible_fault, possible_fault, possibles_fault};

use crate::types::{Possible, Weights};
use fc_values::{Declared, InputDecl, InputTy, Local};
use topology::{NetFault, input_fault};

/// Why values don't fit an input of a type.
fn possible_fault(ty: InputTy, values: Possible) -> Option<NetFault>
    ensures { result ≡ possible_fault ty values }
{
    match values {
        Possible::Numbers(range) => {
            let low = input_fault(ty, &Local::Int(range.least));
            low.or(input_fault(ty, &Local::Int(range.greatest)))
        }
        Possible::Truth(truth) => input_fault(ty, &Local::Bool(truth)),
        Possible::Pair => Some(NetFault::InputType),
        Possible::Any => None,
    }
}

/// The fault of values for the input of a number.
pub(crate) fn nth_possible_fault(
    inputs: &[InputDecl],
    number: u32,
    values: Possible,
) -> Option<NetFault>
    ensures { result ≡ nth_possible_fault (map input_of inputs.now) number values }
{
    match inputs.get(number as usize) {
        Some(input) => possible_fault(input.ty, values),
        None => Some(NetFault::NoInput),
    }
}

/// The first fault of values for all inputs.
pub(crate) fn possibles_fault(inputs: &[InputDecl], values: &[Possible]) -> Option<NetFault>
    requires { length values.now ≡ length inputs.now }
    ensures { result ≡ possibles_fault (map input_of inputs.now) values.now }
{
    for (i, input) in inputs.iter().enumerate() {
        if let Some(fault) = possible_fault(input.ty, values[i]) {
            return Some(fault);
        }
    }
    None
}

/// Whether all of some weights are in the declared range.
pub(crate) fn in_metric_all(declared: &Declared, weights: Weights) -> bool
    ensures { result ≡ in_metric_all (declarations_of declared.now) weights }
{
    match weights {
        Weights::Range(range) => {
            in_metric(declared, range.least) && in_metric(declared, range.greatest)
        }
        Weights::Any => true,
    }
}

// Whether a weight is in the declared range.
fn in_metric(declared: &Declared, weight: u32) -> bool
    ensures { result ≡ in_metric (declarations_of declared.now) weight }
{
    declared.metric.0 <= weight && weight <= declared.metric.1
}
