//! What rising lists have for a device.

ghost use Rattle.std.specs.Prelude.{◌≡◌, ◌<◌, ℕ, length, map, slice_index_or, IfSome, IfNone, false};
ghost use Rattle.std.specs.List.{All, AllPairs, Contains};
ghost use Rattle.fc_values.specs.Fields.{Rises};
ghost use Rattle.walks.specs.Walks.{costs_of, IsCosts, IsBefore, StepsAt};

use crate::types::{Costs, WalkStep};

/// The place of a device among rising ones.
pub(crate) fn place(pairs: &[(u32, u32)], device: u32) -> Option<usize>
    requires { Rises (map (λ (d : ℕ × ℕ). d.0) pairs.now) }
    ensures within { IfSome result (λ i. i < length pairs.now) }
    ensures there { IfSome result (λ i. (slice_index_or pairs.now i (0, 0)).0 ≡ device) }
    ensures none { IfNone result ((s : ℕ) → Contains pairs.now (device, s) → ⊥) }
{
    let at = pairs.partition_point(|one| one.0 < device);
    if at < pairs.len() && pairs[at].0 == device {
        Some(at)
    } else {
        None
    }
}

/// The steps from a device.
pub(crate) fn steps_from(costs: &Costs, device: u32) -> &[WalkStep]
    requires { IsCosts (costs_of costs.now) }
    ensures steps { All (λ s. Contains costs.now.steps.items s) result.now }
    ensures from { All (λ s. s.from ≡ device) result.now }
    ensures order { AllPairs IsBefore result.now }
    ensures all { (to cost : ℕ) → StepsAt (costs_of costs.now) device to cost
        → Contains result.now (record { from = device; to = to; cost = cost }) }
{
    let first = costs.steps.partition_point(|step| step.from < device);
    let behind = &costs.steps[first..];
    let count = behind.partition_point(|step| step.from <= device);
    &behind[..count]
}

/// The cost of the step between two devices, where they are linked.
pub(crate) fn step_cost(costs: &Costs, from: u32, to: u32) -> Option<u32>
    requires { IsCosts (costs_of costs.now) }
    ensures cost { IfSome result (λ k. StepsAt (costs_of costs.now) from to k) }
    ensures none { IfNone result ((k : ℕ) → StepsAt (costs_of costs.now) from to k → ⊥) }
{
    for step in steps_from(costs, from) {
        if step.to == to {
            return Some(step.cost);
        }
    }
    None
}
