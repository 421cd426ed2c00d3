//! The test of a claim, on its own.

ghost use Rattle.std.specs.Prelude.{◌≡◌, ℕ, true, false, IfSome, IfNone};
ghost use Rattle.walks.specs.Walks.{costs_of, claim_of, IsCosts, WalkCosts, HasWalk, HasDevices};
ghost use Rattle.walks.specs.Walks.{HaveWalks, AreBelowStarts, AreSettled, AreLeastCosts, ClaimsHold, value_in};

use crate::laws::claims_are_least;
use crate::lookups::{place, step_cost};
use crate::sums::stopped;
use crate::types::{Costs, Evidence};

/// Whether a claim has each device once, rising, with a walk that costs its value, which is neither above the device's
/// start nor above what a step adds to the value of a neighbour. It takes no memory.
pub fn check_walks(costs: &Costs, claim: &[Evidence]) -> bool
    requires { IsCosts (costs_of costs.now) }
    ensures holds { result ≡ true → ClaimsHold (costs_of costs.now) (claim_of claim.now) }
    ensures fails { result ≡ false → ClaimsHold (costs_of costs.now) (claim_of claim.now) → ⊥ }
    ensures least { result ≡ true → AreLeastCosts (costs_of costs.now) (claim_of claim.now) }
{
    claims_are_least();
    holds(costs, claim)
}

// Whether a claim holds.
fn holds(costs: &Costs, claim: &[Evidence]) -> bool
    requires { IsCosts (costs_of costs.now) }
    ensures holds { result ≡ true → ClaimsHold (costs_of costs.now) (claim_of claim.now) }
    ensures fails { result ≡ false → ClaimsHold (costs_of costs.now) (claim_of claim.now) → ⊥ }
{
    has_devices(costs, claim)
        && have_walks(costs, claim)
        && are_below_starts(costs, claim)
        && are_settled(costs, claim)
}

// Whether a claim has the devices, rising.
fn has_devices(costs: &Costs, claim: &[Evidence]) -> bool
    ensures are { result ≡ true → HasDevices (costs_of costs.now) (claim_of claim.now) }
    ensures not { result ≡ false → HasDevices (costs_of costs.now) (claim_of claim.now) → ⊥ }
{
    if claim.len() != costs.start.len() {
        return false;
    }
    for (i, one) in costs.start.iter().enumerate() {
        if claim[i].device != one.0 {
            return false;
        }
    }
    true
}

// Whether each walk of a claim is one to its device that costs its value.
fn have_walks(costs: &Costs, claim: &[Evidence]) -> bool
    requires { IsCosts (costs_of costs.now) }
    ensures have { result ≡ true → HaveWalks (costs_of costs.now) (claim_of claim.now) }
    ensures not { result ≡ false → HaveWalks (costs_of costs.now) (claim_of claim.now) → ⊥ }
{
    for one in claim {
        if !has_walk(costs, one) {
            return false;
        }
    }
    true
}

// Whether the walk is one to the device that costs the value.
fn has_walk(costs: &Costs, one: &Evidence) -> bool
    requires { IsCosts (costs_of costs.now) }
    ensures has { result ≡ true → HasWalk (costs_of costs.now) one.now }
    ensures not { result ≡ false → HasWalk (costs_of costs.now) one.now → ⊥ }
{
    match walk_cost(costs, &one.walk) {
        Some((end, cost)) => end == one.device && cost == one.value,
        None => false,
    }
}

// The device in which a walk ends, and its cost.
fn walk_cost(costs: &Costs, walk: &[u32]) -> Option<(u32, u32)>
    requires { IsCosts (costs_of costs.now) }
    ensures costs { IfSome result (λ end. WalkCosts (costs_of costs.now) walk.now end.0 end.1) }
    ensures none { IfNone result ((e v : ℕ) → WalkCosts (costs_of costs.now) walk.now e v → ⊥) }
{
    let Some((first, rest)) = walk.split_first() else {
        return None;
    };
    let Some(start) = place(&costs.start, *first) else {
        return None;
    };
    let mut at = *first;
    let mut cost = costs.start[start].1;
    for next in rest {
        let Some(step) = step_cost(costs, at, *next) else {
            return None;
        };
        cost = stopped(cost, step, costs.ceiling);
        at = *next;
    }
    Some((at, cost))
}

// Whether no value of a claim is above the start of its device.
fn are_below_starts(costs: &Costs, claim: &[Evidence]) -> bool
    requires costs { IsCosts (costs_of costs.now) }
    requires devices { HasDevices (costs_of costs.now) (claim_of claim.now) }
    ensures are { result ≡ true → AreBelowStarts (costs_of costs.now) (claim_of claim.now) }
    ensures not { result ≡ false → AreBelowStarts (costs_of costs.now) (claim_of claim.now) → ⊥ }
{
    for one in &costs.start {
        if value_of(costs, claim, one.0) > one.1 {
            return false;
        }
    }
    true
}

// Whether no value of a claim is above what a step adds to that of a neighbour.
fn are_settled(costs: &Costs, claim: &[Evidence]) -> bool
    requires costs { IsCosts (costs_of costs.now) }
    requires devices { HasDevices (costs_of costs.now) (claim_of claim.now) }
    ensures are { result ≡ true → AreSettled (costs_of costs.now) (claim_of claim.now) }
    ensures not { result ≡ false → AreSettled (costs_of costs.now) (claim_of claim.now) → ⊥ }
{
    for step in &costs.steps {
        let value = value_of(costs, claim, step.from);
        if value_of(costs, claim, step.to) > stopped(value, step.cost, costs.ceiling) {
            return false;
        }
    }
    true
}

// The value of a device in a claim that has the devices.
fn value_of(costs: &Costs, claim: &[Evidence], device: u32) -> u32
    requires costs { IsCosts (costs_of costs.now) }
    requires devices { HasDevices (costs_of costs.now) (claim_of claim.now) }
    ensures { result ≡ value_in (claim_of claim.now) device }
{
    match place(&costs.start, device) {
        Some(at) => claim[at].value,
        None => 0,
    }
}
