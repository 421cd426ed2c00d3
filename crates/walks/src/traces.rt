//! Least costs with best walks.

ghost use Rattle.std.specs.Prelude.{◌≡◌, ◌≤◌, ℕ, slice_index, IfOk, IfSome, IfNone, true, false};
ghost use Rattle.walks.specs.Walks.{costs_of, claim_of, IsCosts, IsDevice, StartsAt, IsLeastCost};
ghost use Rattle.walks.specs.Walks.{IsBestWalk, LeadsTo, AreTraced};
ghost use Rattle.walks.specs.Tables.{AreLeast, IsParent, AreParents};

use crate::lookups::{step_cost, steps_from};
use crate::settles::least_costs;
use crate::sums::stopped;
use crate::types::{Costs, Evidence};
use fc_values::Memory;
use std::alloc::Global;

/// For each device its least cost and its best walk.
pub fn trace(alloc: Global, costs: &Costs) -> Result<Vec<Evidence>, Memory>
    requires { IsCosts (costs_of costs.now) }
    ensures { IfOk result (λ v. AreTraced (costs_of costs.now) (claim_of v.items)) }
{
    let values = least_costs(alloc, costs)?;
    let parents = parents(alloc, costs, &values)?;
    let mut traced = Vec::with_capacity(alloc, costs.start.len())?;
    for one in &costs.start {
        traced.push(evidence_of(alloc, costs, &values, &parents, one.0)?)?;
    }
    Ok(traced)
}

// The device before each on its best walk, by the numbers of devices.
fn parents(alloc: Global, costs: &Costs, values: &[u32]) -> Result<Vec<u32>, Memory>
    requires costs { IsCosts (costs_of costs.now) }
    requires values { AreLeast (costs_of costs.now) values.now }
    ensures { IfOk result (λ v. AreParents (costs_of costs.now) v.items) }
{
    let mut parents = Vec::new(alloc);
    for one in &costs.start {
        let parent = parent(costs, values, one.0, one.1);
        parents.resize(one.0 as usize, 0)?;
        parents.push(parent)?;
    }
    Ok(parents)
}

// The device before another, with its start, on its best walk.
fn parent(costs: &Costs, values: &[u32], device: u32, start: u32) -> u32
    requires costs { IsCosts (costs_of costs.now) }
    requires values { AreLeast (costs_of costs.now) values.now }
    requires start { StartsAt (costs_of costs.now) device start }
    ensures { IsParent (costs_of costs.now) device result }
{
    if values[device as usize] == start {
        return device;
    }
    match smallest_before(costs, values, device) {
        Some(neighbour) => neighbour,
        None => device,
    }
}

// The smallest neighbour from which the least cost of a device is made up.
fn smallest_before(costs: &Costs, values: &[u32], device: u32) -> Option<u32>
    requires costs { IsCosts (costs_of costs.now) }
    requires values { AreLeast (costs_of costs.now) values.now }
    requires device { IsDevice (costs_of costs.now) device }
    ensures leads { IfSome result (λ n. LeadsTo (costs_of costs.now) n device (slice_index values.now device)) }
    ensures least { IfSome result (λ n. (m : ℕ)
        → LeadsTo (costs_of costs.now) m device (slice_index values.now device) → n ≤ m) }
    ensures none { IfNone result ((m : ℕ)
        → LeadsTo (costs_of costs.now) m device (slice_index values.now device) → ⊥) }
{
    for step in steps_from(costs, device) {
        if leads_to(costs, values, step.to, device) {
            return Some(step.to);
        }
    }
    None
}

// Whether the least cost of a device is made up from a neighbour.
fn leads_to(costs: &Costs, values: &[u32], neighbour: u32, device: u32) -> bool
    requires costs { IsCosts (costs_of costs.now) }
    requires values { AreLeast (costs_of costs.now) values.now }
    requires neighbour { IsDevice (costs_of costs.now) neighbour }
    requires device { IsDevice (costs_of costs.now) device }
    ensures leads { result ≡ true → LeadsTo (costs_of costs.now) neighbour device (slice_index values.now device) }
    ensures not { result ≡ false
        → LeadsTo (costs_of costs.now) neighbour device (slice_index values.now device) → ⊥ }
{
    match step_cost(costs, neighbour, device) {
        Some(cost) => {
            let sum = stopped(values[neighbour as usize], cost, costs.ceiling);
            sum == values[device as usize]
        }
        None => false,
    }
}

// The value of a device with the best walk to it.
fn evidence_of(
    alloc: Global,
    costs: &Costs,
    values: &[u32],
    parents: &[u32],
    device: u32,
) -> Result<Evidence, Memory>
    requires costs { IsCosts (costs_of costs.now) }
    requires values { AreLeast (costs_of costs.now) values.now }
    requires parents { AreParents (costs_of costs.now) parents.now }
    requires device { IsDevice (costs_of costs.now) device }
    ensures device { IfOk result (λ e. e.device ≡ device) }
    ensures least { IfOk result (λ e. IsLeastCost (costs_of costs.now) device e.value) }
    ensures best { IfOk result (λ e. IsBestWalk (costs_of costs.now) device e.walk.items) }
{
    let value = values[device as usize];
    let mut walk = Vec::new(alloc);
    let mut at = device;
    walk.push(at)?;
    while parents[at as usize] != at {
        at = parents[at as usize];
        walk.push(at)?;
    }
    walk.reverse();
    Ok(Evidence {
        device,
        value,
        walk,
    })
}
