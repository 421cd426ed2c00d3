//! The least cost of each device: the device that waits with the smallest value takes its steps, and a device whose
//! value they lower waits again.

ghost use Rattle.std.specs.Prelude.{◌≡◌, ◌≤◌, ◌<◌, ◌⊎◌, ℕ, length, slice_index, IfOk, OnOk};
ghost use Rattle.std.specs.List.{All, Contains};
ghost use Rattle.std.specs.BinaryHeap.{heap_items};
ghost use Rattle.walks.specs.Walks.{costs_of, IsCosts, IsDevice};
ghost use Rattle.walks.specs.Tables.{HaveStarts, StartsWait, AreCosts, AreCoveredBut, AreCovered, AreDevices};
ghost use Rattle.walks.specs.Tables.{IsTaken, AreLeast, left};

use crate::lookups::steps_from;
use crate::sums::stopped;
use crate::types::{Costs, WalkStep};
use fc_values::Memory;
use std::alloc::Global;
use std::cmp::Reverse;
use std::collections::BinaryHeap;

// The devices that wait for their steps to be taken, the smallest value first.
type Waiting = BinaryHeap<Reverse<(u32, u32)>, Global>;

/// The least costs by the numbers of devices.
pub(crate) fn least_costs(alloc: Global, costs: &Costs) -> Result<Vec<u32>, Memory>
    requires { IsCosts (costs_of costs.now) }
    ensures { IfOk result (λ v. AreLeast (costs_of costs.now) v.items) }
{
    let mut values = starts(alloc, costs)?;
    let mut waiting = all_waiting(alloc, costs)?;
    while let Some(Reverse((value, device))) = waiting.pop() {
        if values[device as usize] == value {
            take_steps(costs, &mut values, &mut waiting, device)?;
        }
    }
    Ok(values)
}

// The starts by the numbers of devices.
fn starts(alloc: Global, costs: &Costs) -> Result<Vec<u32>, Memory>
    requires { IsCosts (costs_of costs.now) }
    ensures { IfOk result (λ v. HaveStarts (costs_of costs.now) v.items) }
{
    let mut values = Vec::new(alloc);
    for one in &costs.start {
        values.resize(one.0 as usize, 0)?;
        values.push(one.1)?;
    }
    Ok(values)
}

// Each device waits with its start.
fn all_waiting(alloc: Global, costs: &Costs) -> Result<Waiting, Memory>
    ensures waits { IfOk result (λ h. StartsWait (costs_of costs.now) (heap_items h)) }
    ensures devices { IfOk result (λ h. AreDevices (costs_of costs.now) (heap_items h)) }
{
    let mut waiting = BinaryHeap::new(alloc);
    for one in &costs.start {
        waiting.push(Reverse((one.1, one.0)))?;
    }
    Ok(waiting)
}

// Takes the steps from a device.
fn take_steps(
    costs: &Costs,
    values: &mut [u32],
    waiting: &mut Waiting,
    device: u32,
) -> Result<(), Memory>
    requires costs { IsCosts (costs_of costs.now) }
    requires device { IsDevice (costs_of costs.now) device }
    requires values { AreCosts (costs_of costs.now) values.old }
    requires covered { AreCoveredBut (costs_of costs.now) values.old (heap_items waiting.old) device }
    requires waiting { AreDevices (costs_of costs.now) (heap_items waiting.old) }
    ensures values { OnOk result (AreCosts (costs_of costs.now) values.new) }
    ensures covered { OnOk result (AreCovered (costs_of costs.now) values.new (heap_items waiting.new)) }
    ensures waiting { OnOk result (AreDevices (costs_of costs.now) (heap_items waiting.new)) }
    ensures left { OnOk result (left values.new (heap_items waiting.new) ≤ left values.old (heap_items waiting.old)) }
{
    for step in steps_from(costs, device) {
        take_step(costs, values, waiting, step)?;
    }
    Ok(())
}

// Lowers the value of the device to which a step leads, which then waits.
fn take_step(
    costs: &Costs,
    values: &mut [u32],
    waiting: &mut Waiting,
    step: &WalkStep,
) -> Result<(), Memory>
    requires from { step.now.from < length values.old }
    requires to { step.now.to < length values.old }
    ensures { OnOk result (IsTaken (costs_of costs.now) step.now
        values.old (heap_items waiting.old) values.new (heap_items waiting.new)) }
{
    let value = stopped(values[step.from as usize], step.cost, costs.ceiling);
    if value < values[step.to as usize] {
        values[step.to as usize] = value;
        waiting.push(Reverse((value, step.to)))?;
    }
    Ok(())
}
