//! The costs of a network.

ghost use Rattle.std.specs.Prelude.{◌≡◌, ◌≤◌, ℕ, map, ◌++◌, IfOk, OnOk};
ghost use Rattle.std.specs.List.{All};
ghost use Rattle.topology.specs.Networks.{net_device_of, near, numbers};
ghost use Rattle.walks.specs.Walks.{costs_of, IsCosts};
ghost use Rattle.walks.specs.Gathering.{added_of, added, step_to, steps_from, gathered, AreOf, AddFits, EachRises};

use crate::lookups::place;
use crate::types::{Add, Costs, WalkStep};
use fc_values::Memory;
use std::alloc::Global;
use topology::{Device, Network, neighbours_are_mutual};

/// The costs of walks in a network, with these starts and what each step adds.
pub fn gather(
    alloc: Global,
    ceiling: u32,
    net: &Network,
    start: Vec<(u32, u32)>,
    add: Add,
) -> Result<Costs, Memory>
    requires devices { AreOf net.now start.items }
    requires starts { All (λ (d : ℕ × ℕ). d.1 ≤ ceiling) start.items }
    requires add { AddFits ceiling net.now (added_of add) }
    ensures gathered { IfOk result (λ c. costs_of c ≡ gathered ceiling net.now start.items (added_of add)) }
    ensures costs { IfOk result (λ c. IsCosts (costs_of c)) }
{
    neighbours_are_mutual();
    let steps = all_steps(alloc, net, net.devices(), &add)?;
    Ok(Costs {
        ceiling,
        start,
        steps,
    })
}

// The steps from each device to its neighbours.
fn all_steps(
    alloc: Global,
    net: &Network,
    devices: &[Device],
    add: &Add,
) -> Result<Vec<WalkStep>, Memory>
    requires devices { map net_device_of devices.now ≡ net.now.devices }
    requires add { EachRises (added_of add.now) }
    ensures { IfOk result (λ v. v.items ≡ steps_from net.now (added_of add.now) (numbers net.now.devices)) }
{
    let mut steps = Vec::new(alloc);
    for device in devices {
        push_steps(&mut steps, net, device.id, add)?;
    }
    Ok(steps)
}

// Puts the steps from a device behind others.
fn push_steps(
    steps: &mut Vec<WalkStep>,
    net: &Network,
    device: u32,
    add: &Add,
) -> Result<(), Memory>
    requires { EachRises (added_of add.now) }
    ensures { OnOk result (steps.new.items
        ≡ steps.old.items ++ map (step_to (added_of add.now) device) (near net.now device)) }
{
    for one in net.neighbours(device) {
        steps.push(WalkStep {
            from: device,
            to: one.0,
            cost: added(add, *one),
        })?;
    }
    Ok(())
}

// The cost of a step to a neighbour, with the weight of the link.
fn added(add: &Add, neighbour: (u32, u32)) -> u32
    requires { EachRises (added_of add.now) }
    ensures { result ≡ added (added_of add.now) neighbour }
{
    match add {
        Add::Each(costs) => match place(costs, neighbour.0) {
            Some(at) => costs[at].1,
            None => 0,
        },
        Add::Weights => neighbour.1,
    }
}
