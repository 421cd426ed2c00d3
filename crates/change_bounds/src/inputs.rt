//! What is said of inputs of devices.

ghost use Rattle.std.specs.Prelude.{◌≡◌, ◌&&◌, ℕ, map, nat_eq, option_map, slice_get, IfOk, OnOk, Some, if◌then◌else◌};
ghost use Rattle.std.specs.Option.{option_copied, option_or};
ghost use Rattle.fc_values.specs.Types.{input_of};
ghost use Rattle.fc_values.specs.Values.{local_of};
ghost use Rattle.topology.specs.Networks.{inputs_in};
ghost use Rattle.value_bounds.specs.BoundValues.{exactly as exactly_of};
ghost use Rattle.value_bounds.specs.References.{local_bound_in};
ghost use Rattle.changes.specs.Changes.{JoinChange, SetChange};
ghost use Rattle.changes.specs.Code.{change_in, line_in};
ghost use Rattle.changes.specs.Hand.{said};
ghost use Rattle.change_bounds.specs.Bounds.{possible_bound, whole_bound as whole};
ghost use Rattle.change_bounds.specs.Tables.{AddsLine, AreInputsSaid, bound_at, widened};

use changes::{Change, ChangeLine, Possible};
use fc_values::{InputDecl, InputTy, Local, Memory};
use std::alloc::Global;
use std::collections::BTreeMap;
use topology::Network;
use value_bounds::{LocalBound, either, exactly};

/// What is said of the inputs of devices, each by the number of the device and its own.
pub fn inputs_said(
    alloc: Global,
    network: &Network,
    lines: &[ChangeLine],
) -> Result<BTreeMap<(u32, usize), LocalBound>, Memory>
    ensures { IfOk result (AreInputsSaid network.now (said (map line_in lines.now))) }
{
    let mut table = scene_inputs(alloc, network)?;
    for line in lines {
        if let Some(change) = &line.change {
            say_change(alloc, &mut table, &network.declared().inputs, change)?;
        }
    }
    Ok(table)
}

// The values of a scene are exact.
fn scene_inputs(
    alloc: Global,
    network: &Network,
) -> Result<BTreeMap<(u32, usize), LocalBound>, Memory>
    ensures { IfOk result (λ m. (d i : ℕ) →
        bound_at m d i ≡ option_map exactly_of (slice_get (inputs_in d network.now.devices) i)) }
{
    let mut table = BTreeMap::new(alloc);
    for device in network.devices() {
        put_inputs(alloc, &mut table, device.id, &device.inputs)?;
    }
    Ok(table)
}

fn put_inputs(
    alloc: Global,
    table: &mut BTreeMap<(u32, usize), LocalBound>,
    device: u32,
    values: &[Local],
) -> Result<(), Memory>
    ensures { OnOk result ((d i : ℕ) → bound_at table.new d i ≡ (if nat_eq d device
        then option_or (option_map exactly_of (slice_get (map local_of values.now) i)) (bound_at table.old d i)
        else bound_at table.old d i)) }
{
    for i in 0..values.len() {
        table.insert((device, i), exactly(alloc, &values[i])?)?;
    }
    Ok(())
}

fn say_change(
    alloc: Global,
    table: &mut BTreeMap<(u32, usize), LocalBound>,
    inputs: &[InputDecl],
    change: &Change,
) -> Result<(), Memory>
    ensures { OnOk result (AddsLine (map input_of inputs.now) (change_in change.now) table.old table.new) }
{
    match change {
        Change::Set(device, input, possible) => {
            say_set(alloc, table, inputs, (*device, *input as usize), *possible)
        }
        Change::Join(device, values) => say_join(alloc, table, inputs, *device, values),
        _ => Ok(()),
    }
}

fn say_set(
    alloc: Global,
    table: &mut BTreeMap<(u32, usize), LocalBound>,
    inputs: &[InputDecl],
    place: (u32, usize),
    possible: Possible,
) -> Result<(), Memory>
    ensures { OnOk result (AddsLine (map input_of inputs.now) (SetChange place.0 place.1 possible) table.old table.new) }
{
    match inputs.get(place.1) {
        Some(input) => say(alloc, table, place, bound_of(input.ty, possible)),
        None => Ok(()),
    }
}

fn say_join(
    alloc: Global,
    table: &mut BTreeMap<(u32, usize), LocalBound>,
    inputs: &[InputDecl],
    device: u32,
    values: &[Possible],
) -> Result<(), Memory>
    ensures { OnOk result (AddsLine (map input_of inputs.now) (JoinChange device values.now) table.old table.new) }
{
    let count = inputs.len().min(values.len());
    for i in 0..count {
        say(alloc, table, (device, i), bound_of(inputs[i].ty, values[i]))?;
    }
    Ok(())
}

fn bound_of(ty: InputTy, possible: Possible) -> LocalBound
    ensures { local_bound_in result ≡ possible_bound ty possible }
{
    match possible {
        Possible::Numbers(range) => LocalBound::Between(range.least, range.greatest),
        Possible::Truth(truth) => LocalBound::Truths(truth, truth),
        Possible::Pair => LocalBound::Unbounded,
        Possible::Any => whole_bound(ty),
    }
}

fn whole_bound(ty: InputTy) -> LocalBound
    ensures { local_bound_in result ≡ whole ty }
{
    match ty {
        InputTy::Truth => LocalBound::Truths(false, true),
        InputTy::Whole(least, greatest) => LocalBound::Between(least, greatest),
    }
}

// An input of a device may have more values.
fn say(
    alloc: Global,
    table: &mut BTreeMap<(u32, usize), LocalBound>,
    place: (u32, usize),
    bound: LocalBound,
) -> Result<(), Memory>
    ensures { OnOk result ((d i : ℕ) → bound_at table.new d i ≡ (if nat_eq d place.0 && nat_eq i place.1
        then Some (widened (bound_at table.old d i) (local_bound_in bound)) else bound_at table.old d i)) }
{
    let joint = joint(alloc, table.get(&place), bound)?;
    table.insert(place, joint)?;
    Ok(())
}

fn joint(
    alloc: Global,
    before: Option<&LocalBound>,
    bound: LocalBound,
) -> Result<LocalBound, Memory>
    ensures { IfOk result (λ b. local_bound_in b
        ≡ widened (option_map local_bound_in (option_copied before.entry)) (local_bound_in bound)) }
{
    match before {
        Some(one) => either(alloc, one, &bound),
        None => Ok(bound),
    }
}
