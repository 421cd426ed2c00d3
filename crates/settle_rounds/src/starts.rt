//! Settle rounds from the exports of a core and its copies in flight.

ghost use Rattle.std.specs.Prelude.{◌≡◌, ◌<◌, ◌≤◌, [], IfOk, IfSome, OnOk, None, false, length, map, option_map, true};
ghost use Rattle.fc_nodes.specs.Program.{unfolding_of};
ghost use Rattle.fc_nodes.specs.Terms.{kept};
ghost use Rattle.value_trees.specs.Snaps.{IsExportOf, IsSnap, snap_copy, tree_of};
ghost use Rattle.topology.specs.Networks.{Network as PlainNetwork, lives};
ghost use Rattle.firing_core.specs.Cores.{Core as PlainCore};
ghost use Rattle.firing_core.specs.CoreViews.{IsSameCore, core_of, program_of};
ghost use Rattle.value_bounds.specs.References.{local_bounds_in};
ghost use Rattle.bound_firing.specs.Exports.{bound_export};
ghost use Rattle.bound_firing.specs.ExportReferences.{export_bound_in, situation_for};
ghost use Rattle.bound_firing.specs.Firing.{bound_of};
ghost use Rattle.envelopes.specs.Envelopes.{Envelope as EnvelopeValue, surely_lives};
ghost use Rattle.envelopes.specs.Exactly.{exact_envelope as envelope_in};
ghost use Rattle.bound_rounds.specs.Tables.{FitTable, device_at};
ghost use Rattle.settle_rounds.specs.Starts.{growing_cap};
ghost use Rattle.settle_rounds.specs.Within.{FirstWithin, no_seats};
ghost use Rattle.settle_rounds.specs.References.{FirstBounds, GrowsOn, HasState, IsGrown, IsSettledFrom};
ghost use Rattle.settle_rounds.specs.References.{LandingBound, SameButFlight, StartBounds, StateBound, settled_in};

use crate::limits::growing_cap;
use crate::settling::{Settled, any_bounds, settle_over};
use bound_firing::{ExportBound, Seats, any_export_bound, fire_bounds};
use bound_rounds::{RoundKind, round, table_of};
use device_eval::{Scratch, evaluate};
use envelopes::{DeviceBound, Envelope, exact_envelope};
use export_bounds::{exact_export_bound, widen_bound};
use fc_nodes::Unfolded;
use fc_values::{Export, Memory};
use firing_core::{Core, StepFault};
use std::alloc::Global;
use value_trees::Snap;

/// The settle round and the value of each device from the exports of a core and its copies in flight, by rising number;
/// none where its value isn't known after so many rounds. A device that has neither begins a firing.
pub fn settle_from(alloc: Global, core: &mut Core, cap: u32) -> Result<Vec<Option<Settled>>, Memory>
    ensures settled { IfOk result (λ v. IsSettledFrom (program_of core.old) (envelope_in core.old.net) core.old.net
        (growing_cap (length core.old.net.devices)) cap (core_of core.old) (map (option_map settled_in) v.items)) }
    ensures same { IsSameCore core.old core.new }
{
    let envelope = exact_envelope(alloc, core.net())?;
    let start = start_bounds(alloc, core, &envelope)?;
    let settled = settle_over(alloc, core.program(), &envelope, start, cap)?;
    Ok(settled)
}

/// The table from which rounds within an envelope are counted that begin with the exports of a core and its copies in
/// flight: first bounds, grown until they are full; or any exports, where that takes too many rounds.
pub fn start_bounds(
    alloc: Global,
    core: &mut Core,
    envelope: &Envelope,
) -> Result<Vec<ExportBound>, Memory>
    requires declared { envelope.now.declared ≡ core.old.program.declared }
    requires some { 1 ≤ length envelope.now.devices }
    ensures start { IfOk result (λ v. StartBounds (program_of core.old) envelope.now core.old.net
        (growing_cap (length envelope.now.devices)) (core_of core.old) v.items) }
    ensures same { IsSameCore core.old core.new }
{
    let first = first_bounds(alloc, core, envelope)?;
    let start = grown_bounds(alloc, core.program(), envelope, first)?;
    Ok(start)
}

// The same from first bounds.
fn grown_bounds(
    alloc: Global,
    program: &Unfolded,
    envelope: &Envelope,
    first: Vec<ExportBound>,
) -> Result<Vec<ExportBound>, Memory>
    requires declared { envelope.now.declared ≡ program.now.declared }
    requires some { 1 ≤ length envelope.now.devices }
    requires fits { FitTable (unfolding_of program.now) envelope.now first.items }
    ensures { IfOk result (λ v. (n : PlainNetwork) (c : PlainCore)
        → FirstBounds (unfolding_of program.now) envelope.now n c first.items
        → StartBounds (unfolding_of program.now) envelope.now n (growing_cap (length envelope.now.devices)) c v.items) }
{
    let most = growing_cap(envelope.devices().len());
    if let Some(grown) = grow(alloc, program, envelope, first, most)? {
        return Ok(grown);
    }
    let any = any_bounds(alloc, program, envelope)?;
    Ok(any)
}

// What first bounds grow to until they are full, unless they grow longer than so many rounds.
fn grow(
    alloc: Global,
    program: &Unfolded,
    envelope: &Envelope,
    first: Vec<ExportBound>,
    most: u32,
) -> Result<Option<Vec<ExportBound>>, Memory>
    requires declared { envelope.now.declared ≡ program.now.declared }
    requires fits { FitTable (unfolding_of program.now) envelope.now first.items }
    ensures grown { IfOk result (λ o. IfSome o (λ v. IsGrown (unfolding_of program.now) envelope.now most first.items
        v.items)) }
    ensures longer { IfOk result (λ o. o ≡ None → GrowsOn (unfolding_of program.now) envelope.now most first.items) }
{
    let mut table = table_of(alloc, program, envelope, first)?;
    let mut rounds = 0;
    loop {
        let grows = round(alloc, RoundKind::Growing, program, envelope, &mut table)?;
        if !grows {
            return Ok(Some(table.bounds));
        }
        if rounds == most {
            return Ok(None);
        }
        rounds += 1;
    }
}

// The first bound of each device that may be there.
fn first_bounds(
    alloc: Global,
    core: &mut Core,
    envelope: &Envelope,
) -> Result<Vec<ExportBound>, Memory>
    ensures first { IfOk result (λ v. FirstBounds (program_of core.old) envelope.now core.old.net (core_of core.old)
        v.items) }
    ensures same { IsSameCore core.old core.new }
{
    let count = envelope.devices().len();
    let mut bounds = Vec::with_capacity(alloc, count)?;
    for place in 0..count {
        bounds.push(first_bound(alloc, core, envelope, place)?)?;
    }
    Ok(bounds)
}

// The first bound of the device at a place.
fn first_bound(
    alloc: Global,
    core: &mut Core,
    envelope: &Envelope,
    place: usize,
) -> Result<ExportBound, Memory>
    requires { place < length envelope.now.devices }
    ensures bound { IfOk result (λ b. FirstWithin (program_of core.old) envelope.now core.old.net (core_of core.old)
        (device_at envelope.now place) (export_bound_in (program_of core.old) b)) }
    ensures slots { IfOk result (λ b. length b.slots.items ≡ kept (program_of core.old).main) }
    ensures same { SameButFlight core.old (device_at envelope.now place) core.new }
{
    let device = &envelope.devices()[place];
    if core.net().place(device.id).is_some() {
        let bound = standing_bound(alloc, core, device.id, device.sure)?;
        return Ok(bound);
    }
    let bound = alone(alloc, core.program(), device)?;
    Ok(bound)
}

// The first bound of a device that is there. One that has neither an export nor a copy in flight begins a firing.
fn standing_bound(
    alloc: Global,
    core: &mut Core,
    device: u32,
    sure: bool,
) -> Result<ExportBound, Memory>
    requires { lives core.old.net device ≡ true }
    ensures bound { IfOk result (λ b. (e : EnvelopeValue) → surely_lives e device ≡ sure
        → FirstWithin (program_of core.old) e core.old.net (core_of core.old) device
        (export_bound_in (program_of core.old) b)) }
    ensures slots { IfOk result (λ b. length b.slots.items ≡ kept (program_of core.old).main) }
    ensures same { SameButFlight core.old device core.new }
{
    take_off(alloc, core, device)?;
    let bound = state_bound(
        alloc,
        core.program(),
        core.export(device),
        core.flying(device),
        sure,
    )?;
    Ok(bound)
}

// What a device makes on its own, without an export before and without neighbours.
fn alone(alloc: Global, program: &Unfolded, device: &DeviceBound) -> Result<ExportBound, Memory>
    ensures bound { IfOk result (λ b. export_bound_in (unfolding_of program.now) b
        ≡ bound_export false (bound_of (situation_for program.now.declared device.now.id
        (local_bounds_in device.now.inputs.items)) 0 (unfolding_of program.now).main [] no_seats)) }
    ensures slots { IfOk result (λ b. length b.slots.items ≡ kept (unfolding_of program.now).main) }
{
    let mut bound = any_export_bound(alloc, program)?;
    let seats = Seats {
        own: None,
        near: Vec::new(alloc),
    };
    fire_bounds(
        alloc,
        program,
        device.id,
        &device.inputs,
        &seats,
        false,
        &mut bound,
    )?;
    Ok(bound)
}

// Begins a firing of a device that has neither an export nor a copy in flight.
fn take_off(alloc: Global, core: &mut Core, device: u32) -> Result<(), Memory>
    requires { lives core.old.net device ≡ true }
    ensures state { OnOk result (HasState core.old.net (core_of core.old) (core_of core.new) device) }
    ensures same { SameButFlight core.old device core.new }
{
    if core.export(device).is_some() || core.flying(device).is_some() {
        return Ok(());
    }
    match core.begin(alloc, device) {
        Ok(()) => Ok(()),
        Err(StepFault::Memory) => Err(Memory),
        Err(_) => unreachable!(),
    }
}

// What an export and a copy in flight hold, of which one at least is there.
fn state_bound(
    alloc: Global,
    program: &Unfolded,
    export: Option<&Export>,
    flying: Option<&Snap>,
    sure: bool,
) -> Result<ExportBound, Memory>
    requires export { IfSome export (λ e. IsExportOf (unfolding_of program.now) e.now) }
    requires flying { IfSome flying (λ s. IsSnap (unfolding_of program.now) s.now) }
    requires some { export ≡ None → flying ≡ None → ⊥ }
    ensures bound { IfOk result (λ b. StateBound (unfolding_of program.now) sure
        (option_map (λ e. tree_of (unfolding_of program.now) e.now) export.entry)
        (option_map (λ s. snap_copy (unfolding_of program.now) s.now) flying.entry)
        (export_bound_in (unfolding_of program.now) b)) }
    ensures slots { IfOk result (λ b. length b.slots.items ≡ kept (unfolding_of program.now).main) }
{
    match (export, flying) {
        (Some(export), Some(snap)) => {
            let stands = exact_export_bound(alloc, export, sure)?;
            let mut both = landing(alloc, program, snap, sure)?;
            widen_bound(alloc, program, &stands, &mut both)?;
            Ok(both)
        }
        (Some(export), None) => {
            let stands = exact_export_bound(alloc, export, sure)?;
            Ok(stands)
        }
        (None, Some(snap)) => {
            let lands = landing(alloc, program, snap, false)?;
            Ok(lands)
        }
        (None, None) => unreachable!(),
    }
}

// The bound of the export that a copy evaluates to.
fn landing(
    alloc: Global,
    program: &Unfolded,
    snap: &Snap,
    sure: bool,
) -> Result<ExportBound, Memory>
    requires { IsSnap (unfolding_of program.now) snap.now }
    ensures bound { IfOk result (LandingBound (unfolding_of program.now) (snap_copy (unfolding_of program.now) snap.now)
        sure) }
    ensures slots { IfOk result (λ b. length b.slots.items ≡ kept (unfolding_of program.now).main) }
{
    let mut scratch = Scratch::new(alloc);
    let export = evaluate(alloc, &mut scratch, program, snap)?;
    let bound = exact_export_bound(alloc, &export, sure)?;
    Ok(bound)
}
