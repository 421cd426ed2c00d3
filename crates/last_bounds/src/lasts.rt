//! The last bound of each device.

ghost use Rattle.std.specs.Prelude.{◌≡◌, ◌<◌, ◌≤◌, IfOk, length, map};
ghost use Rattle.fc_nodes.specs.Program.{unfolding_of};
ghost use Rattle.value_bounds.specs.References.{local_bound_in, local_bounds_in};
ghost use Rattle.bound_rounds.specs.Rounds.{BoundTable};
ghost use Rattle.bound_rounds.specs.Tables.{FitTable, Stand};
ghost use Rattle.last_bounds.specs.LastBounds.{AreLastBounds};
ghost use Rattle.last_bounds.specs.References.{AreMade, IsMade, change_in, last_bound_in, values_in};

use crate::changes::{Change, first_rounds, no_changes};
use crate::ends::rounds_to_end;
use bound_firing::ExportBound;
use bound_rounds::table_of;
use envelopes::{DeviceBound, Envelope};
use fc_nodes::Unfolded;
use fc_values::Memory;
use std::alloc::Global;
use value_bounds::{LocalBound, copy_bound};

/// What is said of a device: the bound of its value in the last table, after how many rounds it first has this bound,
/// the bound before any round, and whether the device may be away.
#[derive(Drop)]
pub struct LastBound {
    pub device: u32,
    pub rounds: u32,
    pub bound: LocalBound,
    pub before: LocalBound,
    pub away: bool,
}

/// The last bounds of all devices of an envelope, by rising number, with rounds from a table of bounds and at most so
/// many of them.
pub fn last_bounds(
    alloc: Global,
    program: &Unfolded,
    envelope: &Envelope,
    start: Vec<ExportBound>,
    cap: u32,
) -> Result<Vec<LastBound>, Memory>
    requires declared { envelope.now.declared ≡ program.now.declared }
    requires fits { FitTable (unfolding_of program.now) envelope.now start.items }
    requires some { 1 ≤ cap }
    ensures { IfOk result (λ v. (table : BoundTable) → Stand (unfolding_of program.now) envelope.now table start.items
        → AreLastBounds (unfolding_of program.now) envelope.now table cap (map last_bound_in v.items)) }
{
    let before = values_of(alloc, &start)?;
    let mut table = table_of(alloc, program, envelope, start)?;
    let mut changes = no_changes(alloc, envelope)?;
    let rounds = rounds_to_end(alloc, program, envelope, cap, &mut table, &mut changes)?;
    let lasts = bounds_at_end(alloc, envelope, &before, &table.bounds, &changes, rounds)?;
    Ok(lasts)
}

// Copies of the values of bounds.
fn values_of(alloc: Global, bounds: &[ExportBound]) -> Result<Vec<LocalBound>, Memory>
    ensures { IfOk result (λ v. local_bounds_in v.items ≡ values_in bounds.now) }
{
    let mut values = Vec::with_capacity(alloc, bounds.len())?;
    for bound in bounds {
        values.push(copy_bound(alloc, &bound.value)?)?;
    }
    Ok(values)
}

// The same from the values before any round, the last table, what was noted on the way to it, and the number of rounds.
fn bounds_at_end(
    alloc: Global,
    envelope: &Envelope,
    before: &[LocalBound],
    bounds: &[ExportBound],
    changes: &[Vec<Change>],
    rounds: u32,
) -> Result<Vec<LastBound>, Memory>
    requires before { length before.now ≡ length envelope.now.devices }
    requires bounds { length bounds.now ≡ length envelope.now.devices }
    requires changes { length changes.now ≡ length envelope.now.devices }
    ensures made { IfOk result (λ v. AreMade envelope.now (local_bounds_in before.now) bounds.now changes.now rounds
        (length envelope.now.devices) v.items) }
    ensures many { IfOk result (λ v. length v.items ≡ length envelope.now.devices) }
{
    let count = envelope.devices().len();
    let mut lasts = Vec::with_capacity(alloc, count)?;
    for place in 0..count {
        let device = &envelope.devices()[place];
        let first = &before[place];
        let last = &bounds[place].value;
        lasts.push(last_bound(alloc, device, first, last, &changes[place], rounds)?)?;
    }
    Ok(lasts)
}

// That of one device.
fn last_bound(
    alloc: Global,
    device: &DeviceBound,
    before: &LocalBound,
    last: &LocalBound,
    changes: &[Change],
    rounds: u32,
) -> Result<LastBound, Memory>
    ensures { IfOk result (IsMade device.now.id device.now.sure (local_bound_in before.now) (local_bound_in last.now)
        (map change_in changes.now) rounds) }
{
    Ok(LastBound {
        device: device.id,
        rounds: first_rounds(changes, last, rounds),
        bound: copy_bound(alloc, last)?,
        before: copy_bound(alloc, before)?,
        away: !device.sure,
    })
}
