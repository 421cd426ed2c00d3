//! How the bounds of devices change from round to round.

ghost use Rattle.std.specs.Prelude.{◌≡◌, ◌||◌, [], All, IfOk, OnOk, length, map, not};
ghost use Rattle.std.specs.declared.alloc.Global.{Global};
ghost use Rattle.std.specs.declared.vec.Vec.{Vec};
ghost use Rattle.value_bounds.specs.References.{local_bound_in};
ghost use Rattle.last_bounds.specs.declared.changes.Change.{Change};
ghost use Rattle.last_bounds.specs.References.{AreNoted, IsFirst, IsNoted, change_in, changes_in};

use bound_firing::ExportBound;
use envelopes::{DeviceBound, Envelope};
use fc_values::Memory;
use std::alloc::Global;
use value_bounds::{LocalBound, copy_bound, same_bound};

/// A bound that the value of a device comes to have, and after how many rounds.
#[derive(Drop)]
pub struct Change {
    pub rounds: u32,
    pub bound: LocalBound,
}

/// No change of any device.
pub(crate) fn no_changes(alloc: Global, envelope: &Envelope) -> Result<Vec<Vec<Change>>, Memory>
    ensures many { IfOk result (λ v. length v.items ≡ length envelope.now.devices) }
    ensures none { IfOk result (λ v. All (λ (cs : Vec Change Global). cs.items ≡ []) v.items) }
{
    let count = envelope.devices().len();
    let mut changes = Vec::with_capacity(alloc, count)?;
    for _ in 0..count {
        changes.push(Vec::new(alloc))?;
    }
    Ok(changes)
}

/// Notes the bounds after so many rounds, of each device whose export is there for sure or that may be away.
pub(crate) fn note_bounds(
    alloc: Global,
    envelope: &Envelope,
    rounds: u32,
    bounds: &[ExportBound],
    changes: &mut [Vec<Change>],
) -> Result<(), Memory>
    requires bounds { length bounds.now ≡ length envelope.now.devices }
    requires changes { length changes.old ≡ length envelope.now.devices }
    ensures { OnOk result (AreNoted envelope.now rounds bounds.now (length envelope.now.devices) changes.old
        changes.new) }
{
    for place in 0..envelope.devices().len() {
        let bound = &bounds[place];
        if counts(bound, &envelope.devices()[place]) {
            note(alloc, rounds, &bound.value, &mut changes[place])?;
        }
    }
    Ok(())
}

// Whether the bound of a device counts: its export is there for sure, or the device may be away.
fn counts(bound: &ExportBound, device: &DeviceBound) -> bool
    ensures { result ≡ (bound.now.sure || not device.now.sure) }
{
    bound.sure || !device.sure
}

// Notes a bound after so many rounds, unless it is the one that was noted last.
fn note(
    alloc: Global,
    rounds: u32,
    bound: &LocalBound,
    changes: &mut Vec<Change>,
) -> Result<(), Memory>
    ensures { OnOk result (IsNoted rounds (local_bound_in bound.now) (changes_in changes.old) (changes_in changes.new)) }
{
    if let Some(last) = changes.last()
        && same_bound(&last.bound, bound)
    {
        return Ok(());
    }
    let bound = copy_bound(alloc, bound)?;
    changes.push(Change { rounds, bound })?;
    Ok(())
}

/// After how many rounds a device first had a bound; where it never had, the number that is given.
pub(crate) fn first_rounds(changes: &[Change], bound: &LocalBound, never: u32) -> u32
    ensures { IsFirst (local_bound_in bound.now) never (map change_in changes.now) result }
{
    for change in changes {
        if same_bound(&change.bound, bound) {
            return change.rounds;
        }
    }
    never
}
