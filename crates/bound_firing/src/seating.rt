//! Seats in a branch, and bounds of fields over seats.

ghost use Rattle.std.specs.Prelude.{◌≡◌, ◌<◌, IfOk, IfSome, IsTrue, length, option_map};
ghost use Rattle.value_bounds.specs.BoundValues.{Between};
ghost use Rattle.value_bounds.specs.BoundBuiltins.{BoundField};
ghost use Rattle.value_bounds.specs.References.{local_bound_in, local_bounds_in, entries_in};
ghost use Rattle.value_bounds.specs.References.{field_bound_in, any_bound_in, lent_bound_in};
ghost use Rattle.bound_firing.specs.BoundTrees.{slot_bound};
ghost use Rattle.bound_firing.specs.Seats.{may_be as truth_may_be, is_settled as truth_is_settled};
ghost use Rattle.bound_firing.specs.Seats.{is_there, is_sure, cut_to, cut_entries};
ghost use Rattle.bound_firing.specs.Held.{AreSeated};
ghost use Rattle.bound_firing.specs.FlatSeats.{SlotsHave, NearHaveSlot, flat_maybes};
ghost use Rattle.bound_firing.specs.FlatSeats.{flat_branch, flat_own_branch, flat_near_branch};
ghost use Rattle.bound_firing.specs.FlatSeats.{flat_entries, flat_weight, flat_slot, flat_own_bound};
ghost use Rattle.bound_firing.specs.References.{own_seat_in, near_seats_in, flat_seats_in};

use crate::seats::{NearSeat, OwnSeat, Seats};
use fc_values::Memory;
use std::alloc::Global;
use value_bounds::{Bound, BoundEntry, BoundRef, FieldBound, LocalBound, copy_bound, either};

/// The seats in the branch of a truth value: those whose bound in the slot of an `if` holds it. One is sure there where
/// it was before and its bound is known.
pub fn seats_in_branch<'a>(
    alloc: Global,
    seats: &Seats<'a>,
    slot: u32,
    truth: bool,
) -> Result<Seats<'a>, Memory>
    requires { SlotsHave slot (flat_seats_in seats.now) }
    ensures { IfOk result (λ s. flat_seats_in s ≡ flat_branch slot truth (flat_seats_in seats.now)) }
{
    let near = near_in_branch(alloc, &seats.near, slot, truth)?;
    let own = match &seats.own {
        Some(seat) => own_in_branch(seat, slot, truth),
        None => None,
    };
    Ok(Seats { own, near })
}

// The own seat in a branch, if it is there.
fn own_in_branch<'a>(seat: &OwnSeat<'a>, slot: u32, truth: bool) -> Option<OwnSeat<'a>>
    requires { slot < length (own_seat_in seat.now).1 }
    ensures { option_map own_seat_in result ≡ flat_own_branch slot truth (Some (own_seat_in seat.now)) }
{
    let bound = slot_at(seat.slots, slot);
    if may_be(truth, bound) {
        let sure = seat.sure && is_settled(bound);
        Some(OwnSeat { sure, ..*seat })
    } else {
        None
    }
}

// The neighbours in a branch.
fn near_in_branch<'a>(
    alloc: Global,
    all: &[NearSeat<'a>],
    slot: u32,
    truth: bool,
) -> Result<Vec<NearSeat<'a>>, Memory>
    requires { NearHaveSlot slot (near_seats_in all.now) }
    ensures { IfOk result (λ v. near_seats_in v.items ≡ flat_near_branch slot truth (near_seats_in all.now)) }
{
    let mut near = Vec::with_capacity(alloc, all.len())?;
    for seat in all {
        let bound = slot_at(seat.slots, slot);
        if may_be(truth, bound) {
            let sure = seat.sure && is_settled(bound);
            near.push(NearSeat { sure, ..*seat })?;
        }
    }
    Ok(near)
}

/// The bound of the field of the links' weights, with the least weight at the device itself.
pub fn seat_weights(alloc: Global, seats: &Seats<'_>, least: u32) -> Result<FieldBound, Memory>
    ensures { IfOk result (λ f. field_bound_in f ≡ BoundField (Between least least)
        (flat_entries flat_weight (flat_seats_in seats.now).near)) }
{
    let near = seats.near.as_slice();
    let mut entries = Vec::with_capacity(alloc, near.len())?;
    for seat in near {
        entries.push(BoundEntry {
            device: seat.device,
            sure: seat.sure,
            bound: LocalBound::Between(seat.least, seat.greatest),
        })?;
    }
    let own = LocalBound::Between(least, least);
    Ok(FieldBound { own, entries })
}

/// The bound of the field of what the neighbours have in a slot, with a bound at the device itself.
pub fn seat_field(
    alloc: Global,
    seats: &Seats<'_>,
    slot: u32,
    own: LocalBound,
) -> Result<FieldBound, Memory>
    requires { SlotsHave slot (flat_seats_in seats.now) }
    ensures { IfOk result (λ f. field_bound_in f ≡ BoundField (local_bound_in own)
        (flat_entries (flat_slot slot) (flat_seats_in seats.now).near)) }
{
    let near = seats.near.as_slice();
    let mut entries = Vec::with_capacity(alloc, near.len())?;
    for seat in near {
        entries.push(BoundEntry {
            device: seat.device,
            sure: seat.sure,
            bound: copy_bound(alloc, slot_at(seat.slots, slot))?,
        })?;
    }
    Ok(FieldBound { own, entries })
}

/// What the own seat has in a slot, or a first bound where there is no own seat; either where there may be one.
pub fn own_or_first(
    alloc: Global,
    seats: &Seats<'_>,
    slot: u32,
    first: LocalBound,
) -> Result<LocalBound, Memory>
    requires { SlotsHave slot (flat_seats_in seats.now) }
    ensures { IfOk result (λ b. local_bound_in b
        ≡ flat_own_bound slot (flat_seats_in seats.now).own (local_bound_in first)) }
{
    match &seats.own {
        Some(seat) => {
            let held = slot_at(seat.slots, slot);
            if seat.sure {
                copy_bound(alloc, held)
            } else {
                either(alloc, &first, held)
            }
        }
        None => Ok(first),
    }
}

/// A bound of a variable's value as it is at these seats: that of a field is cut down to their neighbours, and one is
/// sure where it was before and has a sure seat.
pub fn cut_to_seats(alloc: Global, bound: &BoundRef<'_>, seats: &Seats<'_>) -> Result<Bound, Memory>
    ensures { IfOk result (λ b. any_bound_in b
        ≡ cut_to (flat_maybes (flat_seats_in seats.now).near) (lent_bound_in bound.now)) }
{
    match bound {
        BoundRef::Local(local) => Ok(Bound::Local(copy_bound(alloc, local)?)),
        BoundRef::Field(field) => Ok(Bound::Field(FieldBound {
            own: copy_bound(alloc, &field.own)?,
            entries: cut_to_near(alloc, &field.entries, &seats.near)?,
        })),
        BoundRef::Any => Ok(Bound::Any),
    }
}

/// The bound of a variable's value where it is the same at these seats, so that it needn't be copied.
pub fn as_it_is<'a>(bound: &BoundRef<'a>, seats: &Seats<'_>) -> Option<BoundRef<'a>>
    ensures { IfSome result (λ b. lent_bound_in b
        ≡ cut_to (flat_maybes (flat_seats_in seats.now).near) (lent_bound_in bound.now)) }
{
    match bound {
        BoundRef::Local(_) | BoundRef::Any => Some(*bound),
        BoundRef::Field(field) => {
            if are_seated(&field.entries, &seats.near) {
                Some(*bound)
            } else {
                None
            }
        }
    }
}

// Whether entries are of the first neighbours, one by one, and sure only where their seats are.
fn are_seated(entries: &[BoundEntry], near: &[NearSeat<'_>]) -> bool
    ensures { IsTrue result → AreSeated (flat_maybes (near_seats_in near.now)) (entries_in entries.now) }
{
    let Some((entry, rest)) = entries.split_first() else {
        return true;
    };
    let Some((seat, others)) = near.split_first() else {
        return false;
    };
    entry.device == seat.device && (!entry.sure || seat.sure) && are_seated(rest, others)
}

// The entries of neighbours that have a seat. Where entries and seats are in one order, a seat is found at the first
// look.
fn cut_to_near(
    alloc: Global,
    entries: &[BoundEntry],
    near: &[NearSeat<'_>],
) -> Result<Vec<BoundEntry>, Memory>
    ensures { IfOk result (λ v. entries_in v.items
        ≡ cut_entries (flat_maybes (near_seats_in near.now)) (entries_in entries.now)) }
{
    let mut cut = Vec::with_capacity(alloc, near.len())?;
    for entry in entries {
        let next = cut.len();
        if has_seat(near, next, entry.device) {
            cut.push(BoundEntry {
                device: entry.device,
                sure: entry.sure && has_sure_seat(near, next, entry.device),
                bound: copy_bound(alloc, &entry.bound)?,
            })?;
        }
    }
    Ok(cut)
}

// Whether a device has a seat. It looks first at an index.
fn has_seat(near: &[NearSeat<'_>], index: usize, device: u32) -> bool
    ensures { result ≡ is_there device (flat_maybes (near_seats_in near.now)) }
{
    match near.get(index) {
        Some(seat) if seat.device == device => true,
        _ => near.iter().any(|seat| device == seat.device),
    }
}

// Whether a device has a sure seat. It looks first at an index.
fn has_sure_seat(near: &[NearSeat<'_>], index: usize, device: u32) -> bool
    ensures { result ≡ is_sure device (flat_maybes (near_seats_in near.now)) }
{
    match near.get(index) {
        Some(seat) if seat.device == device && seat.sure => true,
        _ => near.iter().any(|seat| device == seat.device && seat.sure),
    }
}

/// Whether a truth value may be this one.
pub fn may_be(truth: bool, bound: &LocalBound) -> bool
    ensures { result ≡ truth_may_be truth (local_bound_in bound.now) }
{
    match (bound, truth) {
        (LocalBound::Truths(_, may), true) => *may,
        (LocalBound::Truths(must, _), false) => !*must,
        _ => true,
    }
}

/// Whether a truth value is known.
pub fn is_settled(bound: &LocalBound) -> bool
    ensures { result ≡ truth_is_settled (local_bound_in bound.now) }
{
    match bound {
        LocalBound::Truths(must, may) => *must == *may,
        _ => false,
    }
}

// The bound in a slot.
pub(crate) fn slot_at(slots: &[LocalBound], slot: u32) -> &LocalBound
    requires { slot < length (local_bounds_in slots.now) }
    ensures { local_bound_in result.now ≡ slot_bound slot (local_bounds_in slots.now) }
{
    &slots[slot as usize]
}
