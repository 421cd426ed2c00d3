//! What operators make of bounds of any values: at the device itself, and at the neighbours of the first field.

ghost use Rattle.std.specs.Prelude.{◌≡◌, IfOk, true};
ghost use Rattle.fc_values.specs.Fields.{rises};
ghost use Rattle.value_bounds.specs.BoundBuiltins.{BoundField, bound_at as bound_there, bounds_at, entries_over};
ghost use Rattle.value_bounds.specs.BoundBuiltins.{entry_at, local_bound, maybes_in, pointwise_by, spread_of};
ghost use Rattle.value_bounds.specs.BoundValues.{Unbounded};
ghost use Rattle.value_bounds.specs.Lookups.{all_in_order, in_order, numbers_in};
ghost use Rattle.value_bounds.specs.References.{any_bound_in, entries_in, field_bound_in, lent_bound_in};
ghost use Rattle.value_bounds.specs.References.{lent_bounds_in, local_bound_in};

use crate::bounds::{Bound, BoundEntry, BoundRef, FieldBound, LocalBound};
use crate::locals::{of_one, of_three, of_two};
use fc_values::{Builtin, Memory};
use std::alloc::Global;

// Where arguments are read: at the neighbour of this number, as seen from the device. If all fields are in order, the
// entry at the position is looked at first.
#[derive(Clone, Copy)]
struct Place {
    device: u32,
    number: u32,
    position: usize,
    in_order: bool,
}

/// The bound of what an operator makes, at a device, of values in bounds.
pub fn pointwise(
    alloc: Global,
    builtin: Builtin,
    args: &[BoundRef<'_>],
    device: u32,
    ceiling: u32,
) -> Result<Bound, Memory>
    ensures { let bounds = lent_bounds_in args.now in IfOk result (λ b.
        any_bound_in b ≡ pointwise_by (local_bound builtin ceiling) device (spread_of bounds) bounds) }
{
    for arg in args {
        match arg {
            BoundRef::Local(_) => {}
            BoundRef::Field(field) => {
                return Ok(Bound::Field(apply_over(alloc, builtin, args, field, device, ceiling)?));
            }
            BoundRef::Any => return Ok(Bound::Any),
        }
    }
    let place = Place {
        device,
        number: 0,
        position: 0,
        in_order: false,
    };
    Ok(Bound::Local(apply_at(alloc, builtin, args, place, ceiling)?))
}

// At the device itself and at the neighbours of the first field, which is given.
fn apply_over(
    alloc: Global,
    builtin: Builtin,
    args: &[BoundRef<'_>],
    field: &FieldBound,
    device: u32,
    ceiling: u32,
) -> Result<FieldBound, Memory>
    ensures { let bounds = lent_bounds_in args.now in IfOk result (λ f. field_bound_in f
        ≡ BoundField (local_bound builtin ceiling (bounds_at device device bounds))
        (entries_over (λ k. local_bound builtin ceiling (bounds_at device k bounds))
        (maybes_in (entries_in field.now.entries.items)))) }
{
    let here = Place {
        device,
        number: device,
        position: 0,
        in_order: are_in_order(args),
    };
    let mut entries = Vec::with_capacity(alloc, field.entries.len())?;
    for (position, entry) in field.entries.iter().enumerate() {
        let place = Place {
            number: entry.device,
            position,
            ..here
        };
        let bound = apply_at(alloc, builtin, args, place, ceiling)?;
        entries.push(BoundEntry {
            device: entry.device,
            sure: entry.sure,
            bound,
        })?;
    }
    let own = apply_at(alloc, builtin, args, here, ceiling)?;
    Ok(FieldBound { own, entries })
}

// At one place.
fn apply_at(
    alloc: Global,
    builtin: Builtin,
    args: &[BoundRef<'_>],
    place: Place,
    ceiling: u32,
) -> Result<LocalBound, Memory>
    requires { place.in_order ≡ true → all_in_order (lent_bounds_in args.now) ≡ true }
    ensures { IfOk result (λ r. local_bound_in r
        ≡ local_bound builtin ceiling (bounds_at place.device place.number (lent_bounds_in args.now))) }
{
    let outside = LocalBound::Unbounded;
    match args {
        [a] => of_one(alloc, builtin, bound_at(a, place, &outside)),
        [a, b] => {
            let a = bound_at(a, place, &outside);
            let b = bound_at(b, place, &outside);
            of_two(alloc, builtin, a, b, ceiling)
        }
        [a, b, c] => {
            let a = bound_at(a, place, &outside);
            let b = bound_at(b, place, &outside);
            let c = bound_at(c, place, &outside);
            of_three(alloc, builtin, a, b, c)
        }
        _ => Ok(outside),
    }
}

// The bound of an argument at a place; that of no neighbour is given.
fn bound_at<'a>(arg: &BoundRef<'a>, place: Place, outside: &'a LocalBound) -> &'a LocalBound
    requires order { place.in_order ≡ true → in_order (lent_bound_in arg.now) ≡ true }
    requires outside { local_bound_in outside.now ≡ Unbounded }
    ensures { local_bound_in result.now ≡ bound_there place.device place.number (lent_bound_in arg.now) }
{
    match arg {
        BoundRef::Local(bound) => bound,
        BoundRef::Field(field) => {
            if place.number == place.device {
                &field.own
            } else {
                entry_bound(&field.entries, place, outside)
            }
        }
        BoundRef::Any => outside,
    }
}

// The bound at a neighbour: that of the first entry with its number, else the one that is given.
fn entry_bound<'a>(
    entries: &'a [BoundEntry],
    place: Place,
    outside: &'a LocalBound,
) -> &'a LocalBound
    requires outside { local_bound_in outside.now ≡ Unbounded }
    requires order { place.in_order ≡ true → rises (numbers_in (entries_in entries.now)) ≡ true }
    ensures { local_bound_in result.now ≡ entry_at (entries_in entries.now) place.number }
{
    if place.in_order && place.position < entries.len() {
        let entry = &entries[place.position];
        if entry.device == place.number {
            return &entry.bound;
        }
    }
    find(entries, place.number, outside)
}

fn find<'a>(entries: &'a [BoundEntry], number: u32, outside: &'a LocalBound) -> &'a LocalBound
    requires { local_bound_in outside.now ≡ Unbounded }
    ensures { local_bound_in result.now ≡ entry_at (entries_in entries.now) number }
{
    for entry in entries {
        if entry.device == number {
            return &entry.bound;
        }
    }
    outside
}

// Whether the numbers of each field's neighbours rise.
fn are_in_order(args: &[BoundRef<'_>]) -> bool
    ensures { result ≡ all_in_order (lent_bounds_in args.now) }
{
    for arg in args {
        if let BoundRef::Field(field) = arg
            && !numbers_rise(&field.entries)
        {
            return false;
        }
    }
    true
}

fn numbers_rise(entries: &[BoundEntry]) -> bool
    ensures { result ≡ rises (numbers_in (entries_in entries.now)) }
{
    for position in 1..entries.len() {
        if entries[position - 1].device >= entries[position].device {
            return false;
        }
    }
    true
}
