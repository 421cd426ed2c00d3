//! What is counted of a log and of a core.

ghost use Rattle.std.specs.Prelude.{◌≡◌, length, map, count_by};
ghost use Rattle.fc_values.specs.Fields.{entry_of as entry_of_field};
ghost use Rattle.fc_values.specs.Values.{local_of};
ghost use Rattle.firing_core.specs.CoreViews.{core_of};
ghost use Rattle.firing_core.specs.Entries.{entries_of, entry_of};
ghost use Rattle.fc_gen.specs.Code.{FirstWithin};
ghost use Rattle.fc_gen.specs.Summaries.{agreeing as agreeing_of, firings_in, held_in, held_sum as sum_of};
ghost use Rattle.fc_gen.specs.Summaries.{integer_in, is_end as ends_firing, is_held, same_value};

use fc_values::Local;
use firing_core::{Core, Entry, Part};

// Whether an entry ends a firing.
fn is_end(entry: &Entry) -> bool
    ensures { result ≡ ends_firing (entry_of entry.now) }
{
    matches!(entry, Entry::End(_))
}

// How many firings end among entries.
#[tactic(auto, using(crate::proofs::Mapped::counted))]
fn ends(entries: &[Entry]) -> usize
    ensures { result ≡ count_by ends_firing (entries_of entries.now) }
{
    entries.iter().filter(|entry| is_end(entry)).count()
}

/// How many firings end in the first part of a log.
pub fn firings(log: &[Entry], parts: &[Part]) -> usize
    requires { FirstWithin (length log.now) parts.now }
    ensures { result ≡ firings_in (entries_of log.now) parts.now }
{
    match parts.first() {
        Some(part) => ends(&log[part.from..part.to]),
        None => 0,
    }
}

fn same_value(a: &Local, b: &Local) -> bool
    ensures { result ≡ same_value (local_of a.now) (local_of b.now) }
{
    match (a, b) {
        (Local::Int(x), Local::Int(y)) => *x == *y,
        (Local::Bool(x), Local::Bool(y)) => *x == *y,
        (Local::Pair(x, y), Local::Pair(z, w)) => same_value(x, z) && same_value(y, w),
        _ => false,
    }
}

// Whether a device's export has a value.
fn holds(core: &Core, device: u32, value: &Local) -> bool
    ensures { result ≡ is_held (held_in (core_of core.now) device) (local_of value.now) }
{
    match core.export(device) {
        Some(export) => same_value(&export.value, value),
        None => false,
    }
}

/// How many devices have an export with the value of a field.
#[tactic(auto, using(crate::proofs::Mapped::counted))]
pub fn agreeing(core: &Core, field: &[(u32, Local)]) -> usize
    ensures { result ≡ agreeing_of (core_of core.now) (map entry_of_field field.now) }
{
    field
        .iter()
        .filter(|entry| holds(core, entry.0, &entry.1))
        .count()
}

// The integer that a device's export has.
fn held(core: &Core, device: u32) -> u32
    ensures { result ≡ integer_in (held_in (core_of core.now) device) }
{
    match core.export(device) {
        Some(export) => match &export.value {
            Local::Int(n) => *n,
            _ => 0,
        },
        None => 0,
    }
}

/// The sum of the integers that devices' exports have.
pub fn held_sum(core: &Core) -> u64
    ensures { result ≡ sum_of (core_of core.now) }
{
    let mut sum = 0;
    for device in core.net().devices() {
        sum += u64::from(held(core, device.id));
    }
    sum
}
