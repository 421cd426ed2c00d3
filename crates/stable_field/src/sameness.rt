//! Whether exports are the same, apart from first values.

ghost use Rattle.std.specs.Prelude.{◌≡◌, ◌<◌, IsTrue, length};
ghost use Rattle.fc_values.specs.Values.{local_of};
ghost use Rattle.fc_values.specs.Exports.{slot_of, slots_of, slot_at};
ghost use Rattle.stable_field.specs.Outside.{SameAt, SameExport, SameExports};

use fc_values::{Local, Slot};
use value_trees::Published;

/// Whether two tables have exports with the same values, and the same in some slots.
pub fn same_exports(a: &[Option<Published>], b: &[Option<Published>], slots: &[u32]) -> bool
    ensures { IsTrue result → SameExports slots.now a.now b.now }
{
    if a.len() != b.len() {
        return false;
    }
    for place in 0..a.len() {
        if !same_export(&a[place], &b[place], slots) {
            return false;
        }
    }
    true
}

fn same_export(a: &Option<Published>, b: &Option<Published>, slots: &[u32]) -> bool
    ensures { IsTrue result → SameExport slots.now a.now b.now }
{
    match (a, b) {
        (Some(a), Some(b)) => {
            let (a, b) = (a.get(), b.get());
            same_local(&a.value, &b.value) && same_slots(&a.slots.list, &b.slots.list, slots)
        }
        (None, None) => true,
        _ => false,
    }
}

fn same_slots(a: &[Slot], b: &[Slot], slots: &[u32]) -> bool
    ensures { IsTrue result → SameAt slots.now (slots_of a.now) (slots_of b.now) }
{
    for slot in slots {
        let at = *slot as usize;
        if at >= a.len() || at >= b.len() || !same_at(a, b, at) {
            return false;
        }
    }
    true
}

fn same_at(a: &[Slot], b: &[Slot], at: usize) -> bool
    requires first { at < length a.now }
    requires second { at < length b.now }
    ensures { IsTrue result → slot_at at (slots_of a.now) ≡ slot_at at (slots_of b.now) }
{
    same_slot(&a[at], &b[at])
}

fn same_slot(a: &Slot, b: &Slot) -> bool
    ensures { IsTrue result → slot_of a.now ≡ slot_of b.now }
{
    a.kept == b.kept && same_local(&a.value, &b.value)
}

fn same_local(a: &Local, b: &Local) -> bool
    ensures { IsTrue result → local_of a.now ≡ local_of b.now }
{
    match (a, b) {
        (Local::Int(x), Local::Int(y)) => *x == *y,
        (Local::Bool(x), Local::Bool(y)) => *x == *y,
        (Local::Pair(x, y), Local::Pair(z, w)) => same_local(x, z) && same_local(y, w),
        _ => false,
    }
}
