//! Whether two bounds of exports are the same.

ghost use Rattle.std.specs.Prelude.{◌≡◌, ◌↔◌, IsTrue, length};
ghost use Rattle.fc_nodes.specs.Terms.{kept};
ghost use Rattle.fc_nodes.specs.Program.{Unfolding};
ghost use Rattle.value_bounds.specs.References.{local_bounds_in};
ghost use Rattle.bound_firing.specs.ExportReferences.{export_bound_in};

use bound_firing::ExportBound;
use value_bounds::{LocalBound, same_bound};

/// Whether two bounds of exports are the same.
pub fn same_export_bound(a: &ExportBound, b: &ExportBound) -> bool
    ensures same { IsTrue result → (U : Unfolding) → export_bound_in U a.now ≡ export_bound_in U b.now }
    ensures other { (U : Unfolding) → length a.now.slots.items ≡ kept U.main → length b.now.slots.items ≡ kept U.main
        → export_bound_in U a.now ≡ export_bound_in U b.now → IsTrue result }
{
    a.sure == b.sure && same_bound(&a.value, &b.value) && same_slots(&a.slots, &b.slots)
}

fn same_slots(a: &[LocalBound], b: &[LocalBound]) -> bool
    ensures { IsTrue result ↔ local_bounds_in a.now ≡ local_bounds_in b.now }
{
    let Some((first, rest)) = a.split_first() else {
        return b.is_empty();
    };
    let Some((second, others)) = b.split_first() else {
        return false;
    };
    same_bound(first, second) && same_slots(rest, others)
}
