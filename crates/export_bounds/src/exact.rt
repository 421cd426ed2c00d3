//! The bound of one export.

ghost use Rattle.std.specs.Prelude.{◌≡◌, IfOk, length};
ghost use Rattle.fc_values.specs.Exports.{slot_of, slots_of};
ghost use Rattle.fc_nodes.specs.Terms.{kept};
ghost use Rattle.fc_nodes.specs.Program.{Unfolding};
ghost use Rattle.value_trees.specs.Snaps.{IsExportOf, tree_of};
ghost use Rattle.value_bounds.specs.References.{local_bound_in, local_bounds_in};
ghost use Rattle.bound_firing.specs.ExportReferences.{export_bound_in};
ghost use Rattle.export_bounds.specs.Exports.{exact_export};
ghost use Rattle.export_bounds.specs.Slots.{exact_slot as bound_of_slot, exact_slots as bounds_of_slots};

use bound_firing::ExportBound;
use fc_values::{Export, Memory, Slot};
use std::alloc::Global;
use value_bounds::{LocalBound, exactly};

/// The bound in which one export of a program lies, which is there for sure or may be missing.
pub fn exact_export_bound(alloc: Global, export: &Export, sure: bool) -> Result<ExportBound, Memory>
    ensures bound { IfOk result (λ b. (U : Unfolding) → IsExportOf U export.now
        → export_bound_in U b ≡ exact_export U sure (tree_of U export.now)) }
    ensures slots { IfOk result (λ b. (U : Unfolding) → IsExportOf U export.now
        → length b.slots.items ≡ kept U.main) }
{
    let value = exactly(alloc, &export.value)?;
    let slots = exact_slots(alloc, &export.slots.list)?;
    Ok(ExportBound { value, slots, sure })
}

fn exact_slots(alloc: Global, slots: &[Slot]) -> Result<Vec<LocalBound>, Memory>
    ensures { IfOk result (λ v. local_bounds_in v.items ≡ bounds_of_slots (slots_of slots.now)) }
{
    let mut bounds = Vec::with_capacity(alloc, slots.len())?;
    for slot in slots {
        bounds.push(exact_slot(alloc, slot)?)?;
    }
    Ok(bounds)
}

// The bound of a slot: of one that isn't kept nothing is said.
fn exact_slot(alloc: Global, slot: &Slot) -> Result<LocalBound, Memory>
    ensures { IfOk result (λ b. local_bound_in b ≡ bound_of_slot (slot_of slot.now)) }
{
    if slot.kept {
        Ok(exactly(alloc, &slot.value)?)
    } else {
        Ok(LocalBound::Unbounded)
    }
}
