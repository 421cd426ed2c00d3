//! The kept values of an export.

ghost use Rattle.std.specs.Prelude.{◌≡◌, IfOk, map};
ghost use Rattle.fc_values.specs.Values.{local_of};
ghost use Rattle.fc_values.specs.Exports.{slots_of};
ghost use Rattle.fc_nodes.specs.Program.{unfolding_of};
ghost use Rattle.value_trees.specs.Snaps.{tree_of, IsExportOf};
ghost use Rattle.value_trees.specs.KeptLists.{kept_values, kept_only};

use fc_nodes::Unfolded;
use fc_values::{Export, Local, Memory, Slot, copy};
use std::alloc::Global;

/// The kept values of an export, in preorder.
pub fn kept(alloc: Global, program: &Unfolded, e: &Export) -> Result<Vec<Local>, Memory>
    requires { IsExportOf (unfolding_of program.now) e.now }
    ensures { IfOk result (λ list. map local_of list.items ≡ kept_values (tree_of (unfolding_of program.now) e.now)) }
{
    let list = kept_slots(alloc, &e.slots.list)?;
    Ok(list)
}

// The values of the slots that are kept.
fn kept_slots(alloc: Global, slots: &[Slot]) -> Result<Vec<Local>, Memory>
    ensures { IfOk result (λ list. map local_of list.items ≡ kept_only (slots_of slots.now)) }
{
    let mut list = Vec::new(alloc);
    for slot in slots {
        if slot.kept {
            list.push(copy(alloc, &slot.value)?)?;
        }
    }
    Ok(list)
}
