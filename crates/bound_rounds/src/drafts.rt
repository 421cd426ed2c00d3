//! Drafts of bounds of exports.

ghost use Rattle.std.specs.Prelude.{◌≡◌, IfOk, length};
ghost use Rattle.bound_rounds.specs.Tables.{slot_counts};

use bound_firing::ExportBound;
use fc_values::Memory;
use std::alloc::Global;
use value_bounds::LocalBound;

/// A draft for each of some bounds, with as many slots: nothing is said yet of what they hold.
pub fn drafts_for(alloc: Global, bounds: &[ExportBound]) -> Result<Vec<ExportBound>, Memory>
    ensures { IfOk result (λ v. slot_counts v.items ≡ slot_counts bounds.now) }
{
    let mut drafts = Vec::with_capacity(alloc, bounds.len())?;
    for bound in bounds {
        drafts.push(draft_with(alloc, bound.slots.len())?)?;
    }
    Ok(drafts)
}

// A draft with so many slots.
fn draft_with(alloc: Global, count: usize) -> Result<ExportBound, Memory>
    ensures { IfOk result (λ b. length b.slots.items ≡ count) }
{
    let mut slots = Vec::with_capacity(alloc, count)?;
    for _ in 0..count {
        slots.push(LocalBound::Unbounded)?;
    }
    Ok(ExportBound {
        value: LocalBound::Unbounded,
        slots,
        sure: false,
    })
}
