//! A table that rounds begin with.

ghost use Rattle.std.specs.Prelude.{◌≡◌, IfOk};
ghost use Rattle.fc_nodes.specs.Program.{unfolding_of};
ghost use Rattle.value_trees.specs.Copies.{WhereSome};
ghost use Rattle.value_trees.specs.Snaps.{IsExportOf};
ghost use Rattle.stable_field.specs.Tables.{AreExportSlots};

use crate::firing::ExportTable;
use candidate_field::candidate;
use fc_nodes::Unfolded;
use fc_values::{Export, Memory};
use fragment_check::Pattern;
use round_bound::Analysis;
use std::alloc::Global;
use topology::Network;
use value_trees::{Published, well_typed};

/// The exports that are guessed for a program, where they are well-typed.
pub fn guessed(
    alloc: Global,
    program: &Unfolded,
    net: &Network,
    analysis: &Analysis<'_>,
) -> Result<ExportTable, Memory>
    ensures { IfOk result (λ v. AreExportSlots (unfolding_of program.now) net.now v.items) }
{
    let potentials = potentials(alloc, analysis)?;
    let mut guess = candidate(alloc, program, net, &potentials)?;
    let count = net.devices().len();
    let mut table = Vec::with_capacity(alloc, count)?;
    for place in 0..count {
        let typed = typed_at(program, &mut guess, place);
        let slot = published(alloc, typed)?;
        table.push(slot)?;
    }
    Ok(table)
}

// The export at a place, if it is a well-typed one.
fn typed_at(program: &Unfolded, guess: &mut [Option<Export>], place: usize) -> Option<Export>
    ensures { WhereSome (IsExportOf (unfolding_of program.now)) result }
{
    let export = guess.get_mut(place)?.take()?;
    if well_typed(program, &export) {
        Some(export)
    } else {
        None
    }
}

// An export to be shared, if there is one.
fn published(alloc: Global, export: Option<Export>) -> Result<Option<Published>, Memory>
    ensures { IfOk result (λ p. p ≡ export) }
{
    match export {
        Some(export) => Ok(Some(Published::new(alloc, export)?)),
        None => Ok(None),
    }
}

// The binders by whose variables the guards of a `rep` or `share` compare, each with the place of that `rep` or
// `share`.
fn potentials(alloc: Global, analysis: &Analysis<'_>) -> Result<Vec<(u32, u32)>, Memory> {
    let mut list = Vec::new(alloc);
    if let Ok(found) = analysis.patterns() {
        for (place, pattern) in found {
            if let Pattern::Acyclic { potential } = pattern {
                list.push((*place, *potential))?;
            }
        }
    }
    Ok(list)
}
