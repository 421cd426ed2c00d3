//! Rounds in which each device fires once and sees the exports of the round before.

ghost use Rattle.std.specs.Prelude.{◌≡◌, ◌≤◌, IfOk, length};
ghost use Rattle.fc_nodes.specs.Program.{unfolding_of};
ghost use Rattle.topology.specs.Networks.{numbers};
ghost use Rattle.converge_laws.specs.Laws.{IsAnalysis, root_level};
ghost use Rattle.converge_laws.specs.Verdicts.{analysis_of};
ghost use Rattle.stable_field.specs.Tables.{AreExportSlots, AreFirings, HaveSolution};

use crate::firing::{ExportTable, fired};
use crate::outside::slots_outside;
use crate::sameness::same_exports;
use converge_laws::solutions_raise_levels;
use device_eval::Scratch;
use fc_nodes::Unfolded;
use fc_values::Memory;
use std::alloc::Global;
use topology::Network;

/// Exports with the values of the solution: those to which rounds from a table lead, until a round changes nothing
/// outside first values or so many are done.
pub fn settled(
    alloc: Global,
    program: &Unfolded,
    net: &Network,
    start: ExportTable,
    rounds: u64,
) -> Result<ExportTable, Memory>
    requires declared { net.now.declared ≡ program.now.declared }
    requires table { AreExportSlots (unfolding_of program.now) net.now start.items }
    requires analysis { IsAnalysis (unfolding_of program.now)
        (analysis_of (unfolding_of program.now) (length net.now.devices)) net.now }
    requires level { root_level (unfolding_of program.now)
        (analysis_of (unfolding_of program.now) (length net.now.devices)) ≤ rounds }
    ensures { IfOk result (λ v. HaveSolution (unfolding_of program.now) net.now v.items) }
{
    let _program = program.declared();
    let _network = net.declared();
    solutions_raise_levels();
    let slots = slots_outside(alloc, program)?;
    let mut table = start;
    for done in 0..rounds {
        let next = round(alloc, program, net, &table)?;
        let stays = same_exports(&table, &next, &slots);
        table = next;
        if stays {
            return Ok(table);
        }
    }
    Ok(round(alloc, program, net, &table)?)
}

// The exports of all devices, which fire once and see a table.
fn round(
    alloc: Global,
    program: &Unfolded,
    net: &Network,
    table: &ExportTable,
) -> Result<ExportTable, Memory>
    requires declared { net.now.declared ≡ program.now.declared }
    requires table { AreExportSlots (unfolding_of program.now) net.now table.now.items }
    ensures { IfOk result (λ v. AreFirings (unfolding_of program.now) net.now table.now.items
        (numbers net.now.devices) v.items) }
{
    let count = net.devices().len();
    let mut scratch = Scratch::new(alloc);
    let mut next = Vec::with_capacity(alloc, count)?;
    for place in 0..count {
        let export = fired(alloc, &mut scratch, program, net, table, place)?;
        next.push(Some(export))?;
    }
    Ok(next)
}
