//! The stabilised field of a program that isn't taken apart.

ghost use Rattle.std.specs.Prelude.{◌≡◌, IfErr, IfOk, length, map};
ghost use Rattle.fc_values.specs.Fields.{Rises, devices, entry_of};
ghost use Rattle.fc_nodes.specs.declared.verdicts.Verdict.TheVariants as verdict;
ghost use Rattle.fc_nodes.specs.Program.{unfolding_of};
ghost use Rattle.fragment_check.specs.Verdicts.{verdict_of};
ghost use Rattle.value_trees.specs.Copies.{WhereSome};
ghost use Rattle.stable_field.specs.Columns.{IsColumn};
ghost use Rattle.stable_field.specs.Stable.{IsStableField, IsFaultOf};
ghost use Rattle.stable_field.specs.Tables.{AreExportSlots};

use crate::faults::StableFault;
use crate::fields::values;
use crate::firing::ExportTable;
use crate::guesses::guessed;
use crate::rounds::settled;
use crate::terms::DeviceValues;
use converge_laws::{yes_analyses, yes_stabilises};
use fc_nodes::{Unfolded, Verdict};
use fc_values::Memory;
use round_bound::Analysis;
use std::alloc::Global;
use topology::Network;

/// The rounds of a yes, or the place and reason of a no.
pub fn judged(alloc: Global, analysis: &Analysis<'_>, net: &Network) -> Result<u64, StableFault>
    ensures yes { IfOk result (λ k. verdict_of (unfolding_of analysis.now) (length net.now.devices) ≡ verdict.Yes k) }
    ensures no { IfErr result (IsFaultOf (unfolding_of analysis.now) (length net.now.devices)) }
{
    let devices = net.devices().len() as u32;
    match analysis.verdict(alloc, devices)? {
        Verdict::No { place, reason } => Err(StableFault::Unrecognised { place, reason }),
        Verdict::Yes(rounds) => Ok(rounds),
    }
}

/// The values of a program's `main`, where the program is recognised.
pub fn whole(
    alloc: Global,
    program: &Unfolded,
    net: &Network,
) -> Result<Option<DeviceValues>, Memory>
    requires { net.now.declared ≡ program.now.declared }
    ensures { IfOk result (WhereSome (λ v. IsColumn net.now 0 (unfolding_of program.now).main (map entry_of v.items))) }
{
    let analysis = Analysis::new(alloc, program)?;
    match judged(alloc, &analysis, net) {
        Ok(rounds) => {
            let start = guessed(alloc, program, net, &analysis)?;
            Ok(Some(solved(alloc, program, net, start, rounds)?))
        }
        Err(StableFault::Unrecognised { .. }) => Ok(None),
        Err(StableFault::Memory) => Err(Memory),
    }
}

/// The field, where the verdict is a yes for so many rounds, by rounds that begin with a table.
pub fn solved(
    alloc: Global,
    program: &Unfolded,
    net: &Network,
    start: ExportTable,
    rounds: u64,
) -> Result<DeviceValues, Memory>
    requires declared { net.now.declared ≡ program.now.declared }
    requires table { AreExportSlots (unfolding_of program.now) net.now start.items }
    requires yes { verdict_of (unfolding_of program.now) (length net.now.devices) ≡ verdict.Yes rounds }
    ensures field { IfOk result (λ v. IsStableField (unfolding_of program.now) net.now (map entry_of v.items)) }
    ensures rises { IfOk result (λ v. Rises (devices (map entry_of v.items))) }
{
    let _program = program.declared();
    let _network = net.declared();
    yes_analyses();
    yes_stabilises();
    let table = settled(alloc, program, net, start, rounds)?;
    Ok(values(alloc, net, &table)?)
}
