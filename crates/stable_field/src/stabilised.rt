//! The stabilised field.

ghost use Rattle.std.specs.Prelude.{ℕ, ◌≡◌, IfErr, IfOk, OnOk, length, map};
ghost use Rattle.fc_values.specs.Fields.{Rises, devices, entry_of};
ghost use Rattle.fc_nodes.specs.declared.verdicts.Verdict.TheVariants as verdict;
ghost use Rattle.fc_nodes.specs.Program.{unfolding_of};
ghost use Rattle.fragment_check.specs.Verdicts.{verdict_of};
ghost use Rattle.value_trees.specs.Copies.{WhereSome};
ghost use Rattle.stable_field.specs.Columns.{IsColumn};
ghost use Rattle.stable_field.specs.Stable.{IsStableField, IsFaultOf};

use crate::faults::StableFault;
use crate::guesses::guessed;
use crate::terms::{DeviceValues, join_at, term_column};
use crate::whole::{judged, solved};
use converge_laws::yes_stabilises;
use fc_nodes::Unfolded;
use fc_values::{Local, Memory};
use round_bound::Analysis;
use std::alloc::Global;
use topology::Network;

/// The one field that solves a program on a network: the value of `main` at each device, by rising devices.
/// `Unrecognised` comes exactly where the verdict is a no, with its place and reason.
pub fn stable(
    alloc: Global,
    program: &Unfolded,
    net: &Network,
) -> Result<Vec<(u32, Local)>, StableFault>
    requires declared { net.now.declared ≡ program.now.declared }
    ensures field { IfOk result (λ v. IsStableField (unfolding_of program.now) net.now (map entry_of v.items)) }
    ensures rises { IfOk result (λ v. Rises (devices (map entry_of v.items))) }
    ensures yes { OnOk result ((k : ℕ)
        × (verdict_of (unfolding_of program.now) (length net.now.devices) ≡ verdict.Yes k)) }
    ensures refused { IfErr result (IsFaultOf (unfolding_of program.now) (length net.now.devices)) }
{
    let analysis = Analysis::new(alloc, program)?;
    let rounds = judged(alloc, &analysis, net)?;
    Ok(field(alloc, program, net, &analysis, rounds)?)
}

// The field, where the verdict is a yes for so many rounds.
fn field(
    alloc: Global,
    program: &Unfolded,
    net: &Network,
    analysis: &Analysis<'_>,
    rounds: u64,
) -> Result<DeviceValues, Memory>
    requires declared { net.now.declared ≡ program.now.declared }
    requires yes { verdict_of (unfolding_of program.now) (length net.now.devices) ≡ verdict.Yes rounds }
    ensures field { IfOk result (λ v. IsStableField (unfolding_of program.now) net.now (map entry_of v.items)) }
    ensures rises { IfOk result (λ v. Rises (devices (map entry_of v.items))) }
{
    let _program = program.declared();
    let _network = net.declared();
    yes_stabilises();
    if let Some(values) = by_terms(alloc, program, net)? {
        return Ok(values);
    }
    let start = guessed(alloc, program, net, analysis)?;
    Ok(solved(alloc, program, net, start, rounds)?)
}

// The values of `main` from those of its terms, where it is a builtin of two.
fn by_terms(
    alloc: Global,
    program: &Unfolded,
    net: &Network,
) -> Result<Option<DeviceValues>, Memory>
    requires { net.now.declared ≡ program.now.declared }
    ensures { IfOk result (WhereSome (λ v. IsColumn net.now 0 (unfolding_of program.now).main (map entry_of v.items))) }
{
    let size = program.size();
    if join_at(program, 0).is_none() {
        return Ok(None);
    }
    let mut known = Vec::new(alloc);
    Ok(term_column(alloc, program, net, 0, size, &mut known)?)
}
