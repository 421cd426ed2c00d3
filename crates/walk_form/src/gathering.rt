//! What walks cost.

ghost use Rattle.std.specs.Prelude.{ℕ, ◌≡◌, IfErr, IfOk, length};
ghost use Rattle.fc_nodes.specs.declared.verdicts.Verdict.TheVariants as verdict;
ghost use Rattle.fc_nodes.specs.Program.{unfolding_of};
ghost use Rattle.fragment_check.specs.Verdicts.{verdict_of};
ghost use Rattle.walks.specs.Walks.{costs_of, IsCosts};
ghost use Rattle.walks.specs.Gathering.{added_of};
ghost use Rattle.walk_form.specs.Costs.{AddsAre, AreCostsOf, IsCostFault};
ghost use Rattle.walk_form.specs.Spans.{IsWalkForm, step_of};

use crate::faults::CostFault;
use crate::forms::{Adds, WalkForm, walk_form};
use crate::integers::integers_at;
use converge_laws::{solutions_are_one, yes_analyses};
use fc_nodes::{Unfolded, Verdict};
use fc_values::Memory;
use round_bound::Analysis;
use std::alloc::Global;
use topology::{Network, neighbours_are_mutual};
use walks::{Add, Costs, gather};

/// The rounds of the verdict's yes, and the costs of walks of a program on a network, found from the fields of its
/// local argument and of what steps add. `Unrecognised` comes exactly where the verdict is a no, with its place and
/// reason, and `NotWalks` exactly where it is a yes and the program hasn't the walk form, with the rounds.
pub fn costs(
    alloc: Global,
    analysis: &Analysis<'_>,
    net: &Network,
) -> Result<(u64, Costs), CostFault>
    requires declared { net.now.declared ≡ analysis.now.declared }
    ensures costs { IfOk result (λ c. AreCostsOf (unfolding_of analysis.now) net.now (costs_of c.1)) }
    ensures are { IfOk result (λ c. IsCosts (costs_of c.1)) }
    ensures yes { IfOk result (λ c. verdict_of (unfolding_of analysis.now) (length net.now.devices) ≡ verdict.Yes c.0) }
    ensures refused { IfErr result (IsCostFault (unfolding_of analysis.now) (length net.now.devices)) }
{
    let program = analysis.program();
    let devices = net.devices().len() as u32;
    match analysis.verdict(alloc, devices)? {
        Verdict::No { place, reason } => Err(CostFault::Unrecognised { place, reason }),
        Verdict::Yes(rounds) => match walk_form(program, analysis.ranges()) {
            Some(form) => Ok((rounds, form_costs(alloc, program, net, form)?)),
            None => Err(CostFault::NotWalks(rounds)),
        },
    }
}

// The costs of a program of the walk form.
fn form_costs(
    alloc: Global,
    program: &Unfolded,
    net: &Network,
    form: WalkForm,
) -> Result<Costs, Memory>
    requires declared { net.now.declared ≡ program.now.declared }
    requires yes { (k : ℕ) × (verdict_of (unfolding_of program.now) (length net.now.devices) ≡ verdict.Yes k) }
    requires form { IsWalkForm program.now form }
    ensures costs { IfOk result (λ c. AreCostsOf (unfolding_of program.now) net.now (costs_of c)) }
    ensures are { IfOk result (λ c. IsCosts (costs_of c)) }
{
    let ceiling = program.declared().ceiling;
    // Its clause: the network is lawful.
    let _network = net.declared();
    yes_analyses();
    solutions_are_one();
    neighbours_are_mutual();
    let start = integers_at(alloc, program, net, form.local)?;
    let add = added(alloc, program, net, form)?;
    Ok(gather(alloc, ceiling, net, start, add)?)
}

// What steps add.
fn added(alloc: Global, program: &Unfolded, net: &Network, form: WalkForm) -> Result<Add, Memory>
    requires declared { net.now.declared ≡ program.now.declared }
    requires yes { (k : ℕ) × (verdict_of (unfolding_of program.now) (length net.now.devices) ≡ verdict.Yes k) }
    requires form { IsWalkForm program.now form }
    ensures { IfOk result (λ a. AddsAre net.now (step_of program.now.nodes form.adds) (added_of a)) }
{
    match form.adds {
        Adds::Values(term) => Ok(Add::Each(integers_at(alloc, program, net, term)?)),
        Adds::Weights => Ok(Add::Weights),
    }
}
