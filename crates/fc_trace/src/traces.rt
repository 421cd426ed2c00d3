//! What `trace` answers.

ghost use Rattle.std.specs.Prelude.{◌≡◌, ◌≤◌, ◌++◌, IfErr, IfOk, codes, length, map};
ghost use Rattle.fc_nodes.specs.Program.{unfolding_of};
ghost use Rattle.fragment_check.specs.Verdicts.{verdict_of};
ghost use Rattle.walks.specs.Walks.{AreTraced, IsCosts, claim_of, costs_of};
ghost use Rattle.walk_form.specs.Forms.{walk_terms};
ghost use Rattle.command_frame.specs.Answers.{plain};
ghost use Rattle.command_frame.specs.Causes.{Accepted, Refused};
ghost use Rattle.command_frame.specs.Code.{value_of};
ghost use Rattle.command_frame.specs.Sections.{AreWithin, WithTwo};
ghost use Rattle.command_frame.specs.Stops.{StopsFor};
ghost use Rattle.fc_values.specs.declared.limits.TheConstants.{MOST_BYTES};
ghost use Rattle.fc_trace.specs.Texts.{walks_text};
ghost use Rattle.fc_trace.specs.Traces.{TracedBy, Traces};

use crate::writing::write_walks;
use command_frame::{Answer, Stop, read_input, two_sections};
use fc_nodes::{Unfolded, Verdict};
use fc_values::Memory;
use report::verdict_line;
use round_bound::Analysis;
use std::alloc::Global;
use topology::Network;
use walk_form::{CostFault, costs};
use walks::{Costs, Evidence, check_walks, trace, traced_claims_hold};

// For each device its least cost and its best walk, which are then checked on their own.
fn checked_walks(alloc: Global, costs: &Costs) -> Result<Vec<Evidence>, Memory>
    requires { IsCosts (costs_of costs.now) }
    ensures { IfOk result (λ v. AreTraced (costs_of costs.now) (claim_of v.items)) }
{
    traced_claims_hold();
    let claim = trace(alloc, costs)?;
    let holds = check_walks(costs, &claim);
    prove!(holds);
    Ok(claim)
}

// A line, and behind it walks.
fn walks_answer(alloc: Global, mut text: Vec<u8>, claim: &[Evidence]) -> Result<Answer, Memory>
    ensures { IfOk result (λ a. value_of a ≡ plain 0 (text.items ++ walks_text (claim_of claim.now))) }
{
    write_walks(alloc, &mut text, claim)?;
    Ok(Answer::plain(alloc, 0, text))
}

// A line, and behind it that there are no walks.
fn no_walks(alloc: Global, mut text: Vec<u8>) -> Result<Answer, Memory>
    ensures { IfOk result (λ a. value_of a ≡ plain 1 (text.items ++ codes "no walks\n")) }
{
    text.extend_from_slice(b"no walks\n")?;
    Ok(Answer::plain(alloc, 1, text))
}

// The walks of a program on a network, or that there are none.
fn of_network(alloc: Global, program: &Unfolded, net: &Network) -> Result<Answer, Memory>
    requires { net.now.declared ≡ program.now.declared }
    ensures { IfOk result (λ a. TracedBy (verdict_of (unfolding_of program.now) (length net.now.devices))
        (walk_terms (unfolding_of program.now)) (unfolding_of program.now) net.now (value_of a)) }
{
    let analysis = Analysis::new(alloc, program)?;
    match costs(alloc, &analysis, net) {
        Ok((rounds, costs)) => {
            let line = verdict_line(alloc, &Verdict::Yes(rounds))?;
            let claim = checked_walks(alloc, &costs)?;
            walks_answer(alloc, line, &claim)
        }
        Err(CostFault::Unrecognised { place, reason }) => {
            let line = verdict_line(alloc, &Verdict::No { place, reason })?;
            Ok(Answer::plain(alloc, 1, line))
        }
        Err(CostFault::NotWalks(rounds)) => {
            no_walks(alloc, verdict_line(alloc, &Verdict::Yes(rounds))?)
        }
        Err(CostFault::Memory) => Err(Memory),
    }
}

// What is written of the texts of a program and a scene.
fn of_texts(alloc: Global, program: &[u8], network: &[u8]) -> Result<Answer, Stop>
    requires { length program.now ≤ MOST_BYTES }
    ensures writes { IfOk result (λ a. Traces program.now network.now (Accepted (value_of a))) }
    ensures refused { IfErr result (StopsFor (λ cause. Traces program.now network.now (Refused cause))) }
{
    let (program, scene) = read_input(alloc, program, network)?;
    Ok(of_network(alloc, &program, &scene.net)?)
}

/// The answer of `trace` to the sections of an input.
pub fn traced(alloc: Global, sections: &[&[u8]]) -> Result<Answer, Stop>
    requires { AreWithin MOST_BYTES (map (λ s. s.now) sections.now) }
    ensures writes { IfOk result (λ a. WithTwo Traces (map (λ s. s.now) sections.now) (Accepted (value_of a))) }
    ensures refused { IfErr result (StopsFor (λ cause.
        WithTwo Traces (map (λ s. s.now) sections.now) (Refused cause))) }
{
    let (program, network) = two_sections(sections)?;
    of_texts(alloc, program, network)
}
