//! What `check` answers.
ghost use Rattle.std.specs.Prelude.{◌≡◌, ◌≤◌, IfErr, IfOk, length, map};
ghost use Rattle.fc_values.specs.declared.limits.TheConstants.{MOST_BYTES};
ghost use Rattle.fc_nodes.specs.Program.{unfolding_of};
ghost use Rattle.fragment_check.specs.Verdicts.{verdict_of};
ghost use Rattle.net_json.specs.SceneCode.{AreCopies, AreRows, value_of_scene};
ghost use Rattle.command_frame.specs.Answers.{plain};
ghost use Rattle.command_frame.specs.Causes.{Accepted, Refused};
ghost use Rattle.command_frame.specs.Code.{value_of};
ghost use Rattle.command_frame.specs.Sections.{AreWithin, WithTwo};
ghost use Rattle.command_frame.specs.Stops.{StopsFor};
ghost use Rattle.verdict_texts.specs.VerdictTexts.{checked_text};
ghost use Rattle.fc_check.specs.Checks.{verdict_status};
ghost use Rattle.fc_check.specs.Commands.{Checks, ChecksFrom};

use crate::settles::{settle_any, settle_scene};
use command_frame::{Answer, Stop, read_input, two_sections};
use command_words::{CheckOptions, Start};
use fc_nodes::{Unfolded, Verdict};
use fc_values::Memory;
use net_json::Scene;
use std::alloc::Global;
use topology::Network;
use verdict_texts::verdict_text;

// What is written of a program and a network without settle rounds.
fn verdict_answer(
    alloc: Global,
    facts: bool,
    program: &Unfolded,
    net: &Network,
) -> Result<Answer, Memory>
    ensures { IfOk result (λ a. value_of a ≡ plain
        (verdict_status (verdict_of (unfolding_of program.now) (length net.now.devices)))
        (checked_text facts (unfolding_of program.now) (length net.now.devices))) }
{
    // Its clause: the network has devices.
    let devices = net.devices().len() as u32;
    let (verdict, text) = verdict_text(alloc, facts, program, devices)?;
    match verdict {
        Verdict::Yes(_) => Ok(Answer::plain(alloc, 0, text)),
        Verdict::No { .. } => Ok(Answer::plain(alloc, 1, text)),
    }
}

// What is written of a program and a scene.
fn of_scene(
    alloc: Global,
    options: CheckOptions,
    program: Unfolded,
    scene: Scene,
) -> Result<Answer, Memory>
    requires declared { scene.net.declared ≡ program.declared }
    requires rows { AreRows (unfolding_of program) scene.net scene.table.items }
    requires copies { AreCopies (unfolding_of program) scene.net scene.pending.items }
    ensures { IfOk result (λ a. ChecksFrom options.facts options.settle (unfolding_of program)
        (value_of_scene (unfolding_of program) scene) (Accepted (value_of a))) }
{
    match options.settle {
        None => verdict_answer(alloc, options.facts, &program, &scene.net),
        Some(Start::Any) => settle_any(alloc, options.facts, &program, &scene.net),
        Some(Start::Table) => settle_scene(alloc, options.facts, program, scene),
    }
}

// What is written of the texts of a program and a scene.
fn of_texts(
    alloc: Global,
    options: CheckOptions,
    program: &[u8],
    network: &[u8],
) -> Result<Answer, Stop>
    requires { length program.now ≤ MOST_BYTES }
    ensures checks { IfOk result (λ a. Checks options program.now network.now (Accepted (value_of a))) }
    ensures refused { IfErr result (StopsFor (λ cause. Checks options program.now network.now (Refused cause))) }
{
    let (program, scene) = read_input(alloc, program, network)?;
    Ok(of_scene(alloc, options, program, scene)?)
}

/// The answer of `check` to the sections of an input.
pub fn check(alloc: Global, options: CheckOptions, sections: &[&[u8]]) -> Result<Answer, Stop>
    requires { AreWithin MOST_BYTES (map (λ s. s.now) sections.now) }
    ensures checks { IfOk result (λ a. WithTwo (Checks options) (map (λ s. s.now) sections.now) (Accepted (value_of a))) }
    ensures refused { IfErr result (StopsFor (λ cause.
        WithTwo (Checks options) (map (λ s. s.now) sections.now) (Refused cause))) }
{
    let (program, network) = two_sections(sections)?;
    of_texts(alloc, options, program, network)
}
