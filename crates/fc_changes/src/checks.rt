//! What `check --settle --changes` answers.

ghost use Rattle.std.specs.Prelude.{◌≡◌, ◌≤◌, IfErr, IfOk, length, map};
ghost use Rattle.fc_values.specs.declared.limits.TheConstants.{MOST_BYTES};
ghost use Rattle.fc_nodes.specs.Program.{unfolding_of};
ghost use Rattle.topology.specs.declared.types.TheConstants.{MOST_DEVICES};
ghost use Rattle.net_json.specs.SceneCode.{AreCopies, AreRows, value_of_scene};
ghost use Rattle.command_frame.specs.Causes.{Accepted, Refused};
ghost use Rattle.command_frame.specs.Code.{value_of};
ghost use Rattle.command_frame.specs.Sections.{AreWithin, WithThree};
ghost use Rattle.command_frame.specs.Stops.{StopsFor};
ghost use Rattle.fc_changes.specs.Commands.{BoundsWithin, ChecksChanges};

use crate::lines::{accepted_lines, envelope_of};
use crate::starts::{from_any, from_scene};
use command_frame::{Answer, Stop, read_input, three_sections};
use command_words::{ChangesOptions, Start};
use envelopes::Envelope;
use fc_nodes::Unfolded;
use fc_values::Memory;
use net_json::Scene;
use std::alloc::Global;

// What is written of a program, a scene, and the envelope within which its network changes.
fn of_envelope(
    alloc: Global,
    options: ChangesOptions,
    program: Unfolded,
    scene: Scene,
    envelope: &Envelope,
) -> Result<Answer, Memory>
    requires declared { scene.net.declared ≡ program.declared }
    requires rows { AreRows (unfolding_of program) scene.net scene.table.items }
    requires copies { AreCopies (unfolding_of program) scene.net scene.pending.items }
    requires envelope { envelope.now.declared ≡ program.declared }
    requires some { 1 ≤ length envelope.now.devices }
    requires few { length envelope.now.devices ≤ MOST_DEVICES }
    ensures { IfOk result (λ a. BoundsWithin options (unfolding_of program)
        (value_of_scene (unfolding_of program) scene) envelope.now (value_of a)) }
{
    match options.start {
        Start::Any => from_any(alloc, options, &program, envelope),
        Start::Table => from_scene(alloc, options, program, scene, envelope),
    }
}

// What is written of the texts of a program, a scene and lines of changes.
fn of_texts(
    alloc: Global,
    options: ChangesOptions,
    program: &[u8],
    network: &[u8],
    changes: &[u8],
) -> Result<Answer, Stop>
    requires program { length program.now ≤ MOST_BYTES }
    requires changes { length changes.now ≤ MOST_BYTES }
    ensures checks { IfOk result (λ a.
        ChecksChanges options program.now network.now changes.now (Accepted (value_of a))) }
    ensures refused { IfErr result (StopsFor (λ cause.
        ChecksChanges options program.now network.now changes.now (Refused cause))) }
{
    let (program, scene) = read_input(alloc, program, network)?;
    let lines = accepted_lines(alloc, &program, &scene.net, changes)?;
    let envelope = envelope_of(alloc, &program, &scene.net, &lines)?;
    Ok(of_envelope(alloc, options, program, scene, &envelope)?)
}

/// The answer of `check --settle --changes` to the sections of an input.
pub fn check_changes(
    alloc: Global,
    options: ChangesOptions,
    sections: &[&[u8]],
) -> Result<Answer, Stop>
    requires { AreWithin MOST_BYTES (map (λ s. s.now) sections.now) }
    ensures checks { IfOk result (λ a.
        WithThree (ChecksChanges options) (map (λ s. s.now) sections.now) (Accepted (value_of a))) }
    ensures refused { IfErr result (StopsFor (λ cause.
        WithThree (ChecksChanges options) (map (λ s. s.now) sections.now) (Refused cause))) }
{
    let (program, network, changes) = three_sections(sections)?;
    of_texts(alloc, options, program, network, changes)
}
