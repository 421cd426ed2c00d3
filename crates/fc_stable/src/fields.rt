//! What `stable` answers.
ghost use Rattle.std.specs.Prelude.{◌≡◌, ◌≤◌, IfErr, IfOk, length, map};
ghost use Rattle.fc_values.specs.Fields.{Rises, devices, entry_of};
ghost use Rattle.fc_nodes.specs.Program.{unfolding_of};
ghost use Rattle.fragment_check.specs.Verdicts.{verdict_of};
ghost use Rattle.report.specs.Texts.{field_text};
ghost use Rattle.command_frame.specs.Answers.{plain};
ghost use Rattle.command_frame.specs.Causes.{Accepted, Refused};
ghost use Rattle.command_frame.specs.Code.{value_of};
ghost use Rattle.command_frame.specs.Sections.{AreWithin, WithTwo};
ghost use Rattle.command_frame.specs.Stops.{StopsFor};
ghost use Rattle.fc_values.specs.declared.limits.TheConstants.{MOST_BYTES};
ghost use Rattle.fc_stable.specs.Stabilised.{Stabilised, StabilisedBy};

use command_frame::{Answer, Stop, read_input, two_sections};
use fc_nodes::{Unfolded, Verdict};
use fc_values::{Local, Memory};
use report::{field as write_field, verdict_line};
use stable_field::{StableFault, stable as stable_on};
use std::alloc::Global;
use topology::Network;

// The lines of a field.
fn field_answer(alloc: Global, field: &[(u32, Local)]) -> Result<Answer, Memory>
    requires { Rises (devices (map entry_of field.now)) }
    ensures { IfOk result (λ a. value_of a ≡ plain 0 (field_text (map entry_of field.now))) }
{
    let mut text = Vec::new(alloc);
    write_field(alloc, &mut text, field)?;
    Ok(Answer::plain(alloc, 0, text))
}

// The field that solves a program on a network, or the verdict's no.
fn of_network(alloc: Global, program: &Unfolded, net: &Network) -> Result<Answer, Memory>
    requires { net.now.declared ≡ program.now.declared }
    ensures { IfOk result (λ a. StabilisedBy (verdict_of (unfolding_of program.now) (length net.now.devices))
        (unfolding_of program.now) net.now (value_of a)) }
{
    match stable_on(alloc, program, net) {
        Ok(field) => field_answer(alloc, &field),
        Err(StableFault::Unrecognised { place, reason }) => {
            let line = verdict_line(alloc, &Verdict::No { place, reason })?;
            Ok(Answer::plain(alloc, 1, line))
        }
        Err(StableFault::Memory) => Err(Memory),
    }
}

// What is written of the texts of a program and a scene.
fn of_texts(alloc: Global, program: &[u8], network: &[u8]) -> Result<Answer, Stop>
    requires { length program.now ≤ MOST_BYTES }
    ensures writes { IfOk result (λ a. Stabilised program.now network.now (Accepted (value_of a))) }
    ensures refused { IfErr result (StopsFor (λ cause. Stabilised program.now network.now (Refused cause))) }
{
    let (program, scene) = read_input(alloc, program, network)?;
    Ok(of_network(alloc, &program, &scene.net)?)
}

/// The answer of `stable` to the sections of an input.
pub fn stable(alloc: Global, sections: &[&[u8]]) -> Result<Answer, Stop>
    requires { AreWithin MOST_BYTES (map (λ s. s.now) sections.now) }
    ensures writes { IfOk result (λ a. WithTwo Stabilised (map (λ s. s.now) sections.now) (Accepted (value_of a))) }
    ensures refused { IfErr result (StopsFor (λ cause.
        WithTwo Stabilised (map (λ s. s.now) sections.now) (Refused cause))) }
{
    let (program, network) = two_sections(sections)?;
    of_texts(alloc, program, network)
}
