//! What `check --settle` makes of a program and a scene: the verdict's text, and behind it after how many rounds the
//! devices of the network settle.

ghost use Rattle.std.specs.Prelude.{◌≡◌, ◌++◌, IfOk, OnOk, flat_map, length, map, option_map, zip};
ghost use Rattle.fc_values.specs.Values.{local_of};
ghost use Rattle.fc_nodes.specs.Program.{unfolding_of};
ghost use Rattle.command_frame.specs.Causes.{Accepted};
ghost use Rattle.command_frame.specs.Code.{value_of};
ghost use Rattle.settle_rounds.specs.References.{settled_in};
ghost use Rattle.settle_rounds.specs.Rounds.{any_table};
ghost use Rattle.net_json.specs.SceneCode.{AreCopies, AreRows, value_of_scene};
ghost use Rattle.report.specs.Settling.{settled_device_text};
ghost use Rattle.topology.specs.Networks.{numbers};
ghost use Rattle.command_words.specs.declared.commands.Start.TheVariants.{Table};
ghost use Rattle.fc_check.specs.Code.{settled_answer};
ghost use Rattle.fc_check.specs.Settles.{SettlesScene, settle_status, settling_of};

use command_frame::{Answer, start};
use fc_nodes::{Unfolded, Verdict};
use fc_values::{Local, Memory};
use net_json::Scene;
use report::{settle_line, settled_device};
use settle_rounds::{Settled, settle, settle_cap, settle_from, settle_time};
use std::alloc::Global;
use std::sync::Arc;
use topology::Network;
use verdict_texts::verdict_text;

// A settle round and its value, to be shown.
fn shown(settled: &Option<Settled>) -> Option<(u32, &Local)>
    ensures { option_map (λ s. (s.0, local_of s.1.now)) result ≡ option_map settled_in settled.now }
{
    match settled {
        Some(one) => Some((one.rounds, &one.value)),
        None => None,
    }
}

// Appends the line of each device.
fn write_devices(
    alloc: Global,
    out: &mut Vec<u8>,
    net: &Network,
    settled: &[Option<Settled>],
) -> Result<(), Memory>
    requires { length settled.now ≡ length net.now.devices }
    ensures { OnOk result (out.new.items ≡ out.old.items ++ flat_map settled_device_text
        (zip (numbers net.now.devices) (map (option_map settled_in) settled.now))) }
{
    for (place, device) in net.devices().iter().enumerate() {
        settled_device(alloc, out, device.id, shown(&settled[place]))?;
    }
    Ok(())
}

// The status of a settle time.
fn status(time: Option<u64>) -> u8
    ensures { result ≡ settle_status time }
{
    match time {
        Some(_) => 0,
        None => 1,
    }
}

// The answer of a verdict's text, and of what each device settles to.
fn settled_answer(
    alloc: Global,
    verdict: Verdict,
    mut text: Vec<u8>,
    net: &Network,
    settled: &[Option<Settled>],
) -> Result<Answer, Memory>
    requires { length settled.now ≡ length net.now.devices }
    ensures { IfOk result (λ a. value_of a ≡ settled_answer verdict text.items (numbers net.now.devices)
        (map (option_map settled_in) settled.now)) }
{
    let time = settle_time(verdict, settled);
    settle_line(alloc, &mut text, time)?;
    write_devices(alloc, &mut text, net, settled)?;
    Ok(Answer::plain(alloc, status(time), text))
}

/// The verdict's text, and after how many rounds the devices of a network settle, from any exports.
pub(crate) fn settle_any(
    alloc: Global,
    facts: bool,
    program: &Unfolded,
    net: &Network,
) -> Result<Answer, Memory>
    requires { net.now.declared ≡ program.now.declared }
    ensures { IfOk result (λ a. value_of a ≡ settling_of facts (unfolding_of program.now) net.now
        (any_table (unfolding_of program.now))) }
{
    let devices = net.devices().len();
    let (verdict, text) = verdict_text(alloc, facts, program, devices as u32)?;
    let settled = settle(alloc, program, net, settle_cap(verdict, devices))?;
    settled_answer(alloc, verdict, text, net, &settled)
}

/// The same from the table and the copies in flight of a scene.
pub(crate) fn settle_scene(
    alloc: Global,
    facts: bool,
    program: Unfolded,
    scene: Scene,
) -> Result<Answer, Memory>
    requires declared { scene.net.declared ≡ program.declared }
    requires rows { AreRows (unfolding_of program) scene.net scene.table.items }
    requires copies { AreCopies (unfolding_of program) scene.net scene.pending.items }
    ensures { IfOk result (λ a. SettlesScene facts Table (unfolding_of program)
        (value_of_scene (unfolding_of program) scene) (Accepted (value_of a))) }
{
    let program = Arc::new(alloc, program)?;
    let mut core = start(alloc, &program, scene)?;
    let devices = core.net().devices().len();
    let (verdict, text) = verdict_text(alloc, facts, &program, devices as u32)?;
    let settled = settle_from(alloc, &mut core, settle_cap(verdict, devices))?;
    settled_answer(alloc, verdict, text, core.net(), &settled)
}
