//! What is written where rounds are counted from any exports, or from those of a scene.

ghost use Rattle.std.specs.Prelude.{◌≡◌, ◌≤◌, IfOk, length};
ghost use Rattle.fc_nodes.specs.Program.{unfolding_of};
ghost use Rattle.topology.specs.declared.types.TheConstants.{MOST_DEVICES};
ghost use Rattle.settle_rounds.specs.Rounds.{any_table};
ghost use Rattle.net_json.specs.SceneCode.{AreCopies, AreRows, value_of_scene};
ghost use Rattle.command_frame.specs.Code.{value_of};
ghost use Rattle.fc_changes.specs.Code.{IsWrittenFrom};
ghost use Rattle.fc_changes.specs.Commands.{IsWritten};

use crate::texts::of_start;
use command_frame::{Answer, start};
use command_words::ChangesOptions;
use envelopes::Envelope;
use fc_nodes::Unfolded;
use fc_values::Memory;
use net_json::Scene;
use settle_rounds::{any_bounds, start_bounds};
use std::alloc::Global;
use std::sync::Arc;

/// What is written where rounds within an envelope are counted from any exports.
pub(crate) fn from_any(
    alloc: Global,
    options: ChangesOptions,
    program: &Unfolded,
    envelope: &Envelope,
) -> Result<Answer, Memory>
    requires declared { envelope.now.declared ≡ program.now.declared }
    requires some { 1 ≤ length envelope.now.devices }
    requires few { length envelope.now.devices ≤ MOST_DEVICES }
    ensures { IfOk result (λ a. IsWritten options (unfolding_of program.now) envelope.now
        (any_table (unfolding_of program.now)) (value_of a)) }
{
    let bounds = any_bounds(alloc, program, envelope)?;
    of_start(alloc, options, program, envelope, bounds)
}

/// The same from the table and the copies in flight of a scene.
pub(crate) fn from_scene(
    alloc: Global,
    options: ChangesOptions,
    program: Unfolded,
    scene: Scene,
    envelope: &Envelope,
) -> Result<Answer, Memory>
    requires declared { scene.net.declared ≡ program.declared }
    requires rows { AreRows (unfolding_of program) scene.net scene.table.items }
    requires copies { AreCopies (unfolding_of program) scene.net scene.pending.items }
    requires envelope { envelope.now.declared ≡ program.declared }
    requires some { 1 ≤ length envelope.now.devices }
    requires few { length envelope.now.devices ≤ MOST_DEVICES }
    ensures { IfOk result (λ a. IsWrittenFrom options (unfolding_of program) envelope.now
        (value_of_scene (unfolding_of program) scene) (value_of a)) }
{
    let program = Arc::new(alloc, program)?;
    let mut core = start(alloc, &program, scene)?;
    let bounds = start_bounds(alloc, &mut core, envelope)?;
    of_start(alloc, options, core.program(), envelope, bounds)
}
