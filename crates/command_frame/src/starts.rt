//! The core that a scene starts from.
ghost use Rattle.std.specs.Prelude.{◌≡◌, IfOk};
ghost use Rattle.fc_nodes.specs.Program.{unfolding_of};
ghost use Rattle.firing_core.specs.CoreViews.{core_of};
ghost use Rattle.firing_core.specs.Cores.{IsGood};
ghost use Rattle.net_json.specs.SceneCode.{AreCopies, AreRows, value_of_scene};
ghost use Rattle.command_frame.specs.Starts.{start_of};

use fc_nodes::Unfolded;
use fc_values::Memory;
use firing_core::Core;
use net_json::Scene;
use std::alloc::Global;
use std::sync::Arc;

/// The core that a scene starts from.
pub fn start(alloc: Global, program: &Arc<Unfolded>, scene: Scene) -> Result<Core, Memory>
    requires declared { scene.net.declared ≡ program.now.value.declared }
    requires rows { AreRows (unfolding_of program.now.value) scene.net scene.table.items }
    requires copies { AreCopies (unfolding_of program.now.value) scene.net scene.pending.items }
    ensures program { IfOk result (λ c. c.program ≡ program.now.value) }
    ensures core { IfOk result (λ c. core_of c ≡ start_of (value_of_scene (unfolding_of program.now.value) scene)) }
    ensures good { IfOk result (λ c. IsGood (unfolding_of program.now.value) (core_of c)) }
{
    let start = Core::new(alloc, program, scene.net, scene.table, scene.pending)?;
    // Its clause `good`.
    let _net = start.net();
    Ok(start)
}
