//! What every command over a scene reads.
ghost use Rattle.std.specs.Prelude.{◌≡◌, ◌≤◌, IfErr, IfOk, length};
ghost use Rattle.fc_nodes.specs.Program.{unfolding_of};
ghost use Rattle.net_json.specs.SceneCode.{AreCopies, AreRows, value_of_scene};
ghost use Rattle.command_frame.specs.Causes.{Accepted, Refused};
ghost use Rattle.command_frame.specs.Inputs.{ReadsInput};
ghost use Rattle.command_frame.specs.Stops.{StopsFor};
ghost use Rattle.fc_values.specs.declared.limits.TheConstants.{MOST_BYTES};

use crate::sources::read_program;
use crate::stop::Stop;
use fc_nodes::Unfolded;
use net_json::{Scene, read_scene};
use std::alloc::Global;

/// The program of a text, and the scene of that program that another text is.
pub fn read_input(alloc: Global, program: &[u8], network: &[u8]) -> Result<(Unfolded, Scene), Stop>
    requires { length program.now ≤ MOST_BYTES }
    ensures input { IfOk result (λ r. ReadsInput program.now network.now
        (Accepted (unfolding_of r.0, value_of_scene (unfolding_of r.0) r.1))) }
    ensures declared { IfOk result (λ r. r.1.net.declared ≡ r.0.declared) }
    ensures rows { IfOk result (λ r. AreRows (unfolding_of r.0) r.1.net r.1.table.items) }
    ensures copies { IfOk result (λ r. AreCopies (unfolding_of r.0) r.1.net r.1.pending.items) }
    ensures refused { IfErr result (StopsFor (λ cause. ReadsInput program.now network.now (Refused cause))) }
{
    let program = read_program(alloc, program)?;
    let scene = read_scene(alloc, &program, network)?;
    Ok((program, scene))
}
