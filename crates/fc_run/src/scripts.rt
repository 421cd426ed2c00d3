//! The lines of a script, and where it is refused.
ghost use Rattle.std.specs.Prelude.{◌≡◌, ◌≤◌, IfErr, IfOk, length, map};
ghost use Rattle.fc_nodes.specs.Program.{unfolding_of};
ghost use Rattle.firing_core.specs.CoreViews.{core_of};
ghost use Rattle.edit_commands.specs.Scripts.{AllCommandsFit, IsScript, numbered, script_of};
ghost use Rattle.fc_values.specs.declared.limits.TheConstants.{MOST_BYTES};
ghost use Rattle.command_frame.specs.Stops.{StopsFor};
ghost use Rattle.fc_run.specs.Code.{IsRefused, script_stop};

use command_frame::{Refusal, Stop, fault_in, script_refusal};
use edit_commands::{Line, ScriptFault, read_script};
use fc_nodes::Unfolded;
use firing_core::Core;
use std::alloc::Global;

// The stop of a script that isn't read.
fn script_stop(fault: ScriptFault) -> Stop
    ensures { result ≡ script_stop fault }
{
    match fault {
        ScriptFault::At { line, fault } => Stop::Refused(script_refusal(line, fault_in(fault))),
        ScriptFault::Lines(count) => Stop::Refused(Refusal::Lines(count)),
        ScriptFault::Scrambles(count) => Stop::Refused(Refusal::Scrambles(count)),
        ScriptFault::Firings(count) => Stop::Refused(Refusal::Firings(count)),
        ScriptFault::Memory => Stop::Memory,
    }
}

/// The lines of the text of a script, judged from a core on.
pub fn read_lines(
    alloc: Global,
    program: &Unfolded,
    core: &Core,
    text: &[u8],
) -> Result<Vec<Line>, Stop>
    requires program { core.now.program ≡ program.now }
    requires short { length text.now ≤ MOST_BYTES }
    ensures script { IfOk result (λ ls.
        IsScript (unfolding_of program.now) (core_of core.now) text.now (map numbered ls.items)) }
    ensures fits { IfOk result (λ ls. AllCommandsFit (unfolding_of program.now) (map numbered ls.items)) }
    ensures refused { IfErr result (StopsFor (IsRefused
        (script_of (unfolding_of program.now) (core_of core.now) text.now))) }
{
    match read_script(alloc, program, core, text) {
        Ok(lines) => Ok(lines),
        Err(fault) => Err(script_stop(fault)),
    }
}
