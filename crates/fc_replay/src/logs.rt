//! The entries of a log, with the numbers of their lines, and where it is refused.
ghost use Rattle.std.specs.Prelude.{◌≡◌, ◌<◌, ◌≤◌, IfErr, IfOk, length};
ghost use Rattle.fc_nodes.specs.Program.{unfolding_of};
ghost use Rattle.firing_core.specs.Entries.{entries_of};
ghost use Rattle.firing_core.specs.Replays.{LogFits};
ghost use Rattle.log_lines.specs.Logs.{IsLog, log_of, logged};
ghost use Rattle.command_frame.specs.Stops.{StopsFor};
ghost use Rattle.fc_values.specs.declared.limits.TheConstants.{MOST_BYTES};
ghost use Rattle.fc_replay.specs.Code.{IsFaulty, StopsWithin, stop_of};

use command_frame::{LineFault, Stop, fault_in, log_refusal, step_fault, stop_at};
use fc_nodes::Unfolded;
use firing_core::ReplayFault;
use log_lines::{Log, read_log};
use std::alloc::Global;
use topology::Network;

/// The stop of a log that isn't replayed, from the numbers of its lines.
pub fn stop(lines: &[u32], fault: ReplayFault) -> Stop
    requires { StopsWithin (length lines.now) fault }
    ensures { result ≡ stop_of lines.now fault }
{
    match fault {
        ReplayFault::At { index, fault } => stop_at(lines[index], step_fault(fault)),
        ReplayFault::EditAt { index, fault } => {
            stop_at(lines[index], Some(LineFault::Net(fault)))
        }
        ReplayFault::Memory => Stop::Memory,
    }
}

/// The entries of the text of a log, with the numbers of their lines.
pub fn read_entries(
    alloc: Global,
    program: &Unfolded,
    net: &Network,
    text: &[u8],
) -> Result<Log, Stop>
    requires declared { net.now.declared ≡ program.now.declared }
    requires short { length text.now ≤ MOST_BYTES }
    ensures log { IfOk result (λ l. IsLog (unfolding_of program.now) net.now text.now (logged l)) }
    ensures many { IfOk result (λ l. length l.lines.items ≡ length l.entries.items) }
    ensures fits { IfOk result (λ l. LogFits (unfolding_of program.now) (entries_of l.entries.items)) }
    ensures refused { IfErr result (StopsFor (IsFaulty (log_of (unfolding_of program.now) net.now text.now))) }
{
    let read = read_log(alloc, program, net, text)?;
    match read {
        Ok(log) => Ok(log),
        Err(at) => Err(Stop::Refused(log_refusal(at.0, fault_in(at.1)))),
    }
}
