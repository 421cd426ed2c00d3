//! The lines of changes that an input has, and their envelope.

ghost use Rattle.std.specs.Prelude.{◌≡◌, ◌≤◌, IfErr, IfOk, length, map};
ghost use Rattle.fc_values.specs.declared.limits.TheConstants.{MOST_BYTES};
ghost use Rattle.topology.specs.declared.types.TheConstants.{MOST_DEVICES};
ghost use Rattle.changes.specs.Code.{line_in};
ghost use Rattle.changes.specs.Faults.{NoneRefused};
ghost use Rattle.changes.specs.Hand.{said};
ghost use Rattle.change_envelopes.specs.Envelopes.{IsEnvelopeOf};
ghost use Rattle.change_lines.specs.Changes.{changes_in};
ghost use Rattle.command_frame.specs.Stops.{StopsFor};
ghost use Rattle.fc_changes.specs.Code.{IsRefused};
ghost use Rattle.fc_changes.specs.Commands.{line_fault_of};

use change_envelopes::envelope_of_changes;
use change_lines::read_changes;
use changes::{ChangeFault, ChangeLine, RefusedChange, judge_changes};
use command_frame::{LineFault, Stop, changes_refusal};
use envelopes::Envelope;
use fc_nodes::Unfolded;
use fc_values::Memory;
use std::alloc::Global;
use topology::Network;

// Why a line is refused, as refusals name it.
fn line_fault_of(fault: ChangeFault) -> LineFault
    ensures { result ≡ line_fault_of fault }
{
    match fault {
        ChangeFault::Form => LineFault::Form,
        ChangeFault::Net(fault) => LineFault::Net(fault),
    }
}

/// The lines of a text of changes, none of which is refused.
pub(crate) fn accepted_lines(
    alloc: Global,
    program: &Unfolded,
    net: &Network,
    text: &[u8],
) -> Result<Vec<ChangeLine>, Stop>
    requires declared { net.now.declared ≡ program.now.declared }
    requires short { length text.now ≤ MOST_BYTES }
    ensures lines { IfOk result (λ v. map line_in v.items ≡ changes_in net.now.declared.inputs text.now) }
    ensures accepted { IfOk result (λ v. NoneRefused net.now (map line_in v.items)) }
    ensures refused { IfErr result (StopsFor (IsRefused net.now (changes_in net.now.declared.inputs text.now))) }
{
    let lines = read_changes(alloc, &program.declared().inputs, text)?;
    match judge_changes(alloc, net, &lines) {
        Ok(()) => Ok(lines),
        Err(RefusedChange::Line(line, fault)) => {
            Err(Stop::Refused(changes_refusal(line, line_fault_of(fault))))
        }
        Err(RefusedChange::Memory) => Err(Stop::Memory),
    }
}

/// The envelope of a scene and of lines none of which is refused.
pub(crate) fn envelope_of(
    alloc: Global,
    program: &Unfolded,
    net: &Network,
    lines: &[ChangeLine],
) -> Result<Envelope, Memory>
    requires declared { net.now.declared ≡ program.now.declared }
    requires accepted { NoneRefused net.now (map line_in lines.now) }
    ensures envelope { IfOk result (IsEnvelopeOf net.now (said (map line_in lines.now))) }
    ensures declared { IfOk result (λ e. e.declared ≡ program.now.declared) }
    ensures some { IfOk result (λ e. 1 ≤ length e.devices) }
    ensures few { IfOk result (λ e. length e.devices ≤ MOST_DEVICES) }
{
    // Their clauses: the range of weights of a program, and a network has devices.
    let _declared = program.declared();
    let _devices = net.devices();
    envelope_of_changes(alloc, net, lines)
}
