//! The envelope of a scene and lines.

ghost use Rattle.std.specs.Prelude.{◌≤◌, map, IfOk};
ghost use Rattle.changes.specs.Code.{line_in};
ghost use Rattle.changes.specs.Faults.{NoneRefused};
ghost use Rattle.changes.specs.Hand.{said};
ghost use Rattle.change_envelopes.specs.Envelopes.{IsEnvelopeOf};

use crate::devices::written_devices;
use crate::links::links;
use change_bounds::{devices_said, inputs_said, pairs_said};
use changes::ChangeLine;
use envelopes::Envelope;
use fc_values::{Memory, copy_declared};
use std::alloc::Global;
use topology::Network;

/// The envelope of a scene and of lines none of which is refused.
pub fn envelope_of_changes(
    alloc: Global,
    network: &Network,
    lines: &[ChangeLine],
) -> Result<Envelope, Memory>
    requires accepted { NoneRefused network.now (map line_in lines.now) }
    requires metric { network.now.declared.least ≤ network.now.declared.greatest }
    ensures { IfOk result (IsEnvelopeOf network.now (said (map line_in lines.now))) }
{
    let declared = copy_declared(alloc, network.declared())?;
    let at_hand = devices_said(alloc, network, lines)?;
    let bounds = inputs_said(alloc, network, lines)?;
    let pairs = pairs_said(alloc, network, lines)?;
    let devices = written_devices(alloc, &declared.inputs, &at_hand, &bounds)?;
    let links = links(alloc, &pairs, &at_hand)?;
    Envelope::new(alloc, declared, devices, links)
}
