//! The network of a scene.

ghost use Rattle.std.specs.Prelude.{◌≡◌, IfOk};
ghost use Rattle.serde_json.specs.View.{items_view};
ghost use Rattle.fc_nodes.specs.Program.{unfolding_of};
ghost use Rattle.net_json.specs.Judging.{Accepts, Refuses};
ghost use Rattle.net_json.specs.Scenes.{network_judged};

use crate::devices::read_devices;
use crate::links::read_links;
use crate::places::Place;
use crate::types::JsonFault;
use fc_nodes::Unfolded;
use fc_values::copy_declared;
use serde_json::Value;
use std::alloc::Global;
use topology::{Draft, Network};

/// The network of a scene: its devices, then its links.
#[tactic(auto, using(crate::proofs::Judgements::refused_next))]
pub(crate) fn read_network(
    alloc: Global,
    program: &Unfolded,
    devices: &[Value],
    links: &[Value],
) -> Result<Network, JsonFault>
    ensures ok { Accepts result (λ n. n)
        (network_judged (unfolding_of program.now) (items_view devices.now) (items_view links.now)) }
    ensures declared { IfOk result (λ n. n.declared ≡ program.now.declared) }
    ensures refused { Refuses result
        (network_judged (unfolding_of program.now) (items_view devices.now) (items_view links.now)) }
{
    let root = Place::Scene;
    let declared = copy_declared(alloc, program.declared())?;
    let place = Place::Member(&root, b"devices");
    let devices = read_devices(alloc, &declared.inputs, &place, devices)?;
    let draft = Draft::new(alloc, declared, devices)?;
    let place = Place::Member(&root, b"links");
    read_links(alloc, draft, &place, links)
}
