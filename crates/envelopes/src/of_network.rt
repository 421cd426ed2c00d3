//! The envelope of one network.

ghost use Rattle.std.specs.Prelude.{◌≡◌, map, IfOk};
ghost use Rattle.fc_values.specs.Values.{local_of};
ghost use Rattle.topology.specs.Networks.{net_device_of, edge_of};
ghost use Rattle.value_bounds.specs.BoundValues.{exactly as exactly_of};
ghost use Rattle.value_bounds.specs.References.{local_bounds_in};
ghost use Rattle.envelopes.specs.Exactly.{exact_device as device_in, exact_envelope as envelope_in, exact_link as link_in};
ghost use Rattle.envelopes.specs.Code.{maybe_device_of, maybe_link_of};

use crate::drawn::Envelope;
use crate::types::{DeviceBound, LinkBound};
use fc_values::{Local, Memory, copy_declared};
use std::alloc::Global;
use topology::{Device, Link, Network};
use value_bounds::{LocalBound, exactly};

/// The envelope of one network: all is sure and exact.
pub fn exact_envelope(alloc: Global, network: &Network) -> Result<Envelope, Memory>
    ensures { IfOk result (λ e. e ≡ envelope_in network.now) }
{
    let declared = copy_declared(alloc, network.declared())?;
    let devices = exact_devices(alloc, network.devices())?;
    let links = exact_links(alloc, network.links())?;
    Envelope::new(alloc, declared, devices, links)
}

fn exact_devices(alloc: Global, devices: &[Device]) -> Result<Vec<DeviceBound>, Memory>
    ensures { IfOk result (λ v. map maybe_device_of v.items ≡ map device_in (map net_device_of devices.now)) }
{
    let mut bounds = Vec::with_capacity(alloc, devices.len())?;
    for device in devices {
        bounds.push(DeviceBound {
            id: device.id,
            inputs: exact_inputs(alloc, &device.inputs)?,
            sure: true,
        })?;
    }
    Ok(bounds)
}

fn exact_inputs(alloc: Global, values: &[Local]) -> Result<Vec<LocalBound>, Memory>
    ensures { IfOk result (λ v. local_bounds_in v.items ≡ map exactly_of (map local_of values.now)) }
{
    let mut bounds = Vec::with_capacity(alloc, values.len())?;
    for value in values {
        bounds.push(exactly(alloc, value)?)?;
    }
    Ok(bounds)
}

fn exact_links(alloc: Global, links: &[Link]) -> Result<Vec<LinkBound>, Memory>
    ensures { IfOk result (λ v. map maybe_link_of v.items ≡ map link_in (map edge_of links.now)) }
{
    let mut bounds = Vec::with_capacity(alloc, links.len())?;
    for link in links {
        bounds.push(LinkBound {
            a: link.a,
            b: link.b,
            least: link.weight,
            greatest: link.weight,
            sure: true,
        })?;
    }
    Ok(bounds)
}
