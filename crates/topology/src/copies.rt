//! Copies of the parts of a network.

ghost use Rattle.std.specs.Prelude.{◌≡◌, ◌≤◌, ◌*◌, ◌++◌, length, map, vec_capacity, IfOk, OnOk, replicate, []};
ghost use Rattle.fc_values.specs.Values.{local_of};
ghost use Rattle.topology.specs.Networks.{net_device_of, edge_of, numbers};
ghost use Rattle.topology.specs.Nearby.{items_of, links_from, links_in};

use crate::edits::make_room;
use crate::nearby::{Nearby, copy_near};
use crate::types::{Device, Link, MOST_DEVICES};
use fc_values::{MOST_LINKS, Memory, copy_locals};
use std::alloc::Global;

/// A copy of a device.
pub fn copy_device(alloc: Global, device: &Device) -> Result<Device, Memory>
    ensures { IfOk result (λ d. net_device_of d ≡ net_device_of device.now) }
{
    let inputs = copy_locals(alloc, &device.inputs)?;
    Ok(Device {
        id: device.id,
        inputs,
    })
}

pub(crate) fn copy_devices(alloc: Global, devices: &[Device]) -> Result<Vec<Device>, Memory>
    ensures { IfOk result (λ v. map net_device_of v.items ≡ map net_device_of devices.now) }
{
    let mut copies = Vec::new(alloc);
    for device in devices {
        copies.push(copy_device(alloc, device)?)?;
    }
    Ok(copies)
}

/// The links, in a list with room for as many as were asked for.
pub(crate) fn copy_links(alloc: Global, links: &[Link], room: usize) -> Result<Vec<Link>, Memory>
    requires { length links.now ≤ room }
    ensures links { IfOk result (λ v. map edge_of v.items ≡ map edge_of links.now) }
    ensures room { IfOk result (λ v. room ≤ vec_capacity v) }
{
    let mut copies = Vec::with_capacity(alloc, room)?;
    copies.extend_from_slice(links)?;
    Ok(copies)
}

pub(crate) fn copy_nearby(alloc: Global, near: &[Nearby]) -> Result<Vec<Nearby>, Memory>
    ensures { IfOk result (λ v. map items_of v.items ≡ map items_of near.now) }
{
    let mut copies = Vec::new(alloc);
    for one in near {
        copies.push(copy_near(one))?;
    }
    Ok(copies)
}

/// The links that the neighbours of devices tell of, in a list with room for as many as the devices can have.
pub(crate) fn links_of(
    alloc: Global,
    devices: &[Device],
    near: &[Nearby],
) -> Result<Vec<Link>, Memory>
    requires long { length near.now ≡ length devices.now }
    requires few { length (links_in (numbers (map net_device_of devices.now)) (map items_of near.now))
        ≤ MOST_LINKS * length devices.now }
    requires most { length devices.now ≤ MOST_DEVICES }
    ensures links { IfOk result (λ v. map edge_of v.items
        ≡ links_in (numbers (map net_device_of devices.now)) (map items_of near.now)) }
    ensures room { IfOk result (λ v. MOST_LINKS * length devices.now ≤ vec_capacity v) }
{
    let room = MOST_LINKS * devices.len();
    let mut links = Vec::with_capacity(alloc, room)?;
    for (i, device) in devices.iter().enumerate() {
        push_links(&mut links, device.id, &near[i])?;
    }
    make_room(&mut links, room)?;
    Ok(links)
}

// Puts the links that the neighbours of a device tell of behind others.
fn push_links(links: &mut Vec<Link>, device: u32, near: &Nearby) -> Result<(), Memory>
    ensures { OnOk result (map edge_of links.new.items
        ≡ map edge_of links.old.items ++ links_from device near.now.items) }
{
    for one in near.as_slice() {
        if device < one.0 {
            links.push(Link {
                a: device,
                b: one.0,
                weight: one.1,
            })?;
        }
    }
    Ok(())
}

/// `count` empty lists of neighbours.
pub(crate) fn no_nearby(alloc: Global, count: usize) -> Result<Vec<Nearby>, Memory>
    ensures { IfOk result (λ v. map items_of v.items ≡ replicate count []) }
{
    let mut lists = Vec::new(alloc);
    for _ in 0..count {
        lists.push(Nearby::new())?;
    }
    Ok(lists)
}
