//! Where a device stands among rising devices, and the neighbours that devices may have.

ghost use Rattle.std.specs.Prelude.{◌≡◌, ◌<◌, ◌≤◌, [], length, map, nat_lt, replicate, slice_index, true, IfOk};
ghost use Rattle.std.specs.List.{prefix_len};
ghost use Rattle.fc_values.specs.Fields.{Rises, is_in};
ghost use Rattle.envelopes.specs.Envelopes.{MaybeDevice, ids};
ghost use Rattle.envelopes.specs.Code.{EndsFit, maybe_device_of, maybe_link_of, near_each, neighbours_of};

use crate::types::{DeviceBound, LinkBound};
use fc_values::Memory;
use std::alloc::Global;

// How many devices come before a number.
fn room(devices: &[DeviceBound], id: u32) -> usize
    requires { Rises (ids (map maybe_device_of devices.now)) }
    ensures value { result ≡ prefix_len (λ (m : MaybeDevice). nat_lt m.id id) (map maybe_device_of devices.now) }
    ensures within { result ≤ length devices.now }
{
    devices.partition_point(|one| one.id < id)
}

/// The place of a device that may be there. Where the numbers count from 0, each is its own place, and no search is
/// needed.
pub(crate) fn place(devices: &[DeviceBound], id: u32) -> usize
    requires rising { Rises (ids (map maybe_device_of devices.now)) }
    requires there { is_in id (ids (map maybe_device_of devices.now)) ≡ true }
    ensures there { slice_index (ids (map maybe_device_of devices.now)) result ≡ id }
    ensures within { result < length devices.now }
{
    let own = id as usize;
    if own < devices.len() && devices[own].id == id {
        return own;
    }
    room(devices, id)
}

/// The neighbours that each device may have, in the order of the devices.
pub(crate) fn near_lists(
    alloc: Global,
    devices: &[DeviceBound],
    links: &[LinkBound],
) -> Result<Vec<Vec<(u32, LinkBound)>>, Memory>
    requires rising { Rises (ids (map maybe_device_of devices.now)) }
    requires links { EndsFit (ids (map maybe_device_of devices.now)) (map maybe_link_of links.now) }
    ensures { IfOk result (λ v. map neighbours_of v.items
        ≡ near_each (ids (map maybe_device_of devices.now)) (map maybe_link_of links.now)) }
{
    let mut near = no_neighbours(alloc, devices.len())?;
    for link in links {
        let first = place(devices, link.a);
        near[first].push((link.b, *link))?;
        let second = place(devices, link.b);
        near[second].push((link.a, *link))?;
    }
    Ok(near)
}

// `count` empty lists of neighbours.
fn no_neighbours(alloc: Global, count: usize) -> Result<Vec<Vec<(u32, LinkBound)>>, Memory>
    ensures { IfOk result (λ v. map neighbours_of v.items ≡ replicate count []) }
{
    let mut lists = Vec::with_capacity(alloc, count)?;
    for _ in 0..count {
        lists.push(Vec::new(alloc))?;
    }
    Ok(lists)
}
