//! Where a device stands among rising devices, and a link among rising links.

ghost use Rattle.std.specs.Prelude.{◌≡◌, ◌<◌, ◌≤◌, length, map, nat_lt, slice_index, IfSome, IfNone, true, false};
ghost use Rattle.std.specs.List.{prefix_len};
ghost use Rattle.fc_values.specs.Types.{Declarations};
ghost use Rattle.fc_values.specs.Fields.{Rises, is_in};
ghost use Rattle.topology.specs.Networks.{NetDevice, net_device_of, edge_of, numbers, LinksFit, IsRisingLinks};
ghost use Rattle.topology.specs.Changes.{is_before};

use crate::types::{Device, Link};

/// How many devices come before a number.
pub(crate) fn room_for_device(devices: &[Device], id: u32) -> usize
    requires { Rises (numbers (map net_device_of devices.now)) }
    ensures value { result ≡ prefix_len (λ (n : NetDevice). nat_lt n.id id) (map net_device_of devices.now) }
    ensures within { result ≤ length devices.now }
{
    devices.partition_point(|one| one.id < id)
}

/// The place of a device. Where the numbers count from 0, each is its own place, and no search is needed.
pub(crate) fn place(devices: &[Device], id: u32) -> Option<usize>
    requires { Rises (numbers (map net_device_of devices.now)) }
    ensures there { IfSome result (λ i. slice_index (numbers (map net_device_of devices.now)) i ≡ id) }
    ensures within { IfSome result (λ i. i < length devices.now) }
    ensures is_in { IfSome result (λ i. is_in id (numbers (map net_device_of devices.now)) ≡ true) }
    ensures none { IfNone result (is_in id (numbers (map net_device_of devices.now)) ≡ false) }
{
    let own = id as usize;
    if own < devices.len() && devices[own].id == id {
        return Some(own);
    }
    let at = room_for_device(devices, id);
    if at < devices.len() && devices[at].id == id {
        Some(at)
    } else {
        None
    }
}

/// How many links come before that of a pair.
pub(crate) fn room_for_link(links: &[Link], a: u32, b: u32) -> usize
    requires { IsRisingLinks (map edge_of links.now) }
    ensures value { result ≡ prefix_len (is_before a b) (map edge_of links.now) }
    ensures within { result ≤ length links.now }
{
    links.partition_point(|link| link.a < a || (link.a == a && link.b < b))
}
