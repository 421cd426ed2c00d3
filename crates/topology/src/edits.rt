//! Changes of a network's lists.

ghost use Rattle.std.specs.Prelude.{◌≡◌, ◌<◌, ◌≤◌, true, length, map, vec_capacity, slice_set, OnOk};
ghost use Rattle.fc_values.specs.Values.{local_of};
ghost use Rattle.topology.specs.Networks.{net_device_of, edge_of, IsRisingLinks};
ghost use Rattle.topology.specs.Changes.{is_pair, has_pair, put_edge, drop_pair, drop_links};
ghost use Rattle.topology.specs.Nearby.{drop_near, items_of};

use crate::nearby::{Nearby, drop_near};
use crate::places::room_for_link;
use crate::types::{Device, Link};
use fc_values::{Local, Memory};

/// Removes the link of a pair that has one.
pub(crate) fn drop_link(links: &mut Vec<Link>, a: u32, b: u32)
    requires rising { IsRisingLinks (map edge_of links.old.items) }
    requires there { has_pair a b (map edge_of links.old.items) ≡ true }
    ensures links { map edge_of links.new.items ≡ drop_pair a b (map edge_of links.old.items) }
    ensures room { vec_capacity links.new ≡ vec_capacity links.old }
{
    let at = room_for_link(links, a, b);
    links.remove(at);
}

/// Removes the links of a device.
pub(crate) fn drop_links(links: &mut Vec<Link>, device: u32)
    ensures links { map edge_of links.new.items ≡ drop_links device (map edge_of links.old.items) }
    ensures room { vec_capacity links.new ≡ vec_capacity links.old }
{
    links.retain(|link| !(link.a == device || link.b == device));
}

// Whether a link is that of a pair.
fn is_of_pair(link: &Link, a: u32, b: u32) -> bool
    ensures { result ≡ is_pair a b (edge_of link.now) }
{
    link.a == a && link.b == b
}

/// Puts a link in place of its pair's, or adds it. There is room for it.
pub(crate) fn put_link(links: &mut Vec<Link>, link: Link)
    requires rising { IsRisingLinks (map edge_of links.old.items) }
    requires room { length (put_edge (edge_of link) (map edge_of links.old.items)) ≤ vec_capacity links.old }
    ensures links { map edge_of links.new.items ≡ put_edge (edge_of link) (map edge_of links.old.items) }
    ensures room { vec_capacity links.old ≤ vec_capacity links.new }
{
    let at = room_for_link(links, link.a, link.b);
    if at < links.len() && is_of_pair(&links[at], link.a, link.b) {
        links[at] = link;
    } else {
        let _ = links.insert(at, link);
    }
}

/// Puts a value in the place of an input.
pub(crate) fn put_input(device: &mut Device, input: usize, value: Local)
    requires { input < length device.old.inputs.items }
    ensures id { device.new.id ≡ device.old.id }
    ensures inputs { map local_of device.new.inputs.items
        ≡ slice_set (map local_of device.old.inputs.items) input (local_of value) }
{
    device.inputs[input] = value;
}

/// Removes a device from each list of neighbours.
pub(crate) fn drop_from_each(near: &mut Vec<Nearby>, device: u32)
    ensures { map items_of near.new.items ≡ map (λ ns. drop_near device ns) (map items_of near.old.items) }
{
    for one in near.iter_mut() {
        drop_near(one, device);
    }
}

/// Makes room for so many links.
pub(crate) fn make_room(links: &mut Vec<Link>, room: usize) -> Result<(), Memory>
    requires { length links.old.items ≤ room }
    ensures links { links.new.items ≡ links.old.items }
    ensures kept { vec_capacity links.old ≤ vec_capacity links.new }
    ensures room { OnOk result (room ≤ vec_capacity links.new) }
{
    links.reserve(room - links.len())?;
    Ok(())
}
