//! The devices of a branch, and the links among them. Devices are named by their places in the network.

use crate::columns::{Column, Location, at_device};
use fc_values::Memory;
use std::alloc::Global;
use topology::Network;

/// A link as one of its devices hears it: that device with the link's number, the one that is heard, and the weight.
#[derive(Clone, Copy, Debug, PartialEq, Eq)]
pub struct LinkEnd {
    pub location: Location,
    pub near: u32,
    pub weight: u32,
}

/// Devices, rising, the links among them by the devices that hear them, and for each place of the network where its
/// links begin and end among these.
#[derive(Drop)]
pub struct Group {
    pub members: Vec<u32>,
    pub link_ends: Vec<LinkEnd>,
    ranges: Vec<(u32, u32)>,
}

impl Group {
    /// All devices of a network.
    pub fn all(alloc: Global, net: &Network) -> Result<Group, Memory> {
        let mut members = Vec::new(alloc);
        let mut link_ends = Vec::new(alloc);
        let mut place = 0u32;
        for device in net.devices() {
            members.push(place)?;
            hear_all(net, device.id, place, &mut link_ends)?;
            place = place.saturating_add(1);
        }
        Group::of(alloc, members, link_ends, place as usize)
    }

    /// Those devices of a group for which a column has this truth.
    pub fn branch(&self, alloc: Global, truths: &Column, truth: bool) -> Result<Group, Memory> {
        let mut members = Vec::new(alloc);
        for device in &self.members {
            if is_truth(truths, *device, truth) {
                members.push(*device)?;
            }
        }
        let mut link_ends = Vec::new(alloc);
        for end in &self.link_ends {
            if is_truth(truths, end.location.device, truth) && is_truth(truths, end.near, truth) {
                link_ends.push(*end)?;
            }
        }
        Group::of(alloc, members, link_ends, self.ranges.len())
    }

    // A group of so many places.
    fn of(
        alloc: Global,
        members: Vec<u32>,
        link_ends: Vec<LinkEnd>,
        places: usize,
    ) -> Result<Group, Memory> {
        let mut ranges = vec![in alloc; (0u32, 0u32); places]?;
        let mut at = 0u32;
        for end in &link_ends {
            let from = at;
            at = at.saturating_add(1);
            if let Some(range) = ranges.get_mut(end.location.device as usize) {
                if range.1 == 0 {
                    range.0 = from;
                }
                range.1 = at;
            }
        }
        Ok(Group {
            members,
            link_ends,
            ranges,
        })
    }

    /// The links that a device hears.
    pub fn heard(&self, device: u32) -> &[LinkEnd] {
        match self.ranges.get(device as usize) {
            Some(range) => part(&self.link_ends, range.0 as usize, range.1 as usize),
            None => &[],
        }
    }

    /// A link as the other device hears it.
    pub fn back(&self, end: &LinkEnd) -> Option<LinkEnd> {
        for other in self.heard(end.near) {
            if other.near == end.location.device {
                return Some(*other);
            }
        }
        None
    }
}

// A part of a list, or nothing where there is none such.
fn part(link_ends: &[LinkEnd], from: usize, to: usize) -> &[LinkEnd] {
    if from <= to && to <= link_ends.len() {
        &link_ends[from..to]
    } else {
        &[]
    }
}

fn is_truth(truths: &Column, device: u32, truth: bool) -> bool {
    (truths.number(at_device(device)) != 0) == truth
}

// Adds the links of a device.
fn hear_all(
    net: &Network,
    device: u32,
    place: u32,
    link_ends: &mut Vec<LinkEnd>,
) -> Result<(), Memory> {
    for (near, weight) in net.neighbours(device) {
        if let Some(at) = net.place(*near) {
            let location = Location {
                device: place,
                link: small(link_ends.len()),
            };
            link_ends.push(LinkEnd {
                location,
                near: small(at),
                weight: *weight,
            })?;
        }
    }
    Ok(())
}

// A count as a small number.
fn small(count: usize) -> u32 {
    if count < u32::MAX as usize {
        count as u32
    } else {
        0
    }
}
