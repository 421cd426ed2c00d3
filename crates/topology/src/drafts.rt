//! Drafts of networks: devices and their neighbours.

use crate::copies::{copy_devices, copy_nearby, links_of, no_nearby};
use crate::edits::{drop_from_each, put_input};
use crate::inputs::{in_metric, inputs_fault, nth_fault};
use crate::nearby::{Nearby, drop_near, is_near, put_near};
use crate::networks::Network;
use crate::places::{place, room_for_device};
use crate::types::{Device, GREATEST_NUMBER, MOST_DEVICES, NetFault};
use arrayvec::ArrayVec;
use fc_values::{Declared, Local, MOST_LINKS, Memory, copy_declared};
use std::alloc::Global;
use std::marker::Model;

/// A network whose links aren't written out yet: to judge and add a link costs a search for its two devices.
#[derive(Drop)]
pub struct Draft {
    declared: Declared,
    devices: Vec<Device>,
    // the neighbours of each device, in the order of the devices
    near: Vec<Nearby>,
}

impl Model for Draft {
    ghost use Rattle.std.specs.Prelude.{map};
    ghost use Rattle.std.specs.Coded.{codes};
    ghost use Rattle.fc_values.specs.Codes.{local_value_code};
    ghost use Rattle.fc_values.specs.Types.{declarations_of};
    ghost use Rattle.topology.specs.Networks.{Network as NetworkValue, net_device_of};
    ghost use Rattle.topology.specs.Nearby.{IsDraft, drawn, items_of};

    ghost Value = { NetworkValue };

    ghost coded = { Prim.hlevel (codes, local_value_code) };

    ghost view = { λ n.
        drawn (declarations_of n.declared) (map net_device_of n.devices.items) (map items_of n.near.items) };

    ghost invariant = { λ n.
        IsDraft (declarations_of n.declared) (map net_device_of n.devices.items) (map items_of n.near.items) };
}

impl Draft {
    ghost use Rattle.std.specs.Prelude.{◌≡◌, ◌<◌, ◌≤◌, length, map, IfOk, OnOk, OnErr, IfErr, IfSome};
    ghost use Rattle.std.specs.Prelude.{IfNone, slice_index, Some, None, true, false, [], ◌&&◌};
    ghost use Rattle.fc_values.specs.Types.{declarations_of};
    ghost use Rattle.fc_values.specs.Values.{local_of};
    ghost use Rattle.fc_values.specs.Fields.{Rises};
    ghost use Rattle.topology.specs.Networks.{IsNetwork, net_device_of, near as near_of, lives, numbers, network_of};
    ghost use Rattle.topology.specs.Changes.{are_linked, is_full, link_fault, linked, unlink_fault, unlinked};
    ghost use Rattle.topology.specs.Changes.{set_fault, with_input, join_fault, joined, leave_fault, left};
    ghost use Rattle.topology.specs.Nearby.{AtPlace, AtEnds, neighbour_numbers};

    /// A draft of devices by rising numbers that make a network, without links.
    pub fn new(alloc: Global, declared: Declared, devices: Vec<Device>) -> Result<Self, Memory>
        requires { IsNetwork (network_of (declarations_of declared) (map net_device_of devices.items) []) }
        ensures { IfOk result (λ n. n ≡ network_of (declarations_of declared) (map net_device_of devices.items) []) }
    {
        let near = no_nearby(alloc, devices.len())?;
        Ok(Draft {
            declared,
            devices,
            near,
        })
    }

    /// The network, with its links written out.
    pub fn finish(self, alloc: Global) -> Result<Network, Memory>
        ensures { IfOk result (λ n. n ≡ self) }
    {
        let links = links_of(alloc, &self.devices, &self.near)?;
        Ok(Network { draft: self, links })
    }

    /// What its program declares.
    pub(crate) fn declared(&self) -> &Declared
        ensures value { declarations_of result.now ≡ self.now.declared }
        ensures network { IsNetwork self.now }
    {
        &self.declared
    }

    /// The devices, by rising number.
    pub(crate) fn devices(&self) -> &[Device]
        ensures value { map net_device_of result.now ≡ self.now.devices }
        ensures network { IsNetwork self.now }
    {
        &self.devices
    }

    /// The place of a device among the devices.
    pub(crate) fn place(&self, device: u32) -> Option<usize>
        ensures there { IfSome result (λ i. slice_index (numbers self.now.devices) i ≡ device) }
        ensures within { IfSome result (λ i. i < length self.now.devices) }
        ensures lives { IfSome result (λ i. lives self.now device ≡ true) }
        ensures none { IfNone result (lives self.now device ≡ false) }
        ensures network { IsNetwork self.now }
    {
        place(&self.devices, device)
    }

    /// The numbers of the devices that are linked to a device, rising, with the weights of the links.
    pub(crate) fn neighbours(&self, device: u32) -> &[(u32, u32)]
        ensures value { result.now ≡ near_of self.now device }
        ensures rising { Rises (neighbour_numbers result.now) }
        ensures none { lives self.now device ≡ false → result.now ≡ [] }
        ensures network { IsNetwork self.now }
    {
        match self.place(device) {
            Some(at) => self.near[at].as_slice(),
            None => &[],
        }
    }

    /// A copy of the draft.
    pub(crate) fn copy(&self, alloc: Global) -> Result<Self, Memory>
        ensures { IfOk result (λ n. n ≡ self.now) }
    {
        let declared = copy_declared(alloc, &self.declared)?;
        let devices = copy_devices(alloc, &self.devices)?;
        let near = copy_nearby(alloc, &self.near)?;
        Ok(Draft {
            declared,
            devices,
            near,
        })
    }

    // The places of two devices.
    fn ends(&self, a: u32, b: u32) -> Option<(usize, usize)>
        ensures places { IfSome result (AtEnds self.now a b) }
        ensures from { IfSome result (λ at. lives self.now a ≡ true) }
        ensures to { IfSome result (λ at. lives self.now b ≡ true) }
        ensures none { IfNone result ((lives self.now a && lives self.now b) ≡ false) }
    {
        let first = self.place(a)?;
        let second = self.place(b)?;
        Some((first, second))
    }

    /// Whether two devices are linked.
    pub fn are_linked(&self, a: u32, b: u32) -> bool
        ensures linked { result ≡ are_linked self.now a b }
        ensures network { IsNetwork self.now }
    {
        match self.place(a) {
            Some(at) => self.has_near(at, a, b),
            None => false,
        }
    }

    // Whether a device, which has this place, is linked to another.
    fn has_near(&self, at: usize, a: u32, b: u32) -> bool
        requires { AtPlace self.now a at }
        ensures { result ≡ are_linked self.now a b }
    {
        is_near(&self.near[at], b)
    }

    // Whether a device, which has this place, has as many links as it can have.
    fn is_full(&self, at: usize, device: u32) -> bool
        requires { AtPlace self.now device at }
        ensures { result ≡ is_full self.now device }
    {
        self.near[at].len() >= MOST_LINKS
    }

    /// Links two devices, or changes the weight of their link. It takes no memory.
    pub fn link(&mut self, a: u32, b: u32, weight: u32) -> Result<(), NetFault>
        ensures ok { OnOk result (self.new ≡ linked self.old a b weight) }
        ensures accepted { OnOk result (link_fault self.old a b weight ≡ None) }
        ensures refused { IfErr result (λ f. link_fault self.old a b weight ≡ Some f) }
        ensures err { OnErr result (self.new ≡ self.old) }
        ensures network { IsNetwork self.old }
    {
        let at = self.room_for_link(a, b, weight)?;
        self.put_link(at, a, b, weight);
        Ok(())
    }

    // The places of two devices that may have a link of a weight.
    fn room_for_link(&self, a: u32, b: u32, weight: u32) -> Result<(usize, usize), NetFault>
        ensures places { IfOk result (AtEnds self.now a b) }
        ensures accepted { OnOk result (link_fault self.now a b weight ≡ None) }
        ensures refused { IfErr result (λ f. link_fault self.now a b weight ≡ Some f) }
        ensures network { IsNetwork self.now }
    {
        let _ = &self.declared;
        let Some(at) = self.ends(a, b) else {
            return Err(NetFault::NoDevice);
        };
        if a == b {
            return Err(NetFault::SelfLink);
        }
        if !in_metric(self.declared(), weight) {
            return Err(NetFault::Weight);
        }
        if !self.has_near(at.0, a, b) && (self.is_full(at.0, a) || self.is_full(at.1, b)) {
            return Err(NetFault::Degree);
        }
        Ok(at)
    }

    // Puts the link of two devices that may have it.
    fn put_link(&mut self, at: (usize, usize), a: u32, b: u32, weight: u32)
        requires places { AtEnds self.old a b at }
        requires fault { link_fault self.old a b weight ≡ None }
        ensures { self.new ≡ linked self.old a b weight }
    {
        put_near(&mut self.near[at.0], b, weight);
        put_near(&mut self.near[at.1], a, weight);
    }

    /// Removes the link of two devices. It takes no memory.
    pub(crate) fn unlink(&mut self, a: u32, b: u32) -> Result<(), NetFault>
        ensures ok { OnOk result (self.new ≡ unlinked self.old a b) }
        ensures accepted { OnOk result (unlink_fault self.old a b ≡ None) }
        ensures refused { IfErr result (λ f. unlink_fault self.old a b ≡ Some f) }
        ensures err { OnErr result (self.new ≡ self.old) }
        ensures network { IsNetwork self.old }
    {
        let at = self.linked_ends(a, b)?;
        self.drop_link(at, a, b);
        Ok(())
    }

    // The places of two linked devices.
    fn linked_ends(&self, a: u32, b: u32) -> Result<(usize, usize), NetFault>
        ensures places { IfOk result (AtEnds self.now a b) }
        ensures accepted { OnOk result (unlink_fault self.now a b ≡ None) }
        ensures refused { IfErr result (λ f. unlink_fault self.now a b ≡ Some f) }
        ensures network { IsNetwork self.now }
    {
        let _ = &self.declared;
        let Some(at) = self.ends(a, b) else {
            return Err(NetFault::NoDevice);
        };
        if !self.has_near(at.0, a, b) {
            return Err(NetFault::NoLink);
        }
        Ok(at)
    }

    // Removes the link of two linked devices.
    fn drop_link(&mut self, at: (usize, usize), a: u32, b: u32)
        requires places { AtEnds self.old a b at }
        requires fault { unlink_fault self.old a b ≡ None }
        ensures { self.new ≡ unlinked self.old a b }
    {
        drop_near(&mut self.near[at.0], b);
        drop_near(&mut self.near[at.1], a);
    }

    /// Why a value can't be put in the place of a device's input.
    pub(crate) fn set_fault(&self, device: u32, input: u32, value: &Local) -> Option<NetFault>
        ensures { result ≡ set_fault self.now device input (local_of value.now) }
    {
        if self.place(device).is_none() {
            return Some(NetFault::NoDevice);
        }
        nth_fault(&self.declared.inputs, input, value)
    }

    /// Puts a value in the place of a device's input. It takes no memory.
    pub(crate) fn set_input(
        &mut self,
        device: u32,
        input: u32,
        value: Local,
    ) -> Result<(), NetFault>
        ensures ok { OnOk result (self.new ≡ with_input self.old device input (local_of value)) }
        ensures accepted { OnOk result (set_fault self.old device input (local_of value) ≡ None) }
        ensures refused { IfErr result (λ f. set_fault self.old device input (local_of value) ≡ Some f) }
        ensures err { OnErr result (self.new ≡ self.old) }
    {
        let Some(at) = self.place(device) else {
            return Err(NetFault::NoDevice);
        };
        if let Some(fault) = nth_fault(&self.declared.inputs, input, &value) {
            return Err(fault);
        }
        put_input(&mut self.devices[at], input as usize, value);
        Ok(())
    }

    /// Why a device can't join.
    pub(crate) fn join_fault(&self, device: &Device) -> Option<NetFault>
        ensures { result ≡ join_fault self.now (net_device_of device.now) }
    {
        if self.place(device.id).is_some() {
            return Some(NetFault::Twice);
        }
        if self.devices.len() >= MOST_DEVICES {
            return Some(NetFault::Devices);
        }
        if device.inputs.len() != self.declared.inputs.len() {
            return Some(NetFault::NoInput);
        }
        inputs_fault(&self.declared.inputs, &device.inputs)
    }

    /// Adds a device that can join.
    pub(crate) fn add(&mut self, device: Device) -> Result<(), Memory>
        requires small { device.id ≤ GREATEST_NUMBER }
        requires fault { join_fault self.old (net_device_of device) ≡ None }
        ensures ok { OnOk result (self.new ≡ joined self.old (net_device_of device)) }
        ensures err { OnErr result (self.new ≡ self.old) }
    {
        self.near.reserve(1)?;
        let at = room_for_device(&self.devices, device.id);
        if self.devices.insert(at, device).is_err() {
            return Err(Memory);
        }
        let _ = self.near.insert(at, ArrayVec::new());
        Ok(())
    }

    /// Removes a device and its links. It takes no memory.
    pub(crate) fn leave(&mut self, device: u32) -> Result<(), NetFault>
        ensures ok { OnOk result (self.new ≡ left self.old device) }
        ensures accepted { OnOk result (leave_fault self.old device ≡ None) }
        ensures refused { IfErr result (λ f. leave_fault self.old device ≡ Some f) }
        ensures err { OnErr result (self.new ≡ self.old) }
    {
        let Some(at) = self.place(device) else {
            return Err(NetFault::NoDevice);
        };
        if self.devices.len() <= 1 {
            return Err(NetFault::Last);
        }
        self.drop_device(at, device);
        Ok(())
    }

    // Removes a device that isn't the only one.
    fn drop_device(&mut self, at: usize, device: u32)
        requires place { AtPlace self.old device at }
        requires fault { leave_fault self.old device ≡ None }
        ensures { self.new ≡ left self.old device }
    {
        self.devices.remove(at);
        self.near.remove(at);
        drop_from_each(&mut self.near, device);
    }
}
