//! Networks, and their changes.

use crate::copies::copy_links;
use crate::drafts::Draft;
use crate::edits::{drop_link, drop_links, make_room, put_link};
use crate::makes::{first_misfit, first_twice, in_order};
use crate::places::room_for_device;
use crate::types::{Device, GREATEST_NUMBER, JoinFault, Link, MOST_DEVICES, MakeFault, NetFault};
use fc_values::{Declared, Local, MOST_LINKS, Memory};
use std::alloc::Global;
use std::marker::Model;

/// A network: devices by rising number, with links by rising pairs.
#[derive(Drop)]
pub struct Network {
    pub(crate) draft: Draft,
    pub(crate) links: Vec<Link>,
}

impl Model for Network {
    ghost use Rattle.std.specs.Prelude.{map, vec_capacity};
    ghost use Rattle.std.specs.Coded.{codes};
    ghost use Rattle.fc_values.specs.Codes.{local_value_code};
    ghost use Rattle.topology.specs.Networks.{Network as NetworkValue, edge_of};
    ghost use Rattle.topology.specs.Nearby.{IsWritten};

    ghost Value = { NetworkValue };

    ghost coded = { Prim.hlevel (codes, local_value_code) };

    ghost view = { λ n. n.draft };

    ghost invariant = { λ n. IsWritten n.draft (map edge_of n.links.items) (vec_capacity n.links) };
}

impl Network {
    ghost use Rattle.std.specs.Prelude.{◌≡◌, ◌<◌, ◌≤◌, length, map, IfOk, OnOk, OnErr, IfErr, IfSome};
    ghost use Rattle.std.specs.Prelude.{IfNone, slice_index, nat_lt, Some, None, true, false, []};
    ghost use Rattle.std.specs.List.{prefix_len};
    ghost use Rattle.fc_values.specs.Types.{declarations_of};
    ghost use Rattle.fc_values.specs.Values.{local_of};
    ghost use Rattle.fc_values.specs.Fields.{Rises};
    ghost use Rattle.topology.specs.Networks.{NetDevice, IsNetwork, net_device_of, edge_of, near as near_of};
    ghost use Rattle.topology.specs.Networks.{lives, numbers, network_of};
    ghost use Rattle.topology.specs.Changes.{HaveNumbers, HaveInputs, RefusesMake, make_fault, made, are_linked};
    ghost use Rattle.topology.specs.Changes.{link_fault, linked, unlink_fault, unlinked, set_fault, with_input};
    ghost use Rattle.topology.specs.Changes.{RefusesJoin, join_fault, joined, leave_fault, left};
    ghost use Rattle.topology.specs.Nearby.{neighbour_numbers};

    /// The network of these declarations and devices, without links.
    pub fn new(alloc: Global, declared: Declared, devices: Vec<Device>) -> Result<Self, MakeFault>
        requires numbers { HaveNumbers (map net_device_of devices.items) }
        requires inputs { HaveInputs (length declared.inputs.items) (map net_device_of devices.items) }
        ensures ok { IfOk result (λ n. n ≡ made (declarations_of declared) (map net_device_of devices.items)) }
        ensures accepted { OnOk result
            (make_fault (declarations_of declared) (map net_device_of devices.items) ≡ None) }
        ensures refused { IfErr result (RefusesMake (declarations_of declared) (map net_device_of devices.items)) }
    {
        let count = devices.len();
        if count == 0 || count > MOST_DEVICES {
            return Err(MakeFault::Devices(count));
        }
        if let Some(fault) = first_twice(&devices) {
            return Err(fault);
        }
        if let Some(fault) = first_misfit(&declared.inputs, &devices) {
            return Err(fault);
        }
        match Self::build(alloc, declared, devices) {
            Ok(network) => Ok(network),
            Err(_) => Err(MakeFault::Memory),
        }
    }

    // The network of devices that make one.
    fn build(alloc: Global, declared: Declared, devices: Vec<Device>) -> Result<Self, Memory>
        requires numbers { HaveNumbers (map net_device_of devices.items) }
        requires inputs { HaveInputs (length declared.inputs.items) (map net_device_of devices.items) }
        requires fault { make_fault (declarations_of declared) (map net_device_of devices.items) ≡ None }
        ensures { IfOk result (λ n. n ≡ made (declarations_of declared) (map net_device_of devices.items)) }
    {
        let devices = in_order(alloc, devices)?;
        Self::from_rising(alloc, declared, devices, Vec::new(alloc))
    }

    /// The network of devices by rising numbers, and of links by rising pairs, that make one.
    pub fn from_rising(
        alloc: Global,
        declared: Declared,
        devices: Vec<Device>,
        links: Vec<Link>,
    ) -> Result<Self, Memory>
        requires { IsNetwork
            (network_of (declarations_of declared) (map net_device_of devices.items) (map edge_of links.items)) }
        ensures { IfOk result (λ n. n
            ≡ network_of (declarations_of declared) (map net_device_of devices.items) (map edge_of links.items)) }
    {
        let mut links = links;
        make_room(&mut links, MOST_LINKS * devices.len())?;
        let mut draft = Draft::new(alloc, declared, devices)?;
        for link in &links {
            let _ = draft.link(link.a, link.b, link.weight);
        }
        Ok(Network { draft, links })
    }

    /// What its program declares.
    pub fn declared(&self) -> &Declared
        ensures value { declarations_of result.now ≡ self.now.declared }
        ensures network { IsNetwork self.now }
    {
        self.draft.declared()
    }

    /// The devices, by rising number.
    pub fn devices(&self) -> &[Device]
        ensures value { map net_device_of result.now ≡ self.now.devices }
        ensures network { IsNetwork self.now }
    {
        self.draft.devices()
    }

    /// The links, by rising pairs.
    pub fn links(&self) -> &[Link]
        ensures value { map edge_of result.now ≡ self.now.links }
        ensures network { IsNetwork self.now }
    {
        let _ = self.draft.devices();
        &self.links
    }

    /// The place of a device among the devices.
    pub fn place(&self, device: u32) -> Option<usize>
        ensures there { IfSome result (λ i. slice_index (numbers self.now.devices) i ≡ device) }
        ensures within { IfSome result (λ i. i < length self.now.devices) }
        ensures lives { IfSome result (λ i. lives self.now device ≡ true) }
        ensures none { IfNone result (lives self.now device ≡ false) }
        ensures network { IsNetwork self.now }
    {
        self.draft.place(device)
    }

    /// The numbers of the devices that are linked to a device, rising, with the weights of the links.
    pub fn neighbours(&self, device: u32) -> &[(u32, u32)]
        ensures value { result.now ≡ near_of self.now device }
        ensures rising { Rises (neighbour_numbers result.now) }
        ensures none { lives self.now device ≡ false → result.now ≡ [] }
        ensures network { IsNetwork self.now }
    {
        self.draft.neighbours(device)
    }

    /// A copy of the network.
    pub fn copy(&self, alloc: Global) -> Result<Self, Memory>
        ensures { IfOk result (λ n. n ≡ self.now) }
    {
        let links = copy_links(alloc, &self.links, MOST_LINKS * self.devices().len())?;
        let draft = self.draft.copy(alloc)?;
        Ok(Network { draft, links })
    }

    /// Whether two devices are linked.
    pub fn are_linked(&self, a: u32, b: u32) -> bool
        ensures linked { result ≡ are_linked self.now a b }
        ensures network { IsNetwork self.now }
    {
        self.draft.are_linked(a, b)
    }

    /// Links two devices, or changes the weight of their link. It takes no memory.
    pub fn link(&mut self, a: u32, b: u32, weight: u32) -> Result<(), NetFault>
        ensures ok { OnOk result (self.new ≡ linked self.old a b weight) }
        ensures accepted { OnOk result (link_fault self.old a b weight ≡ None) }
        ensures refused { IfErr result (λ f. link_fault self.old a b weight ≡ Some f) }
        ensures err { OnErr result (self.new ≡ self.old) }
    {
        self.draft.link(a, b, weight)?;
        let link = Link {
            a: a.min(b),
            b: a.max(b),
            weight,
        };
        put_link(&mut self.links, link);
        Ok(())
    }

    /// Removes the link of two devices. It takes no memory.
    pub fn unlink(&mut self, a: u32, b: u32) -> Result<(), NetFault>
        ensures ok { OnOk result (self.new ≡ unlinked self.old a b) }
        ensures accepted { OnOk result (unlink_fault self.old a b ≡ None) }
        ensures refused { IfErr result (λ f. unlink_fault self.old a b ≡ Some f) }
        ensures err { OnErr result (self.new ≡ self.old) }
    {
        self.draft.unlink(a, b)?;
        drop_link(&mut self.links, a.min(b), a.max(b));
        Ok(())
    }

    /// The place that a device of a number has, or would have, among the devices.
    pub fn room(&self, device: u32) -> usize
        ensures value { result ≡ prefix_len (λ (n : NetDevice). nat_lt n.id device) self.now.devices }
        ensures within { result ≤ length self.now.devices }
    {
        room_for_device(self.devices(), device)
    }

    /// Why a value can't be put in the place of a device's input.
    pub fn set_fault(&self, device: u32, input: u32, value: &Local) -> Option<NetFault>
        ensures { result ≡ set_fault self.now device input (local_of value.now) }
    {
        self.draft.set_fault(device, input, value)
    }

    /// Puts a value in the place of a device's input. It takes no memory.
    pub fn set_input(&mut self, device: u32, input: u32, value: Local) -> Result<(), NetFault>
        ensures ok { OnOk result (self.new ≡ with_input self.old device input (local_of value)) }
        ensures accepted { OnOk result (set_fault self.old device input (local_of value) ≡ None) }
        ensures refused { IfErr result (λ f. set_fault self.old device input (local_of value) ≡ Some f) }
        ensures err { OnErr result (self.new ≡ self.old) }
    {
        self.draft.set_input(device, input, value)?;
        Ok(())
    }

    /// Adds a device with its inputs and without links.
    pub fn join(&mut self, device: Device) -> Result<(), JoinFault>
        requires { device.id ≤ GREATEST_NUMBER }
        ensures ok { OnOk result (self.new ≡ joined self.old (net_device_of device)) }
        ensures accepted { OnOk result (join_fault self.old (net_device_of device) ≡ None) }
        ensures refused { IfErr result (RefusesJoin self.old (net_device_of device)) }
        ensures err { OnErr result (self.new ≡ self.old) }
    {
        if let Some(fault) = self.draft.join_fault(&device) {
            return Err(JoinFault::Net(fault));
        }
        let room = MOST_LINKS * (self.devices().len() + 1);
        if make_room(&mut self.links, room).is_err() || self.draft.add(device).is_err() {
            return Err(JoinFault::Memory);
        }
        Ok(())
    }

    /// Removes a device and its links. It takes no memory.
    pub fn leave(&mut self, device: u32) -> Result<(), NetFault>
        ensures ok { OnOk result (self.new ≡ left self.old device) }
        ensures accepted { OnOk result (leave_fault self.old device ≡ None) }
        ensures refused { IfErr result (λ f. leave_fault self.old device ≡ Some f) }
        ensures err { OnErr result (self.new ≡ self.old) }
    {
        self.draft.leave(device)?;
        drop_links(&mut self.links, device);
        Ok(())
    }
}
