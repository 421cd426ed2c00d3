//! Envelopes in code.

use crate::places::{near_lists, place};
use crate::types::{DeviceBound, LinkBound};
use fc_values::{Declared, Memory};
use std::alloc::Global;
use std::marker::Model;

/// An envelope: devices by rising number, and links by rising pairs.
#[derive(Drop)]
pub struct Envelope {
    declared: Declared,
    devices: Vec<DeviceBound>,
    links: Vec<LinkBound>,
    // the neighbours that each device may have, in the order of the devices
    near: Vec<Vec<(u32, LinkBound)>>,
}

impl Model for Envelope {
    ghost use Rattle.std.specs.Prelude.{map};
    ghost use Rattle.std.specs.Coded.{codes};
    ghost use Rattle.fc_values.specs.Types.{declarations_of};
    ghost use Rattle.envelopes.specs.Codes.{bound_value_code};
    ghost use Rattle.envelopes.specs.Envelopes.{Envelope as EnvelopeValue};
    ghost use Rattle.envelopes.specs.Code.{IsDrawn, envelope_of, maybe_device_of, maybe_link_of, neighbours_of};

    ghost Value = { EnvelopeValue };

    ghost coded = { Prim.hlevel (codes, bound_value_code) };

    ghost view = { λ e. envelope_of (declarations_of e.declared) (map maybe_device_of e.devices.items)
        (map maybe_link_of e.links.items) };

    ghost invariant = { λ e. IsDrawn (envelope_of (declarations_of e.declared) (map maybe_device_of e.devices.items)
        (map maybe_link_of e.links.items)) (map neighbours_of e.near.items) };
}

impl Envelope {
    ghost use Rattle.std.specs.Prelude.{◌≡◌, ◌<◌, length, map, slice_index, IfOk};
    ghost use Rattle.fc_values.specs.Types.{declarations_of};
    ghost use Rattle.envelopes.specs.Envelopes.{IsEnvelope, MayLive, ids, maybe_near};
    ghost use Rattle.envelopes.specs.Code.{envelope_of, maybe_device_of, maybe_link_of, neighbour_of};

    /// The envelope of these declarations, devices by rising numbers, and links by rising pairs, that make one.
    pub fn new(
        alloc: Global,
        declared: Declared,
        devices: Vec<DeviceBound>,
        links: Vec<LinkBound>,
    ) -> Result<Self, Memory>
        requires { IsEnvelope (envelope_of (declarations_of declared) (map maybe_device_of devices.items)
            (map maybe_link_of links.items)) }
        ensures { IfOk result (λ e. e ≡ envelope_of (declarations_of declared) (map maybe_device_of devices.items)
            (map maybe_link_of links.items)) }
    {
        let near = near_lists(alloc, &devices, &links)?;
        Ok(Envelope {
            declared,
            devices,
            links,
            near,
        })
    }

    /// The devices that may be there, by rising number.
    pub fn devices(&self) -> &[DeviceBound]
        ensures value { map maybe_device_of result.now ≡ self.now.devices }
        ensures envelope { IsEnvelope self.now }
    {
        &self.devices
    }

    /// The links that may be there, by rising pairs.
    pub fn links(&self) -> &[LinkBound]
        ensures value { map maybe_link_of result.now ≡ self.now.links }
        ensures envelope { IsEnvelope self.now }
    {
        &self.links
    }

    /// The place of a device that may be there.
    pub fn place(&self, device: u32) -> usize
        requires { MayLive self.now device }
        ensures there { slice_index (ids self.now.devices) result ≡ device }
        ensures within { result < length self.now.devices }
    {
        place(&self.devices, device)
    }

    /// The neighbours that the device at a place may have: their numbers and the links.
    pub fn neighbours_at(&self, place: usize) -> &[(u32, LinkBound)]
        requires { place < length self.now.devices }
        ensures value { map neighbour_of result.now
            ≡ maybe_near (slice_index (ids self.now.devices) place) self.now.links }
        ensures envelope { IsEnvelope self.now }
    {
        &self.near[place]
    }
}
