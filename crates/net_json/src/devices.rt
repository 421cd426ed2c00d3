//! The devices of a scene.

ghost use Rattle.std.specs.Prelude.{◌≡◌, IfOk, map, codes};
ghost use Rattle.serde_json.specs.View.{view, items_view};
ghost use Rattle.fc_values.specs.Types.{input_of};
ghost use Rattle.fc_values.specs.Fields.{Rises};
ghost use Rattle.topology.specs.Networks.{net_device_of, numbers};
ghost use Rattle.net_json.specs.PlaceCode.{path_of};
ghost use Rattle.net_json.specs.Judging.{at_member, Accepts, Refuses};
ghost use Rattle.net_json.specs.Devices.{device_form, device_number, device_judged, number_of_device, devices_judged};
ghost use Rattle.net_json.specs.Places.{IsPlace};

use crate::inputs::{Wanted, read_inputs, wanted_inputs};
use crate::places::Place;
use crate::readers::{Found, Reader, gather};
use crate::rising::room;
use crate::types::JsonFault;
use crate::values::{two_members, whole};
use fc_values::InputDecl;
use serde_json::Value;
use std::alloc::Global;
use topology::{Device, GREATEST_NUMBER, MOST_DEVICES, NetFault};

// The number and the inputs of a device, by its form.
#[tactic(auto, using(crate::proofs::Judgements::refused_next))]
fn form<'v>(
    alloc: Global,
    here: &Place<'_>,
    value: &'v Value,
) -> Result<(u64, &'v Value), JsonFault>
    ensures ok { Accepts result (λ f. (f.0, view f.1.now)) (device_form (path_of here.now) (view value.now)) }
    ensures refused { Refuses result (device_form (path_of here.now) (view value.now)) }
{
    let Some((id, inputs)) = two_members(value, "id", "inputs") else {
        return Err(JsonFault::Shape(here.path(alloc)?));
    };
    let Some(id) = whole(id) else {
        return Err(JsonFault::Shape(here.member(alloc, b"id")?));
    };
    if inputs.as_object().is_none() {
        return Err(JsonFault::Shape(here.member(alloc, b"inputs")?));
    }
    Ok((id, inputs))
}

// The number of a device, with its place among those of the devices before.
#[tactic(auto, using(crate::proofs::Judgements::refused_next))]
fn number(
    alloc: Global,
    numbers: &[u32],
    here: &Place<'_>,
    id: u64,
) -> Result<(usize, u32), JsonFault>
    requires { Rises numbers.now }
    ensures ok { Accepts result (λ d. d.1) (device_number numbers.now (at_member (path_of here.now) (codes "id")) id) }
    ensures place { IfOk result (λ d. IsPlace numbers.now d.1 d.0) }
    ensures refused { Refuses result (device_number numbers.now (at_member (path_of here.now) (codes "id")) id) }
{
    if id > GREATEST_NUMBER as u64 {
        return Err(JsonFault::Shape(here.member(alloc, b"id")?));
    }
    let id = id as u32;
    match room(numbers, id) {
        Some(at) => Ok((at, id)),
        None => Err(JsonFault::Net(here.member(alloc, b"id")?, NetFault::Twice)),
    }
}

// What reads the devices of a scene.
#[derive(Clone, Copy)]
struct Devices<'d> {
    inputs: &'d [Wanted<'d>],
}

impl Reader for Devices<'_> {
    ghost use Rattle.topology.specs.Networks.{NetDevice, net_device_of};
    ghost use Rattle.net_json.specs.Devices.{device_judged, number_of_device};

    type Thing = Device;

    ghost Meaning = { NetDevice };

    ghost meaning = { λ _ d. net_device_of d };

    ghost number = { number_of_device };

    ghost judge = { λ s. device_judged s.inputs.now };

    ghost fits = { λ _ _. Unit {0} };

    fn read(
        &self,
        alloc: Global,
        numbers: &[u32],
        here: &Place<'_>,
        value: &Value,
    ) -> Result<Found<Device>, JsonFault> {
        read_device(alloc, self.inputs, numbers, here, value)
    }
}

// A device beside the numbers of those before.
#[tactic(auto, using(crate::proofs::Judgements::refused_next))]
fn read_device(
    alloc: Global,
    inputs: &[Wanted<'_>],
    numbers: &[u32],
    here: &Place<'_>,
    value: &Value,
) -> Result<Found<Device>, JsonFault>
    requires { Rises numbers.now }
    ensures ok { Accepts result (λ d. net_device_of d.thing)
        (device_judged inputs.now numbers.now (path_of here.now) (view value.now)) }
    ensures place { IfOk result (λ d. IsPlace numbers.now d.number d.at) }
    ensures number { IfOk result (λ d. d.number ≡ d.thing.id) }
    ensures refused { Refuses result (device_judged inputs.now numbers.now (path_of here.now) (view value.now)) }
{
    let (id, members) = form(alloc, here, value)?;
    let (at, id) = number(alloc, numbers, here, id)?;
    let inner = Place::Member(here, b"inputs");
    let inputs = read_inputs(alloc, inputs, &inner, members)?;
    Ok(Found {
        at,
        number: id,
        thing: Device { id, inputs },
    })
}

/// The devices of a scene, by rising numbers.
pub(crate) fn read_devices(
    alloc: Global,
    inputs: &[InputDecl],
    here: &Place<'_>,
    items: &[Value],
) -> Result<Vec<Device>, JsonFault>
    ensures ok { Accepts result (λ ds. map net_device_of ds.items)
        (devices_judged (map input_of inputs.now) (path_of here.now) (items_view items.now)) }
    ensures refused { Refuses result
        (devices_judged (map input_of inputs.now) (path_of here.now) (items_view items.now)) }
{
    if items.is_empty() {
        return Err(JsonFault::Shape(here.path(alloc)?));
    }
    if items.len() > MOST_DEVICES {
        return Err(JsonFault::Devices(items.len()));
    }
    let wanted = wanted_inputs(alloc, inputs)?;
    gather(alloc, &Devices { inputs: &wanted }, here, items)
}
