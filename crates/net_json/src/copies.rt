//! The copies of a scene that are in flight.

ghost use Rattle.std.specs.Prelude.{◌≡◌, ◌≢◌, ◌≤◌, IfOk, IfErr, length, map, option_map, codes, true};
ghost use Rattle.serde_json.specs.View.{view, items_view};
ghost use Rattle.fc_values.specs.Types.{declarations_of};
ghost use Rattle.fc_values.specs.Values.{local_of};
ghost use Rattle.fc_values.specs.Fields.{Rises};
ghost use Rattle.fc_nodes.specs.Program.{unfolding_of};
ghost use Rattle.value_trees.specs.Copies.{WhereSome};
ghost use Rattle.value_trees.specs.Fitting.{IsNear, NearRises};
ghost use Rattle.value_trees.specs.Snaps.{tree_of, near_copy, snap_copy, IsExportOf, IsSnap};
ghost use Rattle.topology.specs.Networks.{lives};
ghost use Rattle.net_json.specs.PlaceCode.{path_of};
ghost use Rattle.net_json.specs.Judging.{at_member, gather, Accepts, Refuses};
ghost use Rattle.net_json.specs.Copies.{is_null_or_object, near_form, copy_form, other_number, weight_judged};
ghost use Rattle.net_json.specs.Copies.{near_judged, near_number, nears_judged, own_export, own_judged, parts_judged};
ghost use Rattle.net_json.specs.Copies.{copy_judged, copies_judged};
ghost use Rattle.net_json.specs.CopyCode.{form_of};
ghost use Rattle.net_json.specs.Places.{IsPlace};
ghost use Rattle.net_json.specs.SceneCode.{AreCopies, IsCopy};

use crate::copy_forms::{CopyForm, form, near_form};
use crate::exports::read_export;
use crate::inputs::{read_inputs, wanted_inputs};
use crate::kept::Format;
use crate::numbers::live_number;
use crate::places::Place;
use crate::readers::{Found, Reader, gather};
use crate::rising::room;
use crate::types::JsonFault;
use crate::values::{local, two_members};
use fc_nodes::Unfolded;
use fc_values::{Declared, Export, MOST_LINKS};
use serde_json::Value;
use std::alloc::Global;
use topology::{GREATEST_NUMBER, NetFault, Network};
use value_trees::{Near, Published, Snap};

// The export of an object with a value and a kept list.
#[tactic(auto, using(crate::proofs::Judgements::refused_next))]
fn read_own_export(
    alloc: Global,
    program: &Unfolded,
    here: &Place<'_>,
    value: &Value,
) -> Result<Export, JsonFault>
    ensures ok { let U = unfolding_of program.now in Accepts result (tree_of U)
        (own_export U (path_of here.now) (view value.now)) }
    ensures export { IfOk result (λ e. IsExportOf (unfolding_of program.now) e) }
    ensures refused { Refuses result (own_export (unfolding_of program.now) (path_of here.now) (view value.now)) }
{
    let Some((value, kept)) = two_members(value, "value", "kept") else {
        return Err(JsonFault::Shape(here.path(alloc)?));
    };
    let Some(value) = local(alloc, value)? else {
        return Err(JsonFault::Shape(here.member(alloc, b"value")?));
    };
    let Some(kept) = kept.as_array() else {
        return Err(JsonFault::Shape(here.member(alloc, b"kept")?));
    };
    read_export(alloc, program, Format::Values, here, value, kept)
}

// The own export of a copy, if it has one.
#[tactic(auto, using(crate::proofs::Judgements::refused_next))]
fn read_own(
    alloc: Global,
    program: &Unfolded,
    here: &Place<'_>,
    value: &Value,
) -> Result<Option<Published>, JsonFault>
    ensures ok { let U = unfolding_of program.now in Accepts result (option_map (tree_of U))
        (own_judged U (path_of here.now) (view value.now)) }
    ensures export { IfOk result (λ o. WhereSome (IsExportOf (unfolding_of program.now)) o) }
    ensures refused { Refuses result (own_judged (unfolding_of program.now) (path_of here.now) (view value.now)) }
{
    if value.is_null() {
        return Ok(None);
    }
    let export = read_own_export(alloc, program, here, value)?;
    Ok(Some(Published::new(alloc, export)?))
}

// The number of a neighbour of a device, with its place among those before.
#[tactic(auto, using(crate::proofs::Judgements::refused_next))]
fn other_number(
    alloc: Global,
    device: u32,
    numbers: &[u32],
    here: &Place<'_>,
    id: u64,
) -> Result<(usize, u32), JsonFault>
    requires { Rises numbers.now }
    ensures ok { Accepts result (λ n. n.1)
        (other_number device numbers.now (at_member (path_of here.now) (codes "id")) id) }
    ensures place { IfOk result (λ n. IsPlace numbers.now n.1 n.0) }
    ensures other { IfOk result (λ n. n.1 ≢ device) }
    ensures refused { Refuses result (other_number device numbers.now (at_member (path_of here.now) (codes "id")) id) }
{
    if id > GREATEST_NUMBER as u64 || id == device as u64 {
        return Err(JsonFault::Shape(here.member(alloc, b"id")?));
    }
    let id = id as u32;
    match room(numbers, id) {
        Some(at) => Ok((at, id)),
        None => Err(JsonFault::Shape(here.member(alloc, b"id")?)),
    }
}

// The weight of a neighbour.
fn weight_within(
    alloc: Global,
    declared: &Declared,
    here: &Place<'_>,
    weight: u64,
) -> Result<u32, JsonFault>
    ensures ok { Accepts result (λ w. w)
        (weight_judged (declarations_of declared.now) (at_member (path_of here.now) (codes "weight")) weight) }
    ensures above { IfOk result (λ w. (declarations_of declared.now).least ≤ w) }
    ensures below { IfOk result (λ w. w ≤ (declarations_of declared.now).greatest) }
    ensures refused { Refuses result
        (weight_judged (declarations_of declared.now) (at_member (path_of here.now) (codes "weight")) weight) }
{
    let (least, greatest) = declared.metric;
    if least as u64 <= weight && weight <= greatest as u64 {
        Ok(weight as u32)
    } else {
        Err(JsonFault::Net(here.member(alloc, b"weight")?, NetFault::Weight))
    }
}

// What reads the neighbours of a device.
#[derive(Clone, Copy)]
struct Nears<'n> {
    program: &'n Unfolded,
    device: u32,
}

impl Reader for Nears<'_> {
    ghost use Rattle.fc_nodes.specs.Program.{unfolding_of};
    ghost use Rattle.fc_values.specs.Trees.{NearCopy};
    ghost use Rattle.value_trees.specs.Fitting.{IsNear};
    ghost use Rattle.value_trees.specs.Snaps.{near_copy};
    ghost use Rattle.net_json.specs.Copies.{near_judged, near_number};

    type Thing = Near;

    ghost Meaning = { NearCopy };

    ghost meaning = { λ s n. near_copy (unfolding_of s.program.now) n };

    ghost number = { near_number };

    ghost judge = { λ s. near_judged (unfolding_of s.program.now) s.device };

    ghost fits = { λ s n. IsNear (unfolding_of s.program.now) s.device n };

    fn read(
        &self,
        alloc: Global,
        numbers: &[u32],
        here: &Place<'_>,
        value: &Value,
    ) -> Result<Found<Near>, JsonFault> {
        read_near(alloc, self.program, self.device, numbers, here, value)
    }
}

// A neighbour of a device beside the numbers of those before.
#[tactic(auto, using(crate::proofs::Judgements::refused_next))]
fn read_near(
    alloc: Global,
    program: &Unfolded,
    device: u32,
    numbers: &[u32],
    here: &Place<'_>,
    value: &Value,
) -> Result<Found<Near>, JsonFault>
    requires { Rises numbers.now }
    ensures ok { let U = unfolding_of program.now in Accepts result (λ n. near_copy U n.thing)
        (near_judged U device numbers.now (path_of here.now) (view value.now)) }
    ensures place { IfOk result (λ n. IsPlace numbers.now n.number n.at) }
    ensures number { IfOk result (λ n. n.number ≡ n.thing.device) }
    ensures near { IfOk result (λ n. IsNear (unfolding_of program.now) device n.thing) }
    ensures refused { Refuses result
        (near_judged (unfolding_of program.now) device numbers.now (path_of here.now) (view value.now)) }
{
    let form = near_form(alloc, here, value)?;
    let (at, id) = other_number(alloc, device, numbers, here, form.id)?;
    let weight = weight_within(alloc, program.declared(), here, form.weight)?;
    let export = read_export(alloc, program, Format::Values, here, form.value, form.kept)?;
    let export = Published::new(alloc, export)?;
    Ok(Found {
        at,
        number: id,
        thing: Near {
            device: id,
            weight,
            export,
        },
    })
}

// The neighbours of a device, no more than it can have, by rising numbers.
fn gather_nears(
    alloc: Global,
    program: &Unfolded,
    device: u32,
    here: &Place<'_>,
    items: &[Value],
) -> Result<Vec<Near>, JsonFault>
    requires { length items.now ≤ MOST_LINKS }
    ensures ok { let U = unfolding_of program.now in Accepts result (λ ns. map (near_copy U) ns.items)
        (gather near_number (near_judged U device) (path_of here.now) (items_view items.now)) }
    ensures near { IfOk result (λ ns. NearRises (unfolding_of program.now) device ns.items) }
    ensures few { IfOk result (λ ns. length ns.items ≤ MOST_LINKS) }
    ensures refused { Refuses result
        (gather near_number (near_judged (unfolding_of program.now) device) (path_of here.now) (items_view items.now)) }
{
    let nears = gather(alloc, &Nears { program, device }, here, items)?;
    Ok(nears)
}

// The neighbours of a device, by rising numbers.
fn read_nears(
    alloc: Global,
    program: &Unfolded,
    device: u32,
    here: &Place<'_>,
    items: &[Value],
) -> Result<Vec<Near>, JsonFault>
    ensures ok { let U = unfolding_of program.now in Accepts result (λ ns. map (near_copy U) ns.items)
        (nears_judged U device (path_of here.now) (items_view items.now)) }
    ensures near { IfOk result (λ ns. NearRises (unfolding_of program.now) device ns.items) }
    ensures few { IfOk result (λ ns. length ns.items ≤ MOST_LINKS) }
    ensures refused { Refuses result
        (nears_judged (unfolding_of program.now) device (path_of here.now) (items_view items.now)) }
{
    if items.len() > MOST_LINKS {
        return Err(JsonFault::Shape(here.path(alloc)?));
    }
    gather_nears(alloc, program, device, here, items)
}

// The copy of a device, out of what it holds by its form.
#[tactic(auto, using(crate::proofs::Judgements::refused_next))]
fn read_parts(
    alloc: Global,
    program: &Unfolded,
    here: &Place<'_>,
    device: u32,
    form: CopyForm,
) -> Result<Snap, JsonFault>
    ensures ok { let U = unfolding_of program.now in Accepts result (snap_copy U)
        (parts_judged U (path_of here.now) device (form_of form.entry)) }
    ensures device { IfOk result (λ s. s.device ≡ device) }
    ensures snap { IfOk result (λ s. IsSnap (unfolding_of program.now) s) }
    ensures refused { Refuses result
        (parts_judged (unfolding_of program.now) (path_of here.now) device (form_of form.entry)) }
{
    let declared = program.declared();
    let place = Place::Member(here, b"inputs");
    let wanted = wanted_inputs(alloc, &declared.inputs)?;
    let inputs = read_inputs(alloc, &wanted, &place, form.inputs)?;
    let place = Place::Member(here, b"own");
    let own = read_own(alloc, program, &place, form.own)?;
    let place = Place::Member(here, b"near");
    let near = read_nears(alloc, program, device, &place, form.near)?;
    Ok(Snap {
        device,
        inputs,
        own,
        near,
    })
}

// What reads the copies of a scene.
#[derive(Clone, Copy)]
struct Copies<'c> {
    program: &'c Unfolded,
    net: &'c Network,
}

impl Reader for Copies<'_> {
    ghost use Rattle.fc_nodes.specs.Program.{unfolding_of};
    ghost use Rattle.fc_values.specs.Trees.{Copy};
    ghost use Rattle.value_trees.specs.Snaps.{snap_copy};
    ghost use Rattle.net_json.specs.Copies.{copy_judged, copy_number};
    ghost use Rattle.net_json.specs.SceneCode.{IsCopy};

    type Thing = Snap;

    ghost Meaning = { Copy };

    ghost meaning = { λ s c. snap_copy (unfolding_of s.program.now) c };

    ghost number = { copy_number };

    ghost judge = { λ s. copy_judged (unfolding_of s.program.now) s.net.now };

    ghost fits = { λ s c. IsCopy (unfolding_of s.program.now) s.net.now c };

    fn read(
        &self,
        alloc: Global,
        numbers: &[u32],
        here: &Place<'_>,
        value: &Value,
    ) -> Result<Found<Snap>, JsonFault> {
        read_copy(alloc, self.program, self.net, numbers, here, value)
    }
}

// A copy beside the numbers of those before.
#[tactic(auto, using(crate::proofs::Judgements::refused_next))]
fn read_copy(
    alloc: Global,
    program: &Unfolded,
    net: &Network,
    numbers: &[u32],
    here: &Place<'_>,
    value: &Value,
) -> Result<Found<Snap>, JsonFault>
    requires { Rises numbers.now }
    ensures ok { let U = unfolding_of program.now in Accepts result (λ s. snap_copy U s.thing)
        (copy_judged U net.now numbers.now (path_of here.now) (view value.now)) }
    ensures place { IfOk result (λ s. IsPlace numbers.now s.number s.at) }
    ensures number { IfOk result (λ s. s.number ≡ s.thing.device) }
    ensures copy { IfOk result (λ s. IsCopy (unfolding_of program.now) net.now s.thing) }
    ensures refused { Refuses result
        (copy_judged (unfolding_of program.now) net.now numbers.now (path_of here.now) (view value.now)) }
{
    let form = form(alloc, here, value)?;
    let (at, device) = live_number(alloc, net, numbers, here, form.id)?;
    let copy = read_parts(alloc, program, here, device, form)?;
    Ok(Found {
        at,
        number: device,
        thing: copy,
    })
}

/// The copies of a list, by rising numbers.
pub(crate) fn read_copies(
    alloc: Global,
    program: &Unfolded,
    net: &Network,
    here: &Place<'_>,
    items: &[Value],
) -> Result<Vec<Snap>, JsonFault>
    ensures ok { let U = unfolding_of program.now in Accepts result (λ ss. map (snap_copy U) ss.items)
        (copies_judged U net.now (path_of here.now) (items_view items.now)) }
    ensures copies { IfOk result (λ ss. AreCopies (unfolding_of program.now) net.now ss.items) }
    ensures refused { Refuses result
        (copies_judged (unfolding_of program.now) net.now (path_of here.now) (items_view items.now)) }
{
    let copies = gather(alloc, &Copies { program, net }, here, items)?;
    Ok(copies)
}
