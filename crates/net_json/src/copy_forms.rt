//! The form of copies, and of the neighbours in them.

ghost use Rattle.std.specs.Prelude.{◌≡◌, IfOk, IfErr};
ghost use Rattle.serde_json.specs.View.{view, items_view};
ghost use Rattle.fc_values.specs.Values.{local_of};
ghost use Rattle.net_json.specs.PlaceCode.{path_of};
ghost use Rattle.net_json.specs.Judging.{Accepts, Refuses};
ghost use Rattle.net_json.specs.CopyCode.{form_of};
ghost use Rattle.net_json.specs.Copies.{is_null_or_object, near_form, copy_form};

use crate::places::Place;
use crate::types::JsonFault;
use crate::values::{four_members, local, whole};
use fc_values::Local;
use serde_json::Value;
use std::alloc::Global;

// Whether a value is null or an object.
fn is_null_or_object(value: &Value) -> bool
    ensures { result ≡ is_null_or_object (view value.now) }
{
    match value {
        Value::Null | Value::Object(_) => true,
        _ => false,
    }
}

/// What an item of `near` holds: a number, a weight, a value and a kept list.
#[derive(Drop)]
pub(crate) struct NearForm<'v> {
    pub(crate) id: u64,
    pub(crate) weight: u64,
    pub(crate) value: Local,
    pub(crate) kept: &'v [Value],
}

/// What an item of `near` holds, by its form.
#[tactic(auto, using(crate::proofs::Judgements::refused_next))]
pub(crate) fn near_form<'v>(
    alloc: Global,
    here: &Place<'_>,
    value: &'v Value,
) -> Result<NearForm<'v>, JsonFault>
    ensures ok { Accepts result
        (λ n. record { id = n.id; weight = n.weight; value = local_of n.value; kept = items_view n.kept.now })
        (near_form (path_of here.now) (view value.now)) }
    ensures refused { Refuses result (near_form (path_of here.now) (view value.now)) }
{
    let Some(((id, weight), (value, kept))) = four_members(value, "id", "weight", "value", "kept")
    else {
        return Err(JsonFault::Shape(here.path(alloc)?));
    };
    let Some(id) = whole(id) else {
        return Err(JsonFault::Shape(here.member(alloc, b"id")?));
    };
    let Some(weight) = whole(weight) else {
        return Err(JsonFault::Shape(here.member(alloc, b"weight")?));
    };
    let Some(value) = local(alloc, value)? else {
        return Err(JsonFault::Shape(here.member(alloc, b"value")?));
    };
    let Some(kept) = kept.as_array() else {
        return Err(JsonFault::Shape(here.member(alloc, b"kept")?));
    };
    let kept = kept.as_slice();
    Ok(NearForm {
        id,
        weight,
        value,
        kept,
    })
}

/// What a copy holds: a number, an object of inputs, null or an own export, and neighbours.
#[derive(Clone, Copy)]
pub(crate) struct CopyForm<'v> {
    pub(crate) id: u64,
    pub(crate) inputs: &'v Value,
    pub(crate) own: &'v Value,
    pub(crate) near: &'v [Value],
}

/// What a copy holds, by its form.
#[tactic(auto, using(crate::proofs::Judgements::refused_next))]
pub(crate) fn form<'v>(
    alloc: Global,
    here: &Place<'_>,
    value: &'v Value,
) -> Result<CopyForm<'v>, JsonFault>
    ensures ok { Accepts result form_of (copy_form (path_of here.now) (view value.now)) }
    ensures refused { Refuses result (copy_form (path_of here.now) (view value.now)) }
{
    let Some(((id, inputs), (own, near))) = four_members(value, "id", "inputs", "own", "near")
    else {
        return Err(JsonFault::Shape(here.path(alloc)?));
    };
    let Some(id) = whole(id) else {
        return Err(JsonFault::Shape(here.member(alloc, b"id")?));
    };
    if inputs.as_object().is_none() {
        return Err(JsonFault::Shape(here.member(alloc, b"inputs")?));
    }
    if !is_null_or_object(own) {
        return Err(JsonFault::Shape(here.member(alloc, b"own")?));
    }
    let Some(near) = near.as_array() else {
        return Err(JsonFault::Shape(here.member(alloc, b"near")?));
    };
    let near = near.as_slice();
    Ok(CopyForm {
        id,
        inputs,
        own,
        near,
    })
}
