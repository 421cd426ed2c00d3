//! The inputs of a device or of a copy.

ghost use Rattle.std.specs.Prelude.{◌≡◌, IfOk, IfErr, map, option_map, []};
ghost use Rattle.serde_json.specs.View.{view};
ghost use Rattle.serde_json.specs.Find.{get};
ghost use Rattle.fc_values.specs.Types.{input_of};
ghost use Rattle.fc_values.specs.Values.{local_of};
ghost use Rattle.fc_values.specs.Inputs.{InputsFit};
ghost use Rattle.net_json.specs.PlaceCode.{path_of};
ghost use Rattle.net_json.specs.Judging.{at_member, Accepts, Refuses};
ghost use Rattle.net_json.specs.Inputs.{has_names, has_exactly, input_judged, values_judged, inputs_judged};

use crate::places::Place;
use crate::types::JsonFault;
use crate::values::{has_size, local};
use fc_values::{InputDecl, Local, Memory};
use serde_json::Value;
use std::alloc::Global;
use std::marker::Model;
use topology::input_fault;

/// A declared input, with its name as text. A name that isn't UTF-8 is no member's.
#[derive(Drop)]
pub(crate) struct Wanted<'d> {
    input: &'d InputDecl,
    name: Option<&'d str>,
}

impl<'d> Model for Wanted<'d> {
    ghost use Rattle.fc_values.specs.Types.{Input, input_of};
    ghost use Rattle.net_json.specs.InputCode.{IsTextOf};

    ghost Value = { Input };

    ghost view = { λ w. input_of w.input.now };

    ghost invariant = { λ w. IsTextOf w.input.now.name.text.items w.name };
}

/// The declared inputs, with their names as text.
pub(crate) fn wanted_inputs(alloc: Global, inputs: &[InputDecl]) -> Result<Vec<Wanted<'_>>, Memory>
    ensures { IfOk result (λ ws. ws.items ≡ map input_of inputs.now) }
{
    let mut found = Vec::with_capacity(alloc, inputs.len())?;
    for input in inputs {
        let name = std::str::from_utf8(&input.name.text).ok();
        found.push(Wanted { input, name })?;
    }
    Ok(found)
}

// The member that an input names.
fn member<'v>(value: &'v Value, input: &Wanted<'_>) -> Option<&'v Value>
    ensures { option_map (λ v. view v.now) result ≡ get input.now.name (view value.now) }
{
    let members = value.as_object()?;
    members.get(input.name?)
}

// Whether the names of inputs are members of an object.
fn has_names(inputs: &[Wanted<'_>], value: &Value) -> bool
    ensures { result ≡ has_names inputs.now (view value.now) }
{
    for input in inputs {
        if member(value, input).is_none() {
            return false;
        }
    }
    true
}

// The value of an input of an object.
#[tactic(auto, using(crate::proofs::Judgements::refused_next))]
fn input(
    alloc: Global,
    input: &Wanted<'_>,
    here: &Place<'_>,
    value: &Value,
) -> Result<Local, JsonFault>
    ensures ok { Accepts result local_of
        (input_judged input.now.type (at_member (path_of here.now) input.now.name)
        (get input.now.name (view value.now))) }
    ensures refused { Refuses result
        (input_judged input.now.type (at_member (path_of here.now) input.now.name)
        (get input.now.name (view value.now))) }
{
    let InputDecl { name, ty } = input.input;
    let Some(found) = member(value, input) else {
        return Err(JsonFault::Shape(here.member(alloc, &name.text)?));
    };
    let Some(local) = local(alloc, found)? else {
        return Err(JsonFault::Shape(here.member(alloc, &name.text)?));
    };
    match input_fault(*ty, &local) {
        None => Ok(local),
        Some(fault) => Err(JsonFault::Net(here.member(alloc, &name.text)?, fault)),
    }
}

/// The values of the declared inputs, in their order, of an object that has exactly their names.
#[tactic(auto, using(crate::proofs::Judgements::refused_next))]
pub(crate) fn read_inputs(
    alloc: Global,
    inputs: &[Wanted<'_>],
    here: &Place<'_>,
    value: &Value,
) -> Result<Vec<Local>, JsonFault>
    ensures ok { Accepts result (λ vs. map local_of vs.items)
        (inputs_judged inputs.now (path_of here.now) (view value.now)) }
    ensures fit { IfOk result (λ vs. InputsFit inputs.now (map local_of vs.items)) }
    ensures refused { Refuses result (inputs_judged inputs.now (path_of here.now) (view value.now)) }
{
    if !has_size(value, inputs.len()) {
        return Err(JsonFault::Shape(here.path(alloc)?));
    }
    let values = read_values(alloc, inputs, here, value);
    // where all values were read, all names were found
    if values.is_err() && !has_names(inputs, value) {
        return Err(JsonFault::Shape(here.path(alloc)?));
    }
    values
}

fn read_values(
    alloc: Global,
    inputs: &[Wanted<'_>],
    here: &Place<'_>,
    value: &Value,
) -> Result<Vec<Local>, JsonFault>
    ensures ok { Accepts result (λ vs. map local_of vs.items)
        (values_judged (path_of here.now) (view value.now) [] inputs.now) }
    ensures fit { IfOk result (λ vs. InputsFit inputs.now (map local_of vs.items)) }
    ensures refused { Refuses result (values_judged (path_of here.now) (view value.now) [] inputs.now) }
{
    let mut values = Vec::with_capacity(alloc, inputs.len())?;
    for one in inputs {
        values.push(input(alloc, one, here, value)?)?;
    }
    Ok(values)
}
