//! The form of rows, in either format of a table.

ghost use Rattle.std.specs.Prelude.{◌≡◌, IfOk, IfErr};
ghost use Rattle.serde_json.specs.View.{view, items_view};
ghost use Rattle.fc_values.specs.Values.{local_of};
ghost use Rattle.net_json.specs.PlaceCode.{path_of};
ghost use Rattle.net_json.specs.Judging.{Accepts, Refuses};
ghost use Rattle.net_json.specs.Tables.{row_form, second_format};

use crate::places::Place;
use crate::types::JsonFault;
use crate::values::{local, three_members, two_members, whole};
use fc_values::Local;
use serde_json::Value;
use std::alloc::Global;

/// The number, the value and the kept list of a row, by its form.
#[tactic(auto, using(crate::proofs::Judgements::refused_next))]
pub(crate) fn form<'v>(
    alloc: Global,
    here: &Place<'_>,
    value: &'v Value,
) -> Result<(u64, Local, &'v [Value]), JsonFault>
    ensures ok { Accepts result (λ r. record { id = r.0; value = local_of r.1; kept = items_view r.2.now })
        (row_form (path_of here.now) (view value.now)) }
    ensures refused { Refuses result (row_form (path_of here.now) (view value.now)) }
{
    let Some((id, (value, kept))) = three_members(value, "id", "value", "kept") else {
        return Err(JsonFault::Shape(here.path(alloc)?));
    };
    let Some(id) = whole(id) else {
        return Err(JsonFault::Shape(here.member(alloc, b"id")?));
    };
    let Some(value) = local(alloc, value)? else {
        return Err(JsonFault::Shape(here.member(alloc, b"value")?));
    };
    let Some(kept) = kept.as_array() else {
        return Err(JsonFault::Shape(here.member(alloc, b"kept")?));
    };
    Ok((id, value, kept.as_slice()))
}

/// The rows of a table of format 2.
#[tactic(auto, using(crate::proofs::Judgements::refused_next))]
pub(crate) fn second_format<'v>(
    alloc: Global,
    here: &Place<'_>,
    value: &'v Value,
) -> Result<&'v [Value], JsonFault>
    ensures ok { Accepts result (λ rows. items_view rows.now) (second_format (path_of here.now) (view value.now)) }
    ensures refused { Refuses result (second_format (path_of here.now) (view value.now)) }
{
    let Some((format, rows)) = two_members(value, "format", "rows") else {
        return Err(JsonFault::Shape(here.path(alloc)?));
    };
    if whole(format) != Some(2) {
        return Err(JsonFault::Shape(here.member(alloc, b"format")?));
    }
    match rows.as_array() {
        Some(rows) => Ok(rows.as_slice()),
        None => Err(JsonFault::Shape(here.member(alloc, b"rows")?)),
    }
}
