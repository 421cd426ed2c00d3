//! Kept lists as they stand in rows and copies.

ghost use Rattle.std.specs.Prelude.{◌≡◌, IfOk, IfErr, map, option_map, []};
ghost use Rattle.serde_json.specs.View.{view, items_view};
ghost use Rattle.net_json.specs.PlaceCode.{path_of};
ghost use Rattle.net_json.specs.Judging.{in_turn, Accepts, Refuses};
ghost use Rattle.net_json.specs.KeptItems.{item_of_values, item_of_places, kept_judged};
ghost use Rattle.value_trees.specs.KeptItems.{kept_of};
ghost use Rattle.net_json.specs.KeptCode.{item_by};

use crate::places::Place;
use crate::types::JsonFault;
use crate::values::{local, whole};
use fc_values::Memory;
use serde_json::Value;
use std::alloc::Global;
use value_trees::Item;

/// How the items of a kept list are written: as values, or each with its place.
#[derive(Clone, Copy)]
pub(crate) enum Format {
    Values,
    Places,
}

/// The items of a kept list in a format.
#[tactic(auto, using(crate::proofs::Judgements::refused_next))]
pub(crate) fn read_items(
    alloc: Global,
    format: Format,
    here: &Place<'_>,
    items: &[Value],
) -> Result<Vec<Item>, JsonFault>
    ensures ok { Accepts result (λ xs. map kept_of xs.items)
        (in_turn (kept_judged (item_by format)) (path_of here.now) [] 0 (items_view items.now)) }
    ensures refused { Refuses result
        (in_turn (kept_judged (item_by format)) (path_of here.now) [] 0 (items_view items.now)) }
{
    let mut found = Vec::new(alloc);
    for (i, value) in items.iter().enumerate() {
        let Some(one) = read_item(alloc, format, value)? else {
            return Err(JsonFault::Shape(here.item(alloc, i)?));
        };
        found.push(one)?;
    }
    Ok(found)
}

// The item that a value is in a format.
fn read_item(alloc: Global, format: Format, value: &Value) -> Result<Option<Item>, Memory>
    ensures { IfOk result (λ x. option_map kept_of x ≡ item_by format (view value.now)) }
{
    match format {
        Format::Values => plain_item(alloc, value),
        Format::Places => placed_item(alloc, value),
    }
}

// The item that a local value is.
fn plain_item(alloc: Global, value: &Value) -> Result<Option<Item>, Memory>
    ensures { IfOk result (λ x. option_map kept_of x ≡ item_of_values (view value.now)) }
{
    let Some(value) = local(alloc, value)? else {
        return Ok(None);
    };
    Ok(Some(Item { place: None, value }))
}

// The item that an array of a place and a local value is.
fn placed_item(alloc: Global, value: &Value) -> Result<Option<Item>, Memory>
    ensures { IfOk result (λ x. option_map kept_of x ≡ item_of_places (view value.now)) }
{
    let Some(list) = value.as_array() else {
        return Ok(None);
    };
    let items = list.as_slice();
    if items.len() != 2 {
        return Ok(None);
    }
    let Some(place) = whole(&items[0]) else {
        return Ok(None);
    };
    let Some(value) = local(alloc, &items[1])? else {
        return Ok(None);
    };
    Ok(Some(Item {
        place: Some(place),
        value,
    }))
}
