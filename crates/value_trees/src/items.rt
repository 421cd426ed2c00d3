//! Items of kept lists.

ghost use Rattle.std.specs.Prelude.{◌≡◌, IfOk, map};
ghost use Rattle.fc_values.specs.Values.{local_of};
ghost use Rattle.value_trees.specs.KeptItems.{kept_of, names_place, plain_item};

use fc_values::{Local, Memory};
use std::alloc::Global;

/// An item of a kept list: its value, and the place that it names, if it names one.
#[derive(Drop)]
pub struct Item {
    pub place: Option<u64>,
    pub value: Local,
}

/// Values as items that name no place.
pub(crate) fn plain_items(alloc: Global, list: Vec<Local>) -> Result<Vec<Item>, Memory>
    ensures { IfOk result (λ xs. map kept_of xs.items ≡ map plain_item (map local_of list.items)) }
{
    let mut items = Vec::new(alloc);
    for value in list {
        items.push(Item { place: None, value })?;
    }
    Ok(items)
}

/// Whether an item that names this place, if any, may stand at a place.
pub(crate) fn names(place: u32, named: Option<u64>) -> bool
    ensures { result ≡ names_place place named }
{
    match named {
        Some(other) => other == place as u64,
        None => true,
    }
}
