//! Tables as text.

ghost use Rattle.std.specs.Prelude.{◌≡◌, ◌++◌, [], Some, IfOk, OnOk, length, map, codes, is_some};
ghost use Rattle.std.specs.List.{All};
ghost use Rattle.serde_json.specs.Data.{array, object, member, no_members};
ghost use Rattle.serde_json.specs.View.{view, items_of};
ghost use Rattle.fc_values.specs.Exports.{slots_of};
ghost use Rattle.fc_values.specs.Fields.{Rises};
ghost use Rattle.fc_values.specs.Values.{local_of};
ghost use Rattle.fc_nodes.specs.Program.{unfolding_of, IsProgram};
ghost use Rattle.fc_nodes.specs.Terms.{node_keeps};
ghost use Rattle.value_trees.specs.Snaps.{tree_of, IsExportOf};
ghost use Rattle.net_json.specs.Placing.{more_if, kept_places, placed_slots};
ghost use Rattle.net_json.specs.SceneCode.{borrowed_row};
ghost use Rattle.net_json.specs.Scenes.{json_of};
ghost use Rattle.net_json.specs.TableTexts.{whole_data, value_data, placed_data, row_data, table_data, table_text};

use fc_nodes::{Node, Op, Unfolded};
use fc_values::{Export, Local, Memory, Slot};
use serde_json::{Value, json};
use std::alloc::{AllocError, Global};

/// The text of a table in format 2, without any space: a row for each device and its export, in the order given.
pub fn write_table(
    alloc: Global,
    program: &Unfolded,
    table: &[(u32, &Export)],
) -> Result<Vec<u8>, Memory>
    requires rising { Rises (map (λ r. r.0) table.now) }
    requires exports { All (λ r. IsExportOf (unfolding_of program.now) r.1.now) table.now }
    ensures text { let U = unfolding_of program.now in IfOk result
        (λ text. text.items ≡ table_text U (map (borrowed_row U) table.now)) }
    ensures reads_back { let U = unfolding_of program.now in IfOk result
        (λ text. json_of text.items ≡ Some (table_data U (map (borrowed_row U) table.now))) }
{
    let value = table_value(alloc, program, table)?;
    let text = value.to_vec(alloc)?;
    Ok(text)
}

// A table in format 2.
fn table_value(alloc: Global, program: &Unfolded, table: &[(u32, &Export)]) -> Result<Value, Memory>
    requires { All (λ r. IsExportOf (unfolding_of program.now) r.1.now) table.now }
    ensures data { let U = unfolding_of program.now in IfOk result
        (λ v. view v ≡ table_data U (map (borrowed_row U) table.now)) }
    ensures program { IsProgram program.now }
{
    let places = places_of(alloc, program)?;
    let mut rows = Vec::new(alloc);
    for row in table {
        rows.push(row_value(alloc, program, &places, row.0, row.1)?)?;
    }
    let value = table_object(alloc, rows)?;
    Ok(value)
}

// The object of a table in format 2.
fn table_object(alloc: Global, rows: Vec<Value>) -> Result<Value, AllocError>
    ensures { IfOk result
        (λ v. view v ≡ object (member (codes "format") (whole_data 2)
        (member (codes "rows") (array (items_of (map view rows.items))) no_members))) }
{
    json!(in alloc; {"format": 2_u32, "rows": Value::Array(rows)})
}

// The places of the nodes that keep a value.
fn places_of(alloc: Global, program: &Unfolded) -> Result<Vec<u32>, Memory>
    ensures places { IfOk result (λ ps. ps.items ≡ kept_places (unfolding_of program.now).main 0) }
    ensures program { IsProgram program.now }
{
    let mut places = Vec::new(alloc);
    for place in 0..program.size() {
        push_place(&mut places, program.node(place), place)?;
    }
    Ok(places)
}

// Puts the place of a node behind others, if the node keeps a value.
fn push_place(places: &mut Vec<u32>, node: &Node, place: u32) -> Result<(), Memory>
    ensures { OnOk result (places.new.items ≡ places.old.items ++ more_if (is_some (node_keeps node.now)) place []) }
{
    if keeps(node) {
        places.push(place)?;
    }
    Ok(())
}

// Whether a node keeps a value.
fn keeps(node: &Node) -> bool
    ensures { result ≡ is_some (node_keeps node.now) }
{
    match &node.op {
        Op::Nbr | Op::Rep | Op::Share | Op::If => true,
        _ => false,
    }
}

// A row: a device, what its export keeps, by places, and its value.
fn row_value(
    alloc: Global,
    program: &Unfolded,
    places: &[u32],
    id: u32,
    export: &Export,
) -> Result<Value, Memory>
    requires places { places.now ≡ kept_places (unfolding_of program.now).main 0 }
    requires export { IsExportOf (unfolding_of program.now) export.now }
    ensures { IfOk result
        (λ v. view v ≡ row_data (unfolding_of program.now) (id, tree_of (unfolding_of program.now) export.now)) }
{
    let kept = kept_value(alloc, places, &export.slots.list)?;
    let value = local_value(alloc, &export.value)?;
    let row = row_object(alloc, id, kept, value)?;
    Ok(row)
}

// The object of a row.
fn row_object(alloc: Global, id: u32, kept: Value, value: Value) -> Result<Value, AllocError>
    ensures { IfOk result
        (λ v. view v ≡ object (member (codes "id") (whole_data id)
        (member (codes "kept") (view kept) (member (codes "value") (view value) no_members)))) }
{
    json!(in alloc; {"id": id, "kept": kept, "value": value})
}

// The values of the slots that are kept, each with the place of its slot.
fn kept_value(alloc: Global, places: &[u32], slots: &[Slot]) -> Result<Value, Memory>
    requires { length places.now ≡ length slots.now }
    ensures { IfOk result
        (λ v. view v ≡ array (items_of (map placed_data (placed_slots places.now (slots_of slots.now))))) }
{
    let mut list = Vec::new(alloc);
    for i in 0..slots.len() {
        push_kept(alloc, &mut list, places[i], &slots[i])?;
    }
    Ok(Value::Array(list))
}

// Puts the value of a slot behind others, with a place, if it is kept.
fn push_kept(alloc: Global, list: &mut Vec<Value>, place: u32, slot: &Slot) -> Result<(), Memory>
    ensures { OnOk result
        (map view list.new.items
        ≡ map view list.old.items ++ more_if slot.now.kept (placed_data (place, local_of slot.now.value)) []) }
{
    if slot.kept {
        list.push(placed_value(alloc, place, &slot.value)?)?;
    }
    Ok(())
}

// A place and what is kept there.
fn placed_value(alloc: Global, place: u32, value: &Local) -> Result<Value, Memory>
    ensures { IfOk result (λ v. view v ≡ placed_data (place, local_of value.now)) }
{
    let value = local_value(alloc, value)?;
    let pair = json!(in alloc; [place, value])?;
    Ok(pair)
}

// A local value.
fn local_value(alloc: Global, value: &Local) -> Result<Value, Memory>
    ensures { IfOk result (λ v. view v ≡ value_data (local_of value.now)) }
{
    match value {
        Local::Int(n) => Ok(Value::from(*n)),
        Local::Bool(b) => Ok(Value::Bool(*b)),
        Local::Pair(first, second) => {
            let first = local_value(alloc, first)?;
            let second = local_value(alloc, second)?;
            let pair = json!(in alloc; [first, second])?;
            Ok(pair)
        }
    }
}
