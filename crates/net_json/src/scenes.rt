//! Scenes.

ghost use Rattle.std.specs.Prelude.{◌≡◌, ◌≤◌, IfOk, IfErr, map, option_map, []};
ghost use Rattle.serde_json.specs.Find.{get, as_array};
ghost use Rattle.serde_json.specs.View.{view, items_view};
ghost use Rattle.fc_nodes.specs.Program.{unfolding_of};
ghost use Rattle.net_json.specs.PlaceCode.{path_of};
ghost use Rattle.net_json.specs.Judging.{Accepts, Refuses};
ghost use Rattle.net_json.specs.SceneCode.{row_of, value_of_scene, AreRows, AreCopies};
ghost use Rattle.net_json.specs.Scenes.{or_empty, one_if_there, scene_members, is_table, scene_form, scene_judged};
ghost use Rattle.net_json.specs.Scenes.{scene_of, scene_path};
ghost use Rattle.net_json.specs.Tables.{table_judged};

use crate::copies::read_copies;
use crate::networks::read_network;
use crate::places::Place;
use crate::rows::read_table;
use crate::types::{JsonFault, Scene};
use crate::values::has_size;
use fc_nodes::Unfolded;
use fc_values::Export;
use serde_json::Value;
use std::alloc::Global;
use topology::Network;

/// The scene of a text, or the first reason why it is none, or want of memory.
pub fn read_scene(alloc: Global, program: &Unfolded, text: &[u8]) -> Result<Scene, JsonFault>
    ensures ok { Accepts result (value_of_scene (unfolding_of program.now))
        (scene_of (unfolding_of program.now) text.now) }
    ensures declared { IfOk result (λ s. s.net.declared ≡ program.now.declared) }
    ensures rows { IfOk result (λ s. AreRows (unfolding_of program.now) s.net s.table.items) }
    ensures copies { IfOk result (λ s. AreCopies (unfolding_of program.now) s.net s.pending.items) }
    ensures refused { Refuses result (scene_of (unfolding_of program.now) text.now) }
{
    match Value::from_slice(alloc, text) {
        Ok(value) => read_value(alloc, program, &value),
        Err(e) if e.is_memory() => Err(JsonFault::Memory),
        Err(_) => Err(JsonFault::Json),
    }
}

// The scene of a JSON value.
#[tactic(auto, using(crate::proofs::Judgements::refused_next))]
fn read_value(alloc: Global, program: &Unfolded, value: &Value) -> Result<Scene, JsonFault>
    ensures ok { let U = unfolding_of program.now in Accepts result (value_of_scene U)
        (scene_judged U (view value.now)) }
    ensures declared { IfOk result (λ s. s.net.declared ≡ program.now.declared) }
    ensures rows { IfOk result (λ s. AreRows (unfolding_of program.now) s.net s.table.items) }
    ensures copies { IfOk result (λ s. AreCopies (unfolding_of program.now) s.net s.pending.items) }
    ensures refused { Refuses result (scene_judged (unfolding_of program.now) (view value.now)) }
{
    let root = Place::Scene;
    let form = form(alloc, value)?;
    let net = read_network(alloc, program, form.devices, form.links)?;
    let place = Place::Member(&root, b"table");
    let table = read_rows(alloc, program, &net, &place, form.table)?;
    let place = Place::Member(&root, b"pending");
    let pending = read_copies(alloc, program, &net, &place, form.pending)?;
    Ok(Scene {
        net,
        table,
        pending,
    })
}

// The rows of a table, none where it is missing.
fn read_rows(
    alloc: Global,
    program: &Unfolded,
    net: &Network,
    here: &Place<'_>,
    table: Option<&Value>,
) -> Result<Vec<(u32, Export)>, JsonFault>
    ensures ok { let U = unfolding_of program.now in Accepts result (λ rows. map (row_of U) rows.items)
        (table_judged U net.now (path_of here.now) (or_empty (option_map (λ v. view v.now) table.entry))) }
    ensures rows { IfOk result (λ rows. AreRows (unfolding_of program.now) net.now rows.items) }
    ensures refused { Refuses result
        (table_judged (unfolding_of program.now) net.now (path_of here.now)
        (or_empty (option_map (λ v. view v.now) table.entry))) }
{
    match table {
        Some(table) => read_table(alloc, program, net, here, table),
        None => Ok(Vec::new(alloc)),
    }
}

// The parts of a scene: three lists, and a table if there is one.
#[derive(Clone, Copy)]
struct SceneForm<'v> {
    devices: &'v [Value],
    links: &'v [Value],
    table: Option<&'v Value>,
    pending: &'v [Value],
}

// The parts of a scene, by its form.
#[tactic(auto, using(crate::proofs::Judgements::refused_next))]
fn form<'v>(alloc: Global, value: &'v Value) -> Result<SceneForm<'v>, JsonFault>
    ensures ok { Accepts result
        (λ f. record {
          devices = items_view f.devices.now;
          links = items_view f.links.now;
          table = or_empty (option_map (λ v. view v.now) f.table);
          pending = items_view f.pending.now;
        })
        (scene_form (view value.now)) }
    ensures refused { Refuses result (scene_form (view value.now)) }
{
    let root = Place::Scene;
    let Some((devices, links)) = scene_members(value) else {
        return Err(JsonFault::Shape(root.path(alloc)?));
    };
    let Some(devices) = devices.as_array() else {
        return Err(JsonFault::Shape(root.member(alloc, b"devices")?));
    };
    let Some(links) = links.as_array() else {
        return Err(JsonFault::Shape(root.member(alloc, b"links")?));
    };
    let table = value.get("table");
    if !is_table(table) {
        return Err(JsonFault::Shape(root.member(alloc, b"table")?));
    }
    let Some(pending) = list_or_none(value.get("pending")) else {
        return Err(JsonFault::Shape(root.member(alloc, b"pending")?));
    };
    Ok(SceneForm {
        devices: devices.as_slice(),
        links: links.as_slice(),
        table,
        pending,
    })
}

// The members `devices` and `links` of an object that has both, at most beside `table` and `pending`.
fn scene_members(value: &Value) -> Option<(&Value, &Value)>
    ensures { option_map (λ m. (view m.0.now, view m.1.now)) result ≡ scene_members (view value.now) }
{
    let more = one_if_there(value, "table") + one_if_there(value, "pending");
    if !has_size(value, 2 + more) {
        return None;
    }
    let devices = value.get("devices")?;
    let links = value.get("links")?;
    Some((devices, links))
}

// How many members have a name: one or none.
fn one_if_there(value: &Value, name: &str) -> usize
    ensures value { result ≡ one_if_there (get name.now (view value.now)) }
    ensures most { result ≤ 1 }
{
    match value.get(name) {
        Some(_) => 1,
        None => 0,
    }
}

// Whether a table is missing, an array or an object.
fn is_table(table: Option<&Value>) -> bool
    ensures { result ≡ is_table (or_empty (option_map (λ v. view v.now) table.entry)) }
{
    match table {
        None | Some(Value::Array(_)) | Some(Value::Object(_)) => true,
        Some(_) => false,
    }
}

// The items of an array, none where it is missing.
fn list_or_none(value: Option<&Value>) -> Option<&[Value]>
    ensures { option_map (λ v. items_view v.now) result ≡ as_array
        (or_empty (option_map (λ v. view v.now) value.entry)) }
{
    match value {
        Some(value) => {
            let list = value.as_array()?;
            Some(list.as_slice())
        }
        None => Some(&[]),
    }
}
