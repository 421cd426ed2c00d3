//! Exports, by their values and their kept lists.

ghost use Rattle.std.specs.Prelude.{◌≡◌, IsTrue, IfOk, map};
ghost use Rattle.serde_json.specs.View.{items_view};
ghost use Rattle.fc_values.specs.Values.{local_of};
ghost use Rattle.fc_values.specs.BuiltinTypes.{inner as inner_type};
ghost use Rattle.fc_nodes.specs.Terms.{term_type};
ghost use Rattle.fc_nodes.specs.Program.{unfolding_of};
ghost use Rattle.value_trees.specs.KeptReads.{has_type};
ghost use Rattle.value_trees.specs.Snaps.{tree_of, IsExportOf};
ghost use Rattle.value_trees.specs.Walks.{FitsMain};
ghost use Rattle.net_json.specs.PlaceCode.{path_of};
ghost use Rattle.net_json.specs.Judging.{Accepts, Refuses};
ghost use Rattle.value_trees.specs.KeptItems.{kept_of, take_main};
ghost use Rattle.net_json.specs.KeptCode.{item_by};
ghost use Rattle.net_json.specs.Exports.{whole_export, export_judged};

use crate::kept::{Format, read_items};
use crate::places::Place;
use crate::types::JsonFault;
use fc_nodes::Unfolded;
use fc_values::{Export, Local};
use serde_json::Value;
use std::alloc::Global;
use value_trees::{Item, KeptFault, fits_main, from_items};

/// The export with a value and a kept list, both of the object at a path.
#[tactic(auto, using(crate::proofs::Judgements::refused_next))]
pub(crate) fn read_export(
    alloc: Global,
    program: &Unfolded,
    format: Format,
    here: &Place<'_>,
    value: Local,
    kept: &[Value],
) -> Result<Export, JsonFault>
    ensures ok { let U = unfolding_of program.now in Accepts result (tree_of U)
        (export_judged U (item_by format) (path_of here.now) (local_of value) (items_view kept.now)) }
    ensures export { IfOk result (λ e. IsExportOf (unfolding_of program.now) e) }
    ensures refused { Refuses result
        (export_judged (unfolding_of program.now) (item_by format) (path_of here.now) (local_of value)
        (items_view kept.now)) }
{
    if !value_fits(program, &value) {
        return Err(JsonFault::Shape(here.member(alloc, b"value")?));
    }
    let list = Place::Member(here, b"kept");
    let items = read_items(alloc, format, &list, kept)?;
    export_of_items(alloc, program, here, value, items)
}

// The export with a value and the items of a kept list.
fn export_of_items(
    alloc: Global,
    program: &Unfolded,
    here: &Place<'_>,
    value: Local,
    items: Vec<Item>,
) -> Result<Export, JsonFault>
    requires { FitsMain (unfolding_of program.now) (local_of value) }
    ensures ok { let U = unfolding_of program.now in Accepts result (tree_of U)
        (whole_export U (path_of here.now) (local_of value) (take_main U (map kept_of items.items))) }
    ensures export { IfOk result (λ e. IsExportOf (unfolding_of program.now) e) }
    ensures refused { let U = unfolding_of program.now in Refuses result
        (whole_export U (path_of here.now) (local_of value) (take_main U (map kept_of items.items))) }
{
    match from_items(alloc, program, value, &items) {
        Ok(export) => Ok(export),
        Err(KeptFault::At(place)) => Err(JsonFault::Kept(here.path(alloc)?, place)),
        Err(KeptFault::Memory) => Err(JsonFault::Memory),
    }
}

// The test of a value against the type of `main`, as the definitions have it.
fn value_fits(program: &Unfolded, value: &Local) -> bool
    ensures test { let U = unfolding_of program.now in
        result ≡ has_type U.declared.ceiling (inner_type (term_type U.main)) (local_of value.now) }
    ensures fits { IsTrue result → FitsMain (unfolding_of program.now) (local_of value.now) }
{
    fits_main(program, value)
}
