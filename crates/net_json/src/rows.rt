//! The rows of a table.

ghost use Rattle.std.specs.Prelude.{◌≡◌, IfOk, IfErr, map};
ghost use Rattle.serde_json.specs.View.{view, items_view};
ghost use Rattle.fc_values.specs.Fields.{Rises};
ghost use Rattle.fc_nodes.specs.Program.{unfolding_of};
ghost use Rattle.net_json.specs.PlaceCode.{path_of};
ghost use Rattle.net_json.specs.Judging.{Accepts, Refuses};
ghost use Rattle.net_json.specs.KeptCode.{item_by};
ghost use Rattle.net_json.specs.Places.{IsPlace};
ghost use Rattle.net_json.specs.SceneCode.{row_of, AreRows, IsRow};
ghost use Rattle.net_json.specs.Tables.{row_judged, rows_judged, second_judged, table_judged};

use crate::exports::read_export;
use crate::kept::Format;
use crate::numbers::live_number;
use crate::places::Place;
use crate::readers::{Found, Reader, gather};
use crate::tables::{form, second_format};
use crate::types::JsonFault;
use fc_nodes::Unfolded;
use fc_values::Export;
use serde_json::Value;
use std::alloc::Global;
use topology::Network;

// What reads the rows of a table.
#[derive(Clone, Copy)]
struct Rows<'r> {
    program: &'r Unfolded,
    net: &'r Network,
    format: Format,
}

impl Reader for Rows<'_> {
    ghost use Rattle.fc_nodes.specs.Program.{unfolding_of};
    ghost use Rattle.net_json.specs.KeptCode.{item_by};
    ghost use Rattle.net_json.specs.SceneCode.{row_of, IsRow};
    ghost use Rattle.net_json.specs.Tables.{Row, row_judged, row_number};

    type Thing = (u32, Export);

    ghost Meaning = { Row };

    ghost meaning = { λ s r. row_of (unfolding_of s.program.now) r };

    ghost number = { row_number };

    ghost judge = { λ s. row_judged (unfolding_of s.program.now) s.net.now (item_by s.format) };

    ghost fits = { λ s r. IsRow (unfolding_of s.program.now) s.net.now r };

    fn read(
        &self,
        alloc: Global,
        numbers: &[u32],
        here: &Place<'_>,
        value: &Value,
    ) -> Result<Found<(u32, Export)>, JsonFault> {
        read_row(
            alloc,
            self.program,
            self.net,
            self.format,
            numbers,
            here,
            value,
        )
    }
}

// A row beside the numbers of those before.
#[tactic(auto, using(crate::proofs::Judgements::refused_next))]
fn read_row(
    alloc: Global,
    program: &Unfolded,
    net: &Network,
    format: Format,
    numbers: &[u32],
    here: &Place<'_>,
    value: &Value,
) -> Result<Found<(u32, Export)>, JsonFault>
    requires { Rises numbers.now }
    ensures ok { let U = unfolding_of program.now in Accepts result (λ r. row_of U r.thing)
        (row_judged U net.now (item_by format) numbers.now (path_of here.now) (view value.now)) }
    ensures place { IfOk result (λ r. IsPlace numbers.now r.number r.at) }
    ensures number { IfOk result (λ r. r.number ≡ r.thing.0) }
    ensures row { IfOk result (λ r. IsRow (unfolding_of program.now) net.now r.thing) }
    ensures refused { Refuses result
        (row_judged (unfolding_of program.now) net.now (item_by format) numbers.now (path_of here.now)
        (view value.now)) }
{
    let (id, value, kept) = form(alloc, here, value)?;
    let (at, id) = live_number(alloc, net, numbers, here, id)?;
    let export = read_export(alloc, program, format, here, value, kept)?;
    Ok(Found {
        at,
        number: id,
        thing: (id, export),
    })
}

// The rows of a list, by rising numbers.
fn gather_rows(
    alloc: Global,
    program: &Unfolded,
    net: &Network,
    format: Format,
    here: &Place<'_>,
    items: &[Value],
) -> Result<Vec<(u32, Export)>, JsonFault>
    ensures ok { let U = unfolding_of program.now in Accepts result (λ rows. map (row_of U) rows.items)
        (rows_judged U net.now (item_by format) (path_of here.now) (items_view items.now)) }
    ensures rows { IfOk result (λ rows. AreRows (unfolding_of program.now) net.now rows.items) }
    ensures refused { Refuses result
        (rows_judged (unfolding_of program.now) net.now (item_by format) (path_of here.now) (items_view items.now)) }
{
    let reader = Rows {
        program,
        net,
        format,
    };
    let rows = gather(alloc, &reader, here, items)?;
    Ok(rows)
}

// The rows of a table of format 2, by rising numbers.
#[tactic(auto, using(crate::proofs::Judgements::refused_next))]
fn read_second(
    alloc: Global,
    program: &Unfolded,
    net: &Network,
    here: &Place<'_>,
    value: &Value,
) -> Result<Vec<(u32, Export)>, JsonFault>
    ensures ok { let U = unfolding_of program.now in Accepts result (λ rows. map (row_of U) rows.items)
        (second_judged U net.now (path_of here.now) (view value.now)) }
    ensures rows { IfOk result (λ rows. AreRows (unfolding_of program.now) net.now rows.items) }
    ensures refused { Refuses result
        (second_judged (unfolding_of program.now) net.now (path_of here.now) (view value.now)) }
{
    let rows = second_format(alloc, here, value)?;
    let inner = Place::Member(here, b"rows");
    gather_rows(alloc, program, net, Format::Places, &inner, rows)
}

/// The rows of a table of either format, by rising numbers.
pub(crate) fn read_table(
    alloc: Global,
    program: &Unfolded,
    net: &Network,
    here: &Place<'_>,
    value: &Value,
) -> Result<Vec<(u32, Export)>, JsonFault>
    ensures ok { let U = unfolding_of program.now in Accepts result (λ rows. map (row_of U) rows.items)
        (table_judged U net.now (path_of here.now) (view value.now)) }
    ensures rows { IfOk result (λ rows. AreRows (unfolding_of program.now) net.now rows.items) }
    ensures refused { Refuses result
        (table_judged (unfolding_of program.now) net.now (path_of here.now) (view value.now)) }
{
    match value.as_array() {
        Some(rows) => gather_rows(alloc, program, net, Format::Values, here, rows),
        None => read_second(alloc, program, net, here, value),
    }
}
