//! The table of a core, as a line that a scene takes up again.
ghost use Rattle.std.specs.Prelude.{◌≡◌, map, IfOk};
ghost use Rattle.std.specs.List.{All};
ghost use Rattle.fc_values.specs.Fields.{Rises};
ghost use Rattle.value_trees.specs.Snaps.{IsExportOf};
ghost use Rattle.firing_core.specs.CoreViews.{core_of, program_of};
ghost use Rattle.net_json.specs.SceneCode.{borrowed_row};
ghost use Rattle.command_frame.specs.Tables.{rows_of, table_line, where_asked};

use fc_values::{Export, Memory};
use firing_core::Core;
use net_json::write_table;
use std::alloc::Global;

// The devices of a core that have an export, with it.
fn table(alloc: Global, core: &Core) -> Result<Vec<(u32, &Export)>, Memory>
    ensures rows { IfOk result (λ v. map (borrowed_row (program_of core.now)) v.items
        ≡ rows_of (core_of core.now) (core_of core.now).net.devices) }
    ensures rising { IfOk result (λ v. Rises (map (λ r. r.0) v.items)) }
    ensures exports { IfOk result (λ v. All (λ r. IsExportOf (program_of core.now) r.1.now) v.items) }
{
    let mut rows = Vec::new(alloc);
    for device in core.net().devices() {
        if let Some(export) = core.export(device.id) {
            rows.push((device.id, export))?;
        }
    }
    Ok(rows)
}

/// The line of a core's table, where it is asked for.
pub fn table_text(alloc: Global, asked: bool, core: &Core) -> Result<Vec<u8>, Memory>
    ensures { IfOk result (λ v. v.items ≡ where_asked asked (table_line (program_of core.now) (core_of core.now))) }
{
    if !asked {
        return Ok(Vec::new(alloc));
    }
    let rows = table(alloc, core)?;
    let mut line = write_table(alloc, core.program(), &rows)?;
    line.push(b'\n')?;
    Ok(line)
}
