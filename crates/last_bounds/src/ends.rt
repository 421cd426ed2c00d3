//! Rounds until one changes nothing.

ghost use Rattle.std.specs.Prelude.{◌≡◌, IfOk, OnOk, length};
ghost use Rattle.fc_nodes.specs.Program.{unfolding_of};
ghost use Rattle.bound_rounds.specs.declared.rounds.RoundKind.TheVariants as kind;
ghost use Rattle.bound_rounds.specs.Rounds.{BoundTable};
ghost use Rattle.bound_rounds.specs.Tables.{IsReady, Stand};
ghost use Rattle.last_bounds.specs.References.{HasEnded, NoneNoted};

use crate::changes::{Change, note_bounds};
use bound_rounds::{RoundKind, Table, round};
use envelopes::Envelope;
use fc_nodes::Unfolded;
use fc_values::Memory;
use std::alloc::Global;

/// Makes rounds until one would change nothing, or the cap is reached, and notes each table on the way: how many rounds
/// lead to the last one.
pub(crate) fn rounds_to_end(
    alloc: Global,
    program: &Unfolded,
    envelope: &Envelope,
    cap: u32,
    table: &mut Table,
    changes: &mut [Vec<Change>],
) -> Result<u32, Memory>
    requires declared { envelope.now.declared ≡ program.now.declared }
    requires ready { IsReady kind.Firing (unfolding_of program.now) envelope.now table.old }
    requires many { length changes.old ≡ length envelope.now.devices }
    requires none { NoneNoted changes.old }
    ensures ended { IfOk result (λ n. (start : BoundTable)
        → Stand (unfolding_of program.now) envelope.now start table.old.bounds.items
        → HasEnded (unfolding_of program.now) envelope.now start cap n table.new.bounds.items changes.new) }
    ensures many { OnOk result (length table.new.bounds.items ≡ length envelope.now.devices) }
{
    let mut rounds = 0;
    note_bounds(alloc, envelope, rounds, &table.bounds, changes)?;
    while rounds < cap {
        let goes_on = round(alloc, RoundKind::Firing, program, envelope, table)?;
        if !goes_on {
            return Ok(rounds);
        }
        rounds += 1;
        note_bounds(alloc, envelope, rounds, &table.bounds, changes)?;
    }
    Ok(rounds)
}
