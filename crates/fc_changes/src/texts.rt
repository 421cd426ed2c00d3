//! What is written of last bounds: the verdict's text for all devices of the envelope, and behind it a line for each.

ghost use Rattle.std.specs.Prelude.{◌≡◌, ◌≤◌, ◌++◌, IfOk, OnOk, length, map, option_map};
ghost use Rattle.fc_nodes.specs.Program.{unfolding_of};
ghost use Rattle.topology.specs.declared.types.TheConstants.{MOST_DEVICES};
ghost use Rattle.value_bounds.specs.References.{local_bound_in};
ghost use Rattle.bound_rounds.specs.Rounds.{BoundTable};
ghost use Rattle.bound_rounds.specs.Tables.{FitTable, Stand};
ghost use Rattle.last_bounds.specs.References.{last_bound_in};
ghost use Rattle.bound_texts.specs.BoundTexts.{lines_text};
ghost use Rattle.bound_texts.specs.References.{line_in};
ghost use Rattle.command_frame.specs.Code.{value_of};
ghost use Rattle.fc_changes.specs.Commands.{IsWritten};
ghost use Rattle.fc_changes.specs.Lines.{before_asked, bound_line_of};

use bound_firing::ExportBound;
use bound_texts::{BoundLine, bound_lines};
use command_frame::Answer;
use command_words::{ChangesOptions, Start};
use envelopes::Envelope;
use fc_nodes::Unfolded;
use fc_values::Memory;
use last_bounds::{LastBound, last_bounds};
use settle_rounds::growing_cap;
use std::alloc::Global;
use value_bounds::LocalBound;
use verdict_texts::verdict_text;

// The bound before any round, where it is asked for: where rounds are counted from the scene's table.
fn before(start: Start, last: &LastBound) -> Option<&LocalBound>
    ensures { option_map (λ b. local_bound_in b.now) result
        ≡ before_asked start (local_bound_in last.now.before) }
{
    match start {
        Start::Any => None,
        Start::Table => Some(&last.before),
    }
}

// A last bound, to be shown.
fn shown(start: Start, last: &LastBound) -> BoundLine<'_>
    ensures { line_in result ≡ bound_line_of start (last_bound_in last.now) }
{
    BoundLine {
        device: last.device,
        rounds: last.rounds,
        bound: &last.bound,
        before: before(start, last),
        away: last.away,
    }
}

// Appends the lines of last bounds.
fn write_lasts(
    alloc: Global,
    out: &mut Vec<u8>,
    start: Start,
    lasts: &[LastBound],
) -> Result<(), Memory>
    ensures { OnOk result (out.new.items
        ≡ out.old.items ++ lines_text (map (bound_line_of start) (map last_bound_in lasts.now))) }
{
    let mut lines = Vec::with_capacity(alloc, lasts.len())?;
    for last in lasts {
        lines.push(shown(start, last))?;
    }
    bound_lines(alloc, out, &lines)
}

/// What is written where rounds within an envelope are counted from bounds.
pub(crate) fn of_start(
    alloc: Global,
    options: ChangesOptions,
    program: &Unfolded,
    envelope: &Envelope,
    start: Vec<ExportBound>,
) -> Result<Answer, Memory>
    requires declared { envelope.now.declared ≡ program.now.declared }
    requires fits { FitTable (unfolding_of program.now) envelope.now start.items }
    requires some { 1 ≤ length envelope.now.devices }
    requires few { length envelope.now.devices ≤ MOST_DEVICES }
    ensures { IfOk result (λ a. (table : BoundTable) → Stand (unfolding_of program.now) envelope.now table start.items
        → IsWritten options (unfolding_of program.now) envelope.now table (value_of a)) }
{
    let devices = envelope.devices().len();
    let (_, mut text) = verdict_text(alloc, options.facts, program, devices as u32)?;
    let lasts = last_bounds(alloc, program, envelope, start, growing_cap(devices))?;
    write_lasts(alloc, &mut text, options.start, &lasts)?;
    Ok(Answer::plain(alloc, 0, text))
}
