//! The line of the greatest number of rounds, and a line for each device.

ghost use Rattle.std.specs.Prelude.{◌≡◌, ◌++◌, IfOk, OnErr, OnOk, option_map};
ghost use Rattle.value_bounds.specs.References.{local_bound_in};
ghost use Rattle.bound_texts.specs.BoundTexts.{away_text, before_text, bound_line_text, lines_text, most_rounds};
ghost use Rattle.bound_texts.specs.References.{line_in, lines_in};

use crate::writing::{write_after_space, write_number};
use fc_values::Memory;
use std::alloc::Global;
use value_bounds::LocalBound;

/// What is said of a device: its bound, and after how many rounds it has it; its bound before any round, where that is
/// asked for; and whether it may be away.
#[derive(Clone, Copy)]
pub struct BoundLine<'b> {
    pub device: u32,
    pub rounds: u32,
    pub bound: &'b LocalBound,
    pub before: Option<&'b LocalBound>,
    pub away: bool,
}

// The greatest number of rounds of a device.
fn most_rounds(lines: &[BoundLine<'_>]) -> u32
    ensures { result ≡ most_rounds (lines_in lines.now) }
{
    let mut most = 0;
    for line in lines {
        most = most.max(line.rounds);
    }
    most
}

// Appends the bound before any round, where that is asked for.
fn write_before(alloc: Global, out: &mut Vec<u8>, before: Option<&LocalBound>) -> Result<(), Memory>
    ensures { OnOk result (out.new.items
        ≡ out.old.items ++ before_text (option_map (λ b. local_bound_in b.now) before.entry)) }
{
    if let Some(bound) = before {
        write_after_space(alloc, out, bound)?;
    }
    Ok(())
}

// Appends that a device may be away, where it may.
fn write_away(out: &mut Vec<u8>, away: bool) -> Result<(), Memory>
    ensures { OnOk result (out.new.items ≡ out.old.items ++ away_text away) }
{
    if away {
        out.extend_from_slice(b" away")?;
    }
    Ok(())
}

// Appends the line of a device.
fn write_line(alloc: Global, out: &mut Vec<u8>, line: &BoundLine<'_>) -> Result<(), Memory>
    ensures { OnOk result (out.new.items ≡ out.old.items ++ bound_line_text (line_in line.now)) }
{
    write_number(alloc, out, line.device)?;
    out.push(b' ')?;
    write_number(alloc, out, line.rounds)?;
    write_after_space(alloc, out, line.bound)?;
    write_before(alloc, out, line.before)?;
    write_away(out, line.away)?;
    out.push(b'\n')?;
    Ok(())
}

// The text of lines.
fn text_of(alloc: Global, lines: &[BoundLine<'_>]) -> Result<Vec<u8>, Memory>
    ensures { IfOk result (λ v. v.items ≡ lines_text (lines_in lines.now)) }
{
    let mut text = Vec::new(alloc);
    text.extend_from_slice(b"within ")?;
    write_number(alloc, &mut text, most_rounds(lines))?;
    text.push(b'\n')?;
    for line in lines {
        write_line(alloc, &mut text, line)?;
    }
    Ok(text)
}

/// Appends the line of the greatest number of rounds and a line for each device, or leaves `out` as it was.
pub fn bound_lines(alloc: Global, out: &mut Vec<u8>, lines: &[BoundLine<'_>]) -> Result<(), Memory>
    ensures ok { OnOk result (out.new.items ≡ out.old.items ++ lines_text (lines_in lines.now)) }
    ensures err { OnErr result (out.new.items ≡ out.old.items) }
{
    let text = text_of(alloc, lines)?;
    out.extend_from_slice(&text)?;
    Ok(())
}
