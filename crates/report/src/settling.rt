//! The lines of settling: the settle line, and a line for each device.

ghost use Rattle.std.specs.Prelude.{◌≡◌, ◌++◌, IfOk, OnOk, OnErr, option_map};
ghost use Rattle.fc_values.specs.Values.{local_of};
ghost use Rattle.report.specs.Settling.{settle_line_text, settled_device_text, settled_text};

use crate::writing::{write_after_space, write_number};
use fc_values::{Local, Memory};
use std::alloc::Global;

/// Appends the settle line of a settle time, `open` where there is none, or leaves `out` as it was.
pub fn settle_line(alloc: Global, out: &mut Vec<u8>, time: Option<u64>) -> Result<(), Memory>
    ensures ok { OnOk result (out.new.items ≡ out.old.items ++ settle_line_text time) }
    ensures err { OnErr result (out.new.items ≡ out.old.items) }
{
    match time {
        Some(rounds) => {
            let line = format!(in alloc; "settles {rounds}\n")?;
            out.extend_from_slice(line.as_bytes())?;
        }
        None => out.extend_from_slice(b"open\n")?,
    }
    Ok(())
}

// Appends a settle round and its value.
fn write_settled(
    alloc: Global,
    out: &mut Vec<u8>,
    settled: Option<(u32, &Local)>,
) -> Result<(), Memory>
    ensures { OnOk result (out.new.items
        ≡ out.old.items ++ settled_text (option_map (λ s. (s.0, local_of s.1.now)) settled.entry)) }
{
    match settled {
        Some((rounds, value)) => {
            write_number(alloc, out, rounds)?;
            write_after_space(alloc, out, value)?;
        }
        None => out.push(b'-')?,
    }
    Ok(())
}

// The line of a device, with its settle round and its value then.
fn line_of(alloc: Global, device: u32, settled: Option<(u32, &Local)>) -> Result<Vec<u8>, Memory>
    ensures { IfOk result (λ line. line.items
        ≡ settled_device_text (device, option_map (λ s. (s.0, local_of s.1.now)) settled.entry)) }
{
    let mut line = Vec::new(alloc);
    write_number(alloc, &mut line, device)?;
    line.push(b' ')?;
    write_settled(alloc, &mut line, settled)?;
    line.push(b'\n')?;
    Ok(line)
}

/// Appends the line of a device with its settle round and its value then, `-` where it has none, or leaves `out` as it
/// was.
pub fn settled_device(
    alloc: Global,
    out: &mut Vec<u8>,
    device: u32,
    settled: Option<(u32, &Local)>,
) -> Result<(), Memory>
    ensures ok { OnOk result (out.new.items ≡ out.old.items
        ++ settled_device_text (device, option_map (λ s. (s.0, local_of s.1.now)) settled.entry)) }
    ensures err { OnErr result (out.new.items ≡ out.old.items) }
{
    let line = line_of(alloc, device, settled)?;
    out.extend_from_slice(&line)?;
    Ok(())
}
