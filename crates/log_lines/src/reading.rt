//! Logs, read line by line.

ghost use Rattle.std.specs.Prelude.{◌≡◌, ◌<◌, ◌^◌, length, IfOk, IfErr, Some, None};
ghost use Rattle.fc_values.specs.Numbers.{number_of};
ghost use Rattle.fc_nodes.specs.Program.{unfolding_of};
ghost use Rattle.firing_core.specs.Entries.{entries_of};
ghost use Rattle.firing_core.specs.Replays.{LogFits};
ghost use Rattle.edit_commands.specs.Code.{HasFault};
ghost use Rattle.edit_commands.specs.LineByLine.{StopsAt};
ghost use Rattle.log_lines.specs.Logs.{IsLog, log_of, logged};
ghost use Rattle.log_lines.specs.LogCode.{IsEntryOf, line_in, edit_text_in};

use edit_commands::{Fault, LineFailure, line_words, read_edit};
use fc_io::{first_line, line_text};
use fc_nodes::Unfolded;
use fc_values::{Memory, number};
use firing_core::Entry;
use std::alloc::Global;
use topology::Network;

/// The entries of a log, and in a list as long the numbers of their lines from 1.
#[derive(Drop)]
pub struct Log {
    pub lines: Vec<u32>,
    pub entries: Vec<Entry>,
}

// The entry that the text of a line says. An edit is done to the network.
fn read_entry(
    alloc: Global,
    program: &Unfolded,
    net: &mut Network,
    text: &[u8],
) -> Result<Entry, LineFailure>
    requires { net.old.declared ≡ program.now.declared }
    ensures ok { IfOk result (IsEntryOf program.now net.old net.new (line_in program.now net.old text.now)) }
    ensures refused { IfErr result (HasFault (line_in program.now net.old text.now)) }
{
    match text {
        [b'B', digits @ ..] => Ok(Entry::Begin(device(digits)?)),
        [b'E', digits @ ..] => Ok(Entry::End(device(digits)?)),
        [b'I'] => Ok(Entry::Idle),
        _ => read_edit_entry(alloc, program, net, text),
    }
}

// The number of a device that begins or ends.
fn device(digits: &[u8]) -> Result<u32, LineFailure>
    ensures ok { IfOk result (λ d. number_of digits.now ≡ Some d) }
    ensures refused { IfErr result (λ f. (number_of digits.now ≡ None) × (f ≡ LineFailure.Bad Fault.Form)) }
{
    match number(digits) {
        Some(device) => Ok(device),
        None => Err(LineFailure::Bad(Fault::Form)),
    }
}

// The edit that the text of a line says, as an entry.
fn read_edit_entry(
    alloc: Global,
    program: &Unfolded,
    net: &mut Network,
    text: &[u8],
) -> Result<Entry, LineFailure>
    requires { net.old.declared ≡ program.now.declared }
    ensures ok { IfOk result (IsEntryOf program.now net.old net.new (edit_text_in program.now net.old text.now)) }
    ensures refused { IfErr result (HasFault (edit_text_in program.now net.old text.now)) }
{
    let words = line_words(alloc, text)?;
    match read_edit(alloc, program, net, &words) {
        Ok(edit) => Ok(Entry::Edit(edit)),
        Err(fault) => Err(fault),
    }
}

// The room for the entries of a text: each has a line with a byte or more beside its line feed.
fn room(text: &[u8]) -> usize {
    let feeds = text.iter().filter(|byte| **byte == b'\n').count();
    feeds.min(text.len() / 2) + 1
}

/// The entries of a log with the numbers of their lines, each of which is judged against the network that the lines
/// before it leave; or the number of the first line that has a fault, with the fault.
pub fn read_log(
    alloc: Global,
    program: &Unfolded,
    net: &Network,
    text: &[u8],
) -> Result<Result<Log, (u32, Fault)>, Memory>
    requires declared { net.now.declared ≡ program.now.declared }
    requires short { length text.now < 2 ^ 32 }
    ensures log { IfOk result (λ r. IfOk r (λ l. IsLog (unfolding_of program.now) net.now text.now (logged l))) }
    ensures many { IfOk result (λ r. IfOk r (λ l. length l.lines.items ≡ length l.entries.items)) }
    ensures fits { IfOk result (λ r. IfOk r (λ l. LogFits (unfolding_of program.now) (entries_of l.entries.items))) }
    ensures refused { IfOk result (λ r. IfErr r (λ f. log_of (unfolding_of program.now) net.now text.now
        ≡ StopsAt f.0 f.1)) }
{
    let mut after = net.copy(alloc)?;
    let mut lines = Vec::with_capacity(alloc, room(text))?;
    let mut entries = Vec::with_capacity(alloc, room(text))?;
    let mut number = 0;
    let mut rest = text;
    'lines: while !rest.is_empty() {
        let (front, back) = rest.split_at(first_line(rest));
        let line = line_text(front);
        number += 1;
        if !line.is_empty() {
            let entry = match read_entry(alloc, program, &mut after, line) {
                Ok(entry) => entry,
                Err(LineFailure::Bad(fault)) => return Ok(Err((number, fault))),
                Err(LineFailure::Memory) => return Err(Memory),
            };
            lines.push(number)?;
            entries.push(entry)?;
        }
        rest = back;
    }
    Ok(Ok(Log { lines, entries }))
}
