//! Laws of logs.

ghost use Rattle.log_lines.specs.LogEntries.{LogsHaveEntries};
ghost use Rattle.log_lines.specs.Logs.{ReadingsAgree};
ghost use Rattle.log_lines.specs.ReadingBack.{LogsReadBack};

use edit_commands::{entries_agree, values_are_read};
use firing_core::{steps_agree, steps_keep_good};
use value_trees::lists_have_exports;

/// Two readings of a log have the same lines and the same entries, but for what a poked export holds at the places of a
/// branch that isn't taken.
pub fn readings_agree()
    ensures { ReadingsAgree }
{}

/// A log in which no line has a fault has entries, and they may be replayed.
pub fn logs_have_entries()
    ensures { LogsHaveEntries }
{
    lists_have_exports();
}

/// The lines of a log that leads from a good core of a program to another one are a log for this program and the
/// network of the first core: they say the entries of the log, line by line from the first. Whatever entries are read
/// there are the same, but for what a poked export holds at the places of a branch that isn't taken, and lead to the
/// same core. The text of a log is the line `log` and these lines.
pub fn logs_read_back()
    ensures { LogsReadBack }
{
    values_are_read();
    readings_agree();
    entries_agree();
    steps_agree();
    steps_keep_good();
}
