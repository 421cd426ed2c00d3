//! The lines of a text, counted, and the words of a line.

ghost use Rattle.std.specs.Prelude.{◌≡◌, ◌≤◌, length, map, IfOk};
ghost use Rattle.fc_io.specs.Lines.{lines_of};
ghost use Rattle.edit_commands.specs.Lines.{words_of};

use fc_io::first_line;
use std::alloc::{AllocError, Global};

/// The words of a line, with one space between each two.
pub fn line_words(alloc: Global, line: &[u8]) -> Result<Vec<&[u8]>, AllocError>
    ensures { IfOk result (λ ws. map (λ w. w.now) ws.items ≡ words_of line.now) }
{
    line.split(|byte| *byte == b' ').collect(alloc)
}

// How many lines a text has, the empty ones among them.
pub(crate) fn count_lines(text: &[u8]) -> usize
    ensures count { result ≡ length (lines_of text.now) }
    ensures within { result ≤ length text.now }
{
    let mut count = 0;
    let mut rest = text;
    'lines: while !rest.is_empty() {
        let (_, back) = rest.split_at(first_line(rest));
        count += 1;
        rest = back;
    }
    count
}
