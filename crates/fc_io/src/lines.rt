//! The first line of a text, and what a line says.
ghost use Rattle.std.specs.Prelude.{◌≡◌, ◌<◌, ◌≤◌, length};
ghost use Rattle.std.specs.Io.BufRead.{strip_last};
ghost use Rattle.fc_io.specs.Lines.{line_size, line_text};

use memchr::memchr;

/// How many bytes the first line of a text has, with its line feed.
pub fn first_line(text: &[u8]) -> usize
    ensures size { result ≡ line_size text.now }
    ensures within { result ≤ length text.now }
    ensures some { 0 < length text.now → 0 < result }
{
    match memchr(b'\n', text) {
        Some(at) => at + 1,
        None => text.len(),
    }
}

// A text without its last byte, where that is this one.
fn without_last(text: &[u8], byte: u8) -> &[u8]
    ensures { result.now ≡ strip_last byte text.now }
{
    match text {
        [front @ .., last] if *last == byte => front,
        _ => text,
    }
}

/// A line without its line feed, and without one carriage return before its end.
pub fn line_text(line: &[u8]) -> &[u8]
    ensures { result.now ≡ line_text line.now }
{
    without_last(without_last(line, b'\n'), b'\r')
}
