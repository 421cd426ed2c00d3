//! Mail logs: each line is an entry.

ghost use Rattle.std.specs.Prelude.{◌≡◌, ◌<◌, ◌^◌, length, map, option_map, IfOk, IfErr};
ghost use Rattle.edit_commands.specs.Code.{texts};
ghost use Rattle.edit_commands.specs.LineByLine.{StopsAt};
ghost use Rattle.edit_commands.specs.Lines.{words_of};
ghost use Rattle.fc_values.specs.Numbers.{number_of};
ghost use Rattle.message_links.specs.MailCores.{MailBegin, MailEnd};
ghost use Rattle.message_links.specs.MailEntries.{mail_entry};
ghost use Rattle.mail_lines.specs.MailLines.{mail_line, message_line, two_words, idle};
ghost use Rattle.mail_lines.specs.MailLines.{IsMailLog, mail_log, mailed};

use edit_commands::line_words;
use fc_io::{first_line, line_text};
use fc_values::{Memory, number};
use message_links::MailEntry;
use std::alloc::Global;

/// The entries of a mail log, and the numbers of their lines.
#[derive(Drop)]
pub struct MailLines {
    pub lines: Vec<u32>,
    pub entries: Vec<MailEntry>,
}

// The two devices that words number.
fn two(from: &[u8], to: &[u8]) -> Option<(u32, u32)>
    ensures { result ≡ two_words from.now to.now }
{
    let from = number(from)?;
    let to = number(to)?;
    Some((from, to))
}

// The entry of a message that words say.
fn message(words: &[&[u8]]) -> Option<MailEntry>
    ensures { option_map mail_entry result ≡ message_line (texts words.now) }
{
    match words {
        [word, from, to] => {
            let (from, to) = two(from, to)?;
            if *word == b"deliver".as_slice() {
                Some(MailEntry::Deliver(from, to))
            } else if *word == b"again".as_slice() {
                Some(MailEntry::Again(from, to))
            } else {
                None
            }
        }
        [word, from, to, place] => {
            let (from, to) = two(from, to)?;
            let place = number(place)?;
            if *word == b"lose".as_slice() {
                Some(MailEntry::Lose(from, to, place))
            } else {
                None
            }
        }
        _ => None,
    }
}

// What happens to a message, in the words of a text.
fn read_words(alloc: Global, text: &[u8]) -> Result<Option<MailEntry>, Memory>
    ensures { IfOk result (λ e. option_map mail_entry e ≡ message_line (words_of text.now)) }
{
    let words = line_words(alloc, text)?;
    Ok(message(&words))
}

// The entry that the text of a line says, if it says one.
fn read_line(alloc: Global, text: &[u8]) -> Result<Option<MailEntry>, Memory>
    ensures { IfOk result (λ e. option_map mail_entry e ≡ mail_line text.now) }
{
    let Some((first, rest)) = text.split_first() else {
        return Ok(None);
    };
    if *first == b'B' {
        return Ok(begin(rest));
    }
    if *first == b'E' {
        return Ok(end(rest));
    }
    if *first == b'I' {
        return Ok(idle(rest));
    }
    read_words(alloc, text)
}

fn begin(digits: &[u8]) -> Option<MailEntry>
    ensures { option_map mail_entry result ≡ option_map MailBegin (number_of digits.now) }
{
    Some(MailEntry::Begin(number(digits)?))
}

fn end(digits: &[u8]) -> Option<MailEntry>
    ensures { option_map mail_entry result ≡ option_map MailEnd (number_of digits.now) }
{
    Some(MailEntry::End(number(digits)?))
}

fn idle(more: &[u8]) -> Option<MailEntry>
    ensures { option_map mail_entry result ≡ idle more.now }
{
    if more.is_empty() {
        Some(MailEntry::Idle)
    } else {
        None
    }
}

/// The entries of a mail log with the numbers of their lines; or the number of the first line that is no entry.
pub fn read_mail(alloc: Global, text: &[u8]) -> Result<Result<MailLines, u32>, Memory>
    requires short { length text.now < 2 ^ 32 }
    ensures log { IfOk result (λ r. IfOk r (λ l. IsMailLog text.now (mailed l))) }
    ensures many { IfOk result (λ r. IfOk r (λ l. length l.lines.items ≡ length l.entries.items)) }
    ensures refused { IfOk result (λ r. IfErr r (λ k. mail_log text.now ≡ StopsAt k tt)) }
{
    let mut lines = Vec::new(alloc);
    let mut entries = Vec::new(alloc);
    let mut number = 0;
    let mut rest = text;
    'lines: while !rest.is_empty() {
        let (front, back) = rest.split_at(first_line(rest));
        let line = line_text(front);
        number += 1;
        if !line.is_empty() {
            let Some(entry) = read_line(alloc, line)? else {
                return Ok(Err(number));
            };
            lines.push(number)?;
            entries.push(entry)?;
        }
        rest = back;
    }
    Ok(Ok(MailLines { lines, entries }))
}
