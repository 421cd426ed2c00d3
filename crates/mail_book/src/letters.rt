//! What is kept for an ordered pair of neighbours: what was last heard, and the messages in transit, the oldest first.

ghost use Rattle.std.specs.Prelude.{◌≡◌, ◌<◌, ◌≤◌, [], IfOk, IfErr, OnOk, OnErr, Some, None, length, map, option_map};
ghost use Rattle.std.specs.Prelude.{true, false};
ghost use Rattle.fc_values.specs.Exports.{export_of};
ghost use Rattle.message_links.specs.MailCores.{pushed, without};
ghost use Rattle.message_links.specs.declared.entries.MailFault.TheVariants as fault;
ghost use Rattle.mail_book.specs.Letters.{letter_of, IsQuiet, Delivers, Repeats, SameLetters};

use fc_values::Memory;
use message_links::{MOST_IN_TRANSIT, MailFault};
use std::alloc::Global;
use value_trees::Published;

/// A message: an export, which the messages of one end share, and the position in the log of the end that sent it; none
/// for what the start holds.
#[derive(Drop)]
pub(crate) struct Message {
    pub(crate) export: Published,
    pub(crate) sent: Option<usize>,
}

/// What a device has heard from a neighbour, and what is in transit to it.
#[derive(Drop)]
pub(crate) struct Letters {
    pub(crate) heard: Option<Published>,
    pub(crate) transit: Vec<Message>,
}

/// Nothing heard, and nothing in transit.
pub(crate) fn no_letters(alloc: Global) -> Letters
    ensures { IsQuiet result }
{
    Letters {
        heard: None,
        transit: Vec::new(alloc),
    }
}

/// Adds a message; a full list first loses its oldest.
pub(crate) fn post(letters: &mut Letters, message: Message) -> Result<(), Memory>
    ensures heard { letters.new.heard ≡ letters.old.heard }
    ensures transit { OnOk result (letters.new.transit.items ≡ pushed letters.old.transit.items message) }
    ensures err { OnErr result (letters.new.transit.items ≡ letters.old.transit.items) }
{
    letters.transit.push(message)?;
    if letters.transit.len() > MOST_IN_TRANSIT {
        letters.transit.remove(0);
    }
    Ok(())
}

/// An export is heard.
pub(crate) fn hear(letters: &mut Letters, export: Published)
    ensures heard { letters.new.heard ≡ Some export }
    ensures transit { letters.new.transit ≡ letters.old.transit }
{
    letters.heard = Some(export);
}

/// The oldest message is heard, and leaves.
pub(crate) fn deliver(letters: &mut Letters) -> Result<(), MailFault>
    ensures ok { OnOk result (Delivers letters.old letters.new) }
    ensures refused { IfErr result (λ f. f ≡ fault.Empty) }
    ensures empty { OnErr result (letters.old.transit.items ≡ []) }
    ensures err { OnErr result (letters.new ≡ letters.old) }
{
    if letters.transit.is_empty() {
        return Err(MailFault::Empty);
    }
    let message = letters.transit.remove(0);
    letters.heard = Some(message.export);
    Ok(())
}

/// The oldest message is heard, and stays; or there is none.
pub(crate) fn repeat(letters: &mut Letters) -> Result<bool, Memory>
    ensures some { IfOk result (λ b. b ≡ true → Repeats letters.old letters.new) }
    ensures empty { IfOk result (λ b. b ≡ false → letters.old.transit.items ≡ []) }
    ensures none { IfOk result (λ b. b ≡ false → letters.new ≡ letters.old) }
    ensures err { OnErr result (letters.new ≡ letters.old) }
{
    if letters.transit.is_empty() {
        return Ok(false);
    }
    let export = letters.transit[0].export.share()?;
    letters.heard = Some(export);
    Ok(true)
}

/// A message is lost, by its place from the oldest.
pub(crate) fn lose(letters: &mut Letters, at: usize) -> Result<(), MailFault>
    ensures heard { letters.new.heard ≡ letters.old.heard }
    ensures within { OnOk result (at < length letters.old.transit.items) }
    ensures transit { OnOk result (letters.new.transit.items ≡ without at letters.old.transit.items) }
    ensures refused { IfErr result (λ f. f ≡ fault.Empty) }
    ensures past { OnErr result (length letters.old.transit.items ≤ at) }
    ensures err { OnErr result (letters.new.transit.items ≡ letters.old.transit.items) }
{
    if at >= letters.transit.len() {
        return Err(MailFault::Empty);
    }
    letters.transit.remove(at);
    Ok(())
}

// A message with the same export.
fn copy_message(message: &Message) -> Result<Message, Memory>
    ensures { IfOk result (λ m. letter_of m ≡ letter_of message.now) }
{
    let export = message.export.share()?;
    Ok(Message {
        export,
        sent: message.sent,
    })
}

// Messages with the same exports.
fn copy_messages(alloc: Global, messages: &[Message]) -> Result<Vec<Message>, Memory>
    ensures { IfOk result (λ v. map letter_of v.items ≡ map letter_of messages.now) }
{
    let mut copies = Vec::new(alloc);
    for message in messages {
        copies.push(copy_message(message)?)?;
    }
    Ok(copies)
}

// A copy of what was heard, if something was.
fn copy_heard(heard: Option<&Published>) -> Result<Option<Published>, Memory>
    ensures { IfOk result (λ e. option_map export_of e ≡ option_map (λ x. export_of x.now) heard.entry) }
{
    match heard {
        Some(export) => Ok(Some(export.share()?)),
        None => Ok(None),
    }
}

/// A copy of what is kept for a pair.
pub(crate) fn copy_letters(alloc: Global, letters: &Letters) -> Result<Letters, Memory>
    ensures { IfOk result (SameLetters letters.now) }
{
    let heard = copy_heard(letters.heard.as_ref())?;
    let transit = copy_messages(alloc, &letters.transit)?;
    Ok(Letters { heard, transit })
}
