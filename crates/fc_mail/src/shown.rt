//! The values and the rounds of a book.

ghost use Rattle.std.specs.Prelude.{OnOk};
ghost use Rattle.firing_core.specs.CoreViews.{core_of};
ghost use Rattle.message_links.specs.MailEntries.{mail_entries};
ghost use Rattle.message_links.specs.MailRounds.{posts_of};
ghost use Rattle.mail_book.specs.MailViews.{mail_of};
ghost use Rattle.fc_mail.specs.Code.{ShowsBehind};

use fc_values::Memory;
use mail_book::MailBook;
use mail_count::mail_rounds;
use report::{rounds_line, values};
use std::alloc::Global;

/// Writes the values of the core to which a log leads, and the number of its rounds, behind a text.
pub(crate) fn show(alloc: Global, text: &mut Vec<u8>, book: &MailBook) -> Result<(), Memory>
    ensures { OnOk result (ShowsBehind book.now.start.core.net (posts_of (mail_of book.now.start))
        (mail_entries book.now.log) (core_of book.now.mail.core) text.old.items text.new.items) }
{
    let rounds = mail_rounds(alloc, book)?;
    values(alloc, text, book.mail().core())?;
    rounds_line(alloc, text, rounds)?;
    Ok(())
}
