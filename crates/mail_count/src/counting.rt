//! How many rounds a mail log has: each is counted as soon as it is complete.

ghost use Rattle.std.specs.Prelude.{◌≤◌, ℕ, IfOk};
ghost use Rattle.message_links.specs.MailEntries.{mail_entries};
ghost use Rattle.message_links.specs.MailRounds.{HasMailRounds, posts_of};
ghost use Rattle.mail_book.specs.MailViews.{mail_of};

use crate::marks::Marks;
use fc_values::Memory;
use mail_book::MailBook;
use std::alloc::Global;

/// The greatest number of rounds of a book's log.
pub fn mail_rounds(alloc: Global, book: &MailBook) -> Result<u64, Memory>
    ensures has { IfOk result (λ k.
        HasMailRounds book.now.start.core.net 0 (posts_of (mail_of book.now.start)) (mail_entries book.now.log) k) }
    ensures greatest { IfOk result (λ k. (j : ℕ)
        → HasMailRounds book.now.start.core.net 0 (posts_of (mail_of book.now.start)) (mail_entries book.now.log) j
        → j ≤ k) }
{
    let net = book.start().core().net();
    let mut marks = Marks::new(alloc, book.start())?;
    let mut count = 0;
    for entry in book.log() {
        marks.note(net, *entry)?;
        if marks.is_done() {
            count += 1;
            marks.begin_round();
        }
    }
    Ok(count)
}
