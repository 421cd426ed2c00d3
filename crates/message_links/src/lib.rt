//! Message links: devices know of each other only what messages brought, and links may lose, repeat and delay messages.
#![tactic(auto)]

mod entries;

pub use entries::{MOST_IN_TRANSIT, MailEntry, MailFault, MailReplay};
