//! Message links in code: mail cores, their steps, and books of mail logs.
#![tactic(auto)]

mod books;
mod laws;
mod letters;
mod mails;
mod pairs;
mod rows;
mod starts;

pub use books::{MailBook, replay_mail};
pub use laws::mail_logs_end;
pub use mails::Mail;
pub use pairs::pair_place;
pub use starts::Post;
