//! The lines of mail logs.
#![tactic(auto)]

mod logs;

pub use logs::{MailLines, read_mail};
