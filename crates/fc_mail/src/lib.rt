//! `mail`: the values after a log of messages, or after the run that a number drives.
#![tactic(auto)]

mod commands;
mod driven;
mod laws;
mod mails;
mod shown;

pub use commands::mail;
pub use laws::mail_owes;
