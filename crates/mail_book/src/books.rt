//! Books of mail logs: a start, a log of entries, and the mail core to which the log leads.

use crate::mails::Mail;
use message_links::{MailEntry, MailReplay};
use std::alloc::Global;
use std::marker::Model;

/// A mail log with the mail core that it starts from, and the one to which it leads.
#[derive(Drop)]
pub struct MailBook {
    start: Mail,
    log: Vec<MailEntry>,
    mail: Mail,
}

impl Model for MailBook {
    ghost use Rattle.std.specs.Coded.{codes};
    ghost use Rattle.fc_values.specs.Codes.{local_value_code};
    ghost use Rattle.fc_values.specs.contracts.values.Local as local;
    ghost use Rattle.fc_values.specs.contracts.types.LocalTy as local_ty;
    ghost use Rattle.mail_book.specs.MailReplays.{MailBookValue, IsMailBook};

    ghost Value = { MailBookValue };

    ghost coded = { Prim.hlevel (codes, local_value_code, local.the_row.coded, local_ty.the_row.coded) };

    ghost view = { λ b. record { start = b.start; log = b.log.items; mail = b.mail } };

    ghost invariant = { λ b. IsMailBook (record { start = b.start; log = b.log.items; mail = b.mail }) };
}

impl MailBook {
    ghost use Rattle.std.specs.Prelude.{◌≡◌};
    ghost use Rattle.mail_book.specs.MailReplays.{IsMailBook};

    /// The mail core that it starts from.
    pub fn start(&self) -> &Mail
        ensures value { result.now ≡ self.now.start }
        ensures book { IsMailBook self.now }
    {
        &self.start
    }

    /// The log.
    pub fn log(&self) -> &[MailEntry]
        ensures value { result.now ≡ self.now.log }
        ensures book { IsMailBook self.now }
    {
        &self.log
    }

    /// The mail core to which the log leads.
    pub fn mail(&self) -> &Mail
        ensures value { result.now ≡ self.now.mail }
        ensures book { IsMailBook self.now }
    {
        &self.mail
    }
}

ghost use Rattle.std.specs.Prelude.{◌≡◌, IfOk, IfErr};
ghost use Rattle.message_links.specs.MailCores.{MailRun, IsMailStart};
ghost use Rattle.message_links.specs.MailEntries.{mail_entries};
ghost use Rattle.mail_book.specs.MailViews.{mail_of, unfolded_of};
ghost use Rattle.mail_book.specs.MailReplays.{FailsMail};

/// The book of a start and a mail log, or the first entry that has no step.
pub fn replay_mail(alloc: Global, start: Mail, log: Vec<MailEntry>) -> Result<MailBook, MailReplay>
    requires { IsMailStart (unfolded_of start) (mail_of start) }
    ensures program { IfOk result (λ b. b.mail.core.program ≡ start.core.program) }
    ensures start { IfOk result (λ b. mail_of b.start ≡ mail_of start) }
    ensures log { IfOk result (λ b. b.log ≡ log.items) }
    ensures run { IfOk result (λ b.
        MailRun (unfolded_of start) 0 (mail_of start) (mail_entries log.items) (mail_of b.mail)) }
    ensures refused { IfErr result (FailsMail (unfolded_of start) (mail_of start) (mail_entries log.items)) }
{
    let mut mail = start;
    let Ok(start) = mail.copy(alloc) else {
        return Err(MailReplay::Memory);
    };
    for index in 0..log.len() {
        mail.apply(alloc, index, log[index])?;
    }
    Ok(MailBook { start, log, mail })
}
