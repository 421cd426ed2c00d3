//! Laws of mail logs.

ghost use Rattle.mail_book.specs.MailLaws.{MailLogsEnd, MailLogsFailOnce, MailLogsLeadOrFail, MailLogsLeadToOne};

use firing_core::{faultless_steps, steps_agree, steps_keep_good};

/// From a mail core from which a log may start, each log leads to one mail core, or has one first entry without a step.
pub fn mail_logs_end()
    ensures end { MailLogsEnd }
    ensures one { MailLogsLeadToOne }
    ensures fail { MailLogsFailOnce }
    ensures either { MailLogsLeadOrFail }
{
    steps_keep_good();
    faultless_steps();
    steps_agree();
}
