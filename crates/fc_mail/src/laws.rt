//! Laws of the definitions.

ghost use Rattle.fc_mail.specs.Promises.{MailOwes};

use command_frame::inputs_are_read;
use firing_core::{faultless_steps, logs_decide, steps_keep_good};
use mail_book::mail_logs_end;
use mail_count::some_greatest_mail;
use mail_drive::{driven_logs_lead, driven_rounds_cover};
use mail_laws::yes_stabilises_mail;

/// `mail` has one answer to each input. Where the verdict is a yes, the values that it writes are the one field that
/// solves the program on the scene's network: those to which the log of a number leads, behind the line of the yes; and
/// those to which another log leads, if it has at least the rounds of the yes.
pub fn mail_owes()
    ensures { MailOwes }
{
    inputs_are_read();
    mail_logs_end();
    logs_decide();
    steps_keep_good();
    some_greatest_mail();
    faultless_steps();
    driven_logs_lead();
    yes_stabilises_mail();
    driven_rounds_cover();
}
