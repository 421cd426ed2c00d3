//! What `mail` answers.

ghost use Rattle.std.specs.Prelude.{IfErr, IfOk, map};
ghost use Rattle.fc_values.specs.declared.limits.TheConstants.{MOST_BYTES};
ghost use Rattle.command_frame.specs.Causes.{Accepted, Refused};
ghost use Rattle.command_frame.specs.Code.{value_of};
ghost use Rattle.command_frame.specs.Sections.{AreWithin};
ghost use Rattle.command_frame.specs.Stops.{StopsFor};
ghost use Rattle.fc_mail.specs.Commands.{AnswersMail};

use crate::driven::mail_number;
use crate::mails::mail_log;
use command_frame::{Answer, Stop, three_sections, two_sections};
use command_words::MailOptions;
use std::alloc::Global;

/// The answer of `mail` to the sections of an input.
pub fn mail(alloc: Global, options: MailOptions, sections: &[&[u8]]) -> Result<Answer, Stop>
    requires { AreWithin MOST_BYTES (map (λ s. s.now) sections.now) }
    ensures writes { IfOk result (λ a. AnswersMail options.number (map (λ s. s.now) sections.now) (Accepted (value_of a))) }
    ensures refused { IfErr result (StopsFor (λ cause.
        AnswersMail options.number (map (λ s. s.now) sections.now) (Refused cause))) }
{
    match options.number {
        Some(number) => {
            let (program, network) = two_sections(sections)?;
            mail_number(alloc, number, program, network)
        }
        None => {
            let (program, network, log) = three_sections(sections)?;
            mail_log(alloc, program, network, log)
        }
    }
}
