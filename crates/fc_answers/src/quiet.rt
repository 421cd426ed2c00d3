//! What the quiet commands answer to an input. No thread works here, and no call waits.
ghost use Rattle.std.specs.Prelude.{IfOk, Some};
ghost use Rattle.command_frame.specs.Code.{value_of};
ghost use Rattle.fc_answers.specs.Answers.{Answers};
ghost use Rattle.fc_answers.specs.Headline.{IsKept};

use crate::laws::answers_keep;
use crate::stops::or_stopped;
use command_frame::{Answer, Refusal, refuse, sections};
use command_words::{Command, Quiet};
use fc_changes::check_changes;
use fc_check::check;
use fc_format::format;
use fc_mail::mail;
use fc_replay::replay;
use fc_stable::stable;
use fc_trace::traced;
use fc_values::{MOST_BYTES, Memory};
use std::alloc::Global;

/// The answer to a quiet command and an input of any length: a status, a text, and for `replay` a book. It takes no
/// runtime and waits for nothing: it returns, at the latest when memory is wanting.
pub fn answer_quiet(alloc: Global, command: Quiet, input: &[u8]) -> Result<Answer, Memory>
    ensures answers { IfOk result (λ a. Answers (Some (Command.Quiet command)) input.now (value_of a)) }
    ensures kept { IfOk result (λ a. IsKept (Some (Command.Quiet command)) input.now (value_of a)) }
{
    answers_keep();
    if input.len() > MOST_BYTES {
        return Ok(refuse(alloc, Refusal::Bytes)?);
    }
    let sections = sections(alloc, input)?;
    let made = match command {
        Quiet::Check(options) => check(alloc, options, &sections),
        Quiet::Changes(options) => check_changes(alloc, options, &sections),
        Quiet::Stable => stable(alloc, &sections),
        Quiet::Replay(options) => replay(alloc, options, &sections),
        Quiet::Format => format(alloc, &sections),
        Quiet::Trace => traced(alloc, &sections),
        Quiet::Mail(options) => mail(alloc, options, &sections),
    };
    or_stopped(alloc, made)
}
