//! The reply to words and an input.
ghost use Rattle.std.specs.Prelude.{◌≡◌, IfOk, IsErrOf};
ghost use Rattle.fc_answers.specs.Answers.{Answers};
ghost use Rattle.command_frame.specs.Code.{value_of};
ghost use Rattle.fc_library.specs.Replies.{AskForThreads, IsReply, IsThreaded};
ghost use Rattle.fc_library.specs.declared.replies.Failure.TheVariants as failure;

use crate::words::asked;
use command_frame::{Answer, Refusal, refuse};
use command_words::Command;
use fc_answers::{answer_quiet, answer_statuses, answers_keep};
use fc_values::Memory;
use std::alloc::Global;

/// Why there is no reply: the words ask for work by threads, or memory was wanting.
#[derive(Clone, Copy, Debug, PartialEq, Eq)]
pub enum Failure {
    Threads,
    Memory,
}

impl From<Memory> for Failure {
    ghost from_gives = { λ _ e. e ≡ failure.Memory };

    fn from(_: Memory) -> Self {
        Failure::Memory
    }
}

// The answer to what words ask for.
fn answered(alloc: Global, asked: Option<Command>, input: &[u8]) -> Result<Answer, Failure>
    ensures answers { IfOk result (λ a. Answers asked input.now (value_of a)) }
    ensures threads { IsErrOf result Failure.Threads → IsThreaded asked }
{
    match asked {
        None => Ok(refuse(alloc, Refusal::Usage)?),
        Some(Command::Quiet(command)) => Ok(answer_quiet(alloc, command, input)?),
        Some(Command::Threaded(_)) => Err(Failure::Threads),
    }
}

/// The reply to a text with words and to an input.
pub fn reply(alloc: Global, words: &[u8], input: &[u8]) -> Result<Answer, Failure>
    ensures replies { IfOk result (λ a. IsReply words.now input.now (value_of a)) }
    ensures threads { IsErrOf result Failure.Threads → AskForThreads words.now }
{
    answers_keep();
    answer_statuses();
    let asked = asked(alloc, words)?;
    let answer = answered(alloc, asked, input)?;
    Ok(answer)
}
