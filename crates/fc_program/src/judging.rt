//! What is made of what the words ask for.
ghost use Rattle.std.specs.Prelude.{◌≡◌, ◌≢◌, ◌<◌, ◌≤◌, IfOk, IfSome, IsErrOf, None, Some, length, true, false};
ghost use Rattle.std.specs.Io.KnownBytes.{IsAtEnd};
ghost use Rattle.command_words.specs.Commands.{IsThreaded};
ghost use Rattle.fc_io.specs.Causes.{Rose};
ghost use Rattle.fc_program.specs.declared.judging.Failure.TheVariants as failure;
ghost use Rattle.fc_answers.specs.Answers.{Answers};
ghost use Rattle.fc_answers.specs.Asked.{MayAsk, reads_source};
ghost use Rattle.fc_program.specs.Top.{IsAnswer, OfSource};
ghost use Rattle.fc_values.specs.declared.limits.TheConstants.{MOST_BYTES};
ghost use Rattle.command_frame.specs.Code.{value_of};

use command_frame::{Answer, Refusal, refuse};
use command_words::{Command, Quiet, Threaded, Work};
use export_table::Gate;
use fc_answers::{answer_gen, answer_quiet, answer_run, answer_statuses, answers_keep, past_limit};
use fc_io::{ReadAll, Source, read_all};
use fc_values::{MOST_BYTES, Memory};
use session::Pool;
use std::alloc::Global;
use std::sync::Wait;
use std::thread::Threads;

/// Why there is no answer: the source failed, or memory was wanting.
#[derive(Clone, Copy, Debug, PartialEq, Eq)]
pub enum Failure {
    Read,
    Memory,
}

impl From<Memory> for Failure {
    ghost from_gives = { λ _ e. e ≡ failure.Memory };

    fn from(_: Memory) -> Self {
        Failure::Memory
    }
}

// The input that the source has left, or nothing where it has more bytes than the limit.
fn input<S: Source>(alloc: Global, src: &mut S) -> Result<Option<Vec<u8>>, Failure>
    ensures all { IfOk result (λ o. IfSome o (λ bytes. IfSome (S.left src.old) (λ left. bytes.items ≡ left))) }
    ensures long { IfOk result (λ o. o ≡ None → OfSource (λ input. MOST_BYTES < length input) (S.left src.old)) }
    ensures end { IfOk result (λ o. IfSome o (λ bytes. IsAtEnd (S.left src.new))) }
    ensures fault { IsErrOf result Failure.Read → Rose (S.faults src.old) (S.faults src.new) }
    ensures quiet { (IsErrOf result Failure.Read → ⊥) → S.faults src.new ≡ S.faults src.old }
{
    match read_all(alloc, src, MOST_BYTES) {
        Ok(bytes) => Ok(Some(bytes)),
        Err(ReadAll::TooLong) => Ok(None),
        Err(ReadAll::ReadFault) => Err(Failure::Read),
        Err(ReadAll::Memory) => Err(Failure::Memory),
    }
}

// The answer to a quiet command and to what the source has left. Nothing here waits.
fn quiet_answer<S: Source>(alloc: Global, command: Quiet, src: &mut S) -> Result<Answer, Failure>
    ensures answers { IfOk result (λ a.
        OfSource (λ input. Answers (Some (Command.Quiet command)) input (value_of a)) (S.left src.old)) }
    ensures end { IfOk result (λ a. a.status ≢ 4 → IsAtEnd (S.left src.new)) }
    ensures fault { IsErrOf result Failure.Read → Rose (S.faults src.old) (S.faults src.new) }
    ensures quiet { (IsErrOf result Failure.Read → ⊥) → S.faults src.new ≡ S.faults src.old }
{
    match input(alloc, src)? {
        Some(bytes) => Ok(answer_quiet(alloc, command, &bytes)?),
        None => Ok(refuse(alloc, Refusal::Bytes)?),
    }
}

// The answer to a threaded command. A number past its limit is refused before anything is read. It waits where it runs
// rounds alone.
fn threaded_answer<W: Threads + Wait + Sync, S: Source, G: Gate + Sync>(
    rt: &W,
    alloc: Global,
    command: Threaded,
    src: &mut S,
    gate: &G,
) -> Result<Answer, Failure>
    requires { IsThreaded command }
    ensures answers { IfOk result (λ a.
        OfSource (λ input. Answers (Some (Command.Threaded command)) input (value_of a)) (S.left src.old)) }
    ensures end { reads_source (Some (Command.Threaded command)) ≡ true →
        IfOk result (λ a. a.status ≢ 4 → IsAtEnd (S.left src.new)) }
    ensures untouched { reads_source (Some (Command.Threaded command)) ≡ false → src.new ≡ src.old }
    ensures fault { IsErrOf result Failure.Read → Rose (S.faults src.old) (S.faults src.new) }
    ensures quiet { (IsErrOf result Failure.Read → ⊥) → S.faults src.new ≡ S.faults src.old }
{
    if let Some(refusal) = past_limit(command) {
        return Ok(refuse(alloc, refusal)?);
    }
    let pool = Pool::new(rt, gate, command.workers);
    match command.work {
        Work::Run(options) => match input(alloc, src)? {
            Some(bytes) => Ok(answer_run(alloc, options, &bytes, &pool)?),
            None => Ok(refuse(alloc, Refusal::Bytes)?),
        },
        Work::Gen(options) => Ok(answer_gen(alloc, options, &pool)?),
    }
}

/// The answer to what the words ask for. What a yes in it promises is kept, and its status is at most 4. It waits where
/// it runs rounds alone.
pub fn answered<W: Threads + Wait + Sync, S: Source, G: Gate + Sync>(
    rt: &W,
    alloc: Global,
    asked: Option<Command>,
    src: &mut S,
    gate: &G,
) -> Result<Answer, Failure>
    requires { MayAsk asked }
    ensures answers { IfOk result (λ a. IsAnswer asked (S.left src.old) (value_of a)) }
    ensures usage { IfOk result (λ a. a.status ≡ 2 → asked ≡ None) }
    ensures outside { IfOk result (λ a. asked ≡ None → a.status ≡ 2) }
    ensures status { IfOk result (λ a. a.status ≤ 4) }
    ensures end { reads_source asked ≡ true → IfOk result (λ a. a.status ≤ 1 → IsAtEnd (S.left src.new)) }
    ensures refused { reads_source asked ≡ true →
        IfOk result (λ a. a.status ≡ 3 → IsAtEnd (S.left src.new)) }
    ensures untouched { reads_source asked ≡ false → src.new ≡ src.old }
    ensures inside { IsErrOf result Failure.Read → asked ≢ None }
    ensures fault { IsErrOf result Failure.Read → Rose (S.faults src.old) (S.faults src.new) }
    ensures quiet { (IsErrOf result Failure.Read → ⊥) → S.faults src.new ≡ S.faults src.old }
{
    answers_keep();
    answer_statuses();
    match asked {
        None => Ok(refuse(alloc, Refusal::Usage)?),
        Some(Command::Quiet(command)) => quiet_answer(alloc, command, src),
        Some(Command::Threaded(command)) => threaded_answer(rt, alloc, command, src, gate),
    }
}
