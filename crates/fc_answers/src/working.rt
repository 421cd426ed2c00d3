//! What `run` answers to an input, and `gen` to a number. Workers do the work, and a call may wait for one of them.
ghost use Rattle.std.specs.Prelude.{◌≤◌, IfOk, []};
ghost use Rattle.command_frame.specs.Code.{value_of};
ghost use Rattle.fc_values.specs.declared.limits.TheConstants.{MOST_SCENARIO_DEVICES};
ghost use Rattle.fc_answers.specs.Answers.{Works};
ghost use Rattle.fc_answers.specs.Headline.{WorkIsKept};

use crate::laws::commands_owe;
use crate::stops::or_stopped;
use command_frame::{Answer, Refusal, refuse, sections};
use command_words::{GenOptions, RunOptions, Work};
use export_table::Gate;
use fc_gen::generate;
use fc_run::run;
use fc_values::{MOST_BYTES, Memory};
use session::Pool;
use std::alloc::Global;
use std::sync::Wait;
use std::thread::Threads;

/// The answer of `run` to an input of any length: a status, a text, a book and the stretches of its log. It waits where
/// it runs rounds alone.
pub fn answer_run<W: Threads + Wait + Sync, G: Gate + Sync>(
    alloc: Global,
    options: RunOptions,
    input: &[u8],
    pool: &Pool<W, G>,
) -> Result<Answer, Memory>
    ensures works { IfOk result (λ a. Works (Work.Run options) input.now (value_of a)) }
    ensures kept { IfOk result (λ a. WorkIsKept (Work.Run options) input.now (value_of a)) }
{
    commands_owe();
    if input.len() > MOST_BYTES {
        return Ok(refuse(alloc, Refusal::Bytes)?);
    }
    let sections = sections(alloc, input)?;
    or_stopped(alloc, run(alloc, options, &sections, pool))
}

/// The answer of `gen`, which takes no input. It waits where it runs rounds alone.
pub fn answer_gen<W: Threads + Wait + Sync, G: Gate + Sync>(
    alloc: Global,
    options: GenOptions,
    pool: &Pool<W, G>,
) -> Result<Answer, Memory>
    requires least { 3 ≤ options.devices }
    requires most { options.devices ≤ MOST_SCENARIO_DEVICES }
    ensures works { IfOk result (λ a. Works (Work.Gen options) [] (value_of a)) }
    ensures kept { IfOk result (λ a. WorkIsKept (Work.Gen options) [] (value_of a)) }
{
    commands_owe();
    Ok(generate(alloc, options, pool)?)
}
