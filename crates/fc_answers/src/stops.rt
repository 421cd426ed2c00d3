//! The answer of a command that may have stopped.
ghost use Rattle.std.specs.Prelude.{◌≡◌, IfErr, IfOk};
ghost use Rattle.command_frame.specs.Code.{value_of};
ghost use Rattle.command_frame.specs.Stops.{IsAnswerTo, cause_of};

use command_frame::{Answer, Stop, stopped};
use fc_values::Memory;
use std::alloc::Global;

/// What a command has made, or the answer to the cause for which it stopped.
pub fn or_stopped(alloc: Global, made: Result<Answer, Stop>) -> Result<Answer, Memory>
    ensures made { IfOk made (λ b. IfOk result (λ a. value_of a ≡ value_of b)) }
    ensures stopped { IfErr made (λ stop. IfOk result (λ a. IsAnswerTo (cause_of stop) (value_of a))) }
{
    match made {
        Ok(answer) => Ok(answer),
        Err(stop) => Ok(stopped(alloc, &stop)?),
    }
}
