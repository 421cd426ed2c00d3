//! What `format` answers.
ghost use Rattle.std.specs.Prelude.{◌≤◌, IfErr, IfOk, length, map};
ghost use Rattle.fc_values.specs.declared.limits.TheConstants.{MOST_BYTES};
ghost use Rattle.command_frame.specs.Causes.{Accepted, Refused};
ghost use Rattle.command_frame.specs.Code.{value_of};
ghost use Rattle.command_frame.specs.Sections.{AreWithin, WithOne};
ghost use Rattle.command_frame.specs.Stops.{StopsFor};
ghost use Rattle.fc_format.specs.Formats.{Formats};

use command_frame::{Answer, Stop, one_section, read_source};
use fc_syntax::print;
use std::alloc::Global;

// The canonical text of a program.
fn of_text(alloc: Global, program: &[u8]) -> Result<Answer, Stop>
    requires { length program.now ≤ MOST_BYTES }
    ensures formats { IfOk result (λ a. Formats program.now (Accepted (value_of a))) }
    ensures refused { IfErr result (StopsFor (λ cause. Formats program.now (Refused cause))) }
{
    let program = read_source(alloc, program)?;
    let text = print(alloc, &program)?;
    Ok(Answer::plain(alloc, 0, text))
}

/// The answer of `format` to the sections of an input.
pub fn format(alloc: Global, sections: &[&[u8]]) -> Result<Answer, Stop>
    requires { AreWithin MOST_BYTES (map (λ s. s.now) sections.now) }
    ensures formats { IfOk result (λ a. WithOne Formats (map (λ s. s.now) sections.now) (Accepted (value_of a))) }
    ensures refused { IfErr result (StopsFor (λ cause.
        WithOne Formats (map (λ s. s.now) sections.now) (Refused cause))) }
{
    let program = one_section(sections)?;
    of_text(alloc, program)
}
