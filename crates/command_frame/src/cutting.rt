//! The sections of an input.
ghost use Rattle.std.specs.Prelude.{◌≡◌, ◌≤◌, length, map, IfErr, IfOk, [], ◌∷◌};
ghost use Rattle.fc_values.specs.declared.limits.TheConstants.{MOST_BYTES};
ghost use Rattle.command_frame.specs.Sections.{AreWithin, is_separator, sections_of, IsOther};
ghost use Rattle.command_frame.specs.Stops.{StopsFor};

use crate::refusal::Refusal;
use crate::stop::Stop;
use fc_io::{first_line, line_text};
use fc_values::Memory;
use std::alloc::Global;

// Whether a line separates sections.
fn separates(line: &[u8]) -> bool
    ensures { result ≡ is_separator line.now }
{
    line_text(line) == b"%%".as_slice()
}

/// The sections of an input within the limit, each without the lines that separate them.
pub fn sections(alloc: Global, input: &[u8]) -> Result<Vec<&[u8]>, Memory>
    requires { length input.now ≤ MOST_BYTES }
    ensures sections { IfOk result (λ v. map (λ s. s.now) v.items ≡ sections_of input.now) }
    ensures within { IfOk result (λ v. AreWithin MOST_BYTES (map (λ s. s.now) v.items)) }
{
    let mut found = Vec::new(alloc);
    let mut start = 0;
    let mut at = 0;
    'lines: while at < input.len() {
        let end = at + first_line(&input[at..]);
        if separates(&input[at..end]) {
            found.push(&input[start..at])?;
            start = end;
        }
        at = end;
    }
    found.push(&input[start..])?;
    Ok(found)
}

/// The one section of a command that takes one.
pub fn one_section<'s>(sections: &[&'s [u8]]) -> Result<&'s [u8], Stop>
    ensures one { IfOk result (λ s. map (λ s. s.now) sections.now ≡ s.now ∷ []) }
    ensures refused { IfErr result (StopsFor (λ cause. IsOther 1 (map (λ s. s.now) sections.now) cause)) }
{
    match sections {
        [one] => Ok(*one),
        _ => Err(Stop::Refused(Refusal::Sections(sections.len()))),
    }
}

/// The two sections of a command that takes two.
pub fn two_sections<'s>(sections: &[&'s [u8]]) -> Result<(&'s [u8], &'s [u8]), Stop>
    ensures two { IfOk result (λ s. map (λ s. s.now) sections.now ≡ s.0.now ∷ s.1.now ∷ []) }
    ensures refused { IfErr result (StopsFor (λ cause. IsOther 2 (map (λ s. s.now) sections.now) cause)) }
{
    match sections {
        [one, two] => Ok((*one, *two)),
        _ => Err(Stop::Refused(Refusal::Sections(sections.len()))),
    }
}

/// The three sections of a command that takes three.
pub fn three_sections<'s>(sections: &[&'s [u8]]) -> Result<(&'s [u8], &'s [u8], &'s [u8]), Stop>
    ensures three { IfOk result (λ s. map (λ s. s.now) sections.now ≡ s.0.now ∷ s.1.now ∷ s.2.now ∷ []) }
    ensures refused { IfErr result (StopsFor (λ cause. IsOther 3 (map (λ s. s.now) sections.now) cause)) }
{
    match sections {
        [one, two, three] => Ok((*one, *two, *three)),
        _ => Err(Stop::Refused(Refusal::Sections(sections.len()))),
    }
}
