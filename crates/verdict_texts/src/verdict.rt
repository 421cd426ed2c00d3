//! The verdict on a program, with its text.

ghost use Rattle.std.specs.Prelude.{◌≡◌, ◌≤◌, IfOk};
ghost use Rattle.fc_nodes.specs.Program.{unfolding_of};
ghost use Rattle.fragment_check.specs.Verdicts.{verdict_of};
ghost use Rattle.verdict_texts.specs.VerdictTexts.{checked_text};

use fc_nodes::{Unfolded, Verdict};
use fc_values::Memory;
use report::{facts as write_facts, verdict_line};
use round_bound::Analysis;
use std::alloc::Global;

/// The verdict on a program for so many devices, with its text: after a yes the facts of each node, where they are
/// asked for.
pub fn verdict_text(
    alloc: Global,
    facts: bool,
    program: &Unfolded,
    devices: u32,
) -> Result<(Verdict, Vec<u8>), Memory>
    requires { 1 ≤ devices }
    ensures verdict { IfOk result (λ r. r.0 ≡ verdict_of (unfolding_of program.now) devices) }
    ensures text { IfOk result (λ r. r.1.items ≡ checked_text facts (unfolding_of program.now) devices) }
{
    let analysis = Analysis::new(alloc, program)?;
    let (verdict, levels) = analysis.verdict_with_levels(alloc, devices)?;
    let mut text = verdict_line(alloc, &verdict)?;
    // Its clause: the nodes are a program, and so each has a level.
    let _size = program.size();
    match verdict {
        Verdict::Yes(_) if facts => {
            write_facts(alloc, &mut text, program, analysis.ranges(), &levels)?
        }
        _ => {}
    }
    Ok((verdict, text))
}
