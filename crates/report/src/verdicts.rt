//! The lines of verdicts and of counted rounds.

ghost use Rattle.std.specs.Prelude.{◌≡◌, ◌++◌, IfOk, OnOk, OnErr};
ghost use Rattle.report.specs.Verdicts.{reason_word, rounds_text, verdict_text};

use fc_nodes::{Reason, Verdict};
use fc_values::Memory;
use std::alloc::Global;

// The word of a reason.
fn reason_word(reason: Reason) -> &'static str
    ensures { result.now ≡ reason_word reason }
{
    match reason {
        Reason::Converging => "converging",
        Reason::Nested => "nested",
        Reason::Unguarded => "unguarded",
        Reason::Potential => "potential",
        Reason::NoGrowth => "no-growth",
        Reason::GrowthZero => "growth-zero",
        Reason::LeadAtCeiling => "lead-at-ceiling",
        Reason::RiseZero => "rise-zero",
    }
}

/// The line of a verdict.
pub fn verdict_line(alloc: Global, v: &Verdict) -> Result<Vec<u8>, Memory>
    ensures { IfOk result (λ line. line.items ≡ verdict_text v.now) }
{
    let mut line = Vec::new(alloc);
    match v {
        Verdict::Yes(rounds) => {
            line.extend_from_slice(format!(in alloc; "yes {rounds}")?.as_bytes())?;
        }
        Verdict::No { place, reason } => {
            line.extend_from_slice(format!(in alloc; "no {place} ")?.as_bytes())?;
            line.extend_from_slice(reason_word(*reason).as_bytes())?;
        }
    }
    line.push(b'\n')?;
    Ok(line)
}

/// Appends the line of a verdict, or leaves `out` as it was.
pub fn verdict(alloc: Global, out: &mut Vec<u8>, v: &Verdict) -> Result<(), Memory>
    ensures ok { OnOk result (out.new.items ≡ out.old.items ++ verdict_text v.now) }
    ensures err { OnErr result (out.new.items ≡ out.old.items) }
{
    let line = verdict_line(alloc, v)?;
    out.extend_from_slice(&line)?;
    Ok(())
}

/// Appends the line of a number of rounds, or leaves `out` as it was.
pub fn rounds_line(alloc: Global, out: &mut Vec<u8>, n: u64) -> Result<(), Memory>
    ensures ok { OnOk result (out.new.items ≡ out.old.items ++ rounds_text n) }
    ensures err { OnErr result (out.new.items ≡ out.old.items) }
{
    let line = format!(in alloc; "rounds {n}\n")?;
    out.extend_from_slice(line.as_bytes())?;
    Ok(())
}
