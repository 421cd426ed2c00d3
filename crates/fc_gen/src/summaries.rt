//! The text of a summary.

ghost use Rattle.std.specs.Prelude.{◌≡◌, ◌++◌, IfOk, OnOk, codes};
ghost use Rattle.fc_gen.specs.Summaries.{count_line as line_of, summary_text};

use fc_nodes::Verdict;
use fc_values::Memory;
use report::verdict;
use std::alloc::Global;

/// What the lines of a summary say.
#[derive(Clone, Copy)]
pub struct Counts {
    pub number: u32,
    pub devices: u32,
    pub rounds: u32,
    pub firings: usize,
    pub agree: usize,
    pub sum: u64,
}

// Appends a line of a name and a number.
fn count_line(alloc: Global, out: &mut Vec<u8>, name: &str, count: u64) -> Result<(), Memory>
    ensures { OnOk result (out.new.items ≡ out.old.items ++ line_of name.now count) }
{
    out.extend_from_slice(format!(in alloc; "{name} {count}\n")?.as_bytes())?;
    Ok(())
}

/// The six lines of a summary.
pub fn summary(alloc: Global, s: Counts) -> Result<Vec<u8>, Memory>
    ensures { IfOk result (λ text. text.items
        ≡ summary_text s.number s.devices s.rounds s.firings s.agree s.sum) }
{
    let mut text = Vec::new(alloc);
    count_line(alloc, &mut text, "number", u64::from(s.number))?;
    count_line(alloc, &mut text, "devices", u64::from(s.devices))?;
    text.extend_from_slice(b"verdict ")?;
    verdict(alloc, &mut text, &Verdict::Yes(u64::from(s.rounds)))?;
    count_line(alloc, &mut text, "firings", s.firings as u64)?;
    count_line(alloc, &mut text, "agree", s.agree as u64)?;
    count_line(alloc, &mut text, "sum", s.sum)?;
    Ok(text)
}
