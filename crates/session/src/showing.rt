//! What lines show.

ghost use Rattle.std.specs.Prelude.{ℕ, ◌≡◌, ◌++◌, ◌∷◌, [], IfOk, OnOk, if◌then◌else◌};
ghost use Rattle.fc_nodes.specs.Program.{unfolding_of};
ghost use Rattle.firing_core.specs.CoreViews.{core_of};
ghost use Rattle.firing_core.specs.Entries.{edit_of};
ghost use Rattle.session.specs.Shown.{ShowsValues, ShowsVerdict, all_shown, shown_text, verdict_in};
ghost use Rattle.session.specs.ScriptRuns.{changes_devices};

use fc_nodes::Verdict;
use fc_values::Memory;
use firing_core::{Core, Edit};
use report::{values, verdict as write_verdict};
use round_bound::Analysis;
use std::alloc::Global;

/// The verdict on a program for a core's network.
pub(crate) fn verdict_on(
    alloc: Global,
    analysis: &Analysis<'_>,
    core: &Core,
) -> Result<Verdict, Memory>
    ensures { IfOk result (λ v. v ≡ verdict_in (unfolding_of analysis.now) (core_of core.now)) }
{
    // Its clause: the network has devices.
    let devices = core.net().devices().len() as u32;
    analysis.verdict(alloc, devices)
}

/// Whether a line with this edit shows the verdict.
pub(crate) fn changes_devices(edit: &Edit) -> bool
    ensures { result ≡ changes_devices (edit_of edit.now) }
{
    matches!(edit, Edit::Join(_) | Edit::Leave(_))
}

/// Appends the verdict on a program for a core's network, where it is shown.
pub(crate) fn show_verdict(
    alloc: Global,
    text: &mut Vec<u8>,
    shows: bool,
    analysis: &Analysis<'_>,
    core: &Core,
) -> Result<(), Memory>
    ensures { OnOk result ((line : ℕ) → text.new.items ≡ text.old.items ++ all_shown (
        if shows then ShowsVerdict line (verdict_in (unfolding_of analysis.now) (core_of core.now)) ∷ [] else [])) }
{
    if shows {
        let verdict = verdict_on(alloc, analysis, core)?;
        write_verdict(alloc, text, &verdict)?;
    }
    Ok(())
}

/// Appends what a line `show` shows of a core.
pub(crate) fn show_values(
    alloc: Global,
    text: &mut Vec<u8>,
    line: u32,
    core: &Core,
) -> Result<(), Memory>
    ensures { OnOk result (text.new.items ≡ text.old.items ++ shown_text (ShowsValues line (core_of core.now))) }
{
    text.extend_from_slice(format!(in alloc; "@{line}\n")?.as_bytes())?;
    values(alloc, text, core)
}
