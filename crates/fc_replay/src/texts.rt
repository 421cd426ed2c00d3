//! The text of a book: the values of its core, and what is asked for beside them.
ghost use Rattle.std.specs.Prelude.{◌≡◌, ◌<◌, length, map, IfOk, true};
ghost use Rattle.fc_values.specs.Fields.{Rises};
ghost use Rattle.topology.specs.Networks.{numbers};
ghost use Rattle.firing_core.specs.CoreViews.{core_of};
ghost use Rattle.firing_core.specs.Entries.{entries_of};
ghost use Rattle.round_count.specs.Laws.{IsGreatest};
ghost use Rattle.command_frame.specs.Ledgers.{ledger_of};
ghost use Rattle.fc_replay.specs.Replays.{IsText, RoundsAsked};

use command_frame::table_text;
use command_words::ReplayOptions;
use fc_values::Memory;
use firing_core::{Book, Core};
use report::{rounds_line, values};
use round_count::rounds;
use std::alloc::Global;
use topology::Device;

// The numbers of devices.
fn numbers_of(alloc: Global, devices: &[Device]) -> Result<Vec<u32>, Memory>
    ensures { IfOk result (λ v. v.items ≡ map (λ d. d.id) devices.now) }
{
    Ok(devices.iter().map(|device| device.id).collect(alloc)?)
}

// The numbers of a core's devices, rising.
fn live(alloc: Global, core: &Core) -> Result<Vec<u32>, Memory>
    ensures live { IfOk result (λ v. v.items ≡ numbers (core_of core.now).net.devices) }
    ensures rising { IfOk result (λ v. Rises v.items) }
    ensures some { IfOk result (λ v. 0 < length v.items) }
{
    let live = numbers_of(alloc, core.net().devices())?;
    Ok(live)
}

// The number of rounds in the part of a book's log after its last edit.
fn rounds_of(alloc: Global, book: &Book) -> Result<u64, Memory>
    ensures { IfOk result (IsGreatest (numbers (core_of book.now.core).net.devices) (entries_of book.now.log)) }
{
    let live = live(alloc, book.core())?;
    let mut marks = vec![in alloc; 0; live.len()]?;
    Ok(rounds(&live, book.log(), &mut marks))
}

// The line of a book's number of rounds.
fn rounds_text(alloc: Global, book: &Book) -> Result<Vec<u8>, Memory>
    ensures { IfOk result (λ v.
        RoundsAsked true (numbers (core_of book.now.core).net.devices) (entries_of book.now.log) v.items) }
{
    let rounds = rounds_of(alloc, book)?;
    let mut line = Vec::new(alloc);
    rounds_line(alloc, &mut line, rounds)?;
    Ok(line)
}

// The same, where it is asked for.
#[tactic(auto, using(crate::proofs::AskedRounds::asked, crate::proofs::AskedRounds::not_asked))]
fn rounds_asked(alloc: Global, asked: bool, book: &Book) -> Result<Vec<u8>, Memory>
    ensures { IfOk result (λ v.
        RoundsAsked asked (numbers (core_of book.now.core).net.devices) (entries_of book.now.log) v.items) }
{
    if asked {
        Ok(rounds_text(alloc, book)?)
    } else {
        Ok(Vec::new(alloc))
    }
}

/// The text of a book.
pub fn shown(alloc: Global, options: ReplayOptions, book: &Book) -> Result<Vec<u8>, Memory>
    ensures { IfOk result (λ v. IsText options (ledger_of book.now) v.items) }
{
    let rounds = rounds_asked(alloc, options.rounds, book)?;
    let table = table_text(alloc, options.table, book.core())?;
    let mut text = Vec::new(alloc);
    values(alloc, &mut text, book.core())?;
    text.extend_from_slice(&rounds)?;
    text.extend_from_slice(&table)?;
    Ok(text)
}
