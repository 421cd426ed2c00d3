//! Edits of a book.

ghost use Rattle.std.specs.Prelude.{◌≡◌, ◌∷◌, [], IfOk, OnOk, map};
ghost use Rattle.fc_nodes.specs.Program.{unfolding_of};
ghost use Rattle.fc_values.specs.Fields.{Rises};
ghost use Rattle.topology.specs.Networks.{numbers};
ghost use Rattle.firing_core.specs.Books.{IsBook};
ghost use Rattle.firing_core.specs.CoreViews.{core_of};
ghost use Rattle.firing_core.specs.Entries.{EditEntry, edit_of};
ghost use Rattle.scenarios.specs.Rubbish.{AreDrawn, of_devices};
ghost use Rattle.scenarios.specs.Words.{stream_of};
ghost use Rattle.session.specs.Conditions.{AllowsEdit};
ghost use Rattle.session.specs.ScriptRuns.{poke};
ghost use Rattle.session.specs.Growing.{GrewBy, MayPoke, Scrambled};

use fc_values::{Export, Memory};
use firing_core::{Book, Core, Edit, Entry, ReplayFault, runs_cut};
use scenarios::rubbish;
use std::alloc::Global;
use topology::Device;

/// Makes an edit that the core allows.
pub(crate) fn make(alloc: Global, book: &mut Book, edit: Edit) -> Result<(), Memory>
    requires { AllowsEdit (unfolding_of book.old.program) (core_of book.old.core) (edit_of edit) }
    ensures { OnOk result (GrewBy book.old (EditEntry (edit_of edit) ∷ []) book.new) }
{
    match book.step(alloc, Entry::Edit(edit)) {
        Ok(()) => Ok(()),
        Err(ReplayFault::Memory) => Err(Memory),
        Err(_) => unreachable!(),
    }
}

// The numbers of devices.
fn numbers_of(alloc: Global, devices: &[Device]) -> Result<Vec<u32>, Memory>
    ensures { IfOk result (λ v. v.items ≡ map (λ d. d.id) devices.now) }
{
    Ok(devices.iter().map(|device| device.id).collect(alloc)?)
}

// The numbers of a core's devices, rising.
fn live(alloc: Global, core: &Core) -> Result<Vec<u32>, Memory>
    ensures live { IfOk result (λ v. v.items ≡ numbers (core_of core.now).net.devices) }
    ensures rising { IfOk result (λ v. Rises v.items) }
{
    let live = numbers_of(alloc, core.net().devices())?;
    Ok(live)
}

// Puts exports in the place of devices' own, one after another.
fn poke_all(alloc: Global, book: &mut Book, exports: Vec<(u32, Export)>) -> Result<(), Memory>
    requires { MayPoke (unfolding_of book.old.program) book.old.core.net (of_devices exports.items) }
    ensures { OnOk result (GrewBy book.old (map poke (of_devices exports.items)) book.new) }
{
    runs_cut();
    for (device, export) in exports {
        make(alloc, book, Edit::Poke(device, export))?;
    }
    Ok(())
}

/// Puts the rubbish of a number in the place of each device's export.
pub(crate) fn scramble(alloc: Global, book: &mut Book, number: u32) -> Result<(), Memory>
    ensures { OnOk result (Scrambled number book.old book.new) }
{
    let devices = live(alloc, book.core())?;
    let exports = rubbish(alloc, book.program(), &devices, number)?;
    poke_all(alloc, book, exports)
}
