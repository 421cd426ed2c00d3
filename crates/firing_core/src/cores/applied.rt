//! Entries of a log, applied to a core.

use crate::cores::Core;
use crate::entries::{EditFault, Entry, ReplayFault, StepFault};
use device_eval::publish;
use std::alloc::Global;

impl Core {
    ghost use Rattle.std.specs.Prelude.{◌≡◌, OnOk, OnErr, IfErr, None};
    ghost use Rattle.firing_core.specs.Entries.{EndEntry, entry_of};
    ghost use Rattle.firing_core.specs.Cores.{Step};
    ghost use Rattle.firing_core.specs.Replays.{fault_of, net_fault_of, EntryFits};
    ghost use Rattle.firing_core.specs.CoreViews.{core_of, program_of, IsSameCore};
    ghost use Rattle.firing_core.specs.Books.{HasFault, RefusesAt};

    /// Applies the entry at an index of a log, an end by evaluating the copy in flight.
    pub(crate) fn apply(
        &mut self,
        alloc: Global,
        index: usize,
        entry: &Entry,
    ) -> Result<(), ReplayFault>
        requires { EntryFits (program_of self.old) (entry_of entry.now) }
        ensures ok { OnOk result (Step (program_of self.old) (core_of self.old) (entry_of entry.now)
            (core_of self.new)) }
        ensures refused { IfErr result (RefusesAt index (core_of self.old) (entry_of entry.now)) }
        ensures accepted { OnOk result (fault_of (core_of self.old) (entry_of entry.now) ≡ None) }
        ensures allowed { OnOk result (net_fault_of (core_of self.old) (entry_of entry.now) ≡ None) }
        ensures err { OnErr result (self.new ≡ self.old) }
        ensures program { self.new.program ≡ self.old.program }
    {
        match entry {
            Entry::Begin(device) => at_index(index, self.begin(alloc, *device)),
            Entry::End(device) => at_index(index, self.finish(alloc, *device)),
            Entry::Idle => Ok(()),
            Entry::Edit(edit) => edit_at_index(index, self.edit(alloc, edit)),
        }
    }

    /// Evaluates the copy with which a device flies where it lies, and publishes its export.
    pub fn finish(&mut self, alloc: Global, device: u32) -> Result<(), StepFault>
        ensures ok { OnOk result (Step (program_of self.old) (core_of self.old) (EndEntry device) (core_of self.new)) }
        ensures refused { IfErr result (HasFault (core_of self.old) (EndEntry device)) }
        ensures accepted { OnOk result (fault_of (core_of self.old) (EndEntry device) ≡ None) }
        ensures err { OnErr result (self.new ≡ self.old) }
        ensures same { IsSameCore self.old self.new }
    {
        let Some(place) = self.net.place(device) else {
            return Err(StepFault::NoDevice);
        };
        let Some(flight) = self.flying[place].as_ref() else {
            return Err(StepFault::NotFlying);
        };
        let Ok(export) = publish(alloc, &mut self.scratch, &self.program, flight) else {
            return Err(StepFault::Memory);
        };
        self.exports[place] = Some(export);
        self.flying[place] = None;
        Ok(())
    }
}

ghost use Rattle.std.specs.Prelude.{◌↔◌, IfErr, IsOk};
ghost use Rattle.firing_core.specs.Books.{AtIndex, EditAtIndex};

// The answer to a begin or an end that is the entry at an index.
fn at_index(index: usize, answer: Result<(), StepFault>) -> Result<(), ReplayFault>
    ensures ok { IsOk result ↔ IsOk answer }
    ensures refused { IfErr result (AtIndex index answer) }
{
    match answer {
        Ok(()) => Ok(()),
        Err(StepFault::Memory) => Err(ReplayFault::Memory),
        Err(fault) => Err(ReplayFault::At { index, fault }),
    }
}

// The answer to an edit that is the entry at an index.
fn edit_at_index(index: usize, answer: Result<(), EditFault>) -> Result<(), ReplayFault>
    ensures ok { IsOk result ↔ IsOk answer }
    ensures refused { IfErr result (EditAtIndex index answer) }
{
    match answer {
        Ok(()) => Ok(()),
        Err(EditFault::Memory) => Err(ReplayFault::Memory),
        Err(EditFault::Net(fault)) => Err(ReplayFault::EditAt { index, fault }),
    }
}
