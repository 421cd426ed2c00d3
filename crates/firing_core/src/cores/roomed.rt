//! Begins in memory that was taken before.

use crate::cores::Core;
use crate::entries::StepFault;
use crate::rooms::{Room, overwrite_locals};
use crate::snaps::share_own;
use fc_values::Memory;
use value_trees::Snap;

impl Core {
    ghost use Rattle.std.specs.Prelude.{◌≡◌, ◌<◌, IfOk, OnOk, OnErr, IfErr, None, length, slice_index};
    ghost use Rattle.value_trees.specs.Snaps.{snap_copy, IsSnap};
    ghost use Rattle.topology.specs.Networks.{numbers};
    ghost use Rattle.firing_core.specs.Entries.{BeginEntry};
    ghost use Rattle.firing_core.specs.Cores.{Step, copy_of};
    ghost use Rattle.firing_core.specs.Replays.{fault_of};
    ghost use Rattle.firing_core.specs.Rooms.{IsBlank, IsRoom};
    ghost use Rattle.firing_core.specs.CoreViews.{core_of, program_of, IsSameCore};
    ghost use Rattle.firing_core.specs.Books.{HasFault};

    /// Does what `begin` does, in a room, and answers an equal copy. It takes no memory; want of memory is said only where
    /// an export can't be shared once more.
    pub fn begin_with(&mut self, device: u32, room: Room) -> Result<Snap, StepFault>
        requires { IsRoom (program_of self.old) room }
        ensures ok { OnOk result (Step (program_of self.old) (core_of self.old) (BeginEntry device)
            (core_of self.new)) }
        ensures copy { IfOk result (λ s. snap_copy (program_of self.old) s
            ≡ copy_of self.old.net (core_of self.old).exports device) }
        ensures snap { IfOk result (IsSnap (program_of self.old)) }
        ensures refused { IfErr result (HasFault (core_of self.old) (BeginEntry device)) }
        ensures accepted { OnOk result (fault_of (core_of self.old) (BeginEntry device) ≡ None) }
        ensures err { OnErr result (self.new ≡ self.old) }
        ensures same { IsSameCore self.old self.new }
    {
        let Some(place) = self.net.place(device) else {
            return Err(StepFault::NoDevice);
        };
        if self.flying[place].is_some() {
            return Err(StepFault::Flying);
        }
        let (first, second) = room.into_parts();
        let Ok(flight) = self.fill(first, device, place) else {
            return Err(StepFault::Memory);
        };
        let Ok(answer) = self.fill(second, device, place) else {
            return Err(StepFault::Memory);
        };
        self.flying[place] = Some(flight);
        Ok(answer)
    }

    // Fills a copy without exports with the copy of a device's closed neighbourhood.
    fn fill(&self, blank: Snap, device: u32, place: usize) -> Result<Snap, Memory>
        requires within { place < length self.now.net.devices }
        requires device { slice_index (numbers self.now.net.devices) place ≡ device }
        requires blank { IsBlank (program_of self.now) blank }
        ensures copy { IfOk result (λ s. snap_copy (program_of self.now) s
            ≡ copy_of self.now.net (core_of self.now).exports device) }
        ensures snap { IfOk result (IsSnap (program_of self.now)) }
    {
        let Snap {
            device: _,
            mut inputs,
            own: _,
            mut near,
        } = blank;
        overwrite_locals(&mut inputs, &self.net.devices()[place].inputs);
        let own = share_own(self.exports[place].as_ref())?;
        self.hear(&mut near, device)?;
        Ok(Snap {
            device,
            inputs,
            own,
            near,
        })
    }
}
