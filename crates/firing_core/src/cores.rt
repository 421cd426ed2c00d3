//! Cores: a network, the exports of its devices, and the copies in flight.

use crate::entries::{Edit, EditFault, StepFault};
use crate::filling::{export_slots, flight_slots, open_slot};
use crate::snaps::{copy_flights, copy_plain, published_copy, share_exports, share_own};
use device_eval::{Fired, Scratch};
use fc_nodes::Unfolded;
use fc_values::{Export, Local, Memory, copy_locals};
use std::alloc::Global;
use std::marker::Model;
use std::sync::Arc;
use topology::{Device, JoinFault, NetFault, Network, copy_device};
use value_trees::{Near, Published, Snap};

mod applied;
mod roomed;

/// A network of devices that run a program, with the export and the copy in flight of each, and room for evaluations,
/// of which no contract speaks.
#[derive(Drop)]
pub struct Core {
    program: Arc<Unfolded>,
    net: Network,
    exports: Vec<Option<Published>>,
    flying: Vec<Option<Snap>>,
    scratch: Scratch,
}

impl Model for Core {
    ghost use Rattle.std.specs.Coded.{codes};
    ghost use Rattle.fc_values.specs.Codes.{local_value_code};
    ghost use Rattle.fc_values.specs.contracts.values.Local as local;
    ghost use Rattle.fc_values.specs.contracts.types.LocalTy as local_ty;
    ghost use Rattle.firing_core.specs.CoreViews.{CoreValue, IsCore, core_with};

    ghost Value = { CoreValue };

    ghost coded = { Prim.hlevel (codes, local_value_code, local.the_row.coded, local_ty.the_row.coded) };

    ghost view = { λ c. core_with c.program.value c.net c.exports.items c.flying.items };

    ghost invariant = { λ c. IsCore (core_with c.program.value c.net c.exports.items c.flying.items) };
}

impl Core {
    ghost use Rattle.std.specs.Prelude.{◌≡◌, ◌↔◌, ◌<◌, ℕ, IfOk, OnOk, OnErr, IfErr, IfSome};
    ghost use Rattle.std.specs.Prelude.{IsErrOf, Some, None, [], option_map, length, slice_index, vec_capacity, ◌≤◌};
    ghost use Rattle.fc_nodes.specs.Program.{unfolding_of};
    ghost use Rattle.value_trees.specs.Snaps.{snap_copy, tree_of, NearAreExports, IsSnap, IsExportOf};
    ghost use Rattle.topology.specs.Networks.{numbers, net_device_of, near as near_of};
    ghost use Rattle.firing_core.specs.Cores.{Step, IsGood, EditFits, edit_fault, copy_of};
    ghost use Rattle.firing_core.specs.Replays.{fault_of};
    ghost use Rattle.firing_core.specs.CoreViews.{core_of, program_of, IsCore, IsSameCore, Edited, AreNear, FiresFlight, Publishes};
    ghost use Rattle.firing_core.specs.TakeOffs.{TakesOff};
    ghost use Rattle.firing_core.specs.Starts.{started, IsTable, IsPending};
    ghost use Rattle.firing_core.specs.Entries.{BeginEntry, EndEntry, LinkEdit, UnlinkEdit};
    ghost use Rattle.firing_core.specs.Entries.{SetEdit, PokeEdit, JoinEdit, LeaveEdit, edit_of};
    ghost use Rattle.firing_core.specs.Refusals.{RefusesEdit};
    ghost use Rattle.fc_values.specs.Values.{local_of};
    ghost use Rattle.fc_values.specs.Exports.{export_of};
    ghost use Rattle.topology.specs.declared.types.TheConstants.{GREATEST_NUMBER};
    ghost use Rattle.firing_core.specs.declared.entries.StepFault.TheVariants as fault;

    /// The core of a network with a table of exports, and with these copies in flight.
    pub fn new(
        alloc: Global,
        program: &Arc<Unfolded>,
        net: Network,
        table: Vec<(u32, Export)>,
        pending: Vec<Snap>,
    ) -> Result<Self, Memory>
        requires declared { net.declared ≡ program.now.value.declared }
        requires table { IsTable (unfolding_of program.now.value) net table.items }
        requires pending { IsPending (unfolding_of program.now.value) net pending.items }
        ensures program { IfOk result (λ c. c.program ≡ program.now.value) }
        ensures core { IfOk result (λ c. core_of c ≡ started (unfolding_of program.now.value) net table.items
            pending.items) }
    {
        let program = program.clone()?;
        let exports = export_slots(alloc, &net, table)?;
        let flying = flight_slots(alloc, &net, pending)?;
        Ok(Core {
            program,
            net,
            exports,
            flying,
            scratch: Scratch::new(alloc),
        })
    }

    /// The program.
    pub fn program(&self) -> &Arc<Unfolded>
        ensures value { result.now.value ≡ self.now.program }
        ensures core { IsCore self.now }
    {
        &self.program
    }

    /// The network.
    pub fn net(&self) -> &Network
        ensures value { result.now ≡ self.now.net }
        ensures core { IsCore self.now }
        ensures good { IsGood (program_of self.now) (core_of self.now) }
    {
        &self.net
    }

    /// The export of a device, as others may share it.
    pub fn published(&self, device: u32) -> Option<&Published>
        ensures value { option_map (λ e. tree_of (program_of self.now) e.now) result
            ≡ (core_of self.now).exports device }
        ensures export { IfSome result (λ e. IsExportOf (program_of self.now) e.now) }
        ensures core { IsCore self.now }
    {
        let place = self.net.place(device)?;
        self.exports[place].as_ref()
    }

    /// The export of a device.
    pub fn export(&self, device: u32) -> Option<&Export>
        ensures value { option_map (λ e. tree_of (program_of self.now) e.now) result
            ≡ (core_of self.now).exports device }
        ensures export { IfSome result (λ e. IsExportOf (program_of self.now) e.now) }
        ensures core { IsCore self.now }
    {
        match self.published(device) {
            Some(export) => Some(export.get()),
            None => None,
        }
    }

    /// The copy with which a device flies.
    pub fn flying(&self, device: u32) -> Option<&Snap>
        ensures value { option_map (λ s. snap_copy (program_of self.now) s.now) result
            ≡ (core_of self.now).flying device }
        ensures snap { IfSome result (λ s. IsSnap (program_of self.now) s.now) }
        ensures core { IsCore self.now }
    {
        let place = self.net.place(device)?;
        self.flying[place].as_ref()
    }

    /// A copy of the core, which shares its exports.
    pub fn copy(&self, alloc: Global) -> Result<Self, Memory>
        ensures program { IfOk result (λ c. c.program ≡ self.now.program) }
        ensures core { IfOk result (λ c. core_of c ≡ core_of self.now) }
        ensures kept { IfOk result IsCore }
    {
        let scratch = Scratch::new(alloc);
        let program = self.program.clone()?;
        let net = self.net.copy(alloc)?;
        let exports = share_exports(alloc, &self.exports)?;
        let flying = copy_flights(alloc, &self.program, &self.flying)?;
        Ok(Core {
            program,
            net,
            exports,
            flying,
            scratch,
        })
    }

    // The copy of a device's closed neighbourhood. Neighbours without an export are left out.
    pub(crate) fn neighbourhood(
        &self,
        alloc: Global,
        device: u32,
        place: usize,
    ) -> Result<Snap, Memory>
        requires within { place < length self.now.net.devices }
        requires device { slice_index (numbers self.now.net.devices) place ≡ device }
        ensures copy { IfOk result (λ s. snap_copy (program_of self.now) s
            ≡ copy_of self.now.net (core_of self.now).exports device) }
        ensures snap { IfOk result (λ s. IsSnap (program_of self.now) s) }
    {
        let inputs = copy_locals(alloc, &self.net.devices()[place].inputs)?;
        let own = share_own(self.exports[place].as_ref())?;
        let mut near = Vec::with_capacity(alloc, self.net.neighbours(device).len())?;
        self.hear(&mut near, device)?;
        Ok(Snap {
            device,
            inputs,
            own,
            near,
        })
    }

    // Fills an empty list with the neighbours of a device that have an export. It takes no memory.
    pub(crate) fn hear(&self, near: &mut Vec<Near>, device: u32) -> Result<(), Memory>
        requires empty { near.old.items ≡ [] }
        requires enough { length (near_of self.now.net device) ≤ vec_capacity near.old }
        ensures near { OnOk result (AreNear self.now device near.new.items) }
        ensures exports { OnOk result (NearAreExports (program_of self.now) near.new.items) }
    {
        for (neighbour, weight) in self.net.neighbours(device) {
            if let Some(export) = self.published(*neighbour) {
                let export = export.share()?;
                near.push_reserved(Near {
                    device: *neighbour,
                    weight: *weight,
                    export,
                });
            }
        }
        Ok(())
    }

    /// Puts the copy of a device's closed neighbourhood in flight.
    pub fn begin(&mut self, alloc: Global, device: u32) -> Result<(), StepFault>
        ensures ok { OnOk result (Step (program_of self.old) (core_of self.old) (BeginEntry device)
            (core_of self.new)) }
        ensures no_device { IsErrOf result StepFault.NoDevice
            ↔ (fault_of (core_of self.old) (BeginEntry device) ≡ Some fault.NoDevice) }
        ensures flying { IsErrOf result StepFault.Flying
            ↔ (fault_of (core_of self.old) (BeginEntry device) ≡ Some fault.Flying) }
        ensures never { IsErrOf result StepFault.NotFlying → ⊥ }
        ensures err { OnErr result (self.new ≡ self.old) }
        ensures same { IsSameCore self.old self.new }
    {
        let Some(place) = self.net.place(device) else {
            return Err(StepFault::NoDevice);
        };
        if self.flying[place].is_some() {
            return Err(StepFault::Flying);
        }
        let Ok(snap) = self.neighbourhood(alloc, device, place) else {
            return Err(StepFault::Memory);
        };
        self.flying[place] = Some(snap);
        Ok(())
    }

    /// Puts a copy in flight, of the device that it names. It takes no memory.
    pub fn fly(&mut self, snap: Snap) -> Result<(), StepFault>
        requires { IsSnap (program_of self.old) snap }
        ensures ok { OnOk result (TakesOff (program_of self.old) (core_of self.old) snap (core_of self.new)) }
        ensures refused { IfErr result (λ e. fault_of (core_of self.old) (BeginEntry snap.device) ≡ Some e) }
        ensures err { OnErr result (self.new ≡ self.old) }
        ensures same { IsSameCore self.old self.new }
    {
        let Some(place) = self.net.place(snap.device) else {
            return Err(StepFault::NoDevice);
        };
        if self.flying[place].is_some() {
            return Err(StepFault::Flying);
        }
        self.flying[place] = Some(snap);
        Ok(())
    }

    /// Publishes the export of a firing and ends it. It takes no memory. The copy that flew and the one that was fired
    /// come back, for a room; what was fired comes back with a refusal.
    pub fn end(&mut self, fired: Fired) -> Result<(Snap, Snap), (Fired, StepFault)>
        requires program { fired.program ≡ self.old.program }
        requires copy { FiresFlight (program_of self.old) (core_of self.old) fired }
        ensures ok { OnOk result (Step (program_of self.old) (core_of self.old) (EndEntry fired.snap.device)
            (core_of self.new)) }
        ensures publishes { OnOk result (Publishes (program_of self.old) (core_of self.old) fired (core_of self.new)) }
        ensures copies { IfOk result (λ r. IsSnap (program_of self.old) r.0 × IsSnap (program_of self.old) r.1) }
        ensures refused { IfErr result (λ e. fault_of (core_of self.old) (EndEntry fired.snap.device) ≡ Some e.1) }
        ensures accepted { OnOk result (fault_of (core_of self.old) (EndEntry fired.snap.device) ≡ None) }
        ensures back { IfErr result (λ e. e.0 ≡ fired) }
        ensures err { OnErr result (self.new ≡ self.old) }
        ensures same { IsSameCore self.old self.new }
    {
        let device = fired.snap().device;
        let Some(place) = self.net.place(device) else {
            return Err((fired, StepFault::NoDevice));
        };
        if self.flying[place].is_none() {
            return Err((fired, StepFault::NotFlying));
        }
        let (snap, export) = fired.into_parts();
        self.exports[place] = Some(export);
        let Some(flight) = self.flying[place].take() else {
            unreachable!();
        };
        Ok((flight, snap))
    }

    /// Edits the core. Copies in flight stay. `Link`, `Unlink`, `Set` and `Leave` take no memory.
    pub fn edit(&mut self, alloc: Global, edit: &Edit) -> Result<(), EditFault>
        requires { EditFits (program_of self.old) (edit_of edit.now) }
        ensures ok { OnOk result (Edited self.old (edit_of edit.now) self.new) }
        ensures accepted { OnOk result (edit_fault (core_of self.old) (edit_of edit.now) ≡ None) }
        ensures refused { IfErr result (RefusesEdit (core_of self.old) (edit_of edit.now)) }
        ensures err { OnErr result (self.new ≡ self.old) }
        ensures program { self.new.program ≡ self.old.program }
    {
        match edit {
            Edit::Link(a, b, weight) => self.link(*a, *b, *weight),
            Edit::Unlink(a, b) => self.unlink(*a, *b),
            Edit::Set(device, input, value) => self.set(*device, *input, value),
            Edit::Poke(device, export) => self.poke(alloc, *device, export),
            Edit::Join(device) => self.join(alloc, device),
            Edit::Leave(device) => self.leave(*device),
        }
    }

    fn link(&mut self, a: u32, b: u32, weight: u32) -> Result<(), EditFault>
        ensures ok { OnOk result (Edited self.old (LinkEdit a b weight) self.new) }
        ensures refused { IfErr result (RefusesEdit (core_of self.old) (LinkEdit a b weight)) }
        ensures err { OnErr result (self.new ≡ self.old) }
        ensures program { self.new.program ≡ self.old.program }
    {
        if let Err(fault) = self.net.link(a, b, weight) {
            return Err(EditFault::Net(fault));
        }
        Ok(())
    }

    fn unlink(&mut self, a: u32, b: u32) -> Result<(), EditFault>
        ensures ok { OnOk result (Edited self.old (UnlinkEdit a b) self.new) }
        ensures refused { IfErr result (RefusesEdit (core_of self.old) (UnlinkEdit a b)) }
        ensures err { OnErr result (self.new ≡ self.old) }
        ensures program { self.new.program ≡ self.old.program }
    {
        if let Err(fault) = self.net.unlink(a, b) {
            return Err(EditFault::Net(fault));
        }
        Ok(())
    }

    // No input takes a pair, so the new value is copied without memory.
    fn set(&mut self, device: u32, input: u32, value: &Local) -> Result<(), EditFault>
        ensures ok { OnOk result (Edited self.old (SetEdit device input (local_of value.now)) self.new) }
        ensures refused { IfErr result (RefusesEdit (core_of self.old) (SetEdit device input (local_of value.now))) }
        ensures err { OnErr result (self.new ≡ self.old) }
        ensures program { self.new.program ≡ self.old.program }
    {
        if let Some(fault) = self.net.set_fault(device, input, value) {
            return Err(EditFault::Net(fault));
        }
        let Some(plain) = copy_plain(value) else {
            return Err(EditFault::Net(NetFault::InputType));
        };
        if let Err(fault) = self.net.set_input(device, input, plain) {
            return Err(EditFault::Net(fault));
        }
        Ok(())
    }

    fn poke(&mut self, alloc: Global, device: u32, export: &Export) -> Result<(), EditFault>
        requires { IsExportOf (program_of self.old) export.now }
        ensures ok { OnOk result (Edited self.old (PokeEdit device (export_of export.now)) self.new) }
        ensures refused { IfErr result (RefusesEdit (core_of self.old) (PokeEdit device (export_of export.now))) }
        ensures err { OnErr result (self.new ≡ self.old) }
        ensures program { self.new.program ≡ self.old.program }
    {
        let Some(place) = self.net.place(device) else {
            return Err(EditFault::Net(NetFault::NoDevice));
        };
        let Ok(published) = published_copy(alloc, export) else {
            return Err(EditFault::Memory);
        };
        self.exports[place] = Some(published);
        Ok(())
    }

    fn join(&mut self, alloc: Global, device: &Device) -> Result<(), EditFault>
        requires { device.now.id ≤ GREATEST_NUMBER }
        ensures ok { OnOk result (Edited self.old (JoinEdit (net_device_of device.now)) self.new) }
        ensures refused { IfErr result (RefusesEdit (core_of self.old) (JoinEdit (net_device_of device.now))) }
        ensures err { OnErr result (self.new ≡ self.old) }
        ensures program { self.new.program ≡ self.old.program }
    {
        let Ok(copied) = copy_device(alloc, device) else {
            return Err(EditFault::Memory);
        };
        if self.exports.reserve(1).is_err() || self.flying.reserve(1).is_err() {
            return Err(EditFault::Memory);
        }
        let place = self.net.room(device.id);
        match self.net.join(copied) {
            Ok(()) => {
                open_slot(&mut self.exports, place);
                open_slot(&mut self.flying, place);
                Ok(())
            }
            Err(JoinFault::Net(fault)) => Err(EditFault::Net(fault)),
            Err(JoinFault::Memory) => Err(EditFault::Memory),
        }
    }

    fn leave(&mut self, device: u32) -> Result<(), EditFault>
        ensures ok { OnOk result (Edited self.old (LeaveEdit device) self.new) }
        ensures refused { IfErr result (RefusesEdit (core_of self.old) (LeaveEdit device)) }
        ensures err { OnErr result (self.new ≡ self.old) }
        ensures program { self.new.program ≡ self.old.program }
    {
        let Some(place) = self.net.place(device) else {
            return Err(EditFault::Net(NetFault::NoDevice));
        };
        let flies = self.flying[place].is_some();
        if flies {
            return Err(EditFault::Net(NetFault::InFlight));
        }
        if let Err(fault) = self.net.leave(device) {
            return Err(EditFault::Net(fault));
        }
        self.exports.remove(place);
        self.flying.remove(place);
        Ok(())
    }
}
