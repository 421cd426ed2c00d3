//! Books: a program, a start, a log of steps, and the core to which the log leads.

use crate::cores::Core;
use crate::entries::{Edit, EditFault, Entry, ReplayFault, StepFault};
use crate::rooms::Room;
use device_eval::Fired;
use fc_nodes::Unfolded;
use fc_values::Memory;
use std::alloc::Global;
use std::marker::Model;
use std::sync::Arc;
use value_trees::Snap;

/// A log of steps, with its program, the core that it starts from, and the core to which it leads.
#[derive(Drop)]
pub struct Book {
    program: Arc<Unfolded>,
    start: Core,
    log: Vec<Entry>,
    core: Core,
}

impl Model for Book {
    ghost use Rattle.std.specs.Prelude.{◌-◌, vec_capacity, vec_len};
    ghost use Rattle.std.specs.Coded.{codes};
    ghost use Rattle.fc_values.specs.Codes.{local_value_code};
    ghost use Rattle.fc_values.specs.contracts.values.Local as local;
    ghost use Rattle.fc_values.specs.contracts.types.LocalTy as local_ty;
    ghost use Rattle.firing_core.specs.Books.{BookValue, IsBook, book_with};

    ghost Value = { BookValue };

    ghost coded = { Prim.hlevel (codes, local_value_code, local.the_row.coded, local_ty.the_row.coded) };

    ghost view = { λ b. book_with b.program.value b.start b.log.items b.core (vec_capacity b.log - vec_len b.log) };

    ghost invariant = { λ b. IsBook (book_with b.program.value b.start b.log.items b.core (vec_capacity b.log - vec_len b.log)) };
}

impl Book {
    ghost use Rattle.std.specs.Prelude.{◌≡◌, ◌↔◌, ◌≤◌, ◌+◌, ℕ, [], ◌∷◌, IfOk, OnOk, OnErr, IfErr, IsErrOf, Some, None};
    ghost use Rattle.fc_nodes.specs.Program.{unfolding_of};
    ghost use Rattle.value_trees.specs.Snaps.{snap_copy, IsSnap};
    ghost use Rattle.firing_core.specs.Entries.{BeginEntry, EndEntry, edit_of, entry_of};
    ghost use Rattle.firing_core.specs.Cores.{EditFits, edit_fault, copy_of};
    ghost use Rattle.firing_core.specs.Rooms.{IsRoom};
    ghost use Rattle.firing_core.specs.Replays.{fault_of, net_fault_of, EntryFits};
    ghost use Rattle.firing_core.specs.CoreViews.{core_of, FiresFlight, Publishes};
    ghost use Rattle.firing_core.specs.Books.{IsBook, IsSameBook, AppendsEntry, RefusesEntry};
    ghost use Rattle.firing_core.specs.Books.{EndsFlights, EndsSome, HasFault, fliers, in_flight};
    ghost use Rattle.firing_core.specs.Refusals.{RefusesEdit};
    ghost use Rattle.firing_core.specs.declared.entries.Entry.TheVariants as entry;
    ghost use Rattle.firing_core.specs.declared.entries.StepFault.TheVariants as fault;

    /// The book of a core whose log is empty. A refusal hands the core back.
    pub fn new(alloc: Global, program: Arc<Unfolded>, core: Core) -> Result<Self, (Core, Memory)>
        requires { program.value ≡ core.program }
        ensures program { IfOk result (λ b. b.program ≡ program.value) }
        ensures start { IfOk result (λ b. core_of b.start ≡ core_of core) }
        ensures log { IfOk result (λ b. b.log ≡ []) }
        ensures core { IfOk result (λ b. b.core ≡ core) }
        ensures book { IfOk result IsBook }
        ensures back { IfErr result (λ e. e.0 ≡ core) }
    {
        let Ok(start) = core.copy(alloc) else {
            return Err((core, Memory));
        };
        Ok(Book {
            program,
            start,
            log: Vec::new(alloc),
            core,
        })
    }

    /// The program.
    pub fn program(&self) -> &Arc<Unfolded>
        ensures value { result.now.value ≡ self.now.program }
        ensures book { IsBook self.now }
    {
        &self.program
    }

    /// The core that it starts from.
    pub fn start(&self) -> &Core
        ensures value { result.now ≡ self.now.start }
        ensures book { IsBook self.now }
    {
        &self.start
    }

    /// The log.
    pub fn log(&self) -> &[Entry]
        ensures value { result.now ≡ self.now.log }
        ensures book { IsBook self.now }
    {
        &self.log
    }

    /// The core to which the log leads.
    pub fn core(&self) -> &Core
        ensures value { result.now ≡ self.now.core }
        ensures book { IsBook self.now }
    {
        &self.core
    }

    /// Takes memory for so many more entries.
    pub fn reserve(&mut self, entries: usize) -> Result<(), Memory>
        ensures ok { OnOk result (entries ≤ self.new.spare) }
        ensures more { self.old.spare ≤ self.new.spare }
        ensures same { IsSameBook self.old self.new }
        ensures err { OnErr result (self.new ≡ self.old) }
    {
        self.log.reserve(entries)?;
        Ok(())
    }

    /// Begins a firing of a device, as the core does, and appends the entry.
    pub fn begin(&mut self, alloc: Global, device: u32) -> Result<(), StepFault>
        requires { 1 ≤ self.old.spare }
        ensures ok { OnOk result (AppendsEntry self.old self.new (entry.Begin device)) }
        ensures spare { OnOk result (self.new.spare + 1 ≡ self.old.spare) }
        ensures no_device { IsErrOf result StepFault.NoDevice
            ↔ (fault_of (core_of self.old.core) (BeginEntry device) ≡ Some fault.NoDevice) }
        ensures flying { IsErrOf result StepFault.Flying
            ↔ (fault_of (core_of self.old.core) (BeginEntry device) ≡ Some fault.Flying) }
        ensures never { IsErrOf result StepFault.NotFlying → ⊥ }
        ensures err { OnErr result (self.new ≡ self.old) }
    {
        self.core.begin(alloc, device)?;
        self.log.push_reserved(Entry::Begin(device));
        Ok(())
    }

    /// Begins a firing in a room, as the core does, and appends the entry.
    pub fn begin_with(&mut self, device: u32, room: Room) -> Result<Snap, StepFault>
        requires spare { 1 ≤ self.old.spare }
        requires room { IsRoom (unfolding_of self.old.program) room }
        ensures ok { OnOk result (AppendsEntry self.old self.new (entry.Begin device)) }
        ensures spare { OnOk result (self.new.spare + 1 ≡ self.old.spare) }
        ensures copy { IfOk result (λ s. snap_copy (unfolding_of self.old.program) s
            ≡ copy_of self.old.core.net (core_of self.old.core).exports device) }
        ensures snap { IfOk result (IsSnap (unfolding_of self.old.program)) }
        ensures refused { IfErr result (HasFault (core_of self.old.core) (BeginEntry device)) }
        ensures accepted { OnOk result (fault_of (core_of self.old.core) (BeginEntry device) ≡ None) }
        ensures err { OnErr result (self.new ≡ self.old) }
    {
        let answer = self.core.begin_with(device, room)?;
        self.log.push_reserved(Entry::Begin(device));
        Ok(answer)
    }

    /// Ends a firing, as the core does, and appends the entry. It takes no memory.
    pub fn end(&mut self, fired: Fired) -> Result<(Snap, Snap), (Fired, StepFault)>
        requires spare { 1 ≤ self.old.spare }
        requires program { fired.program ≡ self.old.program }
        requires copy { FiresFlight (unfolding_of self.old.program) (core_of self.old.core) fired }
        ensures ok { OnOk result (AppendsEntry self.old self.new (entry.End fired.snap.device)) }
        ensures publishes { OnOk result (Publishes (unfolding_of self.old.program) (core_of self.old.core) fired
            (core_of self.new.core)) }
        ensures spare { OnOk result (self.new.spare + 1 ≡ self.old.spare) }
        ensures copies { IfOk result (λ r.
            IsSnap (unfolding_of self.old.program) r.0 × IsSnap (unfolding_of self.old.program) r.1) }
        ensures refused { IfErr result (λ e. fault_of (core_of self.old.core) (EndEntry fired.snap.device) ≡ Some e.1) }
        ensures accepted { OnOk result (fault_of (core_of self.old.core) (EndEntry fired.snap.device) ≡ None) }
        ensures back { IfErr result (λ e. e.0 ≡ fired) }
        ensures err { OnErr result (self.new ≡ self.old) }
    {
        let device = fired.snap().device;
        let copies = self.core.end(fired)?;
        self.log.push_reserved(Entry::End(device));
        Ok(copies)
    }

    /// Edits the core, and appends the entry. It takes no memory but that of the core's edit.
    pub fn edit(&mut self, alloc: Global, edit: Edit) -> Result<(), EditFault>
        requires spare { 1 ≤ self.old.spare }
        requires fits { EditFits (unfolding_of self.old.program) (edit_of edit) }
        ensures ok { OnOk result (AppendsEntry self.old self.new (entry.Edit edit)) }
        ensures room { OnOk result (self.new.spare + 1 ≡ self.old.spare) }
        ensures accepted { OnOk result (edit_fault (core_of self.old.core) (edit_of edit) ≡ None) }
        ensures refused { IfErr result (RefusesEdit (core_of self.old.core) (edit_of edit)) }
        ensures err { OnErr result (self.new ≡ self.old) }
    {
        self.core.edit(alloc, &edit)?;
        self.log.push_reserved(Entry::Edit(edit));
        Ok(())
    }

    /// Appends an entry that changes nothing. It takes no memory.
    pub fn idle(&mut self)
        requires { 1 ≤ self.old.spare }
        ensures appended { AppendsEntry self.old self.new entry.Idle }
        ensures room { self.new.spare + 1 ≡ self.old.spare }
    {
        self.log.push_reserved(Entry::Idle);
    }

    /// Applies one entry, an end by evaluating the copy in flight, and appends it. A refusal changes nothing but the
    /// room in the log.
    pub fn step(&mut self, alloc: Global, entry: Entry) -> Result<(), ReplayFault>
        requires { EntryFits (unfolding_of self.old.program) (entry_of entry) }
        ensures ok { OnOk result (AppendsEntry self.old self.new entry) }
        ensures refused { IfErr result (RefusesEntry self.old (entry_of entry)) }
        ensures accepted { OnOk result (fault_of (core_of self.old.core) (entry_of entry) ≡ None) }
        ensures allowed { OnOk result (net_fault_of (core_of self.old.core) (entry_of entry) ≡ None) }
        ensures err { OnErr result (IsSameBook self.old self.new) }
    {
        if self.reserve(1).is_err() {
            return Err(ReplayFault::Memory);
        }
        self.apply(alloc, entry)
    }

    /// Ends each flight, in rising order of devices. Where memory runs out, only the first of them are ended.
    pub fn settle(&mut self, alloc: Global) -> Result<(), Memory>
        ensures ok { OnOk result (EndsFlights self.old self.new (in_flight (core_of self.old.core))) }
        ensures rests { OnOk result ((d : ℕ) → (core_of self.new.core).flying d ≡ None) }
        ensures memory { OnErr result (EndsSome self.old self.new) }
    {
        let count = self.core().net().devices().len();
        for place in 0..count {
            let device = self.core().net().devices()[place].id;
            self.settle_one(alloc, device)?;
        }
        Ok(())
    }

    // Ends the flight of a device, if it flies.
    fn settle_one(&mut self, alloc: Global, device: u32) -> Result<(), Memory>
        ensures ok { OnOk result (EndsFlights self.old self.new (fliers (core_of self.old.core).flying (device ∷ []))) }
        ensures err { OnErr result (IsSameBook self.old self.new) }
    {
        if self.core().flying(device).is_none() {
            return Ok(());
        }
        match self.step(alloc, Entry::End(device)) {
            Ok(()) => Ok(()),
            Err(ReplayFault::Memory) => Err(Memory),
            Err(ReplayFault::At { .. }) => unreachable!(),
            Err(ReplayFault::EditAt { .. }) => unreachable!(),
        }
    }

    // One entry, where the log has room for it.
    fn apply(&mut self, alloc: Global, entry: Entry) -> Result<(), ReplayFault>
        requires spare { 1 ≤ self.old.spare }
        requires fits { EntryFits (unfolding_of self.old.program) (entry_of entry) }
        ensures ok { OnOk result (AppendsEntry self.old self.new entry) }
        ensures refused { IfErr result (RefusesEntry self.old (entry_of entry)) }
        ensures accepted { OnOk result (fault_of (core_of self.old.core) (entry_of entry) ≡ None) }
        ensures allowed { OnOk result (net_fault_of (core_of self.old.core) (entry_of entry) ≡ None) }
        ensures err { OnErr result (self.new ≡ self.old) }
    {
        let index = self.log.len();
        self.core.apply(alloc, index, &entry)?;
        self.log.push_reserved(entry);
        Ok(())
    }
}

ghost use Rattle.std.specs.Prelude.{◌≡◌, IfOk, IfErr, Some};
ghost use Rattle.fc_nodes.specs.Program.{unfolding_of};
ghost use Rattle.firing_core.specs.Entries.{entries_of};
ghost use Rattle.firing_core.specs.CoreViews.{core_of};
ghost use Rattle.firing_core.specs.Replays.{LogFits, replay as replay_of};
ghost use Rattle.firing_core.specs.Books.{FailsReplay, IsStuckReplay};

/// The book of a start and a log, or the first entry that has no step.
pub fn replay(
    alloc: Global,
    program: &Arc<Unfolded>,
    start: Core,
    log: Vec<Entry>,
) -> Result<Book, ReplayFault>
    requires program { program.now.value ≡ start.program }
    requires fits { LogFits (unfolding_of program.now.value) (entries_of log.items) }
    ensures program { IfOk result (λ b. b.program ≡ program.now.value) }
    ensures start { IfOk result (λ b. core_of b.start ≡ core_of start) }
    ensures log { IfOk result (λ b. b.log ≡ log.items) }
    ensures core { IfOk result (λ b.
        replay_of (unfolding_of program.now.value) (core_of start) (entries_of log.items) ≡ Some (core_of b.core)) }
    ensures refused { IfErr result (FailsReplay (unfolding_of program.now.value) (core_of start)
        (entries_of log.items)) }
    ensures stuck { IfErr result (IsStuckReplay (unfolding_of program.now.value) (core_of start)
        (entries_of log.items)) }
{
    let Ok(program) = program.clone() else {
        return Err(ReplayFault::Memory);
    };
    let mut core = start;
    let Ok(start) = core.copy(alloc) else {
        return Err(ReplayFault::Memory);
    };
    for index in 0..log.len() {
        core.apply(alloc, index, &log[index])?;
    }
    Ok(Book {
        program,
        start,
        log,
        core,
    })
}
