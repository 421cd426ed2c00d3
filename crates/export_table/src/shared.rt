//! A book that threads share. Each call of `next`, `end` and `edit` is one turn of its lock, and evaluates nothing.

ghost use Rattle.std.specs.Prelude.{◌≡◌, ◌<◌, ◌≤◌, ◌+◌, ◌^◌, ◌++◌, ◌∷◌, [], ℕ, length, None};
ghost use Rattle.std.specs.Prelude.{IfOk, IfErr, OnOk, OnErr, IsErrOf};
ghost use Rattle.fc_nodes.specs.Program.{unfolding_of};
ghost use Rattle.firing_core.specs.Cores.{EditFits, edit_fault};
ghost use Rattle.firing_core.specs.CoreViews.{core_of};
ghost use Rattle.firing_core.specs.Rooms.{IsRoom};
ghost use Rattle.firing_core.specs.Entries.{edit_of, entries_of};
ghost use Rattle.firing_core.specs.Books.{IsSameBook};
ghost use Rattle.firing_core.specs.Refusals.{RefusesEdit, TakesNone};
ghost use Rattle.firing_core.specs.declared.entries.Entry.TheVariants as entry;
ghost use Rattle.turn_lock.specs.Logs.{StartsWith, In, Rises};
ghost use Rattle.turn_lock.specs.Passes.{IsBelow, opened, kept_part, new_part, joined};
ghost use Rattle.export_table.specs.Holding.{HasTurn, core_in, opening_of, BeginsWithin, EachIsNext};
ghost use Rattle.export_table.specs.Firings.{AreCopies};
ghost use Rattle.export_table.specs.Passing.{IsPassOf, on_log};
ghost use Rattle.export_table.specs.Turns.{Begins, Pauses, GivesBack, MayEnd, EndsIn, EditsIn, RefusesIn};
ghost use Rattle.export_table.specs.Turns.{Began, Paused, IsOwnFiring, CanEnd, Ended, Edited, Refused};
ghost use Rattle.export_table.specs.Turns.{Closes, IsAfterTurn, KeepsFirings};

use crate::firing::{Firing, Pause};
use crate::held::Held;
use device_eval::Fired;
use fc_values::Memory;
use firing_core::{Book, Edit, EditFault, Room, logs_decide, runs_cut};
use std::alloc::Global;
use std::marker::Model;
use std::snapshot::Snapshot;
use std::sync::Wait;
use turn_lock::{Pass, TurnLock, Urgency};
use value_trees::Snap;

/// A book under a lock. Contracts see its lock and what it was opened with, and a pass to it as one over the book's
/// log.
pub struct Shared {
    lock: TurnLock<Held>,
    opened: Snapshot<Held>,
}

impl Model for Shared {
    ghost use Rattle.std.specs.Coded.{codes};
    ghost use Rattle.fc_values.specs.Codes.{local_value_code};
    ghost use Rattle.fc_values.specs.contracts.values.Local as local;
    ghost use Rattle.fc_values.specs.contracts.types.LocalTy as local_ty;
    ghost use Rattle.export_table.specs.Holding.{opening_in};
    ghost use Rattle.export_table.specs.Passing.{TableValue};

    ghost Value = { TableValue };

    ghost coded = { Prim.hlevel (codes, local_value_code, local.the_row.coded, local_ty.the_row.coded) };

    ghost view = { λ s. record { lock = s.lock; opening = opening_in s.opened.value } };
}

impl Shared {
    /// A table over a book in which no device flies, for so many turns, and the pass with all of them. Each device may
    /// begin so many firings. A refusal hands the book back.
    pub fn over(
        alloc: Global,
        book: Book,
        rounds: u32,
        turns: u64,
    ) -> Result<(Shared, Pass<Held>), (Book, Memory)>
        requires rests { (d : ℕ) → (core_of book.core).flying d ≡ None }
        requires few { turns < 2 ^ 32 }
        ensures opening { IfOk result (λ r. r.0.opening ≡ opening_of book rounds turns (length book.log)) }
        ensures pass { IfOk result (λ r. on_log r.1 ≡ opened r.0.lock (entries_of book.log) turns) }
        ensures own { IfOk result (λ r. IsPassOf r.0 r.1) }
        ensures back { IfErr result (λ e. IsSameBook book e.0) }
    {
        let held = Held::new(alloc, book, rounds, turns)?;
        let opened = Snapshot::of(&held);
        match TurnLock::new(alloc, held, turns) {
            Ok((lock, pass)) => Ok((Shared { lock, opened }, pass)),
            Err((held, memory)) => Err((held.into_book(), memory)),
        }
    }

    /// A new pass with a share of the turns of this one.
    pub fn split(&self, pass: &mut Pass<Held>, share: u64) -> Pass<Held>
        requires own { IsPassOf self.now pass.old }
        requires enough { share ≤ pass.old.left }
        ensures kept { on_log pass.new ≡ kept_part share (on_log pass.old) }
        ensures given { on_log result ≡ new_part share (on_log pass.old) }
        ensures own { IsPassOf self.now pass.new × IsPassOf self.now result }
        ensures below { IsBelow pass.old × IsBelow pass.new × IsBelow result }
    {
        self.lock.split(pass, share)
    }

    /// Takes in a pass that was split from this one.
    pub fn join(&self, pass: &mut Pass<Held>, other: Pass<Held>)
        requires own { IsPassOf self.now pass.old × IsPassOf self.now other }
        requires name { (k : ℕ) × (other.name ≡ pass.old.name ++ k ∷ []) × In k pass.old.out }
        requires back { other.out ≡ [] }
        ensures joined { on_log pass.new ≡ joined (on_log pass.old) (on_log other) }
        ensures seen { StartsWith (on_log pass.new).seen (on_log pass.old).seen
            × StartsWith (on_log pass.new).seen (on_log other).seen }
        ensures rises { Rises (on_log pass.new).mine }
        ensures own { IsPassOf self.now pass.new }
        ensures below { IsBelow pass.new }
    {
        self.lock.join(pass, other);
    }

    /// Begins the smallest device that may begin, in a room. Where none may it hands the room back, and says whether each
    /// device has begun all its firings. For want of memory it begins none. Nobody waits for this turn.
    pub fn next<W: Wait>(&self, rt: &W, pass: &mut Pass<Held>, room: Room) -> Result<Firing, Pause>
        requires own { IsPassOf self.now pass.old }
        requires some { 0 < pass.old.left }
        requires room { IsRoom (unfolding_of self.now.opening.program) room }
        ensures began { IfOk result (Began self.now.opening (on_log pass.old) (on_log pass.new)) }
        ensures may_end { IfOk result (CanEnd self.now.opening (on_log pass.new)) }
        ensures paused { IfErr result (Paused self.now.opening (on_log pass.old) (on_log pass.new)) }
        ensures back { IfErr result (GivesBack room) }
        ensures own { IsPassOf self.now pass.new }
        ensures keeps { KeepsFirings self.now.opening (on_log pass.old) (on_log pass.new) }
        ensures after { IsAfterTurn pass.old pass.new }
    {
        self.lock.turn(
            rt,
            pass,
            Urgency::Low,
            |held: &mut Held| -> Result<Firing, Pause>
                requires turn { HasTurn held.old }
                requires room { IsRoom (unfolding_of held.old.book.program) room }
                ensures begins { IfOk result (Begins held.old held.new) }
                ensures pauses { IfErr result (Pauses held.old held.new) }
                ensures back { IfErr result (GivesBack room) }
            {
                let place = held.len();
                let (device, snap) = held.next(room)?;
                Ok(Firing::new(device, place, snap))
            },
        )
    }

    /// Ends a firing that the pass began, and so publishes its export. The copy that flew and the one that was evaluated
    /// come back, and it takes no memory. A round waits for this turn.
    pub fn end<W: Wait>(
        &self,
        rt: &W,
        pass: &mut Pass<Held>,
        place: u64,
        fired: Fired,
    ) -> (Snap, Snap)
        requires own { IsPassOf self.now pass.old }
        requires some { 0 < pass.old.left }
        requires firing { IsOwnFiring self.now.opening (on_log pass.old) place fired }
        ensures ended { Ended self.now.opening (on_log pass.old) (on_log pass.new) fired }
        ensures copies { AreCopies (unfolding_of self.now.opening.program) result }
        ensures own { IsPassOf self.now pass.new }
        ensures after { IsAfterTurn pass.old pass.new }
    {
        logs_decide();
        runs_cut();
        self.lock.turn(
            rt,
            pass,
            Urgency::High,
            |held: &mut Held| -> (Snap, Snap)
                requires { MayEnd held.old place fired }
                ensures ends { EndsIn held.old held.new fired }
                ensures copies { AreCopies (unfolding_of held.old.book.program) result }
            { held.end(place, fired) },
        )
    }

    /// Edits the book, where its core allows it. Nobody waits for this turn.
    pub fn edit<W: Wait>(
        &self,
        rt: &W,
        alloc: Global,
        pass: &mut Pass<Held>,
        edit: Edit,
    ) -> Result<(), EditFault>
        requires own { IsPassOf self.now pass.old }
        requires some { 0 < pass.old.left }
        requires fits { EditFits (unfolding_of self.now.opening.program) (edit_of edit) }
        ensures edited { OnOk result (Edited self.now.opening (on_log pass.old) (on_log pass.new) (edit_of edit)) }
        ensures refused { IfErr result (Refused self.now.opening (on_log pass.old) (on_log pass.new) (edit_of edit)) }
        ensures memory { IsErrOf result EditFault.Memory → TakesNone (edit_of edit) → ⊥ }
        ensures own { IsPassOf self.now pass.new }
        ensures keeps { KeepsFirings self.now.opening (on_log pass.old) (on_log pass.new) }
        ensures after { IsAfterTurn pass.old pass.new }
    {
        self.lock.turn(
            rt,
            pass,
            Urgency::Low,
            |held: &mut Held| -> Result<(), EditFault>
                requires turn { HasTurn held.old }
                requires fits { EditFits (unfolding_of held.old.book.program) (edit_of edit) }
                ensures edits { OnOk result (EditsIn held.old held.new edit) }
                ensures refuses { IfErr result (RefusesIn held.old held.new (edit_of edit)) }
            { held.edit(alloc, edit) },
        )
    }

    /// The book, for the one pass that is left.
    pub fn close(self, pass: Pass<Held>) -> Book
        requires own { IsPassOf self pass }
        requires last { (pass.name ≡ []) × (pass.out ≡ []) }
        ensures closes { Closes self.opening (on_log pass) result }
        ensures within { BeginsWithin self.opening (entries_of result.log) }
        ensures next { EachIsNext self.opening (entries_of result.log) }
    {
        let Shared { lock, opened: _ } = self;
        lock.close(pass).into_book()
    }
}

ghost use Rattle.export_table.specs.Turns.{FiringsStay};

/// A firing that a pass may end stays one as long as the pass doesn't end it.
pub fn firings_stay()
    ensures { FiringsStay }
{}
