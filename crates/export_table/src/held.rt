//! The value under the lock: a book, and what is left to begin.

use crate::agenda::{Agenda, Next, change_of};
use crate::firing::{Pause, Rest};
use crate::item::Item;
use device_eval::Fired;
use fc_values::Memory;
use firing_core::{Book, Edit, EditFault, Room, StepFault, logs_decide, runs_cut};
use std::alloc::Global;
use std::marker::Model;
use turn_lock::Logged;
use value_trees::Snap;

/// A book with room for the turns of a table, and each device's begins since the opening or since its last join.
#[derive(Drop)]
pub struct Held {
    book: Book,
    agenda: Agenda,
    turns: u64,
    front: u64,
}

impl Model for Held {
    ghost use Rattle.std.specs.Coded.{codes};
    ghost use Rattle.fc_values.specs.Codes.{local_value_code};
    ghost use Rattle.fc_values.specs.contracts.values.Local as local;
    ghost use Rattle.fc_values.specs.contracts.types.LocalTy as local_ty;
    ghost use Rattle.export_table.specs.Holding.{HeldValue, IsHeld};

    ghost Value = { HeldValue };

    ghost coded = { Prim.hlevel (codes, local_value_code, local.the_row.coded, local_ty.the_row.coded) };

    ghost view = { λ h. record { book = h.book; rounds = h.agenda.rounds; turns = h.turns; front = h.front } };

    ghost invariant = { λ h. IsHeld (record { book = h.book; rounds = h.agenda.rounds; turns = h.turns; front = h.front }) h.agenda };
}

impl Logged for Held {
    type Entry = Item;

    ghost use Rattle.export_table.specs.Holding.{list_of};
    ghost use Rattle.export_table.specs.Answers.{answers as answers_of};
    ghost use Rattle.export_table.specs.AnswersStay.{answers_earlier, answers_stay};

    ghost list = { list_of };

    ghost answers = { answers_of };

    ghost earlier = { answers_earlier };

    ghost stays = { answers_stay };
}

impl Held {
    ghost use Rattle.std.specs.Prelude.{◌≡◌, ◌<◌, ◌≤◌, ℕ, length, IfOk, IfErr, OnOk, OnErr, IsErrOf, None, Some};
    ghost use Rattle.fc_values.specs.Trees.{Copy};
    ghost use Rattle.fc_nodes.specs.Program.{unfolding_of};
    ghost use Rattle.value_trees.specs.Snaps.{tree_of, snap_copy, IsSnap};
    ghost use Rattle.firing_core.specs.Cores.{copy_of, EditFits, edit_fault};
    ghost use Rattle.firing_core.specs.CoreViews.{core_of};
    ghost use Rattle.firing_core.specs.Rooms.{IsRoom};
    ghost use Rattle.firing_core.specs.Entries.{edit_of};
    ghost use Rattle.firing_core.specs.Refusals.{RefusesEdit, TakesNone};
    ghost use Rattle.firing_core.specs.declared.entries.Entry.TheVariants as entry;
    ghost use Rattle.export_table.specs.Begins.{IsNext};
    ghost use Rattle.export_table.specs.Holding.{Opens, HasTurn, Turned, IsOpenAt, IsTakenAt, BeginsWithin, EachIsNext};
    ghost use Rattle.export_table.specs.Holding.{opening_in, log_in, core_in};
    ghost use Rattle.export_table.specs.Firings.{AreCopies};
    ghost use Rattle.export_table.specs.Turns.{Pauses, GivesBack};

    /// Opens a book for so many turns, in which each device may begin so many firings. A refusal hands the book back.
    pub(crate) fn new(
        alloc: Global,
        book: Book,
        rounds: u32,
        turns: u64,
    ) -> Result<Held, (Book, Memory)>
        requires { (d : ℕ) → (core_of book.core).flying d ≡ None }
        ensures opened { IfOk result (Opens book rounds turns) }
        ensures back { IfErr result (λ e. e.0 ≡ book) }
    {
        let mut book = book;
        let front = book.log().len() as u64;
        let agenda = match Agenda::new(alloc, rounds, book.core().net()) {
            Ok(agenda) => agenda,
            Err(memory) => return Err((book, memory)),
        };
        match book.reserve(turns as usize) {
            Ok(()) => Ok(Held {
                book,
                agenda,
                turns,
                front,
            }),
            Err(memory) => Err((book, memory)),
        }
    }

    /// The book.
    pub(crate) fn into_book(self) -> Book
        ensures book { result ≡ self.book }
        ensures within { BeginsWithin (opening_in self) (log_in self) }
        ensures next { EachIsNext (opening_in self) (log_in self) }
    {
        let Held {
            book,
            agenda: _,
            turns: _,
            front: _,
        } = self;
        book
    }

    /// How many entries the log has.
    pub(crate) fn len(&self) -> u64
        ensures { result ≡ length self.now.book.log }
    {
        self.book.log().len() as u64
    }

    /// Begins the smallest device that may begin, or appends an entry that changes nothing: where none may begin, and for
    /// want of memory.
    pub(crate) fn next(&mut self, room: Room) -> Result<(u32, Snap), Pause>
        requires turn { HasTurn self.old }
        requires room { IsRoom (unfolding_of self.old.book.program) room }
        ensures turned { IfOk result (λ r. Turned self.old self.new (entry.Begin r.0)) }
        ensures next { IfOk result (λ r. IsNext (opening_in self.old) (log_in self.old) (core_in self.old) r.0) }
        ensures copy { IfOk result (λ r.
            snap_copy (unfolding_of self.old.book.program) r.1
            ≡ copy_of (core_in self.old).net (core_in self.old).exports r.0) }
        ensures snap { IfOk result (λ r. IsSnap (unfolding_of self.old.book.program) r.1) }
        ensures pauses { IfErr result (Pauses self.old self.new) }
        ensures back { IfErr result (GivesBack room) }
    {
        // what the clauses of these two say: the network's devices rise, and a log leads to one core
        let _net = self.book.core().net();
        logs_decide();
        let place = match self.agenda.next() {
            Next::Begins(place) => place,
            Next::Rests { is_over } => {
                self.book.idle();
                return Err(Pause::Rests(Rest { room, is_over }));
            }
        };
        let device = self.agenda.device(place);
        match self.book.begin_with(device, room) {
            Ok(snap) => {
                self.agenda.begin(place);
                Ok((device, snap))
            }
            Err(why) => {
                let StepFault::Memory = why else {
                    unreachable!()
                };
                self.book.idle();
                Err(Pause::Starved)
            }
        }
    }

    /// Ends a firing that was begun at a place and isn't ended, by what was evaluated of its copy. The copy that flew and
    /// the one that was evaluated come back. It takes no memory.
    pub(crate) fn end(&mut self, place: u64, fired: Fired) -> (Snap, Snap)
        requires turn { HasTurn self.old }
        requires program { fired.program ≡ self.old.book.program }
        requires open { IsOpenAt self.old place fired.snap.device }
        requires copy { IsTakenAt (opening_in self.old) (log_in self.old) place
            (snap_copy (unfolding_of self.old.book.program) fired.snap) }
        ensures turned { Turned self.old self.new (entry.End fired.snap.device) }
        ensures publishes { (core_in self.new).exports fired.snap.device
            ≡ Some (tree_of (unfolding_of self.old.book.program) fired.export) }
        ensures copies { AreCopies (unfolding_of self.old.book.program) result }
    {
        // the contract alone speaks of it
        let _ = place;
        logs_decide();
        runs_cut();
        let Some(row) = self.book.core().net().place(fired.snap().device) else {
            unreachable!()
        };
        match self.book.end(fired) {
            Ok(copies) => {
                self.agenda.end(row);
                copies
            }
            Err(_) => unreachable!(),
        }
    }

    /// Edits the book, or appends an entry that changes nothing.
    pub(crate) fn edit(&mut self, alloc: Global, edit: Edit) -> Result<(), EditFault>
        requires turn { HasTurn self.old }
        requires fits { EditFits (unfolding_of self.old.book.program) (edit_of edit) }
        ensures edited { OnOk result (Turned self.old self.new (entry.Edit edit)) }
        ensures allowed { OnOk result (edit_fault (core_in self.old) (edit_of edit) ≡ None) }
        ensures idle { OnErr result (Turned self.old self.new entry.Idle) }
        ensures refused { IfErr result (RefusesEdit (core_in self.old) (edit_of edit)) }
        ensures memory { IsErrOf result EditFault.Memory → TakesNone (edit_of edit) → ⊥ }
    {
        let change = change_of(&edit, self.book.core().net());
        let Ok(()) = self.agenda.prepare(&change) else {
            self.book.idle();
            return Err(EditFault::Memory);
        };
        match self.book.edit(alloc, edit) {
            Ok(()) => {
                self.agenda.change(change);
                Ok(())
            }
            Err(fault) => {
                self.book.idle();
                Err(fault)
            }
        }
    }
}
