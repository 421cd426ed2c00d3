//! An edit among the firings of a round, and rounds after it.

ghost use Rattle.std.specs.Prelude.{◌≡◌, ◌<◌, ◌≤◌, IfOk, IfSome, IsSome, None, length};
ghost use Rattle.std.specs.Thread.{IsSync};
ghost use Rattle.fc_nodes.specs.Program.{unfolding_of};
ghost use Rattle.firing_core.specs.Entries.{edit_of};
ghost use Rattle.firing_core.specs.Cores.{EditFits, edit_fault};
ghost use Rattle.firing_core.specs.CoreViews.{core_of};
ghost use Rattle.firing_core.specs.Stretches.{IsMixed, NoneFlies, MixedEdit};
ghost use Rattle.firing_core.specs.Rooms.{IsRoom};
ghost use Rattle.export_table.specs.Passing.{IsPassOf, on_log};
ghost use Rattle.export_table.specs.Turns.{Began, CanEnd, IsAfterTurn};
ghost use Rattle.worker_pool.specs.Mixing.{NeverRests, MayMix, MixedIn, MixedTogether};
ghost use Rattle.worker_pool.specs.Working.{AreRooms, Staffed, StaffWorked};

use crate::crews::Crew;
use crate::fan::fan;
use crate::plans::plan_of;
use crate::rounds::{no_rooms, run_in};
use crate::shorts::complete;
use crate::workers::finish;
use device_eval::Scratch;
use export_table::{Firing, Gate, Held, Pause};
use fc_values::Memory;
use firing_core::{Book, Edit, EditFault, Room, logs_decide};
use std::alloc::Global;
use std::sync::Wait;
use std::thread::{Threads, join_mut};
use turn_lock::Pass;

/// An edit, the firing that begins before it and ends after it, and whether it waits until the workers have fired.
#[derive(Drop)]
pub(crate) struct Mix {
    firing: Firing,
    edit: Edit,
    waits: bool,
}

/// Settles what is pending, begins a firing of the smallest device, lets so many workers fire, meanwhile puts the edit
/// in and ends that firing, and then runs the rounds. The gate is called once for each firing of a worker and for that of
/// the smallest device, between its begin and its evaluation; for that of the smallest device after the edit.
pub fn run_mixed<R: Threads + Wait + Sync, G: Gate + Sync>(
    rt: &R,
    alloc: Global,
    book: Book,
    rounds: u32,
    edit: Edit,
    workers: u32,
    gate: &G,
) -> Result<Book, Memory>
    requires workers { (1 ≤ workers) × (workers ≤ 16) }
    requires mixed { IsMixed (edit_of edit) }
    requires fits { EditFits (unfolding_of book.program) (edit_of edit) }
    requires allowed { edit_fault (core_of book.core) (edit_of edit) ≡ None }
    ensures mixed { IfOk result (MixedEdit book rounds (edit_of edit)) }
{
    let mut book = book;
    let mut rooms = no_rooms(alloc, workers)?;
    book.settle(alloc)?;
    let front = book.log().len();
    let mut book = mix_together(rt, alloc, book, edit, &mut rooms, gate)?;
    complete(alloc, &mut book, front)?;
    run_in(rt, alloc, book, rounds, &mut rooms, gate)
}

// Lets workers fire in a table, with the edit between the begin and the end of the smallest device's firing.
fn mix_together<R: Threads + Wait + Sync, G: Gate + Sync>(
    rt: &R,
    alloc: Global,
    book: Book,
    edit: Edit,
    rooms: &mut [Option<Room>],
    gate: &G,
) -> Result<Book, Memory>
    requires workers { (1 ≤ length rooms.old) × (length rooms.old ≤ 16) }
    requires rooms { AreRooms (unfolding_of book.program) rooms.old }
    requires rests { NoneFlies (core_of book.core) }
    requires mixed { IsMixed (edit_of edit) }
    requires fits { EditFits (unfolding_of book.program) (edit_of edit) }
    requires allowed { edit_fault (core_of book.core) (edit_of edit) ≡ None }
    ensures mixed { IfOk result (MixedTogether book (edit_of edit)) }
    ensures rooms { AreRooms (unfolding_of book.program) rooms.new }
    ensures many { length rooms.new ≡ length rooms.old }
{
    logs_decide();
    let room = Room::new(alloc, book.program())?;
    let waits = rooms.len() == 1;
    let plan = plan_of(&book, (rooms.len() - 1).max(1), 1);
    let given = plan.workers as u64 * plan.share;
    let (crew, mut pass) = Crew::open(alloc, book, 1, given + 3, gate)?;
    let firing = match begin_first(rt, &crew, &mut pass, room) {
        Ok(firing) => firing,
        Err(memory) => {
            crew.close(pass);
            return Err(memory);
        }
    };
    let mut other = crew.shared.split(&mut pass, given);
    let (busy, _) = rooms.split_at_mut(plan.workers);
    let mix = Mix {
        firing,
        edit,
        waits,
    };
    let mixed = edit_among(rt, &crew, &mut pass, mix, &mut other, busy, plan.share);
    crew.shared.join(&mut pass, other);
    let book = crew.close(pass);
    // what its clause says: the book is one
    let _core = book.core();
    match mixed {
        Ok(()) => Ok(book),
        Err(EditFault::Memory) => Err(Memory),
        // the whole log is known now: nobody else edited, so the network is that of before
        Err(EditFault::Net(_)) => unreachable!(),
    }
}

// Begins the first firing of a table.
fn begin_first<W: Wait, G>(
    rt: &W,
    crew: &Crew<'_, G>,
    pass: &mut Pass<Held>,
    room: Room,
) -> Result<Firing, Memory>
    requires own { IsPassOf crew.now.shared pass.old }
    requires some { 0 < pass.old.left }
    requires room { IsRoom (unfolding_of crew.now.shared.opening.program) room }
    requires never { NeverRests crew.now.shared.opening (on_log pass.old) }
    ensures began { IfOk result (Began crew.now.shared.opening (on_log pass.old) (on_log pass.new)) }
    ensures may_end { IfOk result (CanEnd crew.now.shared.opening (on_log pass.new)) }
    ensures own { IsPassOf crew.now.shared pass.new }
    ensures after { IsAfterTurn pass.old pass.new }
{
    match crew.shared.next(rt, pass, room) {
        Ok(firing) => Ok(firing),
        Err(Pause::Starved) => Err(Memory),
        Err(Pause::Rests(_)) => unreachable!(),
    }
}

// Puts the edit in and ends the firing, while workers fire, or after they have fired.
fn edit_among<R: Threads + Wait + Sync, G: Gate + Sync>(
    rt: &R,
    crew: &Crew<'_, G>,
    pass: &mut Pass<Held>,
    mix: Mix,
    other: &mut Pass<Held>,
    rooms: &mut [Option<Room>],
    share: u64,
) -> Result<(), EditFault>
    requires may { MayMix crew.now.shared pass.old mix }
    requires staffed { Staffed crew.now.shared other.old rooms.old share }
    ensures mixed { MixedIn crew.now.shared pass.old pass.new mix result }
    ensures worked { StaffWorked crew.now.shared other.old other.new rooms.old rooms.new }
{
    if mix.waits {
        fan(rt, crew, other, rooms, share);
        return edit_then_end(rt, crew, pass, mix);
    }
    edit_beside(rt, crew, pass, mix, other, rooms, share)
}

// Puts the edit in and ends the firing, in a thread of its own, while workers fire.
fn edit_beside<R: Threads + Wait + Sync, G: Gate + Sync>(
    rt: &R,
    crew: &Crew<'_, G>,
    pass: &mut Pass<Held>,
    mix: Mix,
    other: &mut Pass<Held>,
    rooms: &mut [Option<Room>],
    share: u64,
) -> Result<(), EditFault>
    requires staffed { Staffed crew.now.shared other.old rooms.old share }
    requires may { MayMix crew.now.shared pass.old mix }
    ensures worked { StaffWorked crew.now.shared other.old other.new rooms.old rooms.new }
    ensures mixed { MixedIn crew.now.shared pass.old pass.new mix result }
{
    let mut mix = Some(mix);
    let (mixed, _) = join_mut(
        rt,
        &mut || -> Result<(), EditFault>
            requires some { IsSome mix }
            requires may { IfSome mix (MayMix crew.now.shared pass.now) }
            ensures mixed { IfSome mix.entry
                (λ m. MixedIn crew.entry.now.shared pass.entry.now pass.exit.now m result) }
        {
            match mix.take() {
                Some(mix) => edit_then_end(rt, crew, pass, mix),
                None => unreachable!(),
            }
        },
        &mut ||
            requires sync { IsSync R.row × IsSync G.row }
            requires staffed { Staffed crew.now.shared other.now rooms.now share }
            ensures worked { StaffWorked crew.entry.now.shared other.entry.now other.exit.now
                rooms.entry.now rooms.exit.now }
        { fan(rt, crew, other, rooms, share) },
    );
    mixed
}

// Puts an edit in before it ends a firing that the pass began. At the turn of the edit it isn't known that nobody else
// has edited, so a refusal is handed on. Then the firing isn't ended.
fn edit_then_end<W: Wait, G: Gate>(
    rt: &W,
    crew: &Crew<'_, G>,
    pass: &mut Pass<Held>,
    mix: Mix,
) -> Result<(), EditFault>
    requires { MayMix crew.now.shared pass.old mix }
    ensures { MixedIn crew.now.shared pass.old pass.new mix result }
{
    let Mix {
        firing,
        edit,
        waits: _,
    } = mix;
    crew.shared.edit(rt, crew.alloc, pass, edit)?;
    let mut scratch = Scratch::new(crew.alloc);
    let Some(_copies) = finish(rt, crew, pass, &mut scratch, firing) else {
        return Err(EditFault::Memory);
    };
    Ok(())
}
