//! What a worker does: it fires in a room of its own, round after round, until each device has begun all its firings.

ghost use Rattle.std.specs.Prelude.{◌≡◌, ◌<◌, ◌≤◌, IfSome, IfNone};
ghost use Rattle.fc_nodes.specs.Program.{unfolding_of};
ghost use Rattle.firing_core.specs.Rooms.{IsRoom};
ghost use Rattle.export_table.specs.Firings.{AreCopies};
ghost use Rattle.export_table.specs.Passing.{IsPassOf, TableValue, on_log};
ghost use Rattle.export_table.specs.Turns.{CanEnd};
ghost use Rattle.worker_pool.specs.Working.{Worked, Tries, KeepsRoom, EndsFiring};

use crate::crews::Crew;
use crate::naps::Naps;
use device_eval::{Scratch, fire};
use export_table::{Firing, Gate, Held, Pause, Rest};
use fc_nodes::Unfolded;
use firing_core::Room;
use std::alloc::Global;
use std::sync::{Arc, Wait};
use turn_lock::Pass;
use value_trees::Snap;

/// What comes of a worker's try to fire: a room after the firing, what comes back where nothing may begin, or nothing for
/// want of memory.
#[derive(Drop)]
pub(crate) enum Try {
    Fired(Room),
    Rested(Rest),
    Starved,
}

// The room that was kept, or a new one.
fn room_of(alloc: Global, program: &Arc<Unfolded>, kept: Option<Room>) -> Option<Room>
    requires { IfSome kept (IsRoom (unfolding_of program.now.value)) }
    ensures { IfSome result (IsRoom (unfolding_of program.now.value)) }
{
    match kept {
        Some(room) => Some(room),
        None => Room::new(alloc, program).ok(),
    }
}

/// Evaluates what was begun, after the gate, and ends it: the two copies of the firing come back. Without memory the
/// copy is dropped, and its device stays in flight.
pub(crate) fn finish<W: Wait, G: Gate>(
    rt: &W,
    crew: &Crew<'_, G>,
    pass: &mut Pass<Held>,
    scratch: &mut Scratch,
    firing: Firing,
) -> Option<(Snap, Snap)>
    requires own { IsPassOf crew.now.shared pass.old }
    requires some { 0 < pass.old.left }
    requires may_end { CanEnd crew.now.shared.opening (on_log pass.old) firing }
    ensures own { IsPassOf crew.now.shared pass.new }
    ensures copies { IfSome result (AreCopies (unfolding_of crew.now.shared.opening.program)) }
    ensures ended { IfSome result
        (λ r. EndsFiring crew.now.shared.opening (on_log pass.old) (on_log pass.new) firing) }
    ensures same { IfNone result (pass.new ≡ pass.old) }
    ensures left { pass.new.left ≤ pass.old.left }
{
    crew.gate.between(&firing);
    let place = firing.place();
    match fire(crew.alloc, scratch, &crew.program, firing.into_snap()) {
        Ok(fired) => Some(crew.shared.end(rt, pass, place, fired)),
        Err(_) => None,
    }
}

// One firing, if one may begin. The begin of a round's first firing rings the bell.
fn fire_next<W: Wait, G: Gate>(
    rt: &W,
    crew: &Crew<'_, G>,
    pass: &mut Pass<Held>,
    scratch: &mut Scratch,
    room: Room,
) -> Try
    requires own { IsPassOf crew.now.shared pass.old }
    requires some { 2 ≤ pass.old.left }
    requires room { IsRoom (unfolding_of crew.now.shared.opening.program) room }
    ensures worked { Worked crew.now.shared pass.old pass.new }
    ensures tries { Tries crew.now.shared result }
    ensures less { pass.new.left < pass.old.left }
{
    match crew.shared.next(rt, pass, room) {
        Ok(firing) => {
            if firing.device() == crew.first {
                crew.bell.ring();
            }
            match finish(rt, crew, pass, scratch, firing) {
                Some((first, second)) => tried(first, second),
                None => Try::Starved,
            }
        }
        Err(Pause::Rests(rest)) => Try::Rested(rest),
        Err(Pause::Starved) => Try::Starved,
    }
}

// A firing, whose two copies make the room of the next one.
fn tried(first: Snap, second: Snap) -> Try
    ensures { (t : TableValue) → AreCopies (unfolding_of t.opening.program) (first, second) → Tries t result }
{
    match Room::again(first, second) {
        Ok(room) => Try::Fired(room),
        Err(_) => Try::Starved,
    }
}

/// Fires in the room that was kept or in a new one until the turns of the pass end, each device has begun all its
/// firings, memory is wanting, or the bell is stopped. Where nothing may begin yet it waits for the bell; in reserve it
/// sleeps after each firing. The room is kept, if it is there at the end.
pub(crate) fn work<W: Wait, G: Gate>(
    rt: &W,
    crew: &Crew<'_, G>,
    pass: &mut Pass<Held>,
    kept: Option<Room>,
) -> Option<Room>
    requires own { IsPassOf crew.now.shared pass.old }
    requires kept { KeepsRoom crew.now.shared kept }
    ensures worked { Worked crew.now.shared pass.old pass.new }
    ensures kept { KeepsRoom crew.now.shared result }
{
    let mut room = room_of(crew.alloc, &crew.program, kept)?;
    let mut scratch = Scratch::new(crew.alloc);
    let mut naps = Naps::new(crew.enlist());
    'firings: while pass.left() >= 2 {
        let seen = crew.bell.rings();
        match fire_next(rt, crew, pass, &mut scratch, room) {
            Try::Fired(back) => {
                room = back;
                naps.take(rt, &crew.bell);
            }
            Try::Rested(rest) => {
                if rest.is_over || !crew.bell.wait(rt, seen) {
                    return Some(rest.room);
                }
                room = rest.room;
            }
            Try::Starved => return None,
        }
    }
    Some(room)
}
