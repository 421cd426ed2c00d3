//! Rounds over a book: a table for many of them, in which workers fire, and then the firings that are still missing.

ghost use Rattle.std.specs.Prelude.{◌≡◌, ◌≤◌, IfOk, length};
ghost use Rattle.fc_nodes.specs.Program.{Unfolding, unfolding_of};
ghost use Rattle.firing_core.specs.CoreViews.{core_of};
ghost use Rattle.firing_core.specs.Stretches.{NoneFlies, RanRounds};
ghost use Rattle.worker_pool.specs.Rounding.{FiredTogether};
ghost use Rattle.worker_pool.specs.Working.{AreRooms};

use crate::crews::Crew;
use crate::fan::fan;
use crate::plans::plan_of;
use crate::shorts::complete;
use export_table::Gate;
use fc_values::Memory;
use firing_core::{Book, Room, logs_decide};
use std::alloc::Global;
use std::sync::Wait;
use std::thread::Threads;

/// Settles what is pending, and then lets so many workers fire, in one table for many rounds. The gate is called once
/// for each firing of a worker, between its begin and its evaluation.
pub fn run_rounds<R: Threads + Wait + Sync, G: Gate + Sync>(
    rt: &R,
    alloc: Global,
    book: Book,
    rounds: u32,
    workers: u32,
    gate: &G,
) -> Result<Book, Memory>
    requires workers { (1 ≤ workers) × (workers ≤ 16) }
    ensures ran { IfOk result (RanRounds book rounds) }
{
    let mut rooms = no_rooms(alloc, workers)?;
    run_in(rt, alloc, book, rounds, &mut rooms, gate)
}

/// A place for the room of each worker. The rooms are made by the workers, and kept from table to table.
pub(crate) fn no_rooms(alloc: Global, workers: u32) -> Result<Vec<Option<Room>>, Memory>
    ensures many { IfOk result (λ v. length v.items ≡ workers) }
    ensures rooms { (U : Unfolding) → IfOk result (λ v. AreRooms U v.items) }
{
    let mut rooms = Vec::new(alloc);
    for _ in 0..workers {
        rooms.push(None)?;
    }
    Ok(rooms)
}

/// What `run_rounds` does, by as many workers as there are places for rooms.
pub(crate) fn run_in<R: Threads + Wait + Sync, G: Gate + Sync>(
    rt: &R,
    alloc: Global,
    book: Book,
    rounds: u32,
    rooms: &mut [Option<Room>],
    gate: &G,
) -> Result<Book, Memory>
    requires workers { (1 ≤ length rooms.old) × (length rooms.old ≤ 16) }
    requires rooms { AreRooms (unfolding_of book.program) rooms.old }
    ensures ran { IfOk result (RanRounds book rounds) }
{
    let mut book = book;
    book.settle(alloc)?;
    let mut left = rounds;
    while left > 0 {
        let (grown, ran) = some_rounds(rt, alloc, book, left, rooms, gate)?;
        book = grown;
        left -= ran;
    }
    Ok(book)
}

// At least one round and up to so many over a book in which nothing flies, by one table. The answer has how many.
fn some_rounds<R: Threads + Wait + Sync, G: Gate + Sync>(
    rt: &R,
    alloc: Global,
    book: Book,
    most: u32,
    rooms: &mut [Option<Room>],
    gate: &G,
) -> Result<(Book, u32), Memory>
    requires workers { (1 ≤ length rooms.old) × (length rooms.old ≤ 16) }
    requires some { 1 ≤ most }
    requires rests { NoneFlies (core_of book.core) }
    requires rooms { AreRooms (unfolding_of book.program) rooms.old }
    ensures ran { IfOk result (λ r. RanRounds book r.1 r.0) }
    ensures some { IfOk result (λ r. (1 ≤ r.1) × (r.1 ≤ most)) }
    ensures rooms { AreRooms (unfolding_of book.program) rooms.new }
    ensures many { length rooms.new ≡ length rooms.old }
{
    let front = book.log().len();
    let mut book = fire_together(rt, alloc, book, most, rooms, gate)?;
    let ran = complete(alloc, &mut book, front)?;
    Ok((book, ran as u32))
}

// Lets workers fire in a table over a book in which nothing flies. Devices begin firings in turn, each at most so many.
fn fire_together<R: Threads + Wait + Sync, G: Gate + Sync>(
    rt: &R,
    alloc: Global,
    book: Book,
    most: u32,
    rooms: &mut [Option<Room>],
    gate: &G,
) -> Result<Book, Memory>
    requires workers { (1 ≤ length rooms.old) × (length rooms.old ≤ 16) }
    requires some { 1 ≤ most }
    requires rests { NoneFlies (core_of book.core) }
    requires rooms { AreRooms (unfolding_of book.program) rooms.old }
    ensures fired { IfOk result (FiredTogether most book) }
    ensures rooms { AreRooms (unfolding_of book.program) rooms.new }
    ensures many { length rooms.new ≡ length rooms.old }
{
    logs_decide();
    let plan = plan_of(&book, rooms.len(), most);
    let turns = plan.workers as u64 * plan.share;
    let (crew, mut pass) = Crew::open(alloc, book, plan.rounds, turns, gate)?;
    let (busy, _) = rooms.split_at_mut(plan.workers);
    fan(rt, &crew, &mut pass, busy, plan.share);
    let book = crew.close(pass);
    // what its clause says: the book is one
    let _core = book.core();
    Ok(book)
}
