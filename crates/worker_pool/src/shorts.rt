//! What the workers of a table left: flights, and devices that have begun one firing less than others.

ghost use Rattle.std.specs.Prelude.{◌≡◌, ◌≤◌, ◌<◌, length, drop, get_or, IfOk, OnOk, None};
ghost use Rattle.topology.specs.Networks.{IsNetwork, Lives, numbers};
ghost use Rattle.fc_nodes.specs.Program.{unfolding_of};
ghost use Rattle.firing_core.specs.CoreViews.{core_of};
ghost use Rattle.firing_core.specs.Entries.{entry_of, entries_of};
ghost use Rattle.firing_core.specs.Replays.{EntryFits, fault_of, net_fault_of};
ghost use Rattle.firing_core.specs.Books.{AppendsEntry, IsBook};
ghost use Rattle.firing_core.specs.Stretches.{is_begin, begins, NoneFlies};
ghost use Rattle.worker_pool.specs.Pacing.{IsOrdered};
ghost use Rattle.worker_pool.specs.Rounding.{Completes, FiredAlone, FiredIfShort, IsGreatest};

use fc_values::Memory;
use firing_core::{Book, Entry, ReplayFault};
use std::alloc::Global;

// Whether an entry begins a firing of a device.
fn is_begin_of(entry: &Entry, device: u32) -> bool
    ensures { result ≡ is_begin device (entry_of entry.now) }
{
    match entry {
        Entry::Begin(begun) => *begun == device,
        Entry::End(_) | Entry::Idle | Entry::Edit(_) => false,
    }
}

// How many firings of a device some entries begin.
fn count_begins(entries: &[Entry], device: u32) -> usize
    ensures { result ≡ begins device (entries_of entries.now) }
{
    let mut count = 0;
    for entry in entries {
        if is_begin_of(entry, device) {
            count += 1;
        }
    }
    count
}

// How many firings the device at a place of the network has begun since a place of the log.
fn begun_since(book: &Book, front: usize, place: usize) -> usize
    requires front { front ≤ length book.now.log }
    requires place { place < length book.now.core.net.devices }
    ensures { result
        ≡ begins (get_or (numbers book.now.core.net.devices) place 0) (drop front (entries_of book.now.log)) }
{
    count_begins(&book.log()[front..], device_at(book, place))
}

// An entry that has a step.
fn step(alloc: Global, book: &mut Book, entry: Entry) -> Result<(), Memory>
    requires fits { EntryFits (unfolding_of book.old.program) (entry_of entry) }
    requires has { fault_of (core_of book.old.core) (entry_of entry) ≡ None }
    requires no_edit { net_fault_of (core_of book.old.core) (entry_of entry) ≡ None }
    ensures ok { OnOk result (AppendsEntry book.old book.new entry) }
{
    match book.step(alloc, entry) {
        Ok(()) => Ok(()),
        Err(ReplayFault::Memory) => Err(Memory),
        Err(_) => unreachable!(),
    }
}

// Fires one device while nothing flies.
fn fire_alone(alloc: Global, book: &mut Book, device: u32) -> Result<(), Memory>
    requires there { Lives (core_of book.old.core).net device }
    requires rests { NoneFlies (core_of book.old.core) }
    ensures ok { OnOk result (FiredAlone book.old device book.new) }
{
    step(alloc, book, Entry::Begin(device))?;
    step(alloc, book, Entry::End(device))
}

/// The number of the device at a place of a book's network.
pub(crate) fn device_at(book: &Book, place: usize) -> u32
    requires { place < length book.now.core.net.devices }
    ensures { result ≡ get_or (numbers book.now.core.net.devices) place 0 }
{
    book.core().net().devices()[place].id
}

/// How many devices a book's network has.
pub(crate) fn device_count(book: &Book) -> usize
    ensures count { result ≡ length book.now.core.net.devices }
    ensures network { IsNetwork book.now.core.net }
    ensures book { IsBook book.now }
{
    book.core().net().devices().len()
}

// Fires each device that has begun fewer than so many firings since a place of the log, where none has begun more.
fn fire_short(alloc: Global, book: &mut Book, front: usize, rounds: usize) -> Result<(), Memory>
    requires front { front ≤ length book.old.log }
    requires rests { NoneFlies (core_of book.old.core) }
    requires ordered { IsOrdered (numbers book.old.core.net.devices) (drop front (entries_of book.old.log)) }
    requires greatest { IsGreatest (core_of book.old.core).net (drop front (entries_of book.old.log)) rounds }
    ensures ok { OnOk result (Completes front rounds book.old book.new) }
{
    let count = device_count(book);
    for place in 0..count {
        fire_if_short(alloc, book, front, rounds, place)?;
    }
    Ok(())
}

// The same for the device at a place of the network.
fn fire_if_short(
    alloc: Global,
    book: &mut Book,
    front: usize,
    rounds: usize,
    place: usize,
) -> Result<(), Memory>
    requires front { front ≤ length book.old.log }
    requires place { place < length book.old.core.net.devices }
    requires rests { NoneFlies (core_of book.old.core) }
    ensures ok { OnOk result (FiredIfShort front rounds place book.old book.new) }
{
    if begun_since(book, front, place) >= rounds {
        return Ok(());
    }
    let device = device_at(book, place);
    fire_alone(alloc, book, device)
}

// How many firings the smallest device has begun since a place of the log, which is the greatest number of all; at
// least one.
fn greatest_since(book: &Book, front: usize) -> usize
    requires front { front ≤ length book.now.log }
    requires ordered { IsOrdered (numbers book.now.core.net.devices) (drop front (entries_of book.now.log)) }
    ensures { IsGreatest (core_of book.now.core).net (drop front (entries_of book.now.log)) result }
{
    // what its clause says: the network has a device, and numbers rise
    let _count = device_count(book);
    begun_since(book, front, 0).max(1)
}

/// Ends the flights that are left, and fires each device that has begun fewer firings than others since a place of the
/// log. The answer is how many each has begun then, at least one.
pub(crate) fn complete(alloc: Global, book: &mut Book, front: usize) -> Result<usize, Memory>
    requires front { front ≤ length book.old.log }
    requires ordered { IsOrdered (numbers book.old.core.net.devices) (drop front (entries_of book.old.log)) }
    ensures ok { IfOk result (λ r. Completes front r book.old book.new) }
    ensures greatest { IfOk result (IsGreatest (core_of book.old.core).net (drop front (entries_of book.old.log))) }
{
    book.settle(alloc)?;
    let rounds = greatest_since(book, front);
    let last = device_count(book) - 1;
    // devices begin in rising order
    if begun_since(book, front, last) < rounds {
        fire_short(alloc, book, front, rounds)?;
    }
    Ok(rounds)
}
