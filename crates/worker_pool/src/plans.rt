//! How many workers fire in a table, for how many rounds, and how many turns each of them gets.

ghost use Rattle.std.specs.Prelude.{◌≡◌, ◌≤◌, ◌<◌, ◌*◌, ◌^◌};
ghost use Rattle.topology.specs.Networks.{IsNetwork};
ghost use Rattle.firing_core.specs.Books.{IsBook};

use crate::shorts::device_count;
use firing_core::Book;

// For how many firings a table is opened, if one round has no more.
const FIRINGS_AT_ONCE: usize = 32_768;

/// The number of workers, at most one a device; the rounds of one table; and for each worker turns for all firings of
/// these rounds, with one a round and two more for turns that begin nothing.
#[derive(Drop)]
pub(crate) struct Plan {
    pub(crate) workers: usize,
    pub(crate) rounds: u32,
    pub(crate) share: u64,
}

/// The plan for up to so many rounds of a book.
pub(crate) fn plan_of(book: &Book, workers: usize, rounds: u32) -> Plan
    requires workers { (1 ≤ workers) × (workers ≤ 16) }
    requires rounds { 1 ≤ rounds }
    ensures some { 0 < result.workers }
    ensures most { result.workers ≤ workers }
    ensures rounds { (1 ≤ result.rounds) × (result.rounds ≤ rounds) }
    ensures few { result.workers * result.share < 2 ^ 31 }
    ensures network { IsNetwork book.now.core.net }
    ensures book { IsBook book.now }
{
    let devices = device_count(book);
    let at_once = (FIRINGS_AT_ONCE / devices).max(1);
    let rounds = at_once.min(rounds as usize);
    Plan {
        workers: workers.min(devices),
        rounds: rounds as u32,
        share: (2 * devices * rounds + rounds + 2) as u64,
    }
}
