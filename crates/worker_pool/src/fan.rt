//! Workers as threads: each has a pass of its own, which is split off and joined back, and a place for its room.

ghost use Rattle.std.specs.Thread.{IsSync};
ghost use Rattle.worker_pool.specs.Working.{Staffed, StaffWorked};

use crate::crews::Crew;
use crate::workers::work;
use export_table::{Gate, Held};
use firing_core::Room;
use std::sync::Wait;
use std::thread::{Threads, join_mut};
use turn_lock::Pass;

/// Workers fire at the same time, one for each place for a room, each with a share of the turns of the pass. Where no
/// thread can be started this one works in its place.
#[cycle(fan)]
pub(crate) fn fan<R: Threads + Wait + Sync, G: Gate + Sync>(
    rt: &R,
    crew: &Crew<'_, G>,
    pass: &mut Pass<Held>,
    rooms: &mut [Option<Room>],
    share: u64,
)
    requires sync { IsSync R.row × IsSync G.row }
    requires staffed { Staffed crew.now.shared pass.old rooms.old share }
    ensures worked { StaffWorked crew.now.shared pass.old pass.new rooms.old rooms.new }
{
    if rooms.len() == 1 {
        let kept = rooms[0].take();
        rooms[0] = work(rt, crew, pass, kept);
        // nobody waits for this worker any more
        crew.bell.stop();
        return;
    }
    let half = rooms.len() / 2;
    let (others, first) = rooms.split_at_mut(half);
    let mut other = crew.shared.split(pass, half as u64 * share);
    both(rt, crew, pass, first, &mut other, others, share);
    crew.shared.join(pass, other);
}

// The same with two passes, one of them in a thread of its own.
#[cycle(fan)]
fn both<R: Threads + Wait + Sync, G: Gate + Sync>(
    rt: &R,
    crew: &Crew<'_, G>,
    pass: &mut Pass<Held>,
    first: &mut [Option<Room>],
    other: &mut Pass<Held>,
    second: &mut [Option<Room>],
    share: u64,
)
    requires sync { IsSync R.row × IsSync G.row }
    requires first { Staffed crew.now.shared pass.old first.old share }
    requires second { Staffed crew.now.shared other.old second.old share }
    ensures first { StaffWorked crew.now.shared pass.old pass.new first.old first.new }
    ensures second { StaffWorked crew.now.shared other.old other.new second.old second.new }
{
    join_mut(
        rt,
        &mut ||
            requires sync { IsSync R.row × IsSync G.row }
            requires staffed { Staffed crew.now.shared pass.now first.now share }
            ensures worked { StaffWorked crew.entry.now.shared pass.entry.now pass.exit.now
                first.entry.now first.exit.now }
        { fan(rt, crew, pass, first, share) },
        &mut ||
            requires sync { IsSync R.row × IsSync G.row }
            requires staffed { Staffed crew.now.shared other.now second.now share }
            ensures worked { StaffWorked crew.entry.now.shared other.entry.now other.exit.now
                second.entry.now second.exit.now }
        { fan(rt, crew, other, second, share) },
    );
}
