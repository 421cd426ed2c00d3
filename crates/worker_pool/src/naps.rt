//! Workers in reserve: a worker that sleeps between its firings.

use crate::bell::Bell;
use std::sync::Wait;
use std::time::Duration;

// The first sleep, in nanoseconds. Each is twice as long as the one before, up to eight milliseconds.
const FIRST_SLEEP: u64 = 1_000_000;

const DOUBLINGS: u32 = 3;

/// The sleeps of a worker between its firings: none, or ever longer ones if it is in reserve.
#[derive(Drop)]
pub(crate) struct Naps {
    is_reserve: bool,
    taken: u32,
}

impl Naps {
    /// The sleeps of a worker in reserve, or of one that isn't.
    pub(crate) fn new(is_reserve: bool) -> Naps {
        Naps {
            is_reserve,
            taken: 0,
        }
    }

    /// Sleeps after a firing, if the worker is in reserve and no other one waits for the bell.
    pub(crate) fn take<W: Wait>(&mut self, rt: &W, bell: &Bell) {
        if self.is_reserve {
            let doublings = self.taken.min(DOUBLINGS);
            bell.nap(rt, Duration::from_nanos(FIRST_SLEEP << doublings));
            self.taken = self.taken.saturating_add(1);
        }
    }
}
