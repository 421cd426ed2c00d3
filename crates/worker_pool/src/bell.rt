//! The bell of a table: a worker for which nothing may begin yet waits until it rings, and one in reserve naps until it
//! stops.

use std::hint::spin_loop;
use std::sync::atomic::{AtomicBool, AtomicU64, Ordering};
use std::sync::{Condvar, Wait};
use std::time::Duration;

// How often a worker looks before it sleeps: a few microseconds in all.
const LOOKS: u32 = 200;
// How long a worker sleeps at most before it looks again, in milliseconds. A ring wakes it earlier.
const SLEEP: u64 = 20;

/// Counts its rings, and wakes whoever waits for one. Once it is stopped nobody waits or naps any more.
#[derive(Drop)]
pub(crate) struct Bell {
    rings: Condvar,
    stops: Condvar,
    waiting: AtomicU64,
    stopped: AtomicBool,
}

impl Bell {
    /// A bell that never rang.
    pub(crate) fn new() -> Bell {
        Bell {
            rings: Condvar::new(),
            stops: Condvar::new(),
            waiting: AtomicU64::new(0),
            stopped: AtomicBool::new(false),
        }
    }

    /// How often it has rung, modulo 2^64.
    pub(crate) fn rings(&self) -> u64 {
        self.rings.notifications()
    }

    /// Rings.
    pub(crate) fn ring(&self) {
        self.rings.notify_all();
    }

    /// Stops it, so that nobody waits or naps any more.
    pub(crate) fn stop(&self) {
        self.stopped.store(true, Ordering::SeqCst);
        self.rings.notify_all();
        self.stops.notify_all();
    }

    // Whether the wait is over: it has rung since its count was `seen`, or was stopped.
    fn is_heard(&self, seen: u64) -> bool {
        self.rings() != seen || self.is_stopped()
    }

    fn is_stopped(&self) -> bool {
        self.stopped.load(Ordering::SeqCst)
    }

    // Looks a few times. The answer is whether the wait is over.
    fn look(&self, seen: u64) -> bool {
        for _ in 0..LOOKS {
            if self.is_heard(seen) {
                return true;
            }
            spin_loop();
        }
        false
    }

    // Sleeps until the wait is over.
    fn sleep<W: Wait>(&self, rt: &W, seen: u64) {
        for _ in rt.forever() {
            if self.is_heard(seen) {
                return;
            }
            self.rings.sleep(rt, seen, Duration::from_millis(SLEEP));
        }
    }

    /// Waits until it rings, unless it has rung since its count was `seen`. The answer is whether it rang; otherwise it
    /// was stopped.
    pub(crate) fn wait<W: Wait>(&self, rt: &W, seen: u64) -> bool {
        self.waiting.fetch_add(1, Ordering::SeqCst);
        if !self.look(seen) {
            self.sleep(rt, seen);
        }
        self.waiting.fetch_sub(1, Ordering::SeqCst);
        !self.is_stopped()
    }

    /// Sleeps for so long or until it is stopped; not at all while a worker waits for it to ring.
    pub(crate) fn nap<W: Wait>(&self, rt: &W, time: Duration) {
        let stops = self.stops.notifications();
        if !self.is_stopped() && self.waiting.load(Ordering::SeqCst) == 0 {
            self.stops.sleep(rt, stops, time);
        }
    }
}
