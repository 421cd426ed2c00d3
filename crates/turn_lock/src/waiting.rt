//! How a thread waits: it looks a few times, and then sleeps between looks.

use std::time::Duration;

// So many looks, a microsecond or two in all, see most turns end. More would keep processors from others.
const LOOKS: u32 = 100;
// The first sleep, in nanoseconds. Where nobody waits for the thread, each is twice as long as the one before, up to a
// millisecond.
const FIRST_SLEEP: u64 = 16_000;

const DOUBLINGS: u32 = 6;

/// Whether others wait for the outcome of a turn. It only sets how long the thread that takes the turn sleeps.
#[derive(Clone, Copy)]
pub enum Urgency {
    /// Nobody does: its sleeps grow.
    Low,
    /// Others do: each sleep is as short as the first.
    High,
}

/// The looks of one wait.
#[derive(Drop)]
pub(crate) struct Looks {
    urgency: Urgency,
    made: u32,
}

impl Looks {
    /// No looks yet.
    pub(crate) fn none(urgency: Urgency) -> Looks {
        Looks { urgency, made: 0 }
    }

    /// How long to sleep before the next look, if at all.
    pub(crate) fn sleep(&mut self) -> Option<Duration> {
        let sleeps = self.made.checked_sub(LOOKS);
        self.made = self.made.saturating_add(1);
        let doublings = match self.urgency {
            Urgency::Low => sleeps?.min(DOUBLINGS),
            Urgency::High => sleeps?.min(0),
        };
        Some(Duration::from_nanos(FIRST_SLEEP << doublings))
    }
}
