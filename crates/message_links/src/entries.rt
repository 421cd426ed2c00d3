//! The entries of a mail log, and why an entry has no step.

use firing_core::StepFault;

/// The most messages that are in transit on an ordered pair.
pub const MOST_IN_TRANSIT: usize = 4;

/// An entry of a mail log: the begin or the end of a device's firing, nothing, or what happens to a message from one
/// device to another. The oldest is delivered, or delivered and kept; or one is lost, by its place from the oldest.
#[derive(Clone, Copy, Debug, PartialEq, Eq)]
pub enum MailEntry {
    Begin(u32),
    End(u32),
    Idle,
    Deliver(u32, u32),
    Again(u32, u32),
    Lose(u32, u32, u32),
}

/// Why an entry has no step. The reason of a begin or an end is never want of memory.
#[derive(Clone, Copy, Debug, PartialEq, Eq)]
pub enum MailFault {
    Step(StepFault),
    NoLink,
    Empty,
}

/// The first entry of a mail log that has no step, by its index from 0, and why; or want of memory.
#[derive(Clone, Copy, Debug, PartialEq, Eq)]
pub enum MailReplay {
    At { index: usize, fault: MailFault },
    Memory,
}
