//! The entries of a log, and why an entry has no step.

use fc_values::{Export, Local};
use topology::{Device, NetFault};

/// An edit of a core: `Link(a, b, weight)`, `Unlink(a, b)`, `Set(device, input, value)`, an export that is put in the
/// place of a device's own, a device that joins, or one that leaves.
#[derive(Drop)]
pub enum Edit {
    Link(u32, u32, u32),
    Unlink(u32, u32),
    Set(u32, u32, Local),
    Poke(u32, Export),
    Join(Device),
    Leave(u32),
}

/// An entry of a log: the begin or the end of a device's firing, nothing, or an edit.
#[derive(Drop)]
pub enum Entry {
    Begin(u32),
    End(u32),
    Idle,
    Edit(Edit),
}

/// Why a begin or an end has no step, or want of memory.
#[derive(Clone, Copy, Debug, PartialEq, Eq)]
pub enum StepFault {
    NoDevice,
    Flying,
    NotFlying,
    Memory,
}

/// Why an edit has no step, or want of memory.
#[derive(Clone, Copy, Debug, PartialEq, Eq)]
pub enum EditFault {
    Net(NetFault),
    Memory,
}

/// The first entry of a log that has no step, by its index from 0, and why; or want of memory.
#[derive(Clone, Copy, Debug, PartialEq, Eq)]
pub enum ReplayFault {
    At { index: usize, fault: StepFault },
    EditAt { index: usize, fault: NetFault },
    Memory,
}

/// The stretch of a log that a line of a script made: the number of the line, its rounds, the first position, and the
/// position after the last.
#[derive(Clone, Copy, Debug, PartialEq, Eq)]
pub struct Part {
    pub line: u32,
    pub rounds: u32,
    pub from: usize,
    pub to: usize,
}
