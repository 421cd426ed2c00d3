//! What lines of changes say, and why one is refused.

use fc_values::Memory;
use topology::NetFault;

/// How many pairs a device is in at most: those that the scene links and those of lines.
pub const MOST_PAIRS: usize = 128;

/// The whole numbers from a least to a greatest one.
#[derive(Clone, Copy, Debug, PartialEq, Eq)]
pub struct Range {
    pub least: u32,
    pub greatest: u32,
}

/// The values that an input may have: those of a range, one truth value, or all that are declared. A pair is the value
/// of no input.
#[derive(Clone, Copy, Debug, PartialEq, Eq)]
pub enum Possible {
    Numbers(Range),
    Truth(bool),
    Pair,
    Any,
}

/// The weights that a link may have: those of a range, or all of the metric.
#[derive(Clone, Copy, Debug, PartialEq, Eq)]
pub enum Weights {
    Range(Range),
    Any,
}

/// What may happen: an input, named by its number, is set; two devices are linked, or their link goes; a device leaves
/// and comes back; a device that isn't in the scene comes, with such inputs in declared order.
#[derive(Drop)]
pub enum Change {
    Set(u32, u32, Possible),
    Link(u32, u32, Weights),
    Unlink(u32, u32),
    Leave(u32),
    Join(u32, Vec<Possible>),
}

/// A line with its number from 1, and what it says; nothing where it has no form of a line.
#[derive(Drop)]
pub struct ChangeLine {
    pub number: u32,
    pub change: Option<Change>,
}

/// Why a line is refused: it has no form of a line, or as a network refuses.
#[derive(Clone, Copy, Debug, PartialEq, Eq)]
pub enum ChangeFault {
    Form,
    Net(NetFault),
}

/// The number of the first line that is refused, and why; or want of memory.
#[derive(Clone, Copy, Debug, PartialEq, Eq)]
pub enum RefusedChange {
    Line(u32, ChangeFault),
    Memory,
}

impl From<Memory> for RefusedChange {
    ghost use Rattle.std.specs.Prelude.{◌≡◌};
    ghost use Rattle.changes.specs.declared.types.RefusedChange.TheVariants as refused;

    ghost from_gives = { λ _ e. e ≡ refused.Memory };

    fn from(_: Memory) -> Self {
        RefusedChange::Memory
    }
}
